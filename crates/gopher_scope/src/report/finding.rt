//! `Finding`: a fault, and what it names: a line, a key, a seed or a number.

ghost use Rattle.std.specs.Prelude.{◌≡◌};
ghost use Rattle.gopher_scope.specs.Finding.{detail_of};

use super::obstacle::Obstacle;
use crate::fault::{SettingsFault, SiteFault};
use crate::settings::{Key, Spot};
use std::marker::Model;

/// What a finding names beside a path and a line.
#[derive(Clone, Copy, Debug)]
pub(crate) enum Detail {
    /// Nothing.
    Nothing,
    /// A key of the settings with a fault in its value, and where in its array the fault is.
    Value(Key, Option<Spot>),
    /// The name of a key in the text; with the key of the array that has it.
    Name(Option<Key>),
    /// The index of a seed.
    Seed(usize),
    /// The number that is over a limit.
    Size(usize),
}

/// A fault, and what it names.
#[derive(Debug, Drop)]
pub(crate) struct Finding {
    /// The fault.
    pub(crate) fault: SiteFault,
    /// The number of the line with the fault, from 1.
    pub(crate) line: Option<usize>,
    /// The key, the seed or the number that the fault names.
    pub(crate) detail: Detail,
    /// The name of a key that isn't known, or is given twice; otherwise empty.
    pub(crate) name: Vec<u8>,
}

impl Model for Finding {
    ghost use Rattle.gopher_scope.specs.Finding.{FindingData};

    ghost Value = { FindingData };

    ghost view = { λ f. record {
      fault = f.fault;
      line = f.line;
      detail = f.detail;
      name = f.name.items;
    } };
}

/// Returns the key, the seed or the number that a fault names. `spot` is where in the array of the
/// fault's key the fault is, `array` the key of the array that has an unknown key.
pub(crate) fn detail_of(fault: SiteFault, spot: Option<Spot>, array: Option<Key>) -> Detail
    ensures { result ≡ detail_of fault spot array }
{
    match fault {
        SiteFault::Settings(
            SettingsFault::Missing(key)
            | SettingsFault::WrongKind(key)
            | SettingsFault::OutOfRange(key),
        ) => Detail::Value(key, spot),
        SiteFault::Settings(SettingsFault::UnknownKey) | SiteFault::KeyTwice => Detail::Name(array),
        SiteFault::SeedOutOfScope(seed) => Detail::Seed(seed),
        SiteFault::Tree(
            _,
            Obstacle::LargeFile(size) | Obstacle::LargeSite(size) | Obstacle::ManyNodes(size),
        ) => Detail::Size(size),
        _ => Detail::Nothing,
    }
}
