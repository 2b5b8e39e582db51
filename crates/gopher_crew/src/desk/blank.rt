//! `Blank`: what a desk is opened with.

ghost use Rattle.std.specs.Prelude.{◌≡◌, [], IsTrue};
ghost use mathlib.Core.List.{IsPrefix};
ghost use Rattle.gopher_crew.specs.Desk.{ComesBack};

use crate::publication::entering::enter_rest;
use crate::publication::history::{Head, new_history};
use crate::publication::record_prefix::RecordPrefix;
use gopher_catalogue::Catalogue;
use std::fmt;
use std::marker::Model;
use std::sync::ledger;

/// What a desk is opened with: a ledger that counts nothing yet, and a history. The crate
/// `example_crawl` shows how a caller makes one and opens a desk.
///
/// The history of a new blank is empty. A blank that `DeskRefused` returned has a prefix of the
/// catalogue's record in its history.
#[derive(Drop)]
pub struct Blank {
    pub(crate) count: ledger::Blank,
    pub(crate) head: Head,
    pub(crate) prefix: RecordPrefix,
}

impl Model for Blank {
    ghost use Rattle.std.specs.Prelude.{◌≡◌, length, replicate};
    ghost use Rattle.gopher_crew.specs.Desk.{BlankData, blank_data};

    ghost Value = { BlankData };

    ghost view = { λ b. blank_data b.count.name b.count.parts b.prefix };

    ghost invariant = { λ b. (b.count.parts ≡ 16) × (b.head ≡ b.prefix.history)
        × (b.prefix.makers ≡ replicate (length b.prefix.events) 0) };
}

impl fmt::Debug for Blank {
    fn fmt<W: fmt::Write>(&self, f: &mut fmt::Formatter<W>) -> fmt::Result {
        f.debug_struct("Blank")
            .field("begun", &self.prefix.len())
            .finish_non_exhaustive()
    }
}

impl Blank {
    /// A blank with a ledger of 16 parts and a new history.
    pub fn new() -> Blank
        ensures parts { result.parts ≡ 16 }
        ensures begun { result.begun ≡ [] }
    {
        let (head, prefix) = new_history();
        Blank {
            count: ledger::Blank::new(16),
            head,
            prefix,
        }
    }

    /// Enters the rest of a catalogue's record into the history, as made by the share 0. Returns
    /// whether all of it is entered then.
    pub(crate) fn enter(&mut self, catalogue: &Catalogue) -> bool
        requires { IsPrefix self.old.begun catalogue.now }
        ensures back { ComesBack catalogue.now self.old self.new }
        ensures all { IsTrue result → self.new.begun ≡ catalogue.now }
    {
        enter_rest(&mut self.prefix, &self.head, catalogue, 0)
    }

    /// Returns the token of the events that were entered.
    pub(crate) fn prefix(&self) -> &RecordPrefix
        ensures history { result.now.history ≡ self.now.history }
        ensures events { result.now.events ≡ self.now.begun }
    {
        &self.prefix
    }
}
