//! `DeskRefused` and `CloseRefused`: the errors of a desk that give back what a call was given.

ghost use Rattle.std.specs.Prelude.{◌≡◌};

use crate::crew::{Admits, Crew};
use crate::desk::Desk;
use crate::desk::blank::Blank;
use crate::desk::share::Share;
use crate::fault::DeskFault;
use gopher_catalogue::Catalogue;
use std::fmt;
use std::marker::Brand;
use std::sync::Wait;
use thiserror::Error;

/// The error of `Desk::open`, with the arguments that it was given.
#[derive(Drop, Error)]
#[error("{fault}")]
pub struct DeskRefused {
    /// Why the desk wasn't opened.
    pub fault: DeskFault,
    /// The catalogue.
    pub catalogue: Catalogue,
    /// The blank. Part of the catalogue's record may have been entered into its history.
    pub blank: Blank,
}

impl fmt::Debug for DeskRefused {
    fn fmt<W: fmt::Write>(&self, f: &mut fmt::Formatter<W>) -> fmt::Result {
        f.debug_struct("DeskRefused")
            .field("fault", &self.fault)
            .finish_non_exhaustive()
    }
}

/// The error of `Desk::close` (62): the shares don't count all events of the record after the
/// first.
#[derive(Drop, Error)]
#[error("the shares don't count all events of the record")]
pub struct CloseRefused<C: Crew, R: Wait + Drop, A: Admits = Brand> {
    /// The desk, still open.
    pub desk: Desk<C, R, A>,
    /// The shares, merged into one.
    pub shares: Vec<Share<C>>,
    /// The number of events in the record after the first.
    pub events: u64,
}

impl<C: Crew, R: Wait + Drop, A: Admits> CloseRefused<C, R, A> {
    /// Returns the number of this fault, 62.
    pub fn code(&self) -> u8
        ensures { result ≡ 62 }
    {
        62
    }
}

impl<C: Crew, R: Wait + Drop, A: Admits> fmt::Debug for CloseRefused<C, R, A> {
    fn fmt<W: fmt::Write>(&self, f: &mut fmt::Formatter<W>) -> fmt::Result {
        f.debug_struct("CloseRefused")
            .field("events", &self.events)
            .finish_non_exhaustive()
    }
}
