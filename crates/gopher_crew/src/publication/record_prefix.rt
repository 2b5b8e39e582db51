//! `RecordPrefix`: the token of a prefix of the crew's record.

ghost use Rattle.std.specs.Prelude.{◌≡◌, ◌+◌, ◌<◌, ◌^◌, ◌⊎◌, false, [], length, IsTrue};
ghost use mathlib.Core.List.{IsPrefix};
ghost use Rattle.gopher_catalogue.specs.EventOf.{event_data};
ghost use Rattle.gopher_crew.specs.History.{AddsEventTo, GoesOn};

use crate::publication::history::{Head, Law, exchange};
use gopher_catalogue::{Event, EventData};
use logbook::Seen;
use std::fmt;
use std::marker::Model;
use std::sync::Wait;

/// A token that the crew's record begins with certain events. The program keeps only their number.
/// Contracts see the events, the number of the share that made each, and which history has them.
#[derive(Drop)]
pub struct RecordPrefix {
    len: u32,
    seen: Seen<(EventData, u32), u64, Law>,
}

impl Model for RecordPrefix {
    ghost use Rattle.std.specs.Prelude.{◌≡◌, length};
    ghost use Rattle.gopher_crew.specs.History.{RecordPrefixData, events_in, makers_in};

    ghost Value = { RecordPrefixData };

    ghost view = { λ p. record {
      history = p.seen.book;
      events = events_in p.seen.log;
      makers = makers_in p.seen.log;
    } };

    ghost invariant = { λ p. p.len ≡ length p.seen.log };
}

impl fmt::Debug for RecordPrefix {
    fn fmt<W: fmt::Write>(&self, f: &mut fmt::Formatter<W>) -> fmt::Result {
        f.debug_struct("RecordPrefix")
            .field("len", &self.len)
            .finish_non_exhaustive()
    }
}

impl RecordPrefix {
    /// The prefix without events of a new history.
    pub(crate) fn empty(seen: Seen<(EventData, u32), u64, Law>) -> RecordPrefix
        requires { seen.log ≡ [] }
        ensures history { result.history ≡ seen.book }
        ensures events { result.events ≡ [] }
        ensures makers { result.makers ≡ [] }
    {
        RecordPrefix { len: 0, seen }
    }

    /// Returns the number of its events.
    pub fn len(&self) -> u32
        ensures { result ≡ length self.now.events }
    {
        self.len
    }

    /// Returns a copy.
    pub fn copy(&self) -> RecordPrefix
        ensures { result ≡ self.now }
    {
        RecordPrefix {
            len: self.len,
            seen: self.seen.again(),
        }
    }

    /// Returns whether another prefix of the same history begins with this one. If not, this one
    /// begins with the other.
    pub fn begins(&self, other: &RecordPrefix) -> bool
        requires { other.now.history ≡ self.now.history }
        ensures begins { IsTrue result → GoesOn self.now other.now }
        ensures or_else { (result ≡ false) → GoesOn other.now self.now }
    {
        // For the prover: of two prefixes of one history, one begins with the other.
        let mut both = self.seen.again();
        both.learn(&other.seen);
        if self.len > other.len {
            return false;
        }
        true
    }

    /// Returns if another prefix of the same history begins with this one, and otherwise never.
    pub fn until_begins<R: Wait>(&self, rt: &R, other: &RecordPrefix)
        requires { other.now.history ≡ self.now.history }
        ensures { GoesOn self.now other.now }
    {
        // For the prover: the first round returns, which no clause says.
        for _round in rt.forever() {
            if self.begins(other) {
                return;
            }
        }
        unreachable!()
    }

    /// Returns whether another prefix of the same history has the same events. It compares their
    /// numbers.
    #[tactic(auto, using(crate::proofs::Prefixes::prefix_whole))]
    pub fn is_same(&self, other: &RecordPrefix) -> bool
        requires { other.now.history ≡ self.now.history }
        ensures { IsTrue result → self.now.events ≡ other.now.events }
    {
        if self.len != other.len {
            return false;
        }
        self.begins(other)
    }

    /// Returns the longer of two prefixes of the same history. It begins with the other one.
    pub fn longer(&self, other: &RecordPrefix) -> RecordPrefix
        requires { other.now.history ≡ self.now.history }
        ensures one { (result ≡ self.now) ⊎ (result ≡ other.now) }
        ensures this { GoesOn self.now result }
        ensures that { GoesOn other.now result }
    {
        if self.begins(other) {
            other.copy()
        } else {
            self.copy()
        }
    }

    /// Adds an event to the history, with the number of the share that made it, unless the history
    /// is longer than this prefix. Returns whether it did.
    pub fn add(&mut self, head: &Head, event: &Event, maker: u32) -> bool
        requires history { head.now ≡ self.old.history }
        requires room { length self.old.events + 1 < 2 ^ 32 }
        ensures history { self.new.history ≡ self.old.history }
        ensures events { AddsEventTo result (event_data event.now, maker) self.old self.new }
    {
        let mut seen = self.seen.again();
        if !exchange(&head.word, self.len, &mut seen, event, maker) {
            return false;
        }
        self.len += 1;
        self.seen = seen;
        true
    }
}
