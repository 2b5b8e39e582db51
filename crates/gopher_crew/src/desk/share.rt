//! `Share`: which and how many of a desk's events a worker made, which record its last reply was
//! on, and how many replies had no note.

ghost use Rattle.std.specs.Prelude.{◌≡◌, ◌+◌, ◌<◌, ◌≤◌, ◌^◌, false, IsTrue};
ghost use mathlib.Core.List.{IsPrefix};
ghost use Rattle.gopher_crew.specs.Share.{CountsNote, HasSeen, Rises};

use crate::crew::Crew;
use crate::publication::note::Note;
use crate::publication::record_prefix::RecordPrefix;
use std::fmt;
use std::marker::Model;
use std::sync::Wait;
use std::sync::ledger::{Book, Share as Part};

/// A share of a desk's ledger, with a number among the shares of its desk. It counts the events
/// that its holder made at the desk, and the replies that had no note. It has the token of what it
/// saw: the record that the last reply to its holder was on, or a longer one that a pass told it
/// of, with the number of the share that made each event.
#[derive(Drop)]
pub struct Share<C: Crew> {
    number: u32,
    count: u64,
    part: Part<C>,
    seen: RecordPrefix,
    missed: u64,
}

impl<C: Crew> Model for Share<C> {
    ghost use Rattle.std.specs.Prelude.{◌≡◌, ◌<◌};
    ghost use Rattle.gopher_crew.specs.Share.{ShareData};

    ghost Value = { ShareData };

    ghost view = { λ s. record {
      number = s.number;
      events = s.part.amount;
      parts = s.part.parts;
      seen = s.seen.events;
      makers = s.seen.makers;
      missed = s.missed;
    } };

    ghost invariant = { λ s. ((s.count ≡ s.part.amount) × (0 < s.part.parts))
        × (s.seen.history ≡ C.history) };
}

impl<C: Crew> fmt::Debug for Share<C> {
    fn fmt<W: fmt::Write>(&self, f: &mut fmt::Formatter<W>) -> fmt::Result {
        f.debug_struct("Share")
            .field("number", &self.number)
            .field("count", &self.count)
            .finish_non_exhaustive()
    }
}

impl<C: Crew> Share<C> {
    /// The share of a number with these parts, which counts their events and has seen this record.
    pub(crate) fn of(number: u32, count: u64, part: Part<C>, seen: RecordPrefix) -> Share<C>
        requires count { count ≡ part.amount }
        requires some { 0 < part.parts }
        requires history { seen.history ≡ C.history }
        ensures number { result.number ≡ number }
        ensures events { result.events ≡ part.amount }
        ensures parts { result.parts ≡ part.parts }
        ensures seen { result.seen ≡ seen.events }
        ensures makers { result.makers ≡ seen.makers }
        ensures missed { result.missed ≡ 0 }
    {
        Share {
            number,
            count,
            part,
            seen,
            missed: 0,
        }
    }

    /// Returns its number. Shares of one desk have different numbers.
    pub fn number(&self) -> u32
        ensures { result ≡ self.now.number }
    {
        self.number
    }

    /// Returns the number of events that it counts.
    pub fn events(&self) -> u64
        ensures { result ≡ self.now.events }
    {
        self.count
    }

    /// Returns how many replies to its holder had no note, counted up to 2^64 - 1: their records
    /// weren't published when the calls ended.
    pub fn missed(&self) -> u64
        ensures { result ≡ self.now.missed }
    {
        self.missed
    }

    /// Returns whether what another share of the same desk saw begins with what this share saw. If
    /// not, it is the other way round, because all replies of a desk are on one record.
    pub fn begins(&self, other: &Share<C>) -> bool
        ensures begins { IsTrue result → IsPrefix self.now.seen other.now.seen }
        ensures or_else { (result ≡ false) → IsPrefix other.now.seen self.now.seen }
    {
        self.seen.begins(&other.seen)
    }

    /// Returns the token of the record that it saw.
    pub(crate) fn seen(&self) -> &RecordPrefix
        ensures history { result.now.history ≡ C.history }
        ensures events { result.now.events ≡ self.now.seen }
    {
        &self.seen
    }

    /// Counts one more event, here and in the book.
    pub(crate) fn add(&mut self, book: &mut Book<C>)
        requires { book.old.total < 2 ^ 63 }
        ensures number { self.new.number ≡ self.old.number }
        ensures events { self.new.events ≡ self.old.events + 1 }
        ensures parts { self.new.parts ≡ self.old.parts }
        ensures seen { self.new.seen ≡ self.old.seen }
        ensures makers { self.new.makers ≡ self.old.makers }
        ensures missed { self.new.missed ≡ self.old.missed }
        ensures total { book.new.total ≡ book.old.total + 1 }
    {
        // For the prover: the share counts at most the book's total.
        book.audit(&mut self.part);
        book.add(&mut self.part, 1);
        self.count += 1;
    }

    /// Counts a reply if it has no note.
    pub(crate) fn count_note(&mut self, note: &Option<Note<C>>)
        ensures missed { CountsNote note.now self.old.missed self.new.missed }
        ensures number { self.new.number ≡ self.old.number }
        ensures events { self.new.events ≡ self.old.events }
        ensures parts { self.new.parts ≡ self.old.parts }
        ensures seen { self.new.seen ≡ self.old.seen }
        ensures makers { self.new.makers ≡ self.old.makers }
    {
        match note {
            Some(_) => {}
            None => self.missed = self.missed.saturating_add(1),
        }
    }

    /// Adds the events, the parts and the replies without a note of another share of the book, and
    /// takes the longer record of what they saw.
    pub(crate) fn merge(&mut self, book: &mut Book<C>, other: Share<C>)
        requires { book.old.total < 2 ^ 63 }
        ensures total { book.new.total ≡ book.old.total }
        ensures events { self.new.events ≡ self.old.events + other.events }
        ensures parts { self.new.parts ≡ self.old.parts + other.parts }
        ensures seen { HasSeen self.new.seen self.new.makers self.old }
        ensures other { HasSeen self.new.seen self.new.makers other }
        ensures whole { self.new.parts ≡ C.parts → self.new.events ≡ book.old.total }
    {
        let mut other = other;
        // For the prover: each share counts at most the book's total, also after the merge.
        other.audit(book);
        self.audit(book);
        let Share {
            number: _number,
            count,
            part,
            seen,
            missed,
        } = other;
        self.part.merge(part);
        self.count += count;
        self.missed = self.missed.saturating_add(missed);
        self.hear(&seen);
        self.audit(book);
    }

    /// Takes a record of the same history, unless it saw more.
    pub(crate) fn hear(&mut self, prefix: &RecordPrefix)
        requires { prefix.now.history ≡ C.history }
        ensures heard { IsPrefix prefix.now.events self.new.seen }
        ensures makers { IsPrefix prefix.now.makers self.new.makers }
        ensures share { Rises 0 self.old self.new }
        ensures missed { self.new.missed ≡ self.old.missed }
    {
        self.seen = self.seen.longer(prefix);
    }

    /// Takes the record of a reply, which begins with what was seen before. If it didn't, which
    /// happens at no desk but can't be ruled out, it would never return.
    pub(crate) fn see<R: Wait>(&mut self, rt: &R, prefix: &RecordPrefix)
        requires { prefix.now.history ≡ C.history }
        ensures seen { self.new.seen ≡ prefix.now.events }
        ensures makers { self.new.makers ≡ prefix.now.makers }
        ensures share { Rises 0 self.old self.new }
        ensures missed { self.new.missed ≡ self.old.missed }
    {
        self.seen.until_begins(rt, prefix);
        self.seen = prefix.copy();
    }

    /// Proves that the share counts at most the book's total, and exactly that if it has every
    /// part. The program changes nothing.
    pub(crate) fn audit(&mut self, book: &mut Book<C>)
        ensures same { self.new ≡ self.old }
        ensures total { book.new.total ≡ book.old.total }
        ensures bound { self.old.events ≤ book.old.total }
        ensures whole { self.old.parts ≡ C.parts → self.old.events ≡ book.old.total }
    {
        book.audit(&mut self.part);
    }
}
