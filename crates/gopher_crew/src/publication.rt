//! `Publication`: enters a catalogue's record into the crew's history, and publishes it.

ghost use Rattle.std.specs.Prelude.{◌≡◌, ◌≢◌, false, [], IsTrue, map};
ghost use mathlib.Core.List.{IsPrefix};
ghost use Rattle.gopher_catalogue.specs.EventOf.{event_data};
ghost use Rattle.gopher_crew.specs.Share.{CountsNote, Rises};
ghost use Rattle.gopher_crew.specs.Kept.{IsNoted};
ghost use Rattle.gopher_crew.specs.Publication.{CountsMissed, CountsPublication, HasMade, IsShown, published_of, PagesFollow, ShowsRecord, waiting_updates, NextFollows, WriterCatchesUp, WriterFollows};
ghost use Rattle.gopher_crew.specs.Version.{version_data, IsVersion};

pub mod entering;
pub mod history;
pub mod note;
pub mod record_prefix;
pub mod update;
pub mod version;

use crate::crew::Crew;
use crate::desk::share::Share;
use crate::publication::entering::enter;
use crate::publication::history::Head;
use crate::publication::note::Note;
use crate::publication::record_prefix::RecordPrefix;
use crate::publication::update::{Change, Update};
use crate::publication::version::{Sees, Shows, Version};
use core::mem::replace_with;
use gopher_catalogue::{Catalogue, Event, EventData};
use gopher_index::Index;
use left_right::reader::Reader;
use left_right::writer::Writer;
use std::alloc::Global;
use std::marker::Model;
use std::sync::Wait;

/// The writer that publishes versions.
pub type VersionWriter<C> = Writer<Version, Update, [EventData; 0], Shows<C>>;

/// A reader of the published versions.
pub type VersionReader<C> = Reader<Version, [EventData; 0], Shows<C>>;

/// How much of a desk's record is published.
#[derive(Clone, Copy, Debug, PartialEq, Eq)]
pub struct Published {
    /// The number of events in the record.
    pub events: u32,
    /// The number of those that are published: all, unless a publication failed.
    pub published: u32,
    /// How many publications failed so far, counted up to 2^64 - 1.
    pub failed: u64,
}

/// The token of the record that was entered into the history, and the writer that publishes it,
/// with the runtime by which it waits for readers. Contracts see the events that were entered, who
/// made each, the published record, a prefix of them, and how many publications failed.
///
/// While an update waits because memory ran out, the writer's next version isn't the published one.
/// At most one update waits.
pub struct Publication<C: Crew, R: Wait + Drop> {
    alloc: Global,
    rt: R,
    head: Head,
    prefix: RecordPrefix,
    writer: VersionWriter<C>,
    failed: u64,
}

impl<C: Crew, R: Wait + Drop> Model for Publication<C, R> {
    ghost use Rattle.std.specs.Prelude.{◌≡◌, drop};
    ghost use Rattle.gopher_crew.specs.Publication.{PublicationData};
    ghost use Rattle.gopher_crew.specs.Version.{IsPublication, last_of};

    ghost Value = { PublicationData };

    ghost view = { λ p. record {
      events = p.prefix.events;
      makers = p.prefix.makers;
      published = p.writer.desk.shown.value.prefix.events;
      failed = p.failed;
    } };

    ghost invariant = { λ p. IsPublication C.history p.head p.prefix p.writer.desk.shown.value
        (last_of p.writer.desk.shown.value (drop p.writer.behind p.writer.log.items)) };
}

impl<C: Crew, R: Wait + Drop> Drop for Publication<C, R> {
    fn drop(self) {
        let Self {
            alloc: _alloc,
            rt,
            head: _head,
            prefix: _prefix,
            writer,
            failed: _failed,
        } = self;
        writer.take(&rt);
    }
}

// Applies the updates that wait, and publishes the version that they make. Returns whether it did.
fn publish_last<C: Crew, R: Wait>(writer: VersionWriter<C>, rt: &R) -> (VersionWriter<C>, bool)
    requires { NextFollows C.history writer }
    ensures { WriterCatchesUp result.1 writer result.0 }
{
    let (writer, published) = writer.publish_as::<Sees<C>, R>(rt);
    (writer, published.is_ok())
}

// Publishes the update that waits, if there is one. Returns whether none waits then.
fn catch_up<C: Crew, R: Wait>(writer: &mut VersionWriter<C>, rt: &R) -> bool
    requires { NextFollows C.history writer.old }
    ensures { WriterCatchesUp result writer.old writer.new }
{
    if !writer.has_pending_operations() {
        return true;
    }
    replace_with(writer, rt, publish_last)
}

// Publishes the version of a record, which has these pages. No update waits before. If `renews`,
// the update replaces all pages. Returns whether it did.
fn publish_next<C: Crew, R: Wait>(
    writer: &mut VersionWriter<C>,
    rt: &R,
    alloc: Global,
    events: &[Event],
    index: &Index,
    prefix: &RecordPrefix,
    renews: bool,
) -> bool
    requires none { waiting_updates writer.old ≡ [] }
    requires version { IsVersion C.history writer.old.desk.shown.value }
    requires entered { map event_data events.now ≡ prefix.now.events }
    requires goes_on { PagesFollow C.history writer.old.desk.shown.value index.now prefix.now }
    ensures { WriterFollows result (version_data index.now prefix.now) writer.old writer.new }
{
    let shown = writer.published();
    let new = &events[shown.prefix().len() as usize..];
    let Ok(change) = Change::since(alloc, shown.index(), new, index, renews) else {
        return false;
    };
    let update = Update {
        alloc,
        change,
        prefix: prefix.copy(),
    };
    if writer.append(update).is_err() {
        return false;
    }
    replace_with(writer, rt, publish_last)
}

impl<C: Crew, R: Wait + Drop> Publication<C, R> {
    /// The publication of a record that was entered and is published.
    pub fn new(
        alloc: Global,
        rt: R,
        head: Head,
        prefix: RecordPrefix,
        writer: VersionWriter<C>,
    ) -> Publication<C, R>
        requires head { head ≡ C.history }
        requires history { prefix.history ≡ C.history }
        requires shown { ShowsRecord C.history prefix.events writer }
        ensures events { result.events ≡ prefix.events }
        ensures makers { result.makers ≡ prefix.makers }
        ensures published { result.published ≡ prefix.events }
        ensures failed { result.failed ≡ 0 }
    {
        Publication {
            alloc,
            rt,
            head,
            prefix,
            writer,
            failed: 0,
        }
    }

    /// Returns the token of the record that was entered.
    pub fn prefix(&self) -> &RecordPrefix
        ensures history { result.now.history ≡ C.history }
        ensures events { result.now.events ≡ self.now.events }
    {
        &self.prefix
    }

    /// Shows the record that was entered to a share.
    pub fn show(&self, share: &mut Share<C>)
        ensures seen { share.new.seen ≡ self.now.events }
        ensures makers { share.new.makers ≡ self.now.makers }
        ensures share { Rises 0 share.old share.new }
        ensures missed { share.new.missed ≡ share.old.missed }
    {
        share.see(&self.rt, &self.prefix);
    }

    /// Returns if the events that were entered begin with those of this token, and otherwise never.
    pub fn until_begins(&self, opened: &RecordPrefix)
        requires { opened.now.history ≡ C.history }
        ensures { IsPrefix opened.now.events self.now.events }
    {
        opened.until_begins(&self.rt, &self.prefix);
    }

    /// Returns how much of the record that was entered is published.
    pub fn published(&self) -> Published
        ensures { result ≡ published_of self.now }
    {
        Published {
            events: self.prefix.len(),
            published: self.writer.published().prefix().len(),
            failed: self.failed,
        }
    }

    // Returns whether the record that was entered is published.
    fn is_shown(&self) -> bool
        ensures shown { IsTrue result → self.now.published ≡ self.now.events }
        ensures or_else { (result ≡ false) → self.now.published ≢ self.now.events }
    {
        if self.writer.published().prefix().len() < self.prefix.len() {
            return false;
        }
        true
    }

    // Publishes the update that waits, if there is one, then the catalogue's record, as `publish`
    // says. Counts nothing.
    fn try_publish(&mut self, catalogue: &Catalogue, renews: bool) -> bool
        requires { self.old.events ≡ catalogue.now }
        ensures events { self.new.events ≡ self.old.events }
        ensures makers { self.new.makers ≡ self.old.makers }
        ensures published { IsTrue result → self.new.published ≡ self.old.events }
        ensures grows { IsPrefix self.old.published self.new.published }
        ensures failed { self.new.failed ≡ self.old.failed }
    {
        if !catch_up(&mut self.writer, &self.rt) {
            return false;
        }
        publish_next(
            &mut self.writer,
            &self.rt,
            self.alloc,
            catalogue.record(),
            catalogue.index(),
            &self.prefix,
            renews,
        )
    }

    /// Publishes the catalogue's record, which was entered. If an update waits, it is published
    /// first. If `renews`, the catalogue's index replaces the published one, whose pages may be in
    /// smaller segments. Returns whether it published. If it didn't, memory ran out, and one more
    /// publication failed.
    pub fn publish(&mut self, catalogue: &Catalogue, renews: bool) -> bool
        requires { self.old.events ≡ catalogue.now }
        ensures events { self.new.events ≡ self.old.events }
        ensures makers { self.new.makers ≡ self.old.makers }
        ensures published { IsTrue result → self.new.published ≡ self.old.events }
        ensures grows { IsPrefix self.old.published self.new.published }
        ensures failed { CountsPublication result self.old.failed self.new.failed }
        ensures shown { IsShown self.new }
    {
        if self.try_publish(catalogue, renews) {
            return true;
        }
        self.failed = self.failed.saturating_add(1);
        false
    }

    // Publishes the catalogue's record, which was entered, unless it is published. Returns a note
    // exactly if it is published then.
    #[tactic(auto, using(crate::proofs::PublicationLemmas::no_note_counts, crate::proofs::PublicationLemmas::note_counts))]
    fn note(&mut self, catalogue: &Catalogue) -> Option<Note<C>>
        requires { self.old.events ≡ catalogue.now }
        ensures events { self.new.events ≡ self.old.events }
        ensures makers { self.new.makers ≡ self.old.makers }
        ensures note { IsNoted result self.new }
        ensures grows { IsPrefix self.old.published self.new.published }
        ensures failed { CountsMissed result self.old.failed self.new.failed }
        ensures shown { IsShown self.new }
    {
        if self.is_shown() {
            return Some(Note::of(&self.prefix));
        }
        self.publish(catalogue, false);
        if !self.is_shown() {
            return None;
        }
        Some(Note::of(&self.prefix))
    }

    /// Enters the new events of the catalogue, which a share made, shows the record to that share,
    /// and publishes it.
    /// Returns a note exactly if the published record is then that of the catalogue. If it returns
    /// none, a publication failed, and the share counts a reply without a note.
    pub fn follow(&mut self, catalogue: &Catalogue, share: &mut Share<C>) -> Option<Note<C>>
        requires begun { IsPrefix self.old.events catalogue.now }
        ensures entered { self.new.events ≡ catalogue.now }
        ensures made { HasMade share.old.number self.old self.new }
        ensures note { IsNoted result self.new }
        ensures grows { IsPrefix self.old.published self.new.published }
        ensures failed { CountsMissed result self.old.failed self.new.failed }
        ensures shown { IsShown self.new }
        ensures seen { share.new.seen ≡ catalogue.now }
        ensures makers { share.new.makers ≡ self.new.makers }
        ensures share { Rises 0 share.old share.new }
        ensures missed { CountsNote result share.old.missed share.new.missed }
    {
        enter(
            &self.rt,
            &mut self.prefix,
            &self.head,
            catalogue,
            share.number(),
        );
        self.show(share);
        let note = self.note(catalogue);
        share.count_note(&note);
        note
    }
}
