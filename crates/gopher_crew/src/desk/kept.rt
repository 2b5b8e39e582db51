//! `Kept`: what a desk keeps behind its lock. Its calls are the steps of a crawl.

ghost use Rattle.std.specs.Prelude.{◌≡◌, ◌+◌, ◌<◌, ◌^◌, true, false, None, [], ◌∷◌, ◌++◌, length, map, IfOk, IfErr, OnOk, OnErr};
ghost use mathlib.Core.List.{IsPrefix};
ghost use Rattle.gopher_catalogue.specs.EventOf.{event_data};
ghost use Rattle.gopher_catalogue.specs.Legal.{IsLegal};
ghost use Rattle.gopher_catalogue.specs.Step.{status_of};
ghost use Rattle.gopher_catalogue.specs.Turn.{turn_data};
ghost use Rattle.gopher_catalogue.specs.declared.event.EventData.TheVariants.{Found, Failed};
ghost use Rattle.gopher_crew.specs.Admitted.{AllAdmitted, MayAdd};
ghost use Rattle.gopher_crew.specs.Share.{CountsReply, Rises, RisesBy};
ghost use Rattle.gopher_crew.specs.Publication.{CountsMissed, IsShown, IsPublishedOf};
ghost use Rattle.gopher_crew.specs.Desk.{events_of, CountTheSame, HasAll, HasAllSeen};
ghost use Rattle.gopher_crew.specs.Kept.{IsNoted, IsCall, rise_of, Later, Claims, Finds, Fails, RefusesFind, RefusesFailure, LetsClaim, IsStatusOf, IsStatusAfter, AreOutcomesOf, AreOutcomesAfter, IsRecordAfter};

use crate::crew::{Admits, Crew};
use crate::desk::closing::join;
use crate::desk::outcomes::Outcomes;
use crate::desk::share::Share;
use crate::publication::note::Note;
use crate::publication::record_prefix::RecordPrefix;
use crate::publication::{Publication, Published};
use crate::working::merge_job::MergeJob;
use crate::working::merging::Merging;
use gopher_catalogue::{Added, Catalogue, Event, FailRefused, FoundRefused, Status, Turn, Why};
use gopher_item::NoMemory;
use gopher_page::Page;
use std::alloc::Global;
use std::marker::{Model, PhantomData};
use std::sync::Wait;
use std::sync::ledger::Book;

/// The catalogue of a crawl, the count of its events after the first, and its publication.
/// Contracts see its record, who made each event, the published record, which is a prefix of it,
/// and how many publications failed. The published record is the whole record unless one failed.
/// Each outcome in the record is admitted.
#[derive(Drop)]
pub struct Kept<C: Crew, R: Wait + Drop, A: Admits> {
    catalogue: Catalogue,
    book: Book<C>,
    publication: Publication<C, R>,
    merging: Merging,
    rule: PhantomData<A>,
}

impl<C: Crew, R: Wait + Drop, A: Admits> Model for Kept<C, R, A> {
    ghost use Rattle.std.specs.Prelude.{◌≡◌, ◌+◌, length};
    ghost use mathlib.Core.List.{IsPrefix};
    ghost use Rattle.gopher_catalogue.specs.Legal.{IsLegal};
    ghost use Rattle.gopher_crew.specs.Publication.{PublicationData, KeepsRecord};

    ghost Value = { PublicationData };

    ghost view = { λ k. record {
      events = k.catalogue;
      makers = k.publication.makers;
      published = k.publication.published;
      failed = k.publication.failed;
    } };

    ghost invariant = { λ k. KeepsRecord A.admits k.catalogue k.publication
        k.book.total };
}

// Counts the event of a turn, for the share and in the book. Only a turn that took a place has one.
fn count<C: Crew>(turn: &Turn, share: &mut Share<C>, book: &mut Book<C>)
    requires { book.old.total < 2 ^ 63 }
    ensures number { share.new.number ≡ share.old.number }
    ensures events { share.new.events ≡ share.old.events + rise_of (turn_data turn.now) }
    ensures parts { share.new.parts ≡ share.old.parts }
    ensures seen { share.new.seen ≡ share.old.seen }
    ensures makers { share.new.makers ≡ share.old.makers }
    ensures missed { share.new.missed ≡ share.old.missed }
    ensures total { book.new.total ≡ book.old.total + rise_of (turn_data turn.now) }
{
    match turn {
        Turn::Take(_) => share.add(book),
        Turn::Idle | Turn::Finished => {}
    }
}

/// Returns the number of events in a catalogue's record after the first.
pub(crate) fn events_after_first(catalogue: &Catalogue) -> u64
    requires { 0 < length catalogue.now }
    ensures { length catalogue.now ≡ result + 1 }
{
    catalogue.record().len() as u64 - 1
}

// Copies events, each of which shares its opening or its page with the copy.
fn copy_events(alloc: Global, events: &[Event]) -> Result<Vec<Event>, NoMemory>
    ensures { IfOk result (λ it. map event_data it.items ≡ map event_data events.now) }
{
    let mut copies = Vec::with_capacity(alloc, events.len())?;
    for event in events {
        copies.push(event.clone()?)?;
    }
    Ok(copies)
}

impl<C: Crew, R: Wait + Drop, A: Admits> Kept<C, R, A> {
    /// What a desk keeps of a catalogue. Its whole record was entered and is published.
    pub(crate) fn new(
        catalogue: Catalogue,
        book: Book<C>,
        publication: Publication<C, R>,
    ) -> Kept<C, R, A>
        requires entered { publication.events ≡ catalogue }
        requires made { length publication.makers ≡ length catalogue }
        requires published { publication.published ≡ catalogue }
        requires legal { IsLegal catalogue }
        requires admitted { AllAdmitted A.admits catalogue }
        requires counted { length catalogue ≡ book.total + 1 }
        ensures events { result.events ≡ catalogue }
        ensures makers { result.makers ≡ publication.makers }
        ensures published { result.published ≡ catalogue }
        ensures failed { result.failed ≡ publication.failed }
    {
        Kept {
            catalogue,
            book,
            publication,
            merging: Merging::new(),
            rule: PhantomData,
        }
    }

    /// Claims the first waiting place, as `Catalogue::claim` does, then publishes all that isn't
    /// published yet. Returns a note exactly if the whole record is published as the call ends.
    ///
    /// # Errors
    /// `NoMemory` (90), only if a place waits. Only what the share saw changes then.
    #[tactic(auto, using(crate::proofs::Keeping::turn_keeps, crate::proofs::Keeping::keeps_turn, crate::proofs::Making::makes_turn))]
    pub fn claim(&mut self, share: &mut Share<C>) -> Result<(Turn, Option<Note<C>>), NoMemory>
        ensures call { IsCall self.old share.old self.new share.new }
        ensures turn { IfOk result (λ reply. Claims (turn_data reply.0) share.new self.old.events) }
        ensures note { IfOk result (λ reply. IsNoted reply.1 self.new) }
        ensures counted { IfOk result (λ r. CountsMissed r.1 self.old.failed self.new.failed) }
        ensures shown { IsShown self.new }
        ensures missed { CountsReply (λ reply. reply.1) result share.old.missed share.new.missed }
        ensures share { RisesBy (λ it. rise_of (turn_data it.0)) result share.old share.new }
        ensures waits { OnErr result (LetsClaim share.new) }
        ensures err { OnErr result (self.new ≡ self.old) }
    {
        self.publication.show(share);
        let turn = self.catalogue.claim()?;
        count(&turn, share, &mut self.book);
        let note = self.publication.follow(&self.catalogue, share);
        Ok((turn, note))
    }

    /// Adds the page of a place that is out, as `Catalogue::found` does, then publishes all that
    /// isn't published yet. Returns a note exactly if the whole record is published as the call
    /// ends.
    ///
    /// # Errors
    /// Those of `Catalogue::found`, with the page. Only what the share saw changes then.
    /// - `NotOut` (52): the number isn't out.
    /// - `WrongPlace` (53): the page is of another place.
    /// - `NoMemory` (90).
    #[tactic(auto, using(crate::proofs::Making::makes_last))]
    pub fn found(
        &mut self,
        share: &mut Share<C>,
        number: u32,
        page: Page,
    ) -> Result<(Added, Option<Note<C>>), FoundRefused>
        requires { MayAdd A.admits share.old.seen (Found number page) }
        ensures call { IsCall self.old share.old self.new share.new }
        ensures found { IfOk result (λ reply. Finds number page reply.0 share.new self.old.events) }
        ensures note { IfOk result (λ reply. IsNoted reply.1 self.new) }
        ensures counted { IfOk result (λ r. CountsMissed r.1 self.old.failed self.new.failed) }
        ensures shown { IsShown self.new }
        ensures missed { CountsReply (λ reply. reply.1) result share.old.missed share.new.missed }
        ensures share { RisesBy (λ _. 1) result share.old share.new }
        ensures refused { IfErr result (λ error. RefusesFind number page error.fault share.new) }
        ensures page_back { IfErr result (λ refused. refused.page ≡ page) }
        ensures err { OnErr result (self.new ≡ self.old) }
    {
        self.publication.show(share);
        let added = self.catalogue.found(number, page)?;
        share.add(&mut self.book);
        let note = self.publication.follow(&self.catalogue, share);
        Ok((added, note))
    }

    /// Records that a place that is out couldn't be fetched, as `Catalogue::fail` does, then
    /// publishes all that isn't published yet. Returns a note exactly if the whole record is
    /// published as the call ends.
    ///
    /// # Errors
    /// `FailRefused` (52): the number isn't out. Only what the share saw changes then.
    #[tactic(auto, using(crate::proofs::Making::makes_last))]
    pub fn fail(
        &mut self,
        share: &mut Share<C>,
        number: u32,
        why: Why,
    ) -> Result<Option<Note<C>>, FailRefused>
        requires { MayAdd A.admits share.old.seen (Failed number why) }
        ensures call { IsCall self.old share.old self.new share.new }
        ensures failed { OnOk result (Fails number why share.new self.old.events) }
        ensures note { IfOk result (λ note. IsNoted note self.new) }
        ensures counted { IfOk result (λ it. CountsMissed it self.old.failed self.new.failed) }
        ensures shown { IsShown self.new }
        ensures missed { CountsReply (λ reply. reply) result share.old.missed share.new.missed }
        ensures share { RisesBy (λ _. 1) result share.old share.new }
        ensures refused { OnErr result (RefusesFailure number share.new) }
        ensures err { OnErr result (self.new ≡ self.old) }
    {
        self.publication.show(share);
        self.catalogue.fail(number, why)?;
        share.add(&mut self.book);
        Ok(self.publication.follow(&self.catalogue, share))
    }

    /// Returns a run of pages that is due to be merged. Returns `None` while places are out but
    /// none waits, when out of memory, and for 64 more pages after a merge ran out of memory.
    pub(crate) fn merge_job(&mut self) -> Option<MergeJob<C>>
        ensures { self.new ≡ self.old }
    {
        let status = self.catalogue.status();
        let found = self.catalogue.index().len();
        if !self.merging.may_merge(status.waiting, status.out, found) {
            return None;
        }
        let Ok(Some(due)) = self.catalogue.due() else {
            return None;
        };
        Some(MergeJob::new(due, self.publication.prefix().copy()))
    }

    /// Puts the segment of a merge job in the place of its pages. If memory ran out, the pages are
    /// due again when 64 more are found.
    pub(crate) fn install(&mut self, job: MergeJob<C>)
        ensures { self.new ≡ self.old }
    {
        let found = self.catalogue.index().len();
        self.merging.end_merge(job.was_merged(), found);
        if let Some(due) = job.due_in(self.publication.prefix()) {
            self.catalogue.install(due);
        }
    }

    /// Publishes the segments that the index has now, if some aren't published, so that searches go
    /// through few segments.
    pub(crate) fn renew(&mut self)
        ensures events { self.new.events ≡ self.old.events }
        ensures grows { IsPrefix self.old.published self.new.published }
        ensures shown { IsShown self.new }
    {
        if self.merging.is_merged {
            let was_published = self.publication.publish(&self.catalogue, true);
            self.merging.end_renewal(was_published);
        }
    }

    /// Returns the number of events in the record after the first.
    pub(crate) fn events(&self) -> u64
        ensures { length self.now.events ≡ result + 1 }
    {
        events_after_first(&self.catalogue)
    }

    /// Merges shares into one. Returns how many events they count: all of the record after the
    /// first, if they have all parts of the ledger. The record begins with what each of them saw.
    pub(crate) fn gather(&mut self, shares: &mut Vec<Share<C>>) -> u64
        ensures same { self.new ≡ self.old }
        ensures sum { result ≡ events_of shares.old.items }
        ensures joined { CountTheSame shares.old.items shares.new.items }
        ensures seen { HasAllSeen self.old.events self.old.makers shares.old.items }
        ensures whole { HasAll C.parts shares.old.items → length self.old.events ≡ result + 1 }
    {
        let Some(mut all) = shares.pop() else {
            return 0;
        };
        join(&mut self.book, &mut all, shares);
        self.publication.show(&mut all);
        let sum = all.events();
        shares.push_reserved(all);
        sum
    }

    /// Returns if the record begins with the events of this token, and otherwise never.
    pub(crate) fn until_begins(&self, opened: &RecordPrefix)
        requires { opened.now.history ≡ C.history }
        ensures begins { IsPrefix opened.now.events self.now.events }
        ensures made { length self.now.makers ≡ length self.now.events }
        ensures legal { IsLegal self.now.events }
    {
        self.publication.until_begins(opened);
    }

    /// Returns the number of places in each state.
    pub fn status(&self) -> Status
        ensures status { result ≡ status_of self.now.events }
        ensures legal { IsLegal self.now.events }
    {
        self.catalogue.status()
    }

    /// Returns the number of places in each state. The share then has seen the record.
    pub(crate) fn status_for(&mut self, share: &mut Share<C>) -> Status
        ensures same { self.new ≡ self.old }
        ensures status { IsStatusOf result share.new.seen }
        ensures share { Rises 0 share.old share.new }
        ensures missed { share.new.missed ≡ share.old.missed }
    {
        self.publication.show(share);
        self.status()
    }

    /// Returns the number of places in each state, on a record that begins with the events of this
    /// token.
    pub(crate) fn status_after(&self, opened: &RecordPrefix) -> Status
        requires { opened.now.history ≡ C.history }
        ensures { IsStatusAfter opened.now.events result }
    {
        self.until_begins(opened);
        self.status()
    }

    /// Returns the number of places in each state and the number of pages found.
    pub fn outcomes(&self) -> Outcomes
        ensures { AreOutcomesOf result self.now.events }
    {
        Outcomes {
            status: self.status(),
            found: self.catalogue.index().len() as u64,
        }
    }

    /// Returns the number of places in each state and the number of pages found, on a record that
    /// begins with the events of this token.
    pub(crate) fn outcomes_after(&self, opened: &RecordPrefix) -> Outcomes
        requires { opened.now.history ≡ C.history }
        ensures { AreOutcomesAfter opened.now.events result }
    {
        self.until_begins(opened);
        self.outcomes()
    }

    /// Returns how much of the record is published, which begins with the events of this token.
    pub(crate) fn published_after(&self, opened: &RecordPrefix) -> Published
        requires { opened.now.history ≡ C.history }
        ensures { Later opened.now.events (IsPublishedOf result) }
    {
        self.until_begins(opened);
        self.publication.published()
    }

    /// Copies the events of the record, which begins with those of this token.
    ///
    /// # Errors
    /// `NoMemory` (90).
    pub(crate) fn record_after(
        &self,
        alloc: Global,
        opened: &RecordPrefix,
    ) -> Result<Vec<Event>, NoMemory>
        requires { opened.now.history ≡ C.history }
        ensures { IfOk result (λ events. IsRecordAfter opened.now.events events.items) }
    {
        self.until_begins(opened);
        copy_events(alloc, self.catalogue.record())
    }

    /// Returns the catalogue, and drops what is published.
    pub fn end(self) -> Catalogue
        ensures record { result ≡ self.events }
        ensures legal { IsLegal self.events }
        ensures admitted { AllAdmitted A.admits result }
    {
        let Kept {
            catalogue,
            book: _book,
            publication: _publication,
            merging: _merging,
            rule: _rule,
        } = self;
        catalogue
    }
}
