//! `Desk`: the lock at which a crew's workers share one catalogue.

ghost use Rattle.std.specs.Arc.{arc_value};
ghost use Rattle.std.specs.Prelude.{◌≡◌, ◌+◌, ◌≤◌, [], true, vec_capacity, IfOk, IfErr, IfSome, OnOk, OnErr};
ghost use mathlib.Core.List.{IsPrefix};
ghost use Rattle.gopher_catalogue.specs.Turn.{turn_data};
ghost use Rattle.gopher_catalogue.specs.declared.event.EventData.TheVariants.{Found, Failed};
ghost use Rattle.gopher_crew.specs.Admitted.{AllAdmitted, MayAdd};
ghost use Rattle.gopher_crew.specs.Share.{CountsReply, Rises, RisesBy};
ghost use Rattle.gopher_crew.specs.Desk.{are_counts, shares_at, AllHaveSeen, ComesBack, IsBlankOf, IsDeskFault, HasAll};
ghost use Rattle.gopher_crew.specs.Publication.{IsPublishedOf, ShowsRecord};
ghost use Rattle.gopher_crew.specs.Kept.{rise_of, Later, Claims, Finds, Fails, RefusesFind, RefusesFailure, LetsClaim, IsNotIdle, IsOpeningOf, IsStatusOf, IsStatusAfter, AreOutcomesAfter, IsRecordAfter};

pub mod blank;
pub mod closing;
pub mod kept;
pub mod opening;
pub mod outcomes;
pub mod refusals;
pub mod share;

use crate::crew::{Admits, Crew};
use crate::desk::blank::Blank;
use crate::desk::kept::{Kept, events_after_first};
use crate::desk::opening::{cut, writer_with_passes};
use crate::desk::outcomes::Outcomes;
use crate::desk::refusals::DeskRefused;
use crate::desk::share::Share;
use crate::fault::DeskFault;
use crate::pass::Pass;
use crate::publication::note::Note;
use crate::publication::record_prefix::RecordPrefix;
use crate::publication::{Publication, Published, VersionWriter};
use crate::working::memory::PageMemory;
use gopher_catalogue::{
    Added, Catalogue, Event, FailRefused, FoundRefused, Opening, Status, Turn, Why,
};
use gopher_item::NoMemory;
use gopher_page::Page;
use std::alloc::Global;
use std::marker::{Brand, Model};
use std::sync::{Arc, Condvar, Mutex, MutexGuard, Wait};

/// One catalogue that several workers crawl together while passes search its snapshots. Contracts
/// see the record with which it was opened.
#[derive(Drop)]
pub struct Desk<C: Crew, R: Wait + Drop, A: Admits = Brand> {
    pub(crate) opened: RecordPrefix,
    pub(crate) opening: Arc<Opening>,
    pub(crate) kept: Mutex<Kept<C, R, A>>,
    pub(crate) outcomes: Condvar,
    pub(crate) memory: PageMemory,
}

impl<C: Crew, R: Wait + Drop, A: Admits> Model for Desk<C, R, A> {
    ghost use Rattle.std.specs.Arc.{arc_value};
    ghost use Rattle.std.specs.Prelude.{◌≡◌, List};
    ghost use Rattle.gopher_catalogue.specs.declared.event.EventData.{EventData};
    ghost use Rattle.gopher_crew.specs.Kept.{IsOpeningOf};

    ghost Value = { List EventData };

    ghost view = { λ d. d.opened.events };

    ghost invariant = { λ d. (d.opened.history ≡ C.history)
        × IsOpeningOf d.opened.events (arc_value d.opening) };
}

fn are_counts(passes: u32, shares: u32) -> bool
    ensures { result ≡ are_counts passes shares }
{
    1 <= passes && passes <= 16 && 1 <= shares && shares <= 16
}

// Makes the desk over a catalogue whose record was entered and is published. Appends its shares to
// the list.
fn start<C: Crew, R: Wait + Drop, A: Admits>(
    alloc: Global,
    rt: R,
    catalogue: Catalogue,
    opening: Arc<Opening>,
    blank: Blank,
    writer: VersionWriter<C>,
    shares: u32,
    list: &mut Vec<Share<C>>,
) -> Desk<C, R, A>
    requires blank { IsBlankOf C.name C.parts C.history blank }
    requires begun { blank.begun ≡ catalogue }
    requires opening { IsOpeningOf catalogue (arc_value opening) }
    requires shown { ShowsRecord C.history catalogue writer }
    requires admitted { AllAdmitted A.admits catalogue }
    requires counts { (1 ≤ shares) × (shares ≤ 16) }
    requires empty { list.old.items ≡ [] }
    requires room { shares ≤ vec_capacity list.old }
    ensures desk { result ≡ catalogue }
    ensures shares { list.new.items ≡ shares_at catalogue shares }
    ensures whole { HasAll C.parts list.new.items }
{
    let events = events_after_first(&catalogue);
    let Blank {
        count,
        head,
        prefix,
    } = blank;
    let (mut book, mut whole) = count.open::<C>();
    book.add(&mut whole, events);
    cut(whole, events, shares, &prefix, list);
    let opened = prefix.copy();
    let publication = Publication::new(alloc, rt, head, prefix, writer);
    Desk {
        opened,
        opening,
        kept: Mutex::new(Kept::new(catalogue, book, publication)),
        outcomes: Condvar::new(),
        memory: PageMemory::unlimited(),
    }
}

impl<C: Crew, R: Wait + Drop, A: Admits> Desk<C, R, A> {
    /// Opens a desk over a catalogue.
    ///
    /// Returns the desk, `passes` passes that have all seen the whole record, and `shares` shares,
    /// the first of which counts the events that are already in the record. Publications wait by
    /// `rt`.
    ///
    /// `blank` is a new one, or one that an earlier error returned with this catalogue. The crew
    /// `C` has its names.
    ///
    /// # Errors
    /// - `BadCount` (60): the number of passes or of shares isn't 1 to 16. This is tested first.
    /// - `NoEntry` (61): the history can't be entered, or a pass can't enter what is published.
    /// - `NoMemory` (90).
    ///
    /// The error has the catalogue and the blank.
    pub fn open(
        rt: R,
        alloc: Global,
        catalogue: Catalogue,
        passes: u32,
        shares: u32,
        blank: Blank,
    ) -> Result<(Desk<C, R, A>, Vec<Pass<C>>, Vec<Share<C>>), DeskRefused>
        requires blank { IsBlankOf C.name C.parts C.history blank }
        requires begun { IsPrefix blank.begun catalogue }
        requires admitted { AllAdmitted A.admits catalogue }
        ensures ok { OnOk result (are_counts passes shares ≡ true) }
        ensures desk { IfOk result (λ opened. opened.0 ≡ catalogue) }
        ensures passes { IfOk result (λ opened. AllHaveSeen catalogue passes opened.1.items) }
        ensures shares { IfOk result (λ opened. opened.2.items ≡ shares_at catalogue shares) }
        ensures whole { IfOk result (λ opened. HasAll C.parts opened.2.items) }
        ensures fault { IfErr result (λ refused. IsDeskFault passes shares refused.fault) }
        ensures catalogue_back { IfErr result (λ refused. refused.catalogue ≡ catalogue) }
        ensures blank_back { IfErr result (λ refused. ComesBack catalogue blank refused.blank) }
    {
        if !are_counts(passes, shares) {
            return Err(DeskRefused {
                fault: DeskFault::BadCount,
                catalogue,
                blank,
            });
        }
        let mut blank = blank;
        if !blank.enter(&catalogue) {
            return Err(DeskRefused {
                fault: DeskFault::NoEntry,
                catalogue,
                blank,
            });
        }
        let Ok(mut list) = Vec::with_capacity(alloc, shares as usize) else {
            return Err(DeskRefused {
                fault: DeskFault::NoMemory,
                catalogue,
                blank,
            });
        };
        let Ok(opening) = catalogue.opening().clone() else {
            return Err(DeskRefused {
                fault: DeskFault::NoMemory,
                catalogue,
                blank,
            });
        };
        match writer_with_passes(alloc, &rt, catalogue.index(), blank.prefix(), passes) {
            Ok((writer, passes)) => {
                let desk = start(
                    alloc, rt, catalogue, opening, blank, writer, shares, &mut list,
                );
                Ok((desk, passes, list))
            }
            Err(fault) => Err(DeskRefused {
                fault,
                catalogue,
                blank,
            }),
        }
    }
}

impl<C: Crew, R: Wait + Drop, A: Admits> Desk<C, R, A> {
    /// Claims the first waiting place. The share rises by one if there is one.
    ///
    /// The turn is what a claim returns on a legal record that begins with what the share saw. The
    /// share then has seen the record after it. The note is of that record. If there is none, the
    /// record isn't published yet, because memory ran out, and the share counts it (`missed`).
    ///
    /// # Errors
    /// `NoMemory` (90), only if a place waits on the record that the share then has seen.
    pub fn claim<W: Wait>(
        &self,
        rt: &W,
        share: &mut Share<C>,
    ) -> Result<(Turn, Option<Note<C>>), NoMemory>
        ensures turn { IfOk result (λ r. Later share.old.seen (Claims (turn_data r.0) share.new)) }
        ensures noted { IfOk result (λ reply. IfSome reply.1 (λ note. note ≡ share.new.seen)) }
        ensures missed { CountsReply (λ reply. reply.1) result share.old.missed share.new.missed }
        ensures share { RisesBy (λ it. rise_of (turn_data it.0)) result share.old share.new }
        ensures waits { OnErr result (LetsClaim share.new) }
    {
        self.kept.lock(rt).claim(share)
    }

    /// Adds the page of a place that is out. The share rises by one.
    ///
    /// The share then has seen a legal record that ends with the page. The note is of that record.
    /// If there is none, the record isn't published yet, because memory ran out, and the share
    /// counts it (`missed`).
    ///
    /// # Errors
    /// The first of these that the page has on the record that the share then has seen. The error
    /// has the page.
    /// - `NotOut` (52): the number isn't out.
    /// - `WrongPlace` (53): the page is of another place.
    /// - `NoMemory` (90).
    pub fn found<W: Wait>(
        &self,
        rt: &W,
        share: &mut Share<C>,
        number: u32,
        page: Page,
    ) -> Result<(Added, Option<Note<C>>), FoundRefused>
        requires { MayAdd A.admits share.old.seen (Found number page) }
        ensures found { IfOk result (λ r. Later share.old.seen (Finds number page r.0 share.new)) }
        ensures noted { IfOk result (λ reply. IfSome reply.1 (λ note. note ≡ share.new.seen)) }
        ensures missed { CountsReply (λ reply. reply.1) result share.old.missed share.new.missed }
        ensures share { RisesBy (λ _. 1) result share.old share.new }
        ensures refused { IfErr result (λ error. RefusesFind number page error.fault share.new) }
        ensures page_back { IfErr result (λ refused. refused.page ≡ page) }
    {
        let reply = self.kept.lock(rt).found(share, number, page)?;
        self.outcomes.notify_all();
        Ok(reply)
    }

    /// Records that a place that is out couldn't be fetched. The share rises by one.
    ///
    /// The share then has seen a legal record that ends with the failure. The note is of that
    /// record. If there is none, the record isn't published yet, because memory ran out, and the
    /// share counts it (`missed`).
    ///
    /// # Errors
    /// `FailRefused` (52): the number isn't out on the record that the share then has seen.
    pub fn fail<W: Wait>(
        &self,
        rt: &W,
        share: &mut Share<C>,
        number: u32,
        why: Why,
    ) -> Result<Option<Note<C>>, FailRefused>
        requires { MayAdd A.admits share.old.seen (Failed number why) }
        ensures failed { OnOk result (Later share.old.seen (Fails number why share.new)) }
        ensures refused { OnErr result (RefusesFailure number share.new) }
        ensures noted { IfOk result (λ note. IfSome note (λ noted. noted ≡ share.new.seen)) }
        ensures missed { CountsReply (λ note. note) result share.old.missed share.new.missed }
        ensures share { RisesBy (λ _. 1) result share.old share.new }
    {
        let note = self.kept.lock(rt).fail(share, number, why)?;
        self.outcomes.notify_all();
        Ok(note)
    }

    /// Returns the crawl's opening.
    pub(crate) fn opening(&self) -> &Opening
        ensures { IsOpeningOf self.now result.now }
    {
        &self.opening
    }

    // Merges one run of pages while it holds no lock, if one is due, puts the segment in their
    // place, and publishes it. Returns with the lock. One run for each claim is enough, because
    // fewer runs of pages are merged than places are claimed.
    fn merge_due<W: Wait>(&self, rt: &W, alloc: Global) -> MutexGuard<'_, Kept<C, R, A>> {
        let mut kept = self.kept.lock(rt);
        if let Some(mut job) = kept.merge_job() {
            let lock = MutexGuard::unlock(kept);
            job.run(alloc);
            kept = lock.lock(rt);
            kept.install(job);
        }
        kept.renew();
        kept
    }

    /// Merges one run of pages if one is due, then claims the first waiting place. While none waits
    /// but some are out, it waits for their outcomes.
    ///
    /// # Errors
    /// `NoMemory` (90), only if a place waits.
    #[tactic(auto)]
    pub(crate) fn next<W: Wait>(
        &self,
        rt: &W,
        alloc: Global,
        share: &mut Share<C>,
    ) -> Result<Turn, NoMemory>
        ensures turn { IfOk result (λ it. Later share.old.seen (Claims (turn_data it) share.new)) }
        ensures not_idle { IfOk result (λ turn. IsNotIdle (turn_data turn)) }
        ensures share { RisesBy (λ it. rise_of (turn_data it)) result share.old share.new }
        ensures waits { OnErr result (LetsClaim share.new) }
    {
        for _round in rt.forever() {
            let mut kept = self.merge_due(rt, alloc);
            let (turn, _note) = kept.claim(share)?;
            let Turn::Idle = turn else {
                return Ok(turn);
            };
            let _kept = self.outcomes.wait(rt, kept);
        }
        unreachable!()
    }

    /// Limits the memory that the pages of workers may take, in bytes as `Page::size` counts them.
    /// A worker fails a page past it with `NoMemory` (5), as if out of memory. Workers make pages
    /// side by side only while the unfinished ones fit as well. Without a call of this there is no
    /// limit.
    pub fn limit_memory(&self, bytes: u64) {
        self.memory.set_limit(bytes);
    }

    /// Returns how many pages workers failed because they were past the limit of memory.
    pub fn pages_past_limit(&self) -> u64 {
        self.memory.refused()
    }

    /// Returns how many workers stopped so far because memory ran out.
    pub fn stopped_workers(&self) -> u64 {
        self.memory.stopped()
    }

    /// The memory that the pages of workers take.
    pub(crate) fn memory(&self) -> &PageMemory {
        &self.memory
    }

    /// Returns the number of places in each state. They are those of a legal record, which begins
    /// with the one that the desk was opened with.
    pub fn status<W: Wait>(&self, rt: &W) -> Status
        ensures { IsStatusAfter self.now result }
    {
        self.kept.lock(rt).status_after(&self.opened)
    }

    /// Returns the number of places in each state and the number of pages found. They are those of
    /// one legal record, which begins with the one that the desk was opened with.
    pub fn outcomes<W: Wait>(&self, rt: &W) -> Outcomes
        ensures { AreOutcomesAfter self.now result }
    {
        self.kept.lock(rt).outcomes_after(&self.opened)
    }

    /// Returns how much of the record is published: all of it, unless a publication ran out of
    /// memory. The record is legal, and begins with the one that the desk was opened with.
    pub fn published<W: Wait>(&self, rt: &W) -> Published
        ensures { Later self.now (IsPublishedOf result) }
    {
        self.kept.lock(rt).published_after(&self.opened)
    }

    /// Returns a copy of the record: every event so far, oldest first. Each shares its opening or
    /// its page with the crawl. The record is legal, and begins with the one that the desk was
    /// opened with. Workers wait for the copy, a few milliseconds for 100,000 events.
    ///
    /// # Errors
    /// `NoMemory` (90).
    pub fn record<W: Wait>(&self, rt: &W, alloc: Global) -> Result<Vec<Event>, NoMemory>
        ensures { IfOk result (λ events. IsRecordAfter self.now events.items) }
    {
        self.kept.lock(rt).record_after(alloc, &self.opened)
    }

    /// Returns the number of places in each state. They are those of the record that the share then
    /// has seen.
    pub fn status_for<W: Wait>(&self, rt: &W, share: &mut Share<C>) -> Status
        ensures status { IsStatusOf result share.new.seen }
        ensures share { Rises 0 share.old share.new }
        ensures missed { share.new.missed ≡ share.old.missed }
    {
        self.kept.lock(rt).status_for(share)
    }
}
