//! `work`: one worker, which claims places, fetches them and hands in their pages.

ghost use Rattle.std.specs.Prelude.{◌≡◌};
ghost use mathlib.Core.List.{IsPrefix};
ghost use Rattle.std.specs.Arc.{arc_value};
ghost use Rattle.gopher_catalogue.specs.declared.event.EventData.TheVariants.{Found};
ghost use Rattle.gopher_crew.specs.Admitted.{MayAdd, IsPlaceIn};
ghost use Rattle.gopher_crew.specs.Rounds.{AddsPageIf, AdmitsFetched, HandsIn, MayHandIn};
ghost use Rattle.gopher_crew.specs.Work.{found_with, failed_with, IsStop, ReportsOf, WorksOnce, RoundsFrom, WorksOn};

pub mod crawling;
pub mod fetch;
pub mod memory;
pub mod merge_job;
pub mod merging;
pub mod settling;

use crate::crew::{Admits, Crew};
use crate::desk::Desk;
use crate::desk::share::Share;
use crate::working::fetch::Fetch;
use crate::working::settling::settle_shared;
use gopher_catalogue::{Claim, Turn, Why};
use gopher_page::Page;
use gopher_text::MAX_REPLY;
use std::alloc::Global;
use std::fmt;
use std::sync::Wait;

/// Why a worker stopped.
#[derive(Clone, Copy, Debug, PartialEq, Eq)]
pub enum Stop {
    /// The crawl is finished: no place waits and none is out.
    Finished,
    /// A place waits, but its claim ran out of memory.
    NoMemory,
}

/// A worker that stopped: what it worked with, and what it did.
#[derive(Drop)]
pub struct WorkEnd<F: Drop, C: Crew> {
    /// The fetcher that it was given.
    pub fetcher: F,
    /// The share that it was given, which counts the worker's events too.
    pub share: Share<C>,
    /// The number of pages that it handed in.
    pub found: u32,
    /// The number of places that it failed.
    pub failed: u32,
    /// Why it stopped.
    pub stop: Stop,
}

impl<F: Drop, C: Crew> fmt::Debug for WorkEnd<F, C> {
    fn fmt<W: fmt::Write>(&self, f: &mut fmt::Formatter<W>) -> fmt::Result {
        f.debug_struct("WorkEnd")
            .field("share", &self.share)
            .field("found", &self.found)
            .field("failed", &self.failed)
            .field("stop", &self.stop)
            .finish_non_exhaustive()
    }
}

// What became of a place that was claimed. `Failed` has the reason that the record has. `Refused`:
// the desk refused its page and its failure, because it was no longer out.
#[derive(Clone, Copy)]
enum Outcome {
    Found,
    Failed(Why),
    Refused,
}

// Hands in a page, if there is memory for it. Returns whether it was added.
#[tactic(auto, using(crate::proofs::Rounding::adds_found))]
fn hand_in_page<C: Crew, R: Wait + Drop, A: Admits, W: Wait>(
    rt: &W,
    desk: &Desk<C, R, A>,
    share: &mut Share<C>,
    number: u32,
    page: Page,
) -> bool
    requires { MayAdd A.admits share.old.seen (Found number page) }
    ensures { AddsPageIf result number page share.old share.new }
{
    let size = page.size() as u64;
    if !desk.memory().take(size) {
        return false;
    }
    match desk.found(rt, share, number, page) {
        Ok(_reply) => true,
        Err(_refused) => {
            desk.memory().give_back(size);
            false
        }
    }
}

// Hands in the page of a place, or fails it. It also fails a place whose page is refused, which
// would stay out otherwise.
#[tactic(auto, using(crate::proofs::Admitting::may_add_later, crate::proofs::Rounding::adds_failed, crate::proofs::Rounding::adds_failed_after, crate::proofs::Rounding::not_out, crate::proofs::Rounding::not_out_after))]
fn hand_in<C: Crew, R: Wait + Drop, A: Admits, W: Wait>(
    rt: &W,
    desk: &Desk<C, R, A>,
    share: &mut Share<C>,
    number: u32,
    settled: Result<Page, Why>,
) -> Outcome
    requires { MayHandIn A.admits number settled share.old.seen }
    ensures { HandsIn result number settled share.old share.new }
{
    let why = match settled {
        Ok(page) => {
            if hand_in_page(rt, desk, share, number, page) {
                return Outcome::Found;
            }
            Why::NoMemory
        }
        Err(why) => why,
    };
    match desk.fail(rt, share, number, why) {
        Ok(_note) => Outcome::Failed(why),
        Err(_refused) => Outcome::Refused,
    }
}

// Counts an outcome as found or failed.
fn count<F: Drop, C: Crew>(outcome: Outcome, worker: &mut WorkEnd<F, C>)
    ensures found { worker.new.found ≡ found_with outcome worker.old.found }
    ensures failed { worker.new.failed ≡ failed_with outcome worker.old.failed }
    ensures share { worker.new.share ≡ worker.old.share }
    ensures fetcher { worker.new.fetcher ≡ worker.old.fetcher }
{
    match outcome {
        Outcome::Found => worker.found = worker.found.saturating_add(1),
        Outcome::Failed(_) => worker.failed = worker.failed.saturating_add(1),
        Outcome::Refused => {}
    }
}

// Tells a fetcher what was recorded of a claim.
fn tell<W, F: Fetch<W>>(rt: &W, fetcher: &F, claim: &Claim, outcome: Outcome) {
    match outcome {
        Outcome::Found => fetcher.recorded(rt, claim.number, &claim.place, None),
        Outcome::Failed(why) => fetcher.recorded(rt, claim.number, &claim.place, Some(why)),
        Outcome::Refused => {}
    }
}

// Fetches a place that was claimed, waits for room, makes its page, hands it in or fails the place,
// counts what became of it, and tells the fetcher.
fn fetch_and_report<C: Crew, R: Wait + Drop, A: Admits, W: Wait, F: Fetch<W> + Drop>(
    rt: &W,
    alloc: Global,
    desk: &Desk<C, R, A>,
    claim: &Claim,
    worker: &mut WorkEnd<F, C>,
)
    requires admitted { AdmitsFetched A.admits F.fetches desk.now }
    requires known { IsPlaceIn worker.old.share.seen claim.now.number (arc_value claim.now.place) }
    ensures { ReportsOf F.fetches F.called desk.now claim.now worker.old worker.new }
{
    let fetched = worker.fetcher.fetch(rt, alloc, &claim.place, MAX_REPLY);
    let room = desk.memory().room_for(rt, &fetched);
    let settled = settle_shared(alloc, desk.opening().scope(), &claim.place, fetched);
    let outcome = hand_in(rt, desk, &mut worker.share, claim.number, settled);
    desk.memory().leave(room);
    count(outcome, worker);
    tell(rt, &worker.fetcher, claim, outcome);
}

impl<F: Drop, C: Crew> WorkEnd<F, C> {
    /// A worker that did nothing yet.
    pub(crate) fn idle(fetcher: F, share: Share<C>) -> WorkEnd<F, C>
        ensures fetcher { result.fetcher ≡ fetcher }
        ensures share { result.share ≡ share }
    {
        WorkEnd {
            fetcher,
            share,
            found: 0,
            failed: 0,
            stop: Stop::NoMemory,
        }
    }
}

// Claims the next place, fetches it and reports its outcome. Returns why the worker stops if there
// is no place to claim.
#[tactic(auto, using(crate::proofs::Rounding::round_of, crate::proofs::Admitting::claimed_place))]
fn work_once<C: Crew, R: Wait + Drop, A: Admits, W: Wait, F: Fetch<W> + Drop>(
    rt: &W,
    alloc: Global,
    desk: &Desk<C, R, A>,
    worker: &mut WorkEnd<F, C>,
) -> Option<Stop>
    requires { AdmitsFetched A.admits F.fetches desk.now }
    ensures { WorksOnce F.fetches F.called desk.now worker.old worker.new result }
{
    match desk.next(rt, alloc, &mut worker.share) {
        Ok(Turn::Take(claim)) => {
            fetch_and_report(rt, alloc, desk, &claim, worker);
            None
        }
        Ok(Turn::Idle) => unreachable!(),
        Ok(Turn::Finished) => Some(Stop::Finished),
        Err(_refused) => {
            desk.memory().stop_worker();
            Some(Stop::NoMemory)
        }
    }
}

/// Does what `work` does, with a worker in its place. Its counts begin at 0.
pub(crate) fn run<C: Crew, R: Wait + Drop, A: Admits, W: Wait, F: Fetch<W> + Drop>(
    rt: &W,
    alloc: Global,
    desk: &Desk<C, R, A>,
    worker: &mut WorkEnd<F, C>,
)
    requires { AdmitsFetched A.admits F.fetches desk.now }
    ensures { WorksOn F.fetches F.called desk.now worker.old worker.new }
{
    worker.found = 0;
    worker.failed = 0;
    for _round in rt.forever() {
        if let Some(stop) = work_once(rt, alloc, desk, worker) {
            worker.stop = stop;
            return;
        }
    }
    unreachable!()
}

/// Works at a desk until the crawl is finished: claims a place, fetches it, makes its page, and
/// hands the page in or reports why there is none. It holds no lock while it fetches. If places are
/// out but none waits, it waits for another outcome.
///
/// It works in rounds (`Round`). Each claims the first waiting place, fetches just that place once,
/// at most 1,048,576 bytes (`MAX_REPLY`), and adds the event that records the outcome: the page of
/// the bytes, or the reason why there are none. A page that doesn't fit in memory is failed with
/// `NoMemory`. The fetcher is told which event it is. If the number is no longer out, which happens
/// only if another caller reports it, the round adds nothing. So the share rises by two for each
/// place found or failed, and by at most two for each call of the fetcher.
///
/// The desk's rule must admit each outcome that the fetcher may have (`Admits`).
pub fn work<C: Crew, R: Wait + Drop, A: Admits, W: Wait, F: Fetch<W> + Drop>(
    rt: &W,
    alloc: Global,
    desk: &Desk<C, R, A>,
    fetcher: F,
    share: Share<C>,
) -> WorkEnd<F, C>
    requires { AdmitsFetched A.admits F.fetches desk.now }
    ensures stop { IsStop result.stop result.share }
    ensures rounds { RoundsFrom F.fetches F.called desk.now (fetcher, share) result }
    ensures parts { result.share.parts ≡ share.parts }
    ensures seen { IsPrefix share.seen result.share.seen }
{
    let mut worker = WorkEnd::idle(fetcher, share);
    run(rt, alloc, desk, &mut worker);
    worker
}
