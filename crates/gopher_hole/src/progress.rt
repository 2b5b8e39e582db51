//! What a crawl prints of itself as it goes on and at its end.

ghost use Rattle.std.specs.Prelude.{IfOk};
ghost use Rattle.gopher_hole.specs.Shares.{KeepsAllParts};

pub mod dropped;
pub mod ending;
pub mod listing;
pub mod outs;
pub mod telling;
pub mod urls;

use crate::fetching::{CrawlFetch, CrawlState};
use crate::progress::dropped::most_dropped;
use crate::progress::ending::CrawlEnd;
use crate::progress::listing::write_list;
use crate::progress::outs::Outs;
use crate::progress::telling::{Sizes, StoppedWorkers, is_limit_due, newly_stopped};
use crate::progress::urls::{HostPort, PlaceUrl};
use gopher_catalogue::{Event, Status};
use gopher_crew::{CrawlRefused, Crew, Desk, Outcomes, Share, WorkEnd, crawl};
use gopher_item::NoMemory;
use std::alloc::Global;
use std::fs::Files;
use std::io::{self, Eprint, ErrorKind};
use std::net::{Net, TcpListener, TcpStream};
use std::sync::Wait;
use std::sync::atomic::{AtomicBool, Ordering};
use std::thread::{self, Threads};
use std::time::{Clock, Duration, Instant};

// The sizes are printed again after this many rests.
const RESTS: u32 = 100;

// The milliseconds of a rest.
const REST: u64 = 100;

// The most places that are printed as slow at once: more than a crawl has workers.
const MAX_SLOW: u32 = 32;

/// What a crawl prints.
#[derive(Clone, Copy)]
pub struct Reporting<'a> {
    /// What its workers share. Its failures say whether anything but the list is told.
    pub state: &'a CrawlState,
    /// The path of the list of the places that were found; `None` if none is written.
    pub list_found: Option<&'a str>,
}

// Prints the sizes of a crawl on the error stream. Takes no memory, so that a crawl is seen to end
// when memory is gone.
fn tell(rt: &impl Eprint, sizes: Sizes) {
    let Sizes { status, failed } = sizes;
    let Status {
        known,
        waiting,
        out,
        done,
        dropped,
    } = status;
    let _ = eprintln!(rt;
        "known {known} waiting {waiting} out {out} done {done} dropped {dropped} failed {failed}"
    );
}

// Prints on the error stream that the crawl reached its limit of memory, if it did and that wasn't
// told. Returns whether it is told now.
fn tell_limit<C: Crew, R: Wait + Drop>(rt: &impl Eprint, desk: &Desk<C, R>, is_told: bool) -> bool {
    let is_due = is_limit_due(is_told, desk.pages_past_limit());
    if is_due {
        let _ = rt.eprintln("hole: the crawl reached --crawl-memory: it leaves pages out");
    }
    is_told || is_due
}

// Prints on the error stream how many workers stopped because memory ran out, if they are more than
// `told`. Returns how many are told now.
fn tell_stopped<C: Crew, R: Wait + Drop>(rt: &impl Eprint, desk: &Desk<C, R>, told: u64) -> u64 {
    match newly_stopped(told, desk.stopped_workers()) {
        Some(count) => {
            let stopped = StoppedWorkers { count };
            let _ = eprintln!(rt; "{stopped}");
            count
        }
        None => told,
    }
}

// Prints on the error stream each place that has been out for longer than ten seconds and wasn't
// printed before.
fn tell_slow<W: Wait + Clock>(rt: &W, stream: &impl Eprint, outs: &Outs) {
    let Ok(now) = Instant::now(rt) else {
        return;
    };
    for _place in 0..MAX_SLOW {
        let Some((place, seconds)) = outs.take_slow(rt, now) else {
            return;
        };
        let url = PlaceUrl::of(&place);
        let _ = eprintln!(stream; "hole: slow: {seconds} s {url}");
    }
}

// Waits until the crawl is over, for ten seconds at most, and returns whether it is. Prints at once
// if workers stop or places become slow; `stopped` is how many workers had stopped.
fn wait_for_end<C: Crew, R: Wait + Drop, W: Wait + Clock + Eprint>(
    rt: &W,
    desk: &Desk<C, R>,
    state: &CrawlState,
    is_over: &AtomicBool,
    stopped: &mut u64,
) -> bool {
    let stream = state.stream(rt);
    for _rest in 0..RESTS {
        let was_over = is_over.load(Ordering::SeqCst);
        *stopped = tell_stopped(&stream, desk, *stopped);
        if was_over {
            return true;
        }
        tell_slow(rt, &stream, &state.outs);
        thread::sleep(rt, Duration::from_millis(REST));
    }
    false
}

// Prints the sizes every ten seconds if they or the number of failed places have changed, and once
// the crawl is over. Prints at once if workers stop or places become slow, and once if the crawl
// reaches its limit of memory.
fn tell_until_over<C: Crew, R: Wait + Drop, W: Wait + Clock + Eprint>(
    rt: &W,
    desk: &Desk<C, R>,
    state: &CrawlState,
    is_over: &AtomicBool,
) {
    let stream = state.stream(rt);
    let mut told = None;
    let mut is_limit_told = false;
    let mut stopped = 0;
    for _round in rt.forever() {
        let was_over = wait_for_end(rt, desk, state, is_over, &mut stopped);
        let sizes = Sizes::of(desk.outcomes(rt));
        if sizes.are_due(told) {
            tell(&stream, sizes);
            told = Some(sizes);
        }
        is_limit_told = tell_limit(&stream, desk, is_limit_told);
        if was_over {
            state.failures.tell_unprinted(&stream);
            return;
        }
    }
    unreachable!()
}

// Prints on the error stream which host's menus named most of the dropped links.
fn tell_dropped(rt: &impl Eprint, alloc: Global, events: &[Event]) {
    if let Ok(Some(most)) = most_dropped(alloc, events) {
        let (host, links) = (HostPort::of(&most.host), most.links);
        let _ = eprintln!(rt; "hole: dropped links: most of them in menus of {host} ({links})");
    }
}

// Prints on the error stream how a crawl ended that began then.
fn tell_end<C: Crew, R: Wait + Drop, W: Wait + Clock + Eprint>(
    rt: &W,
    alloc: Global,
    desk: &Desk<C, R>,
    state: &CrawlState,
    events: &Result<Vec<Event>, NoMemory>,
    began: io::Result<Instant>,
) {
    let stream = state.stream(rt);
    let Outcomes { status, found } = desk.outcomes(rt);
    let end = CrawlEnd {
        status,
        found,
        stopped: desk.stopped_workers(),
        seconds: seconds_since(rt, began),
    };
    let _ = eprintln!(stream; "hole: crawl {end}");
    if let Ok(events) = events
        && status.dropped > 0
    {
        tell_dropped(&stream, alloc, events);
    }
}

// The whole seconds since then; 0 if the clock can't be read.
fn seconds_since(rt: &impl Clock, began: io::Result<Instant>) -> u64 {
    match (began, Instant::now(rt)) {
        (Ok(began), Ok(now)) => now.duration_since(began).as_secs(),
        _ => 0,
    }
}

// Writes the list of the places that were found. If that fails, prints why on the error stream.
fn list_found<W: Files>(
    rt: &W,
    stream: &impl Eprint,
    alloc: Global,
    events: &Result<Vec<Event>, NoMemory>,
    path: &str,
) {
    let written = match events {
        Ok(events) => write_list(rt, alloc, events, path),
        Err(_refused) => Err(io::Error::from(ErrorKind::OutOfMemory)),
    };
    if let Err(error) = written {
        let _ = eprintln!(stream;
            "hole: the list of found places can't be written: {path}: {error}"
        );
    }
}

// Prints how a crawl ended that began then, and writes the list of the places that it found.
fn report_end<C: Crew, R: Wait + Drop, W: Wait + Clock + Eprint + Files>(
    rt: &W,
    alloc: Global,
    desk: &Desk<C, R>,
    reporting: Reporting<'_>,
    began: io::Result<Instant>,
) {
    let state = reporting.state;
    let are_told = state.failures.are_told;
    if !are_told && reporting.list_found.is_none() {
        return;
    }
    let events = desk.record(rt, alloc);
    if are_told {
        tell_end(rt, alloc, desk, state, &events, began);
    }
    if let Some(path) = reporting.list_found {
        list_found(rt, &state.stream(rt), alloc, &events, path);
    }
}

// Crawls. If the workers begin with all parts of the desk's ledger, they end with all of them.
#[tactic(auto, using(crate::proofs::Parts::keeps_all))]
fn crawl_whole<
    'a,
    C: Crew + Send + Sync,
    R: Wait + Drop + Send + Sync,
    W: Net<Listener = TcpListener, Stream = TcpStream> + Threads + Wait + Clock + Eprint + Sync,
>(
    rt: &W,
    alloc: Global,
    desk: &Desk<C, R>,
    pairs: Vec<(CrawlFetch<'a>, Share<C>)>,
) -> Result<Vec<WorkEnd<CrawlFetch<'a>, C>>, CrawlRefused<CrawlFetch<'a>, C>>
    ensures { IfOk result (λ ends. KeepsAllParts pairs.entry.items ends.items) }
{
    crawl(rt, alloc, desk, pairs)
}

// Crawls, and then prints that the crawl reached its limit of memory, if it did.
fn crawl_alone<
    'a,
    C: Crew + Send + Sync,
    R: Wait + Drop + Send + Sync,
    W: Net<Listener = TcpListener, Stream = TcpStream> + Threads + Wait + Clock + Eprint + Sync,
>(
    rt: &W,
    alloc: Global,
    desk: &Desk<C, R>,
    pairs: Vec<(CrawlFetch<'a>, Share<C>)>,
    state: &CrawlState,
) -> Result<Vec<WorkEnd<CrawlFetch<'a>, C>>, CrawlRefused<CrawlFetch<'a>, C>>
    ensures { IfOk result (λ ends. KeepsAllParts pairs.entry.items ends.items) }
{
    let crawled = crawl_whole(rt, alloc, desk, pairs);
    tell_limit(&state.stream(rt), desk, false);
    crawled
}

// Crawls, and prints the sizes of the crawl beside it.
fn crawl_beside<
    'a,
    C: Crew + Send + Sync,
    R: Wait + Drop + Send + Sync,
    W: Net<Listener = TcpListener, Stream = TcpStream> + Threads + Wait + Clock + Eprint + Sync,
>(
    rt: &W,
    alloc: Global,
    desk: &Desk<C, R>,
    pairs: Vec<(CrawlFetch<'a>, Share<C>)>,
    state: &CrawlState,
) -> Result<Vec<WorkEnd<CrawlFetch<'a>, C>>, CrawlRefused<CrawlFetch<'a>, C>>
    ensures { IfOk result (λ ends. KeepsAllParts pairs.entry.items ends.items) }
{
    let over = AtomicBool::new(false);
    let is_over = &over;
    let (_told, crawled) = thread::join(
        rt,
        move || tell_until_over(rt, desk, state, is_over),
        move || {
            let crawled = crawl_whole(rt, alloc, desk, pairs);
            is_over.store(true, Ordering::SeqCst);
            crawled
        },
    );
    if crawled.is_err() {
        let stream = state.stream(rt);
        let _ = stream.eprintln("hole: the crawl can't start: out of memory");
    }
    crawled
}

/// Crawls as `gopher_crew::crawl` does, and prints on the error stream that the crawl reached its
/// limit of memory, if it did. If failures are printed, also prints the sizes of the crawl, with
/// the number of failed places, every ten seconds if they have changed, and at its end, the places
/// that are slow, and how the crawl ended. If the system refuses a thread for that, prints all this
/// only at the end. Then writes the list of the places that were found, if it is asked for.
pub fn crawl_and_tell<
    'a,
    C: Crew + Send + Sync,
    R: Wait + Drop + Send + Sync,
    W: Net<Listener = TcpListener, Stream = TcpStream>
        + Threads
        + Wait
        + Clock
        + Eprint
        + Files
        + Sync,
>(
    rt: &W,
    alloc: Global,
    desk: &Desk<C, R>,
    pairs: Vec<(CrawlFetch<'a>, Share<C>)>,
    reporting: Reporting<'_>,
) -> Result<Vec<WorkEnd<CrawlFetch<'a>, C>>, CrawlRefused<CrawlFetch<'a>, C>>
    ensures { IfOk result (λ ends. KeepsAllParts pairs.entry.items ends.items) }
{
    let began = Instant::now(rt);
    let state = reporting.state;
    let crawled = if state.failures.are_told {
        crawl_beside(rt, alloc, desk, pairs, state)
    } else {
        crawl_alone(rt, alloc, desk, pairs, state)
    };
    if crawled.is_ok() {
        report_end(rt, alloc, desk, reporting, began);
    }
    crawled
}
