//! How a program of your own uses the library. First `smallest.rt`: one catalogue crawls three
//! replies in memory, and is searched. Then a desk over such a catalogue: workers crawl, two passes
//! search, and the desk is closed. That is done twice, with one worker and with two. `both` proves
//! that both crawls answer alike.
//!
//! What a desk is opened with:
//!
//! - A catalogue: a scope, the seeds, and the limits of places and tries.
//! - How many passes search it, and how many shares, one for each worker.
//! - A `Blank`, which names the crew. Contracts use the name to say which crew a record belongs to.
//!   A new blank has no events, and names of its own, so a caller needs two things. The functions
//!   that take the blank are generic in the crew `C` and repeat the two conditions of
//!   `Desk::open`. `both` makes the blanks and calls them with `C` as `Brand`, and `proofs/both`
//!   picks the names of each blank as those of `Brand`.
//! - The rule of the outcomes that it takes, `Told` (`table.rt`). A desk without a rule takes any.
#![tactic(auto)]

ghost use Rattle.std.specs.Prelude.{◌≡◌, [], IfOk, IsTrue};
ghost use Rattle.std.specs.List.{list_any};
ghost use mathlib.Core.List.{IsPrefix};
ghost use Rattle.gopher_catalogue.specs.EventOf.{event_data};
ghost use Rattle.gopher_catalogue.specs.Closure.{FinalAnswer};
ghost use Rattle.gopher_crew.specs.Admitted.{AllAdmitted};
ghost use Rattle.gopher_crew.specs.Pass.{hits_of};
ghost use Rattle.gopher_crew.specs.Desk.{IsBlankOf};
ghost use Rattle.example_crawl.specs.Table.{is_lack, table_of, AllMatch, AreFinal, HasScope};

mod burrow;
mod failed;
mod smallest;
mod table;

use burrow::{Burrow, Host, catalogue, scope, seeds};
use failed::Failed;
use gopher_catalogue::{Catalogue, Event, Hit, Why};
use gopher_crew::{Admits, Answer, Blank, Crew, Desk, Pass, Share, crawl};
use gopher_item::{Place, Scope};
use gopher_page::Query;
use smallest::{print_hits, print_status, searched};
use std::alloc::Global;
use std::marker::Brand;
use std::sync::Wait;
use std::thread::Threads;
use table::{Table, Told};

const PASSES: u32 = 2;

// Each worker has a fetcher of its own, and a share that counts its events.
fn pairs<C: Crew, T: Table>(
    alloc: Global,
    host: &Host,
    shares: Vec<Share<C>>,
) -> Result<Vec<(Burrow<T>, Share<C>)>, Failed>
    requires { host.now ≡ T.replies }
{
    let mut pairs = Vec::new(alloc);
    for share in shares {
        pairs.push((Burrow::of(host), share))?;
    }
    Ok(pairs)
}

// Crawls by all workers, side by side, and gives their shares back. The rule of the desk admits
// what their fetchers may fetch.
#[tactic(auto, using(crate::proofs::Telling::admits_fetched))]
fn crawled<C: Crew + Send + Sync, T: Table + Send + Sync, R: AllocGlobal + Threads + Wait + Sync>(
    rt: &R,
    desk: &Desk<C, &R, Told<T>>,
    host: &Host,
    shares: Vec<Share<C>>,
) -> Result<Vec<Share<C>>, Failed>
    requires replies { host.now ≡ T.replies }
    requires scope { HasScope desk.now T.scope }
{
    let pairs = pairs::<C, T>(rt.alloc(), host, shares)?;
    let Ok(ends) = crawl(rt, rt.alloc(), desk, pairs) else {
        return Err(Failed::Memory);
    };
    let mut shares = Vec::new(rt.alloc());
    for end in ends {
        shares.push(end.share)?;
    }
    Ok(shares)
}

// What two searches found, and the catalogue of the desk that was closed after them.
#[derive(Drop)]
struct Ending {
    first: Answer,
    second: Answer,
    catalogue: Catalogue,
}

// Searches by two passes, then closes the desk with all its shares, which show that no event is
// missing. Both answers and the catalogue are of one record: that of the catalogue begins with the
// record of each answer. A pass tells a share of its record, and `close` returns a catalogue whose
// record begins with all that the shares know of. The desk's rule admits each outcome in it.
//
// A search takes no lock: it could as well run in another thread, while the workers crawl.
fn search_and_close<C: Crew, R: Wait + Drop, A: Admits>(
    desk: Desk<C, R, A>,
    shares: Vec<Share<C>>,
    first: &mut Pass<C>,
    second: &mut Pass<C>,
    query: &Query,
) -> Result<Ending, Failed>
    ensures first { IfOk result (λ it. it.first.hits.items ≡ hits_of first.new.seen query.now) }
    ensures second { IfOk result (λ it. it.second.hits.items ≡ hits_of second.new.seen query.now) }
    ensures first_begins { IfOk result (λ it. IsPrefix first.new.seen it.catalogue) }
    ensures second_begins { IfOk result (λ it. IsPrefix second.new.seen it.catalogue) }
    ensures goes_on { IfOk result (λ it. IsPrefix desk it.catalogue) }
    ensures admitted { IfOk result (λ it. AllAdmitted A.admits it.catalogue) }
{
    let mut shares = shares;
    let Some(mut share) = shares.pop() else {
        return Err(Failed::Refused);
    };
    let Ok(found) = first.search(query) else {
        return Err(Failed::Refused);
    };
    let Ok(found_too) = second.search(query) else {
        return Err(Failed::Refused);
    };
    first.tell(&mut share);
    second.tell(&mut share);
    shares.push_reserved(share);
    let Ok(catalogue) = desk.close(shares) else {
        return Err(Failed::Refused);
    };
    Ok(Ending {
        first: found,
        second: found_too,
        catalogue,
    })
}

// The first two passes.
fn two_of<C: Crew>(passes: &mut [Pass<C>]) -> Option<(&mut Pass<C>, &mut Pass<C>)> {
    let (first, others) = passes.split_first_mut()?;
    Some((first, others.first_mut()?))
}

// Crawls, searches, and closes the desk.
fn closed<C: Crew + Send + Sync, T: Table + Send + Sync, R: AllocGlobal + Threads + Wait + Sync>(
    rt: &R,
    desk: Desk<C, &R, Told<T>>,
    passes: &mut [Pass<C>],
    host: &Host,
    shares: Vec<Share<C>>,
    query: &Query,
) -> Result<Ending, Failed>
    requires replies { host.now ≡ T.replies }
    requires scope { HasScope desk T.scope }
    ensures goes_on { IfOk result (λ it. IsPrefix desk.entry it.catalogue) }
    ensures matches { IfOk result (λ it. AllMatch T.scope T.replies it.catalogue) }
{
    let Some((first, second)) = two_of(passes) else {
        return Err(Failed::Refused);
    };
    let shares = crawled(rt, &desk, host, shares)?;
    search_and_close(desk, shares, first, second, query)
}

// Whether the event is a failure because memory ran out.
fn is_lack(event: &Event) -> bool
    ensures { result ≡ is_lack (event_data event.now) }
{
    match event {
        Event::Failed(_, Why::NoMemory) => true,
        _ => false,
    }
}

// Whether memory ran out at one of these events.
fn lacked_memory(events: &[Event]) -> bool
    ensures { result ≡ list_any (λ event. is_lack (event_data event)) events.now }
{
    events.iter().any(|event| is_lack(event))
}

// Searches a crawl that reached all that can be reached, and never ran out of memory. The hits are
// then the final ones of its host.
fn final_hits(catalogue: &Catalogue, query: &Query) -> Result<Vec<Hit>, Failed>
    ensures { IfOk result (λ hits. AreFinal catalogue.now query.now hits.items) }
{
    if !catalogue.is_finished() {
        return Err(Failed::Refused);
    }
    if catalogue.status().dropped != 0 {
        return Err(Failed::Refused);
    }
    if lacked_memory(catalogue.record()) {
        return Err(Failed::Memory);
    }
    let Ok(hits) = catalogue.search(query) else {
        return Err(Failed::Memory);
    };
    Ok(hits)
}

// What a crawl found: its two searches, and the search of its catalogue at the end.
#[derive(Drop)]
struct Report {
    ending: Ending,
    hits: Vec<Hit>,
}

// Opens a desk, and works at it. The hits are the final ones of the host, by whatever number of
// workers, and in whatever order they worked.
fn opened<C: Crew + Send + Sync, T: Table + Send + Sync, R: AllocGlobal + Threads + Wait + Sync>(
    rt: &R,
    blank: Blank,
    host: &Host,
    scope: Scope,
    seeds: Vec<Place>,
    workers: u32,
    query: &Query,
) -> Result<Report, Failed>
    requires blank { IsBlankOf C.name C.parts C.history blank }
    requires begun { blank.begun ≡ [] }
    requires replies { host.now ≡ T.replies }
    requires scope { scope ≡ T.scope }
    ensures { IfOk result (λ it. FinalAnswer scope seeds.items (table_of host.now) query.now
        it.hits.items) }
{
    let catalogue = catalogue(rt.alloc(), scope, seeds)?;
    match Desk::<C, &R, Told<T>>::open(rt, rt.alloc(), catalogue, PASSES, workers, blank) {
        Ok((desk, mut passes, shares)) => {
            let ending = closed(rt, desk, &mut passes, host, shares, query)?;
            let hits = final_hits(&ending.catalogue, query)?;
            Ok(Report { ending, hits })
        }
        Err(_refused) => Err(Failed::Refused),
    }
}

// Where a crawl begins, and by how many workers.
#[derive(Drop)]
struct Start {
    scope: Scope,
    seeds: Vec<Place>,
    workers: u32,
}

// Two crawls of one host that begin alike answer alike. Nothing is asked of how they ran: neither
// how many workers each had, nor in what order these worked.
fn both<R: AllocGlobal + Threads + Wait + Sync>(
    rt: &R,
    first: Start,
    second: Start,
    query: &Query,
) -> Result<(Report, Report), Failed>
    ensures { IfOk result (λ it. (first.scope ≡ second.scope)
        → (first.seeds.items ≡ second.seeds.items) → it.0.hits.items ≡ it.1.hits.items) }
{
    let host = Host::new();
    let one = opened::<Brand, Brand, R>(
        rt,
        Blank::new(),
        &host,
        first.scope,
        first.seeds,
        first.workers,
        query,
    )?;
    let other = opened::<Brand, Brand, R>(
        rt,
        Blank::new(),
        &host,
        second.scope,
        second.seeds,
        second.workers,
        query,
    )?;
    Ok((one, other))
}

// Prints what was found.
fn print_answers<R: Print>(rt: &R, one: &Report, other: &Report) -> Result<(), Failed> {
    print_hits(rt, &one.ending.first.hits)?;
    println!(rt; "{} in both answers", one.ending.second.hits.len())?;
    println!(rt; "{} by the other crawl", other.hits.len())?;
    Ok(())
}

// A crawl of the whole host by this number of workers.
fn from_root(alloc: Global, workers: u32) -> Result<Start, Failed> {
    Ok(Start {
        scope: scope(alloc)?,
        seeds: seeds(alloc)?,
        workers,
    })
}

fn main(rt: HostRuntime) -> Result<(), Failed> {
    let Ok(query) = Query::read(rt.alloc(), b"moon") else {
        return Err(Failed::Refused);
    };
    let Some(()) = searched(&rt, &query) else {
        return Err(Failed::Refused);
    };
    let first = from_root(rt.alloc(), 2)?;
    let second = from_root(rt.alloc(), 1)?;
    let (one, other) = both(&rt, first, second, &query)?;
    print_answers(&rt, &one, &other)?;
    print_status(&rt, &one.ending.catalogue)
}
