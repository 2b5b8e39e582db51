//! Crawls by workers that wait for each other, and one that is long. How several workers crawl and
//! merge many pages is shown by tests/crawling.py.
ghost use Rattle.std.specs.Prelude.{◌≡◌, []};
ghost use Rattle.gopher_crew.specs.Desk.{IsBlankOf};

use crate::fetcher::{Fetcher, Host};
use crate::indexes::steps_of;
use crate::opening::{book_of, crawl, opened, push, query};
use crate::workers::TWO_FILES;
use gopher_catalogue::{Catalogue, Event};
use gopher_crew::{self, Blank, Calls, Crew, Share, Stop, WorkEnd, work};
use std::alloc::{AllocError, Global};
use std::marker::Brand;
use std::process::Abort;
use std::sync::Wait;
use std::thread::Threads;

// How many crawls of a root alone follow each other.
const CRAWLS: u32 = 2_000;

// A fetcher of an empty root for each share, which was called as often as its number.
fn pairs<'a, C: Crew, R: Abort + AllocGlobal>(
    rt: &R,
    host: &'a Host<'a>,
    shares: Vec<Share<C>>,
) -> Vec<(Fetcher<'a>, Share<C>)> {
    let mut pairs = Vec::new(rt.alloc());
    for (number, share) in (0..2u64).zip(shares) {
        push(rt, &mut pairs, (Fetcher::new(host, number), share));
    }
    pairs
}

// The shares of workers, which have to be in the order of the pairs, with a call for each place that
// they found.
fn shares_of<C: Crew, R: Abort + AllocGlobal>(
    rt: &R,
    ends: Vec<WorkEnd<Fetcher<'_>, C>>,
) -> Vec<Share<C>> {
    let mut shares = Vec::new(rt.alloc());
    for (number, end) in (0..2u64).zip(ends) {
        let calls = number.saturating_add(u64::from(end.found));
        assert!(rt; end.stop == Stop::Finished && end.fetcher.calls() == calls);
        push(rt, &mut shares, end.share);
    }
    shares
}

// Crawls a root by two workers. The last to hear of the end may just be about to wait for it.
fn crawl_root<C: Crew + Send + Sync, R: Threads + Wait + Abort + AllocGlobal + Sync>(
    rt: &R,
    blank: Blank,
)
    requires blank { IsBlankOf C.name C.parts C.history blank }
    requires begun { blank.begun ≡ [] }
{
    let host = Host::new(b".\r\n");
    let begun = crawl(rt.alloc(), b"h", 10, 1).expect(rt, "no crawl");
    let (desk, _passes, shares) = opened::<C, R>(rt, false, blank, begun, 2);
    let ends = gopher_crew::crawl(rt, rt.alloc(), &desk, pairs(rt, &host, shares)).ok();
    let shares = shares_of(rt, ends.expect(rt, "no crawl"));
    let closed = desk.close(shares).ok().expect(rt, "the desk isn't closed");
    assert!(rt; closed.status().done == 1);
}

#[test]
fn idle_workers_hear_of_each_end(rt: HostRuntime) {
    for _crawl in 0..CRAWLS {
        crawl_root::<Brand, _>(&rt, Blank::new());
    }
}

// How many crawls with a limit of memory follow each other.
const LIMITED_CRAWLS: u32 = 200;

// A text whose page counts less than the text does while its page is made.
const MOONS: &[u8] =
    b"moon moon moon moon moon moon moon moon moon moon moon moon moon moon\r\n.\r\n";

// What a crawl of a root with two such texts finds within a limit of memory, by two workers: how
// many pages, and how many bytes they count.
fn found_within<C: Crew + Send + Sync, R: Threads + Wait + Abort + AllocGlobal + Sync>(
    rt: &R,
    blank: Blank,
    limit: u64,
) -> (u64, u64)
    requires blank { IsBlankOf C.name C.parts C.history blank }
    requires begun { blank.begun ≡ [] }
{
    let mut host = Host::new(TWO_FILES);
    host.first = MOONS;
    host.rest = Some(MOONS);
    let begun = crawl(rt.alloc(), b"h", 10, 1).expect(rt, "no crawl");
    let (desk, _passes, shares) = opened::<C, R>(rt, false, blank, begun, 2);
    desk.limit_memory(limit);
    let ends = gopher_crew::crawl(rt, rt.alloc(), &desk, pairs(rt, &host, shares)).ok();
    let _ends = ends.expect(rt, "no crawl");
    let outcomes = desk.outcomes(rt);
    let events = desk.record(rt, rt.alloc()).expect(rt, "a record");
    let mut size = 0u64;
    for event in &events {
        if let Event::Found(_, page) = event {
            size = size.saturating_add(page.size() as u64);
        }
    }
    let past = desk.pages_past_limit();
    assert!(rt; outcomes.status.done == 3 && outcomes.found.saturating_add(past) == 3);
    (outcomes.found, size)
}

// What such a crawl finds, with a blank of its own.
fn limited<R: Threads + Wait + Abort + AllocGlobal + Sync>(rt: &R, limit: u64) -> (u64, u64) {
    found_within::<Brand, _>(rt, Blank::new(), limit)
}

// An unfinished page of a text counts more than all finished pages together, so it is made alone.
#[test]
fn pages_within_the_limit_are_found(rt: HostRuntime) {
    let (found, size) = limited(&rt, u64::MAX);
    assert!(rt; found == 3);
    for _crawl in 0..LIMITED_CRAWLS {
        let (found, same) = limited(&rt, size);
        assert!(rt; found == 3 && same == size);
        let (found, less) = limited(&rt, size.saturating_sub(1));
        assert!(rt; found == 2 && less < size);
    }
}

// How many files there are: with the root 163 runs of 64 pages, of which the last is due when the
// crawl is finished. Without workers an index merges its pages at 512 loose ones.
const FILES: u32 = 10_431;

// The steps of a search for five words in the segments that are published then: two of 4,096 pages,
// two of 1,024, and three of 64.
const STEPS: u32 = 1 + 7 * (5 + 1) + 1;

// The menu of the files.
fn menu(alloc: Global) -> Result<Vec<u8>, AllocError> {
    let mut menu = Vec::new(alloc);
    for number in 0..FILES {
        let line = format!(in alloc; "0A\t/{number}\th\t70\r\n")?;
        menu.extend_from_slice(line.as_bytes())?;
    }
    Ok(menu)
}

// Crawls the files by one worker, and returns the catalogue.
fn crawl_files<C: Crew, R: Wait + Abort + AllocGlobal>(
    rt: &R,
    blank: Blank,
    menu: &[u8],
) -> Catalogue
    requires blank { IsBlankOf C.name C.parts C.history blank }
    requires begun { blank.begun ≡ [] }
{
    let host = Host::new(menu);
    let begun = crawl(rt.alloc(), b"h", 20_000, 1).expect(rt, "no crawl");
    let (desk, mut passes, mut shares) = opened::<C, R>(rt, false, blank, begun, 1);
    let mut pass = passes.pop().expect(rt, "no pass");
    let share = shares.pop().expect(rt, "no share");
    let end = work(rt, rt.alloc(), &desk, Fetcher::new(&host, 0), share);
    assert!(rt; end.stop == Stop::Finished && desk.status(rt).done == FILES + 1);
    let answer = pass
        .search(&query(rt, false, b"moon"))
        .expect(rt, "a search");
    assert!(rt; answer.at == 2 * FILES + 3 && answer.hits.len() == 50);
    let begun = pass
        .begin(&query(rt, false, b"a b c d e"))
        .expect(rt, "a search");
    assert!(rt; steps_of(rt, begun) == STEPS);
    push(rt, &mut shares, end.share);
    desk.close(shares).ok().expect(rt, "the desk isn't closed")
}

#[test]
fn pages_that_were_merged_are_found(rt: HostRuntime) {
    let menu = menu(rt.alloc()).expect(&rt, "a menu");
    let closed = crawl_files::<Brand, _>(&rt, Blank::new(), &menu);
    let mut index = closed.index().share(rt.alloc()).expect(&rt, "an index");
    assert!(rt; matches!(index.due(), Ok(None)));
    let book = book_of(&rt, false, closed.record());
    let hits = book
        .search(&query(&rt, false, b"moon"))
        .expect(&rt, "a search");
    let places = book.occurrences(b"moon").expect(&rt, "a list");
    assert!(rt; hits.len() == 50 && places.len() == FILES as usize);
}
