//! What a fetcher is told of its fetches, and how many pages were found at the end: pages that were
//! found, fetches that failed, and pages past the limit of memory.
ghost use Rattle.std.specs.Prelude.{◌≡◌, []};
ghost use Rattle.gopher_crew.specs.Desk.{IsBlankOf};
ghost use Rattle.gopher_crew.specs.Rounds.{one_more_call};

use crate::fetcher::{Fetcher, Host};
use crate::opening::{crawl, opened};
use crate::workers::TWO_FILES;
use gopher_catalogue::Why;
use gopher_crew::{Blank, Calls, Crew, Fetch, work};
use gopher_item::Place;
use std::alloc::Global;
use std::marker::Brand;
use std::process::Abort;
use std::sync::Wait;
use std::sync::atomic::{AtomicU64, Ordering};

// Fetches the replies of a host, and writes down what it is told: for each call the number of the
// place, the letter of its selector as a number from 1 (0 for the root), and 0 or the number of the
// reason why the place failed, behind the digits so far.
#[derive(Drop)]
struct Told<'a> {
    host: &'a Host<'a>,
    calls: u64,
    digits: AtomicU64,
}

impl<'a> Calls for Told<'a> {
    ghost called = { λ told. told.calls };

    ghost fetches = { λ old new place limit outcome. new.calls ≡ one_more_call old.calls };

    fn calls(&self) -> u64 {
        self.calls
    }
}

// The letter of a selector as a number from 1, or 0 if it is empty.
fn letter(selector: &[u8]) -> u64 {
    match selector {
        b"/a" => 1,
        b"/b" => 2,
        _ => 0,
    }
}

impl<'a, W> Fetch<W> for Told<'a> {
    fn fetch(
        &mut self,
        rt: &W,
        alloc: Global,
        place: &Place,
        limit: usize,
    ) -> Result<Vec<u8>, Why> {
        let mut fetcher = Fetcher::new(self.host, self.calls);
        self.calls = self.calls.saturating_add(1);
        fetcher.fetch(rt, alloc, place, limit)
    }

    fn recorded(&self, _rt: &W, number: u32, place: &Place, failed: Option<Why>) {
        let reason = match failed {
            None => 0,
            Some(why) => u64::from(why.code()),
        };
        let more = u64::from(number)
            .wrapping_mul(100)
            .wrapping_add(letter(place.selector()).wrapping_mul(10))
            .wrapping_add(reason);
        let so_far = self.digits.load(Ordering::SeqCst);
        let digits = so_far.wrapping_mul(1000).wrapping_add(more);
        self.digits.store(digits, Ordering::SeqCst);
    }
}

// How often a place may be claimed, the limit of memory, the digits behind a first digit 1, and at
// the end how many places have their last outcome, how many pages were found, and how many pages
// are past the limit.
#[derive(Clone, Copy)]
struct Row {
    tries: u32,
    limit: u64,
    digits: u64,
    done: u32,
    found: u64,
    past_limit: u64,
}

// The first fetch of `/a` can't be read (2). Past the limit the root has no memory (5).
const ROWS: [Row; 3] = [
    Row {
        tries: 1,
        limit: u64::MAX,
        digits: 1_000_112_220,
        done: 3,
        found: 2,
        past_limit: 0,
    },
    Row {
        tries: 2,
        limit: u64::MAX,
        digits: 1_000_112_220_110,
        done: 3,
        found: 3,
        past_limit: 0,
    },
    Row {
        tries: 1,
        limit: 1,
        digits: 1_005,
        done: 1,
        found: 0,
        past_limit: 1,
    },
];

// Crawls a root with two files, of which `/a` is read at the second fetch, by one worker.
fn crawl_told<C: Crew, R: Wait + Abort + AllocGlobal>(rt: &R, blank: Blank, row: &Row)
    requires blank { IsBlankOf C.name C.parts C.history blank }
    requires begun { blank.begun ≡ [] }
{
    let mut host = Host::new(TWO_FILES);
    host.late = 1;
    let begun = crawl(rt.alloc(), b"h", 10, row.tries).expect(rt, "no crawl");
    let (desk, _passes, mut shares) = opened::<C, R>(rt, false, blank, begun, 1);
    let share = shares.pop().expect(rt, "no share");
    desk.limit_memory(row.limit);
    let told = Told {
        host: &host,
        calls: 0,
        digits: AtomicU64::new(1),
    };
    let end = work(rt, rt.alloc(), &desk, told, share);
    assert!(rt; end.fetcher.digits.load(Ordering::SeqCst) == row.digits);
    let outcomes = desk.outcomes(rt);
    assert!(rt; outcomes.status == desk.status(rt) && outcomes.status.done == row.done);
    assert!(rt; outcomes.found == row.found);
    assert!(rt; desk.pages_past_limit() == row.past_limit);
}

#[test]
fn fetchers_are_told_what_is_recorded(rt: HostRuntime) {
    for row in &ROWS {
        crawl_told::<Brand, _>(&rt, Blank::new(), row);
    }
}
