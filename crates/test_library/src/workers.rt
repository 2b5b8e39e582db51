//! Small crawls by one worker and by two: what is found, how often places are claimed, and how the
//! workers end.
ghost use Rattle.std.specs.Prelude.{◌≡◌, ◌≤◌, [], length};
ghost use Rattle.gopher_crew.specs.Desk.{IsBlankOf};

use crate::fetcher::{Fetcher, Host, MOON};
use crate::opening::{crawl, opened, push, query};
use gopher_catalogue::{Catalogue, Event, Hit, Status};
use gopher_crew::{self, Blank, Calls, Crew, Pass, Share, Stop, WorkEnd, work};
use std::marker::Brand;
use std::process::Abort;
use std::sync::Wait;
use std::sync::atomic::AtomicU64;
use std::thread::Threads;

/// The menu of a root with two files.
pub const TWO_FILES: &[u8] = b"0A\t/a\th\t70\r\n0B\t/b\th\t70\r\n.\r\n";

// The menu of a root with one directory, and that directory's.
const ONE_DIRECTORY: &[u8] = b"1A\t/a\th\t70\r\n.\r\n";

const HOME_AND_FILE: &[u8] = b"1Home\t\th\t70\r\n0B\t/b\th\t70\r\n.\r\n";

/// The status of a crawl that is finished.
pub fn all_done(known: u32) -> Status {
    Status {
        known,
        waiting: 0,
        out: 0,
        done: known,
        dropped: 0,
    }
}

/// Whether the hits are places with these letters, in this order, with this title and score 1.
pub fn are_places(hits: &[Hit], letters: &[u8], title: &[u8]) -> bool {
    hits.len() == letters.len()
        && hits.iter().zip(letters).all(|(hit, letter)| hit.place.selector()
            == [b'/', *letter].as_slice()
            && hit.title.as_slice() == title
            && hit.score == 1)
}

/// A host, how often a place may be claimed, what is searched, and what is found: the letters of the
/// places, their title, the word of the title, and the length of the record.
#[derive(Clone, Copy)]
struct Row {
    root: &'static [u8],
    first: &'static [u8],
    rest: Option<&'static [u8]>,
    late: u64,
    is_held: bool,
    tries: u32,
    query: &'static [u8],
    letters: &'static [u8],
    title: &'static [u8],
    word: &'static [u8],
    events: usize,
}

const ROWS: [Row; 4] = [FILES, TWICE, UNREAD, CIRCLE];

const FILES: Row = Row {
    root: TWO_FILES,
    first: MOON,
    rest: Some(MOON),
    late: 0,
    is_held: false,
    tries: 1,
    query: b"moon",
    letters: b"ab",
    title: b"moon",
    word: b"moon",
    events: 7,
};

// The first fetch of `/a` fails: a second succeeds, if there may be one.
const TWICE: Row = Row {
    late: 1,
    tries: 2,
    events: 9,
    ..FILES
};

const UNREAD: Row = Row {
    late: 1,
    letters: b"b",
    ..FILES
};

// The fetch of `/a` is held until that of `/b` was answered: it takes two workers.
const HELD: Row = Row {
    is_held: true,
    ..FILES
};

// A root whose directory leads back to it, and to a file that can't be read.
const CIRCLE: Row = Row {
    root: ONE_DIRECTORY,
    first: HOME_AND_FILE,
    rest: None,
    query: b"b",
    letters: b"a",
    title: b"Home",
    word: b"home",
    ..FILES
};

// Whether a word occurs once in each of the places with these letters.
fn occurs<R: Abort>(rt: &R, catalogue: &Catalogue, word: &[u8], letters: &[u8]) -> bool {
    let places = catalogue.occurrences(word).expect(rt, "out of memory");
    places.len() == letters.len()
        && places.iter().zip(letters).all(|((place, count), letter)| place.selector()
            == [b'/', *letter].as_slice()
            && *count == 1)
}

// A closed catalogue is finished and has what the row says.
fn has_ended<R: Abort + AllocGlobal>(rt: &R, row: &Row, closed: &Catalogue) {
    assert!(rt; closed.is_finished() && closed.status() == all_done(3));
    assert!(rt; closed.record().len() == row.events && closed.places().len() == 3);
    let claims = closed
        .record()
        .iter()
        .filter(|event| matches!(event, Event::Claimed(_)))
        .count();
    assert!(rt; claims == row.events / 2);
    assert!(rt; row.query.len() <= 1024);
    let hits = closed
        .search(&query(rt, false, row.query))
        .expect(rt, "a search");
    assert!(rt; are_places(&hits, row.letters, row.title));
    assert!(rt; occurs(rt, closed, row.word, row.letters));
}

// A fetcher for each share.
fn pairs<'a, C: Crew, R: Abort + AllocGlobal>(
    rt: &R,
    host: &'a Host<'a>,
    shares: Vec<Share<C>>,
) -> Vec<(Fetcher<'a>, Share<C>)> {
    let mut pairs = Vec::new(rt.alloc());
    for share in shares {
        push(rt, &mut pairs, (Fetcher::new(host, 0), share));
    }
    pairs
}

// The shares of workers that finished, with a call for each place that they found or failed.
fn shares_of<C: Crew, R: Abort + AllocGlobal>(
    rt: &R,
    ends: Vec<WorkEnd<Fetcher<'_>, C>>,
) -> Vec<Share<C>> {
    let mut shares = Vec::new(rt.alloc());
    for end in ends {
        let calls = u64::from(end.found) + u64::from(end.failed);
        assert!(rt; end.stop == Stop::Finished && end.fetcher.calls() == calls);
        push(rt, &mut shares, end.share);
    }
    shares
}

// Crawls the host of a row by this number of workers, and returns the catalogue.
fn crawled<C: Crew + Send + Sync, R: Threads + Wait + Abort + AllocGlobal + Sync>(
    rt: &R,
    blank: Blank,
    row: &Row,
    workers: u32,
) -> Catalogue
    requires blank { IsBlankOf C.name C.parts C.history blank }
    requires begun { blank.begun ≡ [] }
{
    let host = Host {
        root: row.root,
        first: row.first,
        late: row.late,
        rest: row.rest,
        is_held: row.is_held,
        fetched: AtomicU64::new(0),
        answered: AtomicU64::new(0),
    };
    let begun = crawl(rt.alloc(), b"h", 10, row.tries).expect(rt, "no crawl");
    let (desk, _passes, shares) = opened::<C, R>(rt, false, blank, begun, workers);
    let ends = gopher_crew::crawl(rt, rt.alloc(), &desk, pairs(rt, &host, shares)).ok();
    let shares = shares_of(rt, ends.expect(rt, "no crawl"));
    assert!(rt; desk.status(rt) == all_done(3));
    desk.close(shares).ok().expect(rt, "the desk isn't closed")
}

#[test]
fn crawls_end_the_same_by_one_worker_and_by_two(rt: HostRuntime) {
    for row in &ROWS {
        for workers in [1u32, 2] {
            let closed = crawled::<Brand, _>(&rt, Blank::new(), row, workers);
            has_ended(&rt, row, &closed);
        }
    }
}

#[test]
fn two_workers_fetch_at_once(rt: HostRuntime) {
    let closed = crawled::<Brand, _>(&rt, Blank::new(), &HELD, 2);
    has_ended(&rt, &HELD, &closed);
}

// A pass finds both files.
fn finds_both<C: Crew, R: Abort + AllocGlobal>(rt: &R, pass: &mut Pass<C>) {
    let answer = pass
        .search(&query(rt, false, b"moon"))
        .expect(rt, "a search");
    assert!(rt; answer.at == 7 && are_places(&answer.hits, b"ab", b"moon"));
}

// Crawls two files by a worker without a thread of its own, and returns the catalogue.
fn worked<C: Crew, R: Wait + Abort + AllocGlobal>(rt: &R, blank: Blank) -> Catalogue
    requires blank { IsBlankOf C.name C.parts C.history blank }
    requires begun { blank.begun ≡ [] }
{
    let host = Host::new(TWO_FILES);
    let begun = crawl(rt.alloc(), b"h", 10, 1).expect(rt, "no crawl");
    let (desk, mut passes, mut shares) = opened::<C, R>(rt, false, blank, begun, 1);
    let share = shares.pop().expect(rt, "no share");
    let end = work(rt, rt.alloc(), &desk, Fetcher::new(&host, 0), share);
    assert!(rt; (end.stop, end.found, end.failed) == (Stop::Finished, 3, 0));
    assert!(rt; end.fetcher.calls() == 3 && end.share.events() == 6);
    assert!(rt; desk.status(rt) == all_done(3));
    finds_both(rt, &mut passes.pop().expect(rt, "no pass"));
    push(rt, &mut shares, end.share);
    desk.close(shares).ok().expect(rt, "the desk isn't closed")
}

#[test]
fn a_worker_finishes_after_three_calls(rt: HostRuntime) {
    let closed = worked::<Brand, _>(&rt, Blank::new());
    has_ended(&rt, &FILES, &closed);
}
