//! A book that takes in the events of a crawl, what a catalogue's opening has, and what comes back if
//! it is refused.
ghost use Rattle.std.specs.Prelude.{◌≤◌, length};

use crate::opening::{are_of_root, query, scope};
use gopher_catalogue::{Book, Catalogue, Event, OpenRefused, Status, Turn, Why};
use gopher_item::{Place, Scope};
use gopher_page::{Page, Query};
use std::alloc::Global;
use std::process::Abort;

const HOST: &[u8] = b"localhost";

const DOCS: &[u8] = b"1Docs\t/docs\tlocalhost\t70\r\n.\r\n";

// The root of the host, and the directories with these selectors.
fn seeds(alloc: Global, selectors: &[&[u8]]) -> Option<Vec<Place>> {
    let mut seeds = Vec::new(alloc);
    for selector in selectors {
        seeds
            .push(Place::new(alloc, b'1', selector, HOST, 70).ok()?)
            .ok()?;
    }
    Some(seeds)
}

// A crawl that found the root, and couldn't send a request for its directory.
fn crawled(alloc: Global) -> Option<Catalogue> {
    let scope = scope(alloc, HOST)?;
    let page = Page::of(alloc, &scope, seeds(alloc, &[b""])?.first()?, DOCS).ok()?;
    let mut catalogue = Catalogue::open(alloc, scope, seeds(alloc, &[b""])?, 10, 1).ok()?;
    let Ok(Turn::Take(root)) = catalogue.claim() else {
        return None;
    };
    let _added = catalogue.found(root.number, page).ok()?;
    let Ok(Turn::Take(directory)) = catalogue.claim() else {
        return None;
    };
    catalogue.fail(directory.number, Why::Write).ok()?;
    Some(catalogue)
}

// Whether a book has this number of events and, from the third on, finds the root, in which the word
// occurs once.
fn is_of<R: Abort>(rt: &R, book: &Book, query: &Query, events: usize) -> bool {
    let hits = book.search(query).expect(rt, "a search");
    let places = book.occurrences(b"docs").expect(rt, "a list");
    let is_listed = match places.as_slice() {
        [(place, count)] => *count == 1 && place.selector().is_empty() && place.host() == HOST,
        _ => false,
    };
    book.len() == events
        && are_of_root(rt, &hits) == (events >= 3)
        && is_listed == (events >= 3)
        && places.is_empty() == (events < 3)
}

// Takes in an event. A copy that is made before stays as it is, and one that is made after has it.
fn goes_on<R: Abort>(rt: &R, book: &mut Book, query: &Query, event: &Event) {
    let events = book.len();
    assert!(rt; events < 10);
    let before = book.clone().expect(rt, "a copy");
    book.take_in(event).expect(rt, "an event");
    let after = book.clone().expect(rt, "a copy");
    assert!(rt; is_of(rt, &before, query, events) && is_of(rt, &after, query, events + 1));
    assert!(rt; is_of(rt, book, query, events + 1));
}

#[test]
fn a_book_takes_in_a_crawl(rt: HostRuntime) {
    let catalogue = crawled(rt.alloc()).expect(&rt, "a crawl");
    let query = query(&rt, false, b"docs");
    let mut book = Book::empty(rt.alloc());
    assert!(rt; is_of(&rt, &book, &query, 0) && catalogue.record().len() == 5);
    for event in catalogue.record() {
        goes_on(&rt, &mut book, &query, event);
    }
    assert!(rt; book.len() == 5 && catalogue.is_finished());
}

// Whether an event has the page of the root, in which the word occurs once.
fn is_found(event: &Event) -> bool {
    match event {
        Event::Found(number, page) => *number == 0 && page.count(b"docs") == 1,
        _ => false,
    }
}

// Whether an event says that the second place couldn't be asked.
fn is_failed(event: &Event) -> bool {
    match event {
        Event::Failed(number, why) => *number == 1 && *why == Why::Write,
        _ => false,
    }
}

#[test]
fn an_event_is_copied(rt: HostRuntime) {
    let catalogue = crawled(rt.alloc()).expect(&rt, "a crawl");
    let record = catalogue.record();
    assert!(rt; record.len() == 5);
    let found = record[2].clone().expect(&rt, "a copy");
    let failed = record[4].clone().expect(&rt, "a copy");
    assert!(rt; is_found(&found) && is_failed(&failed));
}

// Starts that are refused because nothing is allowed, and then because no place may be known. The
// second has the seeds that came back, and what is denied.
fn refused_twice(alloc: Global) -> Option<OpenRefused> {
    let nothing = Scope::new(Vec::new(alloc), Vec::new(alloc));
    let refused = Catalogue::open(alloc, nothing, seeds(alloc, &[b"", b"/b"])?, 0, 0).err()?;
    if refused.fault.code() != 50 {
        return None;
    }
    let (_nothing, deny) = refused.scope.into_rules();
    let (allow, _nothing) = scope(alloc, HOST)?.into_rules();
    Catalogue::open(alloc, Scope::new(allow, deny), refused.seeds, 0, 0).err()
}

// A crawl with two seeds that knows the first alone.
const STATUS: Status = Status {
    known: 1,
    waiting: 1,
    out: 0,
    done: 0,
    dropped: 1,
};

#[test]
fn a_refused_start_gives_its_scope_and_seeds_back(rt: HostRuntime) {
    let refused = refused_twice(rt.alloc()).expect(&rt, "a start isn't refused");
    assert!(rt; refused.fault.code() == 51 && refused.seeds.len() == 2);
    let again = Catalogue::open(rt.alloc(), refused.scope, refused.seeds, 1, 0);
    let refused = again.err().expect(&rt, "a start isn't refused");
    assert!(rt; refused.fault.code() == 54);
    let opened = Catalogue::open(rt.alloc(), refused.scope, refused.seeds, 1, 2).ok();
    let catalogue = opened.expect(&rt, "a start is refused");
    let opening = catalogue.opening();
    assert!(rt; opening.seeds().len() == 2 && opening.seeds()[1].selector() == b"/b".as_slice());
    assert!(rt; (opening.tries(), opening.places()) == (2, 1));
    assert!(rt; opening.scope().allows(&opening.seeds()[0]));
    assert!(rt; catalogue.status() == STATUS && catalogue.places().len() == 1);
    assert!(rt; catalogue.record().len() == 1 && !catalogue.is_finished());
}
