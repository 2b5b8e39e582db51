//! Crawls of a host, and calls that are made again if they are refused.

ghost use Rattle.std.specs.Prelude.{◌≤◌, length};
ghost use mathlib.Core.List.{IsPrefix};
ghost use Rattle.gopher_crew.specs.Desk.{IsBlankOf};

use gopher_catalogue::{Book, Catalogue, Event, Hit};
use gopher_crew::{Blank, Crew, Desk, Pass, Share};
use gopher_item::{Place, Rule, Scope};
use gopher_page::Query;
use std::alloc::Global;
use std::process::Abort;
use std::sync::Wait;

/// Makes a call. If it returns `None`, and may be refused memory, it is made again. The test fails
/// if both return `None`, and if one does that has ample memory.
macro_rules! again {
    ($rt:expr, $may_refuse:expr, $call:expr) => {
        match $call {
            Some(given) => given,
            None => {
                assert!($rt; $may_refuse, "a call is refused with ample memory");
                $call.expect($rt, "a call is refused twice")
            }
        }
    };
}

pub(crate) use again;

/// The scope of a host.
pub fn scope(alloc: Global, host: &[u8]) -> Option<Scope> {
    let mut allow = Vec::new(alloc);
    allow.push(Rule::new(alloc, host, 70, b"").ok()?).ok()?;
    Some(Scope::new(allow, Vec::new(alloc)))
}

/// A crawl that begins in the root of a host, knows at most `places` places, and claims each of them
/// at most `tries` times.
pub fn crawl(alloc: Global, host: &[u8], places: u32, tries: u32) -> Option<Catalogue> {
    let mut seeds = Vec::new(alloc);
    seeds
        .push(Place::new(alloc, b'1', b"", host, 70).ok()?)
        .ok()?;
    Catalogue::open(alloc, scope(alloc, host)?, seeds, places, tries).ok()
}

/// Opens a desk over a crawl, with two passes. After an error it is opened with what came back.
pub fn opened<'a, C: Crew, R: Wait + Abort + AllocGlobal>(
    rt: &'a R,
    may_refuse: bool,
    blank: Blank,
    begun: Catalogue,
    workers: u32,
) -> (Desk<C, &'a R>, Vec<Pass<C>>, Vec<Share<C>>)
    requires blank { IsBlankOf C.name C.parts C.history blank }
    requires begun { IsPrefix blank.begun begun }
{
    match Desk::<C, &R>::open(rt, rt.alloc(), begun, 2, workers, blank) {
        Ok(opened) => opened,
        Err(refused) => {
            assert!(rt; may_refuse, "a desk is refused with ample memory");
            let (begun, blank) = (refused.catalogue, refused.blank);
            let opened = Desk::<C, &R>::open(rt, rt.alloc(), begun, 2, workers, blank);
            opened.ok().expect(rt, "a desk is refused twice")
        }
    }
}

/// A query.
pub fn query<R: Abort + AllocGlobal>(rt: &R, may_refuse: bool, text: &[u8]) -> Query
    requires { length text.now ≤ 1024 }
{
    again!(rt, may_refuse, Query::read(rt.alloc(), text).ok())
}

/// A copy of a book that took in a record.
pub fn book_of<R: Abort + AllocGlobal>(rt: &R, may_refuse: bool, record: &[Event]) -> Book {
    let mut book = Book::empty(rt.alloc());
    for event in record {
        again!(rt, may_refuse, book.take_in(event).ok());
    }
    assert!(rt; book.len() == record.len());
    again!(rt, may_refuse, book.clone().ok())
}

/// Whether hits are the page of the root, with the title `Docs` and a word once; or else none.
pub fn are_of_root<R: Abort>(rt: &R, hits: &[Hit]) -> bool {
    let [hit] = hits else {
        assert!(rt; hits.is_empty());
        return false;
    };
    assert!(rt; hit.place.selector().is_empty() && hit.score == 1);
    assert!(rt; hit.title.as_slice() == b"Docs".as_slice());
    true
}

/// Appends an item.
pub fn push<T: Drop, R: Abort>(rt: &R, list: &mut Vec<T>, item: T) {
    list.push(item).ok().expect(rt, "no room");
}
