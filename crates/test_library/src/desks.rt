//! A desk with two passes and a share, and whatever changes or consumes what it is given. With ample
//! memory each call succeeds at once. If one growth is refused, the refused call succeeds when it is
//! made again, and the test ends as it does otherwise: `tests/refusals.py` refuses each in turn. What
//! a refused call leaves is proved.

ghost use Rattle.std.specs.Prelude.{◌≡◌, []};
ghost use Rattle.gopher_crew.specs.Desk.{IsBlankOf};

use crate::fetcher::{Fetcher, Host};
use crate::opening::{again, are_of_root, book_of, crawl, opened, push, query, scope};
use crate::requests::{CLOSED, EARLY, LATE, replies, served};
use gopher_catalogue::{Event, Turn, Why};
use gopher_crew::{Blank, Crew, Desk, Note, Pass, Share, Stop, work};
use gopher_item::Place;
use gopher_page::{Page, Query};
use gopher_serve::Replies;
use std::alloc::Global;
use std::marker::Brand;
use std::process::Abort;
use std::sync::Wait;

// A menu of a directory.
const DOCS: &[u8] = b"1Docs\t/docs\tlocalhost\t70\r\n.\r\n";

// The page of the root.
fn page(alloc: Global) -> Option<Page> {
    let root = Place::new(alloc, b'1', b"", b"localhost", 70).ok()?;
    Page::of(alloc, &scope(alloc, b"localhost")?, &root, DOCS).ok()
}

// What works at a desk.
#[derive(Drop)]
struct Room<'a, C: Crew, R: Wait> {
    rt: &'a R,
    // Whether a growth may be refused.
    may_refuse: bool,
    desk: Desk<C, &'a R>,
    share: Share<C>,
    // Room for the share at the end.
    shares: Vec<Share<C>>,
    first: Pass<C>,
    second: Pass<C>,
    query: Query,
}

// How many events a pass sees, and whether it finds the page of the root.
fn sees<C: Crew, R: Abort>(
    rt: &R,
    may_refuse: bool,
    pass: &mut Pass<C>,
    query: &Query,
) -> (u32, bool) {
    let answer = again!(rt, may_refuse, pass.search(query).ok());
    (answer.at, are_of_root(rt, &answer.hits))
}

// Places fail only because memory ran out, and only if it may run out.
fn fail_without_memory(record: &[Event], may_refuse: bool) -> bool {
    record.iter().all(|event| match event {
        Event::Failed(_, why) => may_refuse && *why == Why::NoMemory,
        _ => true,
    })
}

impl<C: Crew, R: Wait + Abort + AllocGlobal> Room<'_, C, R> {
    // Claims the place of this number.
    fn claims(&mut self, number: u32) -> Option<Note<C>> {
        let (turn, note) = again!(
            self.rt,
            self.may_refuse,
            self.desk.claim(self.rt, &mut self.share).ok()
        );
        assert!(self.rt; matches!(&turn, Turn::Take(claim) if claim.number == number));
        note
    }

    // Hands in the page of the root.
    fn finds_root(&mut self) -> Option<Note<C>> {
        let page = again!(self.rt, self.may_refuse, page(self.rt.alloc()));
        let (added, note) = match self.desk.found(self.rt, &mut self.share, 0, page) {
            Ok(reply) => reply,
            Err(refused) => {
                assert!(self.rt; self.may_refuse, "a page is refused with ample memory");
                let found = self.desk.found(self.rt, &mut self.share, 0, refused.page);
                found.ok().expect(self.rt, "a page is refused twice")
            }
        };
        assert!(self.rt; added.fresh == 1);
        note
    }

    // The note of the next claim. Before it, the page isn't seen.
    fn late_note(&mut self) -> Note<C> {
        let (at, is_found) = sees(self.rt, self.may_refuse, &mut self.first, &self.query);
        assert!(self.rt; self.may_refuse && !is_found && (at == 1 || at == 2));
        self.claims(1).expect(self.rt, "no note with ample memory")
    }

    // With ample memory the whole record is published, and each reply had a note.
    fn publishes(&self) {
        let it = self.desk.published(self.rt);
        assert!(self.rt; self.may_refuse || (it.published == it.events && it.failed == 0));
        assert!(self.rt; self.may_refuse || self.share.missed() == 0);
    }

    // The first pass hears of the page, and both see it.
    fn see_root(&mut self) {
        assert!(self.rt;
            sees(self.rt, self.may_refuse, &mut self.second, &self.query) == (1, false)
        );
        let _note = self.claims(0);
        let (note, at) = match self.finds_root() {
            Some(note) => (note, 3),
            None => (self.late_note(), 4),
        };
        assert!(self.rt; note.at() == at);
        self.first.hear(note);
        assert!(self.rt;
            sees(self.rt, self.may_refuse, &mut self.first, &self.query) == (at, true)
        );
        assert!(self.rt;
            sees(self.rt, self.may_refuse, &mut self.second, &self.query) == (at, true)
        );
        if at == 4 {
            let failed = self.desk.fail(self.rt, &mut self.share, 1, Why::NoMemory);
            assert!(self.rt; failed.is_ok());
        }
    }

    // A share that is shown the status of its desk has seen what a pass has.
    fn sees_status(&mut self) {
        let status = self.desk.status_for(self.rt, &mut self.share);
        assert!(self.rt; status.known == 2 && self.share.events() >= 2);
        assert!(self.rt; self.first.begins_share(&self.share) && self.share.begins(&self.share));
    }

    // The copy of the record has the opening and what the only share counts.
    fn copies_record(&self) {
        let events = again!(
            self.rt,
            self.may_refuse,
            self.desk.record(self.rt, self.rt.alloc()).ok()
        );
        assert!(self.rt; events.len() as u64 == self.share.events().saturating_add(1));
        assert!(self.rt; matches!(events.first(), Some(Event::Opened(_))));
    }

    // A worker crawls the rest, and the desk is closed, whose first pass is left. A growth that is
    // refused fails one place, or stops the worker.
    fn end(self) -> Pass<C> {
        let Room {
            rt,
            may_refuse,
            desk,
            share,
            mut shares,
            mut first,
            query,
            ..
        } = self;
        let host = Host::new(b"");
        let end = work(rt, rt.alloc(), &desk, Fetcher::new(&host, 0), share);
        let it = desk.published(rt);
        assert!(rt; may_refuse || (it.events, it.published, it.failed) == (5, 5, 0));
        assert!(rt; may_refuse || end.share.missed() == 0);
        if end.stop == Stop::Finished {
            assert!(rt; desk.status(rt).done == 2);
            assert!(rt; sees(rt, may_refuse, &mut first, &query).0 == 5);
        }
        assert!(rt; may_refuse || (end.stop, end.found, end.failed) == (Stop::Finished, 1, 0));
        push(rt, &mut shares, end.share);
        let closed = desk.close(shares).ok().expect(rt, "a desk isn't closed");
        assert!(rt; fail_without_memory(closed.record(), may_refuse));
        let _book = book_of(rt, may_refuse, closed.record());
        first
    }
}

// Works at a desk by hand and by a worker. The second pass serves requests, and the first once the
// desk is closed.
fn check<C: Crew, R: Wait + Abort + AllocGlobal>(
    rt: &R,
    may_refuse: bool,
    blank: Blank,
    replies: &Replies,
)
    requires blank { IsBlankOf C.name C.parts C.history blank }
    requires begun { blank.begun ≡ [] }
{
    let begun = again!(rt, may_refuse, crawl(rt.alloc(), b"localhost", 10, 1));
    let (desk, mut passes, mut shares) = opened::<C, R>(rt, may_refuse, blank, begun, 1);
    let mut room = Room {
        rt,
        may_refuse,
        desk,
        share: shares.pop().expect(rt, "no share"),
        shares,
        first: passes.pop().expect(rt, "no pass"),
        second: passes.pop().expect(rt, "no second pass"),
        query: query(rt, may_refuse, b"docs"),
    };
    for row in &EARLY {
        again!(
            rt,
            may_refuse,
            served(rt.alloc(), replies, &mut room.second, row)
        );
    }
    room.see_root();
    room.publishes();
    again!(
        rt,
        may_refuse,
        served(rt.alloc(), replies, &mut room.second, &LATE)
    );
    room.sees_status();
    room.copies_record();
    let mut first = room.end();
    again!(
        rt,
        may_refuse,
        served(rt.alloc(), replies, &mut first, &CLOSED)
    );
}

#[test]
fn calls_succeed_with_ample_memory(rt: HostRuntime) {
    let replies = replies(rt.alloc()).expect(&rt, "no replies");
    check::<Brand, _>(&rt, false, Blank::new(), &replies);
}

#[test]
fn refused_calls_succeed_when_made_again(rt: HostRuntime) {
    let replies = again!(&rt, true, replies(rt.alloc()));
    check::<Brand, _>(&rt, true, Blank::new(), &replies);
}
