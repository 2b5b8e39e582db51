//! Desks that aren't opened or closed, calls of a desk that are refused, and what they give back.
ghost use Rattle.std.specs.Prelude.{◌≡◌, ◌≤◌, [], length};
ghost use Rattle.gopher_crew.specs.Desk.{IsBlankOf};

use crate::fetcher::MOON;
use crate::opening::{crawl, opened, push, query, scope};
use crate::workers::{TWO_FILES, all_done, are_places};
use gopher_catalogue::{Catalogue, FoundRefused, Turn, Why};
use gopher_crew::{Blank, Crew, Desk, Note, Share};
use gopher_item::Place;
use gopher_page::Page;
use std::alloc::Global;
use std::marker::Brand;
use std::process::Abort;
use std::sync::Wait;

/// Whether there is a note of a record of this length.
pub fn is_at<C: Crew>(note: &Option<Note<C>>, at: u32) -> bool {
    match note {
        Some(note) => note.at() == at,
        None => false,
    }
}

/// A claim takes the place of this number. Its note is of a record of this length.
pub fn takes<C: Crew, R: Wait + Abort>(
    rt: &R,
    desk: &Desk<C, &R>,
    share: &mut Share<C>,
    number: u32,
    at: u32,
) {
    let (turn, note) = desk.claim(rt, share).ok().expect(rt, "a claim is refused");
    assert!(rt; matches!(&turn, Turn::Take(claim) if claim.number == number));
    assert!(rt; is_at(&note, at));
}

/// Hands in the page of a place that is out. The note is of a record of this length.
pub fn finds<C: Crew, R: Wait + Abort>(
    rt: &R,
    desk: &Desk<C, &R>,
    share: &mut Share<C>,
    number: u32,
    page: Page,
    at: u32,
) -> Note<C> {
    let found = desk.found(rt, share, number, page).ok();
    let (_added, note) = found.expect(rt, "a page is refused");
    let note = note.expect(rt, "no note with ample memory");
    assert!(rt; note.at() == at);
    note
}

/// The page of a place of a host, whose links to that host are allowed.
pub fn page(alloc: Global, kind: u8, selector: &[u8], host: &[u8], reply: &[u8]) -> Option<Page>
    requires { length reply.now ≤ 1048576 }
{
    let place = Place::new(alloc, kind, selector, host, 70).ok()?;
    Page::of(alloc, &scope(alloc, host)?, &place, reply).ok()
}

// The page of a directory of the host `h`.
fn directory<R: Abort + AllocGlobal>(rt: &R, selector: &[u8]) -> Page {
    page(rt.alloc(), b'1', selector, b"h", TWO_FILES).expect(rt, "a page")
}

// A file of the host `h`.
fn file<R: Abort + AllocGlobal>(rt: &R, selector: &[u8]) -> Page {
    page(rt.alloc(), b'0', selector, b"h", MOON).expect(rt, "a page")
}

// A desk without a pass and one with 17 shares aren't opened. What comes back is, with two shares.
// The crawl of its two files is returned once it is closed.
fn refused_desks<C: Crew, R: Wait + Abort + AllocGlobal>(rt: &R, blank: Blank) -> Catalogue
    requires blank { IsBlankOf C.name C.parts C.history blank }
    requires begun { blank.begun ≡ [] }
{
    let begun = crawl(rt.alloc(), b"h", 10, 1).expect(rt, "no crawl");
    let Err(refused) = Desk::<C, &R>::open(rt, rt.alloc(), begun, 0, 2, blank) else {
        panic!(rt; "a desk without a pass is opened");
    };
    assert!(rt; refused.fault.code() == 60);
    let (begun, blank) = (refused.catalogue, refused.blank);
    let Err(refused) = Desk::<C, &R>::open(rt, rt.alloc(), begun, 1, 17, blank) else {
        panic!(rt; "a desk with 17 shares is opened");
    };
    assert!(rt; refused.fault.code() == 60);
    let (begun, blank) = (refused.catalogue, refused.blank);
    let (desk, mut passes, mut shares) = opened::<C, R>(rt, false, blank, begun, 2);
    refused_calls(rt, &desk, shares.first_mut().expect(rt, "no share"));
    find_both(rt, &desk, shares.last_mut().expect(rt, "no other share"));
    let answer = passes
        .first_mut()
        .expect(rt, "no pass")
        .search(&query(rt, false, b"moon"));
    let answer = answer.ok().expect(rt, "a search");
    assert!(rt; answer.at == 7 && are_places(&answer.hits, b"ab", b"moon"));
    closed_at_last(rt, desk, shares)
}

// Whether a refusal with this number gives back a page that is as this one.
fn gives_back(refused: &FoundRefused, code: u8, page: &Page) -> bool {
    let back = &refused.page;
    refused.fault.code() == code
        && back.place() == page.place()
        && back.title() == page.title()
        && back.counts().len() == page.counts().len()
        && back.count(b"b") == page.count(b"b")
}

// Calls of numbers that aren't out, and of another place's page. The root is out after them.
fn refused_calls<C: Crew, R: Wait + Abort + AllocGlobal>(
    rt: &R,
    desk: &Desk<C, &R>,
    share: &mut Share<C>,
) {
    let fault = desk.fail(rt, share, 0, Why::Read).err();
    assert!(rt; fault.expect(rt, "a place that isn't out fails").code() == 52);
    let refused = desk.found(rt, share, 0, directory(rt, b"")).err();
    let refused = refused.expect(rt, "the page of a place that isn't out is taken");
    assert!(rt; gives_back(&refused, 52, &directory(rt, b"")));
    takes(rt, desk, share, 0, 2);
    let refused = desk.found(rt, share, 0, directory(rt, b"/a")).err();
    let refused = refused.expect(rt, "the page of another place is taken");
    assert!(rt; gives_back(&refused, 53, &directory(rt, b"/a")));
}

// The root is found, then the second of its files, and then the first. Nothing waits in between.
fn find_both<C: Crew, R: Wait + Abort + AllocGlobal>(
    rt: &R,
    desk: &Desk<C, &R>,
    share: &mut Share<C>,
) {
    let _note = finds(rt, desk, share, 0, directory(rt, b""), 3);
    takes(rt, desk, share, 1, 4);
    takes(rt, desk, share, 2, 5);
    assert!(rt; matches!(desk.claim(rt, share), Ok((Turn::Idle, Some(_)))));
    let _note = finds(rt, desk, share, 2, file(rt, b"/b"), 6);
    let _note = finds(rt, desk, share, 1, file(rt, b"/a"), 7);
    assert!(rt; matches!(desk.claim(rt, share), Ok((Turn::Finished, Some(_)))));
}

// The catalogue of a desk that isn't closed without a share that has events, and is with both.
fn closed_at_last<C: Crew, R: Wait + Abort + AllocGlobal>(
    rt: &R,
    desk: Desk<C, &R>,
    shares: Vec<Share<C>>,
) -> Catalogue {
    let mut shares = shares;
    let withheld = shares.pop().expect(rt, "no share");
    assert!(rt; withheld.events() == 5);
    let Err(refused) = desk.close(shares) else {
        panic!(rt; "a desk is closed without a share");
    };
    assert!(rt; (refused.code(), refused.events, refused.shares.len()) == (62, 6, 1));
    let (desk, mut shares) = (refused.desk, refused.shares);
    assert!(rt; desk.status(rt) == all_done(3));
    push(rt, &mut shares, withheld);
    desk.close(shares).ok().expect(rt, "a desk isn't closed")
}

#[test]
fn refused_calls_of_a_desk_give_all_back(rt: HostRuntime) {
    let closed = refused_desks::<Brand, _>(&rt, Blank::new());
    assert!(rt; closed.status() == all_done(3) && closed.record().len() == 7);
    let hits = closed
        .search(&query(&rt, false, b"moon"))
        .ok()
        .expect(&rt, "a search");
    assert!(rt; closed.is_finished() && are_places(&hits, b"ab", b"moon"));
}
