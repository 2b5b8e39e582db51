//! A desk by hand whose passes answer request lines: before and after a page was found, and once the
//! desk is closed. Then a desk over the catalogue that it gave.
ghost use Rattle.std.specs.Prelude.{◌≡◌, []};
ghost use Rattle.gopher_crew.specs.Desk.{IsBlankOf};

use crate::desk_faults::{finds, is_at, page, takes};
use crate::opening::{are_of_root, crawl, opened, query};
use crate::requests::{HELLO, Row, replies, served};
use crate::stream::Ending;
use gopher_catalogue::{Catalogue, Turn, Why};
use gopher_crew::{Blank, Crew, Pass};
use gopher_hole::{Aliases, Site, answer};
use gopher_page::Page;
use gopher_serve::{Answers, Replies};
use std::alloc::Global;
use std::marker::Brand;
use std::process::Abort;
use std::sync::Wait;

// Lines with their replies.
type Rows = &'static [(&'static [u8], &'static [u8])];

const ROOT: &[u8] =
    b"7Search\t/search\tlocalhost\t7070\r\n0a.txt\t/a.txt\tlocalhost\t7070\r\n.\r\n";

const BAD_REQUEST: &[u8] = b"3Bad request\t\tlocalhost\t7070\r\n.\r\n";

const NOT_FOUND: &[u8] = b"3Not found\t\tlocalhost\t7070\r\n.\r\n";

const NO_WORDS: &[u8] = b"3No words\t\tlocalhost\t7070\r\n.\r\n";

const NO_CATALOGUE: &[u8] = b"3No catalogue\t\tlocalhost\t7070\r\n.\r\n";

const FOUND: &[u8] = b"1Docs\t\tlocalhost\t70\r\n.\r\n";

const NOTHING: &[u8] = b".\r\n";

const DOCS: &[u8] = b"1Docs\t/docs\tlocalhost\t70\r\n.\r\n";

const SEARCH: &[u8] = b"/search\tdocs";

const EARLY: Rows = &[
    (b"", ROOT),
    (b"/\t+", ROOT),
    (b"/a.txt\t+", HELLO),
    (b"/b", NOT_FOUND),
    (b"/search\t -- ", NO_WORDS),
    (&[b'a'; 256], BAD_REQUEST),
    (&[b'a'; 255], NOT_FOUND),
    (&[b'a'; 1_025], BAD_REQUEST),
    (b"/a\0b", BAD_REQUEST),
    (b"/search", NO_WORDS),
    (b"/search/", NOT_FOUND),
    (SEARCH, NOTHING),
];

const LATE: Rows = &[
    (SEARCH, FOUND),
    (b"/search\tmars", NOTHING),
    (b"/search", NO_WORDS),
    (b"/search\tDOCS\t+", FOUND),
    (b"/search\tmars or a or docs or b or c or d", FOUND),
];

const CLOSED: Rows = &[
    (SEARCH, NO_CATALOGUE),
    (b"/search\tx", NO_CATALOGUE),
    (b"/search\t -- ", NO_WORDS),
    (b"", ROOT),
];

// Whether a line has this reply from the tree.
fn makes<C: Crew>(
    alloc: Global,
    replies: &Replies,
    pass: &mut Pass<C>,
    line: &[u8],
    wanted: &[u8],
) -> bool {
    match answer(alloc, replies.tree(), replies.home(), pass, line) {
        Ok(reply) => reply.as_slice() == wanted,
        Err(_refused) => false,
    }
}

// Whether a line has this reply from replies that are kept.
fn keeps<C: Crew>(alloc: Global, site: &mut Site<'_, C>, line: &[u8], wanted: &[u8]) -> bool {
    let Ok(answer) = site.answer(alloc, line) else {
        return false;
    };
    match answer.finish(alloc) {
        Ok(reply) => reply.as_slice() == wanted,
        Err(_refused) => false,
    }
}

// The lines have their replies, by a pass: made anew and kept.
fn asks<C: Crew, R: Abort + AllocGlobal>(
    rt: &R,
    replies: &Replies,
    pass: Pass<C>,
    rows: Rows,
) -> Pass<C> {
    let mut pass = pass;
    for (line, wanted) in rows {
        assert!(rt; makes(rt.alloc(), replies, &mut pass, line, wanted));
        let aliases = Aliases::none(rt.alloc());
        let mut site = Site::new(replies, &aliases, pass);
        assert!(rt; keeps(rt.alloc(), &mut site, line, wanted));
        pass = site.into_pass();
    }
    pass
}

// A writer of the root's menu fails after each number of bytes.
fn breaks_writes<C: Crew, R: Abort + AllocGlobal>(rt: &R, replies: &Replies, pass: &mut Pass<C>) {
    for unsent in 0..=ROOT.len() {
        let code = if unsent == 0 { 0 } else { 13 };
        let row: Row = (b"\r\n", Ending::Ends, ROOT, (code, 0, unsent));
        assert!(rt;
            served(rt.alloc(), replies, pass, &row).is_some(),
            "{unsent} are unsent"
        );
    }
}

// A reader of the empty line fails, or would wait, after each number of bytes: nothing is written.
fn breaks_reads<C: Crew, R: Abort + AllocGlobal>(rt: &R, replies: &Replies, pass: &mut Pass<C>) {
    for given in [b"".as_slice(), b"\r"] {
        for ending in [Ending::Fails, Ending::Waits] {
            let row: Row = (given, ending, ROOT, (10, 0, ROOT.len()));
            assert!(rt; served(rt.alloc(), replies, pass, &row).is_some());
        }
    }
}

// A search of `docs` answers from a record of this length, and finds the root's page from the third
// event on.
fn sees<C: Crew, R: Abort + AllocGlobal>(rt: &R, pass: &mut Pass<C>, at: u32) {
    let answer = pass
        .search(&query(rt, false, b"docs"))
        .ok()
        .expect(rt, "a search");
    assert!(rt; answer.at == at && are_of_root(rt, &answer.hits) == (at >= 3));
}

// The page of the root.
fn root<R: Abort + AllocGlobal>(rt: &R) -> Page {
    page(rt.alloc(), b'1', b"", b"localhost", DOCS).expect(rt, "a page")
}

// The first pass hears that a page was found, and the second finds it too. Then the page's directory
// fails, and the desk is closed.
fn crawl_docs<C: Crew, R: Wait + Abort + AllocGlobal>(
    rt: &R,
    replies: &Replies,
    blank: Blank,
) -> Catalogue
    requires blank { IsBlankOf C.name C.parts C.history blank }
    requires begun { blank.begun ≡ [] }
{
    let begun = crawl(rt.alloc(), b"localhost", 10, 1).expect(rt, "no crawl");
    let (desk, mut passes, mut shares) = opened::<C, R>(rt, false, blank, begun, 1);
    let share = shares.first_mut().expect(rt, "no share");
    let mut first = asks(rt, replies, passes.pop().expect(rt, "no pass"), EARLY);
    let second = passes.first_mut().expect(rt, "no second pass");
    breaks_writes(rt, replies, second);
    breaks_reads(rt, replies, second);
    takes(rt, &desk, share, 0, 2);
    first.hear(finds(rt, &desk, share, 0, root(rt), 3));
    assert!(rt; !first.begins(second) && second.begins(&first));
    sees(rt, &mut first, 3);
    sees(rt, second, 3);
    assert!(rt; first.begins(second) && second.begins(&first));
    let first = asks(rt, replies, first, LATE);
    takes(rt, &desk, share, 1, 4);
    let failed = desk
        .fail(rt, share, 1, Why::Connect)
        .ok()
        .expect(rt, "a failure is refused");
    assert!(rt; is_at(&failed, 5));
    let closed = desk.close(shares).ok().expect(rt, "a desk isn't closed");
    let _first = asks(rt, replies, first, CLOSED);
    closed
}

// A desk over a catalogue of five events shows them, and its share counts four.
fn go_on<C: Crew, R: Wait + Abort + AllocGlobal>(rt: &R, blank: Blank, begun: Catalogue)
    requires blank { IsBlankOf C.name C.parts C.history blank }
    requires begun { blank.begun ≡ [] }
{
    let (desk, mut passes, mut shares) = opened::<C, R>(rt, false, blank, begun, 1);
    let share = shares.first_mut().expect(rt, "no share");
    assert!(rt; share.events() == 4);
    sees(rt, passes.first_mut().expect(rt, "no pass"), 5);
    let (turn, note) = desk.claim(rt, share).ok().expect(rt, "a claim is refused");
    assert!(rt; matches!(turn, Turn::Finished) && is_at(&note, 5));
    let closed = desk.close(shares).ok().expect(rt, "a desk isn't closed");
    assert!(rt; closed.record().len() == 5 && closed.is_finished());
}

#[test]
fn a_note_makes_a_pass_see_a_page(rt: HostRuntime) {
    let replies = replies(rt.alloc()).expect(&rt, "no replies");
    let closed = crawl_docs::<Brand, _>(&rt, &replies, Blank::new());
    go_on::<Brand, _>(&rt, Blank::new(), closed);
}
