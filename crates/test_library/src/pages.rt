//! Pages and queries: titles, counts, links, and what queries match and want.

use crate::opening::scope;
use gopher_item::Place;
use gopher_page::{Page, Query, words};
use std::alloc::Global;
use std::process::Abort;

// The page of a place of the host `h`, whose links to that host are allowed.
fn page(alloc: Global, kind: u8, selector: &[u8], reply: &[u8]) -> Option<Page> {
    if reply.len() > 1_048_576 {
        return None;
    }
    let place = Place::new(alloc, kind, selector, b"h", 70).ok()?;
    Page::of(alloc, &scope(alloc, b"h")?, &place, reply).ok()
}

// The selector of a text, its reply, and its title.
const TITLES: &[(&[u8], &[u8], &[u8])] = &[
    (b"", b"--\r\n\tHi\x01there \r\n.\r\n", b"Hi there"),
    (
        b"",
        b"ab ab ab ab ab ab ab ab ab ab ab ab ab ab ab ab ab ab ab ab ab ab ab c\r\n.\r\n",
        b"ab ab ab ab ab ab ab ab ab ab ab ab ab ab ab ab ab ab ab ab ab ab ab ",
    ),
    (b"/pics", b"--\r\n.\r\n", b"/pics"),
    (b"", b"", b"h"),
];

#[test]
fn pages_have_titles(rt: HostRuntime) {
    for (selector, reply, title) in TITLES {
        let page = page(rt.alloc(), b'0', selector, reply).expect(&rt, "a page");
        assert!(rt; page.title() == *title);
    }
}

// The words of a page, with their counts.
const COUNTS: [(&[u8], u32); 4] = [(b"and", 1), (b"moon", 3), (b"sun", 1), (b"the", 2)];

// Queries, with the score of the page, or the number of their fault.
const SCORES: [(&[u8], Result<u64, u8>); 3] = [
    (b"moon or moon", Ok(6)),
    (b"sun not mars", Ok(1)),
    (b" -- ", Err(40)),
];

#[test]
fn words_of_a_page_are_counted(rt: HostRuntime) {
    let reply = b"The sun and the moon.\r\n..moon moon\r\n.\r\n";
    let page = page(rt.alloc(), b'0', b"", reply).expect(&rt, "a page");
    assert!(rt; page.title() == b"The sun and the moon.".as_slice());
    assert!(rt; page.counts().len() == COUNTS.len() && page.links().next().is_none());
    for ((word, count), (wanted, times)) in page.counts().iter().zip(COUNTS) {
        assert!(rt; word == wanted && (count, page.count(word)) == (times, times));
    }
    for (text, wanted) in SCORES {
        let score = match Query::read(rt.alloc(), text) {
            Ok(query) => Ok(query.score(&page)),
            Err(fault) => Err(fault.code()),
        };
        assert!(rt; score == wanted);
    }
}

// Queries, the words of a page, and whether it matches.
const MATCHES: &[(&[u8], &[u8], bool)] = &[
    (b"moon or sun not rain", b"sun rain", false),
    (b"moon or sun not rain", b"moon", true),
    (b"moon or sun not rain", b"sun", true),
    (b"not moon", b"moon", false),
    (b"moon and or sun", b"sun", true),
    (b"moon or", b"moon", true),
];

#[test]
fn queries_match_pages(rt: HostRuntime) {
    for (text, reply, matches) in MATCHES {
        let query = Query::read(rt.alloc(), text).ok().expect(&rt, "a query");
        let page = page(rt.alloc(), b'0', b"", reply).expect(&rt, "a page");
        assert!(rt; query.matches(&page) == *matches);
    }
}

// Queries, and the words that they want, each with whether it is a prefix.
const WANTS: &[(&[u8], &[(&[u8], bool)])] = &[
    (
        b"moon or sun not rain",
        &[(b"moon", false), (b"sun", false)],
    ),
    (b"not moon", &[(b"not", false), (b"moon", false)]),
    (b"a not b", &[(b"a", false)]),
    (b"and* not b* or C*", &[(b"and", true), (b"c", true)]),
];

// Whether a query wants these words.
fn wants(query: &Query, wanted: &[(&[u8], bool)]) -> bool {
    query.wants() == wanted.len()
        && wanted.iter().enumerate().all(|(index, (word, is_prefix))| index < query.wants()
            && query.want(index) == *word
            && query.want_is_prefix(index) == *is_prefix)
}

#[test]
fn queries_want_words(rt: HostRuntime) {
    for (text, wanted) in WANTS {
        let query = Query::read(rt.alloc(), text).ok().expect(&rt, "a query");
        assert!(rt; wants(&query, wanted));
    }
    let query = Query::read(rt.alloc(), b"and* not b* or C*")
        .ok()
        .expect(&rt, "a query");
    let page = page(rt.alloc(), b'0', b"", b"and andy c").expect(&rt, "a page");
    assert!(rt; query.matches(&page) && query.score(&page) == 3);
}

#[test]
fn words_are_runs_of_letters(rt: HostRuntime) {
    let cafe = words(rt.alloc(), b"Caf\xc3\xa9").expect(&rt, "words");
    assert!(rt; cafe.len() == 1 && cafe[0].as_slice() == b"caf\xc3\xa9".as_slice());
    let longest = words(rt.alloc(), &[b'a'; 40]).expect(&rt, "words");
    assert!(rt; longest.len() == 1 && longest[0].as_slice() == [b'a'; 40].as_slice());
    assert!(rt;
        words(rt.alloc(), &[b'a'; 41])
            .expect(&rt, "words")
            .is_empty()
    );
}

// A menu with a link twice, one to another host, one of another type, and one of another port.
const MENU: &[u8] =
    b"0Sun sun\t/a\tH\t70\r\n1Moon\t/b\th\t70\r\n0A\t/a\th\t70\r\n0X\t/x\ti\t70\r\n9B\t/c\th\t70\r\n.\r\n";

#[test]
fn links_of_a_page_are_walked(rt: HostRuntime) {
    let page = page(rt.alloc(), b'1', b"", MENU).expect(&rt, "a page");
    let mut links = page.links();
    for (kind, selector) in [(b'0', b"/a".as_slice()), (b'1', b"/b")] {
        let link = links.next().expect(&rt, "a link");
        assert!(rt; (link.kind(), link.port()) == (kind, 70) && link.selector() == selector);
        let place = link.to_place(rt.alloc()).ok().expect(&rt, "a place");
        assert!(rt; link.host() == b"h".as_slice() && place.selector() == selector);
    }
    assert!(rt; links.next().is_none());
}
