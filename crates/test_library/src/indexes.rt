//! Which runs of an index are due, alone and while others are merged, and which searches are done in
//! steps.
ghost use Rattle.std.specs.Prelude.{◌≡◌, IfSome};
ghost use Rattle.gopher_index.specs.Index.{IsSliceOf};

use crate::opening::{push, query};
use gopher_index::{Begun, Due, Index};
use gopher_item::{Place, Scope};
use gopher_page::Page;
use std::process::Abort;
use std::sync::Arc;

// The pages that are added at a time: the number of different words of a page, how often it is added,
// and the most runs that are merged then.
type Sizes = &'static [(u32, u32, u32)];

// How often pages are added, and which; the number of runs that are merged in all, and of those that
// are due at the end; a search, and the steps that it takes, 0 if it is done at once. It takes one
// for its words, one for each word in a segment and one for all words in a loose page, one to
// collect the hits of each of these, and one at the end.
type Row = (u32, Sizes, u32, u32, &'static [u8], u32);

const ROWS: &[Row] = &[
    // segments of 64 pages, of 256, of 1,024, of 4,096 once 1,024 follow, and of 16,384 once 4,096
    // follow
    (63, &[(1, 1, 64)], 0, 0, b"a", 0),
    (21_504, &[(1, 1, 64)], 336 + 84 + 21 + 5 + 1, 0, b"a", 0),
    // of five segments the first four are due, and of loose pages behind a segment two runs
    (5, &[(1, 64, 1)], 5, 1, b"a", 0),
    (1, &[(1, 64, 1), (1, 128, 0)], 1, 2, b"a", 0),
    // a segment of 70,400 words, and four that have too many words for one
    (1, &[(1_100, 64, 1)], 1, 0, b"a", 0),
    (4, &[(130_000, 16, 0), (1_000, 48, 1)], 4, 0, b"a", 0),
    // five words, four prefixes of 4,200,000 words, and four words in large pages
    (
        1,
        &[(1, 64, 1), (1, 64, 1), (1, 64, 1), (10_000, 8, 0)],
        3,
        0,
        b"a b c d e",
        1 + 3 * (5 + 1) + 8 * (1 + 1) + 1,
    ),
    (
        1,
        &[(14_000, 300, 0)],
        0,
        4,
        b"a* b* c* d*",
        1 + 300 * (1 + 1) + 1,
    ),
    (
        33,
        &[(30_000, 64, 64)],
        41,
        0,
        b"a b c d",
        1 + 9 * (4 + 1) + 1,
    ),
];

// A page with this number of different words.
fn page<R: Abort + AllocGlobal>(rt: &R, words: u32) -> Arc<Page> {
    let mut text = Vec::new(rt.alloc());
    for number in 0..words {
        let word = format!(in rt.alloc(); "w{number} ").expect(rt, "a word");
        text.extend_from_slice(word.as_bytes()).expect(rt, "a text");
    }
    page_of(rt, &text)
}

// The page of a text.
fn page_of<R: Abort + AllocGlobal>(rt: &R, text: &[u8]) -> Arc<Page> {
    assert!(rt; text.len() <= 1_048_576);
    let place = Place::new(rt.alloc(), b'0', b"", b"h", 70).expect(rt, "a place");
    let scope = Scope::new(Vec::new(rt.alloc()), Vec::new(rt.alloc()));
    let page = Page::of(rt.alloc(), &scope, &place, text).expect(rt, "a page");
    Arc::new(rt.alloc(), page).expect(rt, "a shared page")
}

// Adds a page this number of times.
fn add<R: Abort>(rt: &R, index: &mut Index, page: &Arc<Page>, times: u32) {
    for _time in 0..times {
        assert!(rt; index.len() < 65_536);
        let page = Arc::try_clone(page).expect(rt, "a shared page");
        index.add(page).expect(rt, "room for a page");
    }
}

// A run that is due, merged.
fn merged<R: Abort + AllocGlobal>(rt: &R, index: &mut Index) -> Option<Due>
    ensures same { index.new ≡ index.old }
    ensures stands { IfSome result (λ due. IsSliceOf due index.new) }
{
    let mut due = index.due().expect(rt, "room for a run")?;
    due.merge(rt.alloc()).expect(rt, "a segment");
    Some(due)
}

// Merges runs that are due, at most `most`, and returns their number.
fn merge<R: Abort + AllocGlobal>(rt: &R, index: &mut Index, most: u32) -> u32 {
    for count in 0..most {
        let Some(due) = merged(rt, index) else {
            return count;
        };
        index.install(due);
    }
    most
}

// The number of runs that are due while none is put in its place.
fn due_len<R: Abort>(rt: &R, index: &mut Index) -> u32 {
    for count in 0..64u32 {
        if index.due().expect(rt, "room for a run").is_none() {
            return count;
        }
    }
    64
}

/// The number of steps of a search; 0 if it is done at once.
pub fn steps_of<R: Abort>(rt: &R, begun: Begun) -> u32 {
    let Begun::Searching(mut search) = begun else {
        return 0;
    };
    for count in 1..100_000u32 {
        if search.step().expect(rt, "a step").is_some() {
            return count;
        }
    }
    100_000
}

// The pages of `Sizes`.
type Pages = Vec<(Arc<Page>, u32, u32)>;

fn pages<R: Abort + AllocGlobal>(rt: &R, sizes: Sizes) -> Pages {
    let mut pages = Vec::new(rt.alloc());
    for (words, count, most) in sizes {
        push(rt, &mut pages, (page(rt, *words), *count, *most));
    }
    pages
}

// Adds pages, and returns the number of runs that were merged.
fn add_all<R: Abort + AllocGlobal>(rt: &R, index: &mut Index, pages: &Pages) -> u32 {
    let mut merged = 0_u32;
    for (page, count, most) in pages {
        add(rt, index, page, *count);
        merged = merged.saturating_add(merge(rt, index, *most));
    }
    merged
}

// An index to which pages were added `times` times, and the number of runs that were merged.
fn made<R: Abort + AllocGlobal>(rt: &R, times: u32, sizes: Sizes) -> (Index, u32) {
    let pages = pages(rt, sizes);
    let mut index = Index::new(rt.alloc());
    let mut merged = 0_u32;
    for _time in 0..times {
        merged = merged.saturating_add(add_all(rt, &mut index, &pages));
    }
    (index, merged)
}

#[test]
fn runs_are_merged_and_long_searches_done_in_steps(rt: HostRuntime) {
    for (times, sizes, count, due, text, steps) in ROWS {
        let (mut index, merged) = made(&rt, *times, sizes);
        let copy = index.share(rt.alloc()).expect(&rt, "a copy");
        assert!(rt; (merged, due_len(&rt, &mut index)) == (*count, *due));
        let begun = copy
            .begin(rt.alloc(), &query(&rt, false, text))
            .expect(&rt, "a search");
        let taken = steps_of(&rt, begun);
        assert!(rt; taken == *steps, "{taken} steps, not {steps}");
    }
}

// Of two runs that are merged at once none is due before both are put in their places, in either
// order, and none is loose then.
#[test]
fn a_run_is_due_once(rt: HostRuntime) {
    for later_first in [false, true] {
        let mut index = Index::new(rt.alloc());
        add(&rt, &mut index, &page(&rt, 1), 128);
        let one = merged(&rt, &mut index).expect(&rt, "a run");
        let other = merged(&rt, &mut index).expect(&rt, "another run");
        let (first, second) = if later_first {
            (other, one)
        } else {
            (one, other)
        };
        index.install(first);
        assert!(rt; index.due().expect(&rt, "room for a run").is_none());
        index.install(second);
        assert!(rt; due_len(&rt, &mut index.share(rt.alloc()).expect(&rt, "a copy")) == 0);
    }
}

// A word that occurs 524,288 times has 2,057 postings in a page, and each of four prefixes goes
// through all of these: in 2,039 pages 16,776,892 times, in one more over 16,777,216 times.
#[test]
fn prefixes_go_through_all_postings(rt: HostRuntime) {
    let text = b"a ".repeat(rt.alloc(), 524_288).expect(&rt, "a text");
    let page = page_of(&rt, &text);
    let query = query(&rt, false, b"a* a* a* a*");
    let mut index = Index::new(rt.alloc());
    add(&rt, &mut index, &page, 2_039);
    let begun = index.begin(rt.alloc(), &query).expect(&rt, "a search");
    assert!(rt; steps_of(&rt, begun) == 0);
    add(&rt, &mut index, &page, 1);
    let begun = index.begin(rt.alloc(), &query).expect(&rt, "a search");
    assert!(rt; steps_of(&rt, begun) > 0);
}
