//! The pages that a crawl found, in parts: segments, and single pages after and between them.

ghost use Rattle.std.specs.Prelude.{◌≡◌, ◌+◌, ◌<◌, ◌≤◌, [], length, IfOk, IfSome};
ghost use Rattle.std.specs.Arc.{arc_value};
ghost use Rattle.gopher_index.specs.Answer.{answer_of, AreOccurrences};
ghost use Rattle.gopher_index.specs.Searching.{begun_hits};
ghost use Rattle.gopher_index.specs.Index.{IsSliceOf, AppendsPage};

use crate::due::Due;
use crate::hit::Hit;
use crate::installing::put_part;
use crate::occurrences::occurrences;
use crate::part::Part;
use crate::picking::due_span;
use crate::search::search;
use crate::searching::{Begun, Search};
use gopher_item::{NoMemory, Place};
use gopher_page::{Page, Query, Term};
use std::alloc::Global;
use std::marker::Model;
use std::sync::Arc;

// At this many loose pages, `add` merges first. It is eight times what is merged at once, so that
// `add` rarely has to merge beside workers that do.
const MOST_LOOSE: usize = 512;

// The most runs that one call of `settle` merges.
const MOST_RUNS: usize = 64;

// The most terms of a search that runs to its end in `begin`.
const FEW_TERMS: usize = 4;

// The number of postings that a search in a large page counts as, rounded up: such a search took
// 1.3 us, and a posting 0.8 ns (a C program, 27 November). A large page has more words.
const LARGE_SEARCH: usize = 2_048;

// The most postings of such a search. Each prefix counts as all postings, and each search in a
// large page as `LARGE_SEARCH`.
const FEW_POSTINGS: usize = 16_777_216;

// Returns whether a search runs to its end in `begin`. Each prefix may go through all `postings`.
// Each of the `large` large pages is searched for each term.
fn is_light(terms: &[Term], postings: usize, large: usize) -> bool {
    let prefixes = terms.iter().filter(|term| term.is_prefix()).count();
    let searches = terms
        .len()
        .saturating_mul(large)
        .saturating_mul(LARGE_SEARCH);
    let most = prefixes.saturating_mul(postings).saturating_add(searches);
    terms.len() <= FEW_TERMS && most <= FEW_POSTINGS
}

// Returns the number of large pages in segments.
fn large_len(parts: &[Part]) -> usize {
    let mut large = 0_usize;
    for part in parts {
        if let Some(segment) = part.as_segment() {
            large = large.saturating_add(segment.large_len());
        }
    }
    large
}

// Returns the number of parts that are single pages.
fn loose_len(parts: &[Part]) -> usize {
    parts
        .iter()
        .filter(|part| part.as_segment().is_none())
        .count()
}

/// A list of pages that can be searched.
#[derive(Debug)]
pub struct Index {
    parts: Vec<Part>,
    // The number of pages.
    count: usize,
    // The numbers of the first pages of runs that are being merged.
    taken: Vec<usize>,
    // The number of postings of all pages.
    postings: usize,
}

// Written out: a derived one, and that of each part, is proved again in every crate above.
impl Drop for Index {
    fn drop(self) {
        let Self {
            parts: _parts,
            count: _count,
            taken: _taken,
            postings: _postings,
        } = self;
    }
}

impl Model for Index {
    ghost use Rattle.std.specs.Prelude.{List};
    ghost use Rattle.gopher_page.specs.Page.{PageData};
    ghost use Rattle.gopher_segment.specs.Segment.{pages_of};
    ghost use Rattle.gopher_index.specs.Index.{IsIndex};

    ghost Value = { List PageData };

    ghost view = { λ i. pages_of i.parts.items };

    ghost invariant = { λ i. IsIndex i.parts.items i.count };
}

impl Index {
    /// Creates an index of no pages.
    pub fn new(alloc: Global) -> Index
        ensures { result ≡ [] }
    {
        Index {
            parts: Vec::new(alloc),
            count: 0,
            taken: Vec::new(alloc),
            postings: 0,
        }
    }

    /// Returns the number of pages.
    pub fn len(&self) -> usize
        ensures { result ≡ length self.now }
    {
        self.count
    }

    /// Appends a page. The index has at most 65,535 pages before.
    ///
    /// The page is loose until it is merged into a segment (`due`, `settle`). If there are 512
    /// loose pages, everything that is due is merged first.
    pub fn add(&mut self, page: Arc<Page>) -> Result<(), NoMemory>
        requires { length self.old < 65536 }
        ensures { AppendsPage (arc_value page) self.old self.new result }
    {
        if self.parts.len() >= MOST_LOOSE && loose_len(&self.parts) >= MOST_LOOSE {
            self.taken.clear();
            self.settle();
        }
        let postings = page.counts().postings_len();
        self.parts.push(Part::page(self.count, page))?;
        self.count += 1;
        self.postings = self.postings.saturating_add(postings);
        Ok(())
    }

    /// Returns a run of pages that is due to be merged, if there is one, and marks it as taken
    /// until `install`.
    ///
    /// Two kinds of runs are due: 64 loose pages, and four segments of the same number of pages.
    /// The first page must have a multiple of the number of all these pages, and one segment must
    /// be able to hold them all. If the segments have 1,024 pages or more, a fifth of their size
    /// must follow. So if nothing is due, the sizes of the segments follow from the number of pages
    /// alone.
    pub fn due(&mut self) -> Result<Option<Due>, NoMemory>
        ensures same { self.new ≡ self.old }
        ensures stands { IfOk result (λ due. IfSome due (λ run. IsSliceOf run self.new)) }
    {
        let Some((start, end)) = due_span(&self.parts, &self.taken) else {
            return Ok(None);
        };
        let first = self.parts[start].first();
        let parts = self.parts[start..end].to_vec(*self.parts.allocator())?;
        self.taken.push(first)?;
        Ok(Some(Due {
            first,
            parts,
            merged: None,
        }))
    }

    /// Puts a merged run in the place of its pages. A run that wasn't merged becomes due again. The
    /// pages are what they were.
    ///
    /// When out of memory, or if its pages were merged with others meanwhile, the run is dropped.
    pub fn install(&mut self, due: Due)
        requires { IsSliceOf due self.old }
        ensures { self.new ≡ self.old }
    {
        let Due {
            first,
            parts: _parts,
            merged,
        } = due;
        self.taken.retain(|other| *other != first);
        if let Some(merged) = merged {
            let alloc = *self.parts.allocator();
            let _put = put_part(alloc, Part::segment(first, merged), &mut self.parts);
        }
    }

    /// Merges what is due, at most 64 runs, until nothing is due or memory runs out.
    pub fn settle(&mut self)
        ensures { self.new ≡ self.old }
    {
        let alloc = *self.parts.allocator();
        for _run in 0..MOST_RUNS {
            let Ok(Some(mut due)) = self.due() else {
                return;
            };
            let was_merged = due.merge(alloc).is_ok();
            self.install(due);
            if !was_merged {
                return;
            }
        }
    }

    /// Returns a copy that shares the segments and pages.
    pub fn share(&self, alloc: Global) -> Result<Index, NoMemory>
        ensures { IfOk result (λ index. index ≡ self.now) }
    {
        Ok(Index {
            parts: self.parts.to_vec(alloc)?,
            count: self.count,
            taken: Vec::new(alloc),
            postings: self.postings,
        })
    }

    /// Begins a search. Returns the hits if the search is short, and otherwise a `Search` that
    /// finds them in steps.
    ///
    /// The hits are the first 50 pages that match the query, by descending score, then in place
    /// order.
    pub fn begin(&self, alloc: Global, query: &Query) -> Result<Begun, NoMemory>
        ensures { IfOk result (λ begun. begun_hits begun ≡ answer_of self.now query.now) }
    {
        let terms = query.terms();
        if is_light(terms, self.postings, large_len(&self.parts)) {
            let hits = search(alloc, &self.parts, query)?;
            return Ok(Begun::Found(hits));
        }
        let search = Search::new(alloc, &self.parts, terms)?;
        Ok(Begun::Searching(search))
    }

    /// Searches to the end and returns the hits. See `begin` for what they are.
    pub fn search(&self, alloc: Global, query: &Query) -> Result<Vec<Hit>, NoMemory>
        ensures { IfOk result (λ hits. hits.items ≡ answer_of self.now query.now) }
    {
        match self.begin(alloc, query)? {
            Begun::Found(hits) => Ok(hits),
            Begun::Searching(search) => search.finish(),
        }
    }

    /// Returns the places of the pages that contain `word`, with how often it occurs in each, in
    /// place order.
    pub fn occurrences(&self, alloc: Global, word: &[u8]) -> Result<Vec<(Place, u32)>, NoMemory>
        ensures { IfOk result (λ list. AreOccurrences self.now word.now list.items) }
    {
        occurrences(alloc, &self.parts, word)
    }
}
