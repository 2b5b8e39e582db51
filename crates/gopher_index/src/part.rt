//! `Part`: consecutive pages that are searched together, a page that was found or a segment.

ghost use Rattle.std.specs.Prelude.{◌≡◌, ◌<◌, ◌≤◌, ◌∷◌, [], length, map, replicate, IfOk, IfSome};
ghost use Rattle.std.specs.Arc.{arc_value};
ghost use Rattle.std.specs.List.{All};
ghost use Rattle.gopher_page.specs.Counts.{count_meant};
ghost use Rattle.gopher_segment.specs.Postings.{IsPostingListOf};
ghost use Rattle.gopher_segment.specs.Ranks.{AreRanks};
ghost use Rattle.gopher_segment.specs.Segment.{meant_counts, pages_of};

use gopher_item::NoMemory;
use gopher_page::Page;
use gopher_segment::{Postings, Segment, share};
use std::alloc::{AllocError, Global};
use std::marker::Model;
use std::slice::from_ref;
use std::sync::Arc;

/// The pages of a part.
#[derive(Debug, Drop)]
pub(crate) enum Held {
    Page(Arc<Page>),
    Segment(Arc<Segment>),
}

/// Consecutive pages of an index: a page that was found, which has no table but its own counts, or
/// a segment.
#[derive(Debug, Drop)]
pub(crate) struct Part {
    first: usize,
    held: Held,
}

impl Model for Part {
    ghost use Rattle.gopher_segment.specs.Segment.{SegmentData};
    ghost use Rattle.gopher_index.specs.Part.{IsPart, part_data};

    ghost Value = { SegmentData };

    ghost view = { λ p. part_data p.first p.held };

    ghost invariant = { λ p. IsPart p.first p.held };
}

// Writes how often words occur in a page. `cells` has one element, 0.
fn spread_page(page: &Page, is_prefix: bool, sought: &[u8], cells: &mut [u32])
    requires { cells.old ≡ 0 ∷ [] }
    ensures counts { cells.new ≡ count_meant is_prefix sought.now page.now.counts ∷ [] }
    ensures few { All (λ count. count ≤ 1048576) cells.new }
{
    let counts = page.counts();
    // The contract of `len` says that the words are few.
    counts.len();
    cells[0] = counts.count_meant(is_prefix, sought);
}

impl Part {
    /// Creates the part of the page with the number `first`.
    pub fn page(first: usize, page: Arc<Page>) -> Part
        requires { first < 65536 }
        ensures first { result.first ≡ first }
        ensures pages { result.pages ≡ arc_value page ∷ [] }
    {
        Part {
            first,
            held: Held::Page(page),
        }
    }

    /// Creates the part of a segment, whose first page has the number `first`.
    pub fn segment(first: usize, segment: Arc<Segment>) -> Part
        requires { (arc_value segment).first ≡ first }
        ensures { result ≡ arc_value segment }
    {
        Part {
            first,
            held: Held::Segment(segment),
        }
    }

    /// Returns the number of the first page.
    pub fn first(&self) -> usize
        ensures { result ≡ self.now.first }
    {
        self.first
    }

    /// Returns the pages.
    pub fn pages(&self) -> &[Arc<Page>]
        ensures { map arc_value result.now ≡ self.now.pages }
    {
        match &self.held {
            Held::Page(page) => from_ref(page),
            Held::Segment(segment) => segment.pages(),
        }
    }

    /// Returns the ranks of the pages in place order.
    pub fn ranks(&self) -> &[u16]
        ensures { AreRanks self.now.pages result.now }
    {
        match &self.held {
            Held::Page(_) => &[0],
            Held::Segment(segment) => segment.ranks(),
        }
    }

    /// Writes for each page how often `sought` or, if `is_prefix`, the words that begin with it
    /// occur in it. `cells` has a 0 for each page.
    pub fn spread(&self, is_prefix: bool, sought: &[u8], cells: &mut [u32])
        requires { cells.old ≡ replicate (length self.now.pages) 0 }
        ensures counts { cells.new ≡ meant_counts is_prefix sought.now self.now.pages }
        ensures few { All (λ count. count ≤ 1048576) cells.new }
    {
        match &self.held {
            Held::Page(page) => spread_page(page, is_prefix, sought, cells),
            Held::Segment(segment) => segment.spread(is_prefix, sought, cells),
        }
    }

    /// Returns the posting list of a word, if the part has lists.
    pub fn postings(&self, word: &[u8]) -> Option<Postings<'_>>
        ensures run { IfSome result (IsPostingListOf word.now self.now.pages) }
        ensures beside { IfSome result (λ p. length p.counts.now ≡ length p.numbers.now) }
    {
        match &self.held {
            Held::Page(_) => None,
            Held::Segment(segment) => segment.postings(word),
        }
    }

    /// Returns the page, if the part is a page that was found.
    pub fn as_page(&self) -> Option<&Arc<Page>>
        ensures { IfSome result (λ page. self.now.pages ≡ arc_value page.now ∷ []) }
    {
        match &self.held {
            Held::Page(page) => Some(page),
            Held::Segment(_) => None,
        }
    }

    /// Returns the segment, unless the part is a page that was found.
    pub fn as_segment(&self) -> Option<&Arc<Segment>> {
        match &self.held {
            Held::Page(_) => None,
            Held::Segment(segment) => Some(segment),
        }
    }

    /// Returns a segment of these pages.
    pub fn to_segment(&self, alloc: Global) -> Result<Arc<Segment>, NoMemory>
        ensures { IfOk result (λ segment. arc_value segment ≡ self.now) }
    {
        match &self.held {
            Held::Page(page) => {
                let segment = Segment::of_pages(alloc, self.first, from_ref(page))?;
                Ok(Arc::new(alloc, segment)?)
            }
            Held::Segment(segment) => Ok(segment.clone()?),
        }
    }
}

// A clone shares the pages.
impl Clone for Part {
    ghost is_clone = { λ part copy. copy ≡ part };

    fn clone(&self) -> Result<Part, AllocError> {
        let held = match &self.held {
            Held::Page(page) => Held::Page(page.clone()?),
            Held::Segment(segment) => Held::Segment(segment.clone()?),
        };
        Ok(Part {
            first: self.first,
            held,
        })
    }
}

/// Returns the pages of parts.
pub(crate) fn pages_in(alloc: Global, parts: &[Part]) -> Result<Vec<Arc<Page>>, NoMemory>
    ensures { IfOk result (λ pages. map arc_value pages.items ≡ pages_of parts.now) }
{
    let mut pages = Vec::new(alloc);
    for part in parts {
        share(part.pages(), &mut pages)?;
    }
    Ok(pages)
}
