//! `Segment`: consecutive pages with a table of their words; made of pages, searched by word.

ghost use Rattle.std.specs.Prelude.{None, ◌≡◌, ◌<◌, ◌+◌, ◌≤◌, length, replicate, IfOk, IfSome};
ghost use Rattle.std.specs.List.{All};
ghost use Rattle.gopher_page.specs.Page.{held};
ghost use Rattle.gopher_segment.specs.Large.{large_from, table_pages};
ghost use Rattle.gopher_segment.specs.Postings.{IsPostingListOf};
ghost use Rattle.gopher_segment.specs.Ranks.{AreRanks};
ghost use Rattle.gopher_segment.specs.Segment.{pages_of, meant_counts};
ghost use Rattle.gopher_segment.specs.SegmentRows.{AreSmall, AreRowsOf, AreConsecutive, AreSegmentTables};

use crate::gathering::rows_of;
use crate::joining::join;
use crate::large::{large_of, spread_large};
use crate::merging::{Cursor, merge};
use crate::postings::Postings;
use crate::ranks::ranks_of;
use crate::sharing::share;
use crate::table::Table;
use gopher_bytes::NoMemory;
use gopher_page::Page;
use gopher_text::MAX_REPLY;
use std::alloc::Global;
use std::marker::Model;
use std::sync::Arc;

/// Consecutive pages with one table of their words and posting lists. It never changes, so indexes
/// share it.
///
/// The table leaves out large pages (`Page::is_large`), because a copy of their words would take
/// much memory: their words are found in the pages.
#[derive(Debug)]
pub struct Segment {
    first: usize,
    pages: Vec<Arc<Page>>,
    ranks: Vec<u16>,
    // The indices of the large pages, whose words aren't in the table.
    large: Vec<usize>,
    table: Table,
}

// Written out: a derived one, and that of each part, is proved again in every crate above.
impl Drop for Segment {
    fn drop(self) {
        let Self {
            first: _first,
            pages: _pages,
            ranks: _ranks,
            large: _large,
            table: _table,
        } = self;
    }
}

impl Model for Segment {
    ghost use Rattle.gopher_page.specs.Page.{held};
    ghost use Rattle.gopher_segment.specs.Segment.{SegmentData};

    ghost Value = { SegmentData };

    ghost use Rattle.gopher_segment.specs.Ranks.{AreRanks};
    ghost use Rattle.gopher_segment.specs.SegmentRows.{IsSegment};

    ghost view = { λ s. record { first = s.first; pages = held s.pages.items } };

    ghost invariant = { λ s.
        IsSegment s.first (held s.pages.items) s.table s.large.items
        × AreRanks (held s.pages.items) s.ranks.items };
}

impl Segment {
    // The segment of pages whose table was made.
    fn of_table(
        alloc: Global,
        first: usize,
        pages: Vec<Arc<Page>>,
        table: Table,
    ) -> Result<Segment, NoMemory>
        requires table { AreRowsOf first (table_pages (held pages.items)) table }
        requires small { AreSmall (held pages.items) }
        ensures first { IfOk result (λ segment. segment.first ≡ first) }
        ensures pages { IfOk result (λ segment. segment.pages ≡ held pages.items) }
    {
        let ranks = ranks_of(alloc, &pages)?;
        let large = large_of(alloc, &pages)?;
        Ok(Segment {
            first,
            pages,
            ranks,
            large,
            table,
        })
    }

    /// Makes the segment of `pages`. The first page has the number `first`.
    ///
    /// While it runs it allocates up to 83 bytes for each distinct word of each page that isn't
    /// large. Then it sorts the places of the pages, with up to 34 bytes for each.
    pub fn of_pages(alloc: Global, first: usize, pages: &[Arc<Page>]) -> Result<Segment, NoMemory>
        requires { first + length pages.now ≤ 65536 }
        ensures first { IfOk result (λ segment. segment.first ≡ first) }
        ensures pages { IfOk result (λ segment. segment.pages ≡ held pages.now) }
    {
        let rows = rows_of(alloc, first, pages)?;
        let table = join(alloc, rows)?;
        let mut list = Vec::new(alloc);
        share(pages, &mut list)?;
        Segment::of_table(alloc, first, list, table)
    }

    /// Merges consecutive segments into one. The first page has the number `first`.
    pub fn merged(
        alloc: Global,
        first: usize,
        segments: &[Arc<Segment>],
    ) -> Result<Segment, NoMemory>
        requires { AreConsecutive first (held segments.now) }
        ensures first { IfOk result (λ made. made.first ≡ first) }
        ensures pages { IfOk result (λ made. made.pages ≡ pages_of (held segments.now)) }
    {
        let mut cursors = cursors_of(alloc, segments)?;
        let table = merge(alloc, &mut cursors)?;
        let pages = shared_pages(alloc, segments)?;
        Segment::of_table(alloc, first, pages, table)
    }

    /// Returns the pages.
    pub fn pages(&self) -> &[Arc<Page>]
        ensures pages { held result.now ≡ self.now.pages }
        ensures small { AreSmall self.now.pages }
    {
        let _table = &self.table;
        &self.pages
    }

    /// Returns the ranks of the pages in place order. Pages of one place may have different ranks.
    pub fn ranks(&self) -> &[u16]
        ensures { AreRanks self.now.pages result.now }
    {
        let _pages = &self.pages;
        &self.ranks
    }

    /// Returns the table of the words, which leaves out large pages.
    pub(crate) fn table(&self) -> &Table
        ensures { AreRowsOf self.now.first (table_pages self.now.pages) result.now }
    {
        &self.table
    }

    /// Writes for each page the number of occurrences of `sought` or, if `is_prefix`, of all words
    /// that begin with it.
    ///
    /// `cells` has a 0 for each page.
    pub fn spread(&self, is_prefix: bool, sought: &[u8], cells: &mut [u32])
        requires { cells.old ≡ replicate (length self.now.pages) 0 }
        ensures counts { cells.new ≡ meant_counts is_prefix sought.now self.now.pages }
        ensures few { All (λ count. count ≤ MAX_REPLY) cells.new }
    {
        self.table.find(is_prefix, sought).add_to(self.first, cells);
        spread_large(&self.pages, &self.large, is_prefix, sought, cells);
    }

    /// Returns the posting list of a word, which is empty if no page contains it. `None` if a page
    /// of the segment is large: `spread` finds its words.
    pub fn postings(&self, word: &[u8]) -> Option<Postings<'_>>
        ensures run { IfSome result (IsPostingListOf word.now self.now.pages) }
        ensures beside { IfSome result (λ p. length p.counts.now ≡ length p.numbers.now) }
        ensures none { result ≡ None → 0 < length (large_from 0 self.now.pages) }
    {
        if self.large_len() > 0 {
            return None;
        }
        let (numbers, counts) = self.table.find(false, word).parts();
        Some(Postings {
            first: self.first,
            numbers,
            counts,
        })
    }

    /// Returns the number of large pages.
    pub fn large_len(&self) -> usize
        ensures { result ≡ length (large_from 0 self.now.pages) }
    {
        self.large.len()
    }

    /// Returns the number of words of the large pages, counted for each page.
    pub(crate) fn large_words(&self) -> usize {
        let mut words = 0_usize;
        for at in &self.large {
            if let Some(page) = self.pages.get(*at) {
                words = words.saturating_add(page.counts().len());
            }
        }
        words
    }
}

fn cursors_of<'a>(alloc: Global, segments: &'a [Arc<Segment>]) -> Result<Vec<Cursor<'a>>, NoMemory>
    ensures { IfOk result (λ made. AreSegmentTables (held segments.now) made.items) }
{
    let mut cursors = Vec::with_capacity(alloc, segments.len())?;
    for segment in segments {
        cursors.push(Cursor::new(segment.table()))?;
    }
    Ok(cursors)
}

// Returns the number of pages of all segments, at most `usize::MAX`.
fn pages_len(segments: &[Arc<Segment>]) -> usize {
    let mut pages = 0_usize;
    for segment in segments {
        pages = pages.saturating_add(segment.pages().len());
    }
    pages
}

fn shared_pages(alloc: Global, segments: &[Arc<Segment>]) -> Result<Vec<Arc<Page>>, NoMemory>
    ensures pages { IfOk result (λ pages. held pages.items ≡ pages_of (held segments.now)) }
    ensures small { IfOk result (λ pages. AreSmall (held pages.items)) }
{
    let mut pages = Vec::with_capacity(alloc, pages_len(segments))?;
    for segment in segments {
        share(segment.pages(), &mut pages)?;
    }
    Ok(pages)
}
