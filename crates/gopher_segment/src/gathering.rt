//! Making the rows of pages, one page after another.

ghost use Rattle.std.specs.Prelude.{◌≡◌, ◌+◌, ◌≤◌, ◌-◌, ◌^◌, ◌++◌, length, min, IfOk, OnOk};
ghost use Rattle.gopher_page.specs.Packed.{AreCounts};
ghost use Rattle.gopher_page.specs.Page.{held};
ghost use Rattle.gopher_segment.specs.Large.{table_pages, table_rows};
ghost use Rattle.gopher_segment.specs.Segment.{words_count};
ghost use Rattle.gopher_segment.specs.SegmentRows.{AreSmall, Tell};

use crate::row::Row;
use gopher_bytes::NoMemory;
use gopher_page::Page;
use std::alloc::Global;
use std::sync::Arc;

// Appends the rows of the page `number`, which has none if it is large.
fn add_page<'a>(number: u16, page: &'a Page, rows: &mut Vec<Row<'a>>) -> Result<(), NoMemory>
    ensures rows { OnOk result (rows.new.items ≡ rows.old.items ++ table_rows number page.now) }
    ensures sound { AreCounts page.now.counts }
{
    let counts = page.counts();
    let len = counts.len();
    if page.is_large() {
        return Ok(());
    }
    rows.reserve(len)?;
    for index in 0..len {
        let (word, count) = counts.get(index);
        rows.push_reserved(Row::new(number, word, count));
    }
    Ok(())
}

/// Returns the number of rows of all pages, at most `usize::MAX`: one for each distinct word of
/// each page that isn't large.
pub fn rows_len(pages: &[Arc<Page>]) -> usize
    ensures { result ≡ min (words_count (table_pages (held pages.now))) (2 ^ 64 - 1) }
{
    let mut rows = 0_usize;
    for page in pages {
        if !page.is_large() {
            rows = rows.saturating_add(page.counts().len());
        }
    }
    rows
}

/// Returns the rows of all pages that aren't large, page by page. The first page has the number
/// `first`.
pub(crate) fn rows_of<'a>(
    alloc: Global,
    first: usize,
    pages: &'a [Arc<Page>],
) -> Result<Vec<Row<'a>>, NoMemory>
    requires { first + length pages.now ≤ 65536 }
    ensures tell { IfOk result (λ rows. Tell first (table_pages (held pages.now)) rows.items) }
    ensures small { IfOk result (λ rows. AreSmall (held pages.now)) }
{
    let mut rows = Vec::with_capacity(alloc, rows_len(pages))?;
    for (index, page) in pages.iter().enumerate() {
        add_page((first + index) as u16, page, &mut rows)?;
    }
    Ok(rows)
}
