//! Large pages: a table leaves out their words, which are counted in the pages themselves.

ghost use Rattle.std.specs.Prelude.{◌≡◌, ◌<◌, length, IfOk};
ghost use Rattle.gopher_page.specs.Page.{held};
ghost use Rattle.gopher_segment.specs.Large.{WritesCount, large_from, table_pages};
ghost use Rattle.gopher_segment.specs.Segment.{meant_counts};

use gopher_bytes::NoMemory;
use gopher_page::Page;
use std::alloc::Global;
use std::sync::Arc;

/// Returns the indices of the large pages.
pub(crate) fn large_of(alloc: Global, pages: &[Arc<Page>]) -> Result<Vec<usize>, NoMemory>
    ensures { IfOk result (λ large. large.items ≡ large_from 0 (held pages.now)) }
{
    let mut large = Vec::new(alloc);
    for (index, page) in pages.iter().enumerate() {
        if page.is_large() {
            large.push(index)?;
        }
    }
    Ok(large)
}

// Writes the count of one page.
fn write_count(pages: &[Arc<Page>], at: usize, is_prefix: bool, sought: &[u8], cells: &mut [u32])
    requires within { at < length pages.now }
    requires each { length cells.old ≡ length pages.now }
    ensures { WritesCount is_prefix sought.now (held pages.now) at cells.old cells.new }
{
    cells[at] = pages[at].counts().count_meant(is_prefix, sought);
}

/// Writes the counts of the large pages, whose cells are 0.
pub(crate) fn spread_large(
    pages: &[Arc<Page>],
    large: &[usize],
    is_prefix: bool,
    sought: &[u8],
    cells: &mut [u32],
)
    requires large { large.now ≡ large_from 0 (held pages.now) }
    requires cells { cells.old ≡ meant_counts is_prefix sought.now (table_pages (held pages.now)) }
    ensures { cells.new ≡ meant_counts is_prefix sought.now (held pages.now) }
{
    for at in large {
        write_count(pages, *at, is_prefix, sought, cells);
    }
}
