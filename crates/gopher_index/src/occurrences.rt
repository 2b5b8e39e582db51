//! Listing the pages that contain a word.

ghost use Rattle.std.specs.Prelude.{◌≡◌, ◌++◌, length, IfOk, OnOk};
ghost use Rattle.gopher_index.specs.Answer.{occurring, AreOccurrences, FindsCounted};
ghost use Rattle.gopher_segment.specs.Segment.{pages_of};

use crate::part::Part;
use gopher_item::{NoMemory, Place};
use gopher_page::{Page, push_page};
use std::alloc::Global;
use std::sync::Arc;

fn push_counted(
    pages: &[Arc<Page>],
    counts: &[u32],
    found: &mut Vec<(Place, u32)>,
) -> Result<(), NoMemory>
    requires { length counts.now ≡ length pages.now }
    ensures { FindsCounted pages.now counts.now found.old.items found.new.items result }
{
    for (index, page) in pages.iter().enumerate() {
        push_page(page, counts[index], found)?;
    }
    Ok(())
}

fn push_part(
    alloc: Global,
    part: &Part,
    word: &[u8],
    found: &mut Vec<(Place, u32)>,
) -> Result<(), NoMemory>
    ensures { OnOk result (found.new.items ≡ found.old.items ++ occurring word.now part.now.pages) }
{
    let pages = part.pages();
    let mut counts = vec![in alloc; 0; pages.len()]?;
    part.spread(false, word, &mut counts);
    push_counted(pages, &counts, found)
}

/// Lists the occurrences of a word in the pages of parts.
pub(crate) fn occurrences(
    alloc: Global,
    parts: &[Part],
    word: &[u8],
) -> Result<Vec<(Place, u32)>, NoMemory>
    ensures { IfOk result (λ list. AreOccurrences (pages_of parts.now) word.now list.items) }
{
    let mut found = Vec::new(alloc);
    for part in parts {
        push_part(alloc, part, word, &mut found)?;
    }
    found.sort()?;
    Ok(found)
}
