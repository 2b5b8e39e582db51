//! Replacing parts by the segment that they were merged into.

ghost use Rattle.std.specs.Prelude.{◌≡◌, ◌+◌, ◌≤◌, length, IfSome};
ghost use Rattle.gopher_segment.specs.SegmentRows.{AreConsecutive};
ghost use Rattle.gopher_index.specs.Index.{IsBorder, KeepsPages};

use crate::part::Part;
use gopher_item::NoMemory;
use std::alloc::Global;

// Returns the index of the part that begins after `pages` pages, if one does. The end counts as
// well.
fn border(parts: &[Part], pages: usize) -> Option<usize>
    requires few { pages ≤ 65536 }
    requires consecutive { AreConsecutive 0 parts.now }
    ensures { IfSome result (IsBorder parts.now pages) }
{
    for at in 0..parts.len() {
        if parts[at].first() == pages {
            return Some(at);
        }
    }
    let Some(last) = parts.last() else {
        return None;
    };
    let end = last.first().saturating_add(last.pages().len());
    if end == pages {
        return Some(parts.len());
    }
    None
}

/// Replaces whole parts by the segment that they were merged into. Changes nothing if its pages
/// aren't those of whole parts.
pub(crate) fn put_part(alloc: Global, merged: Part, parts: &mut Vec<Part>) -> Result<(), NoMemory>
    requires bound { merged.first + length merged.pages ≤ 65536 }
    requires consecutive { AreConsecutive 0 parts.old.items }
    ensures { KeepsPages merged parts.old.items parts.new.items }
{
    let Some(start) = border(parts, merged.first()) else {
        return Ok(());
    };
    let Some(end) = border(parts, merged.first() + merged.pages().len()) else {
        return Ok(());
    };
    let mut list = parts[..start].to_vec(alloc)?;
    list.push(merged)?;
    list.extend_from_slice(&parts[end..])?;
    *parts = list;
    Ok(())
}
