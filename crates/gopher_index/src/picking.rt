//! Picking the parts that are due to be merged.

ghost use Rattle.std.specs.Prelude.{◌<◌, ◌≤◌, length, IfSome};

use crate::part::Part;
use gopher_segment::Size;

// The number of segments that are merged into one.
const MERGED: usize = 4;

// The number of loose pages that are merged into one segment.
const MERGED_LOOSE: usize = 64;

// Segments with at least this many pages are merged only if a fifth of their size follows.
const LARGE: usize = 1_024;

// Returns whether each part has `pages` pages.
fn are_alike(parts: &[Part], pages: usize) -> bool {
    parts.iter().all(|part| part.pages().len() == pages)
}

// Returns whether one segment can hold the contents of all of these segments. Single pages always
// fit.
fn fit(parts: &[Part]) -> bool {
    let mut sum = Size::default();
    for part in parts {
        let Some(segment) = part.as_segment() else {
            return true;
        };
        sum = sum.with(Size::of(segment));
    }
    sum.fits()
}

// Returns how many parts from the first one on are due to be merged, if they are. All have the same
// number of pages, so the sizes of merged segments follow from the number of pages alone.
fn due_len(parts: &[Part]) -> Option<usize>
    ensures some { IfSome result (λ merged. 0 < merged) }
    ensures most { IfSome result (λ merged. merged ≤ length parts.now) }
{
    let part = parts.first()?;
    let pages = part.pages().len();
    let merged = if pages == 1 { MERGED_LOOSE } else { MERGED };
    let needed = if pages < LARGE {
        merged
    } else {
        merged.saturating_add(1)
    };
    if parts.len() < needed || part.first().checked_rem(pages.saturating_mul(merged)) != Some(0) {
        return None;
    }
    if are_alike(&parts[..needed], pages) && fit(&parts[..merged]) {
        Some(merged)
    } else {
        None
    }
}

/// Returns the start and the end of the first parts that are due to be merged, if there are any.
/// `taken` contains the numbers of the first pages of runs that are being merged.
pub(crate) fn due_span(parts: &[Part], taken: &[usize]) -> Option<(usize, usize)>
    ensures { IfSome result (λ span. (span.0 < span.1) × (span.1 ≤ length parts.now)) }
{
    for (start, part) in parts.iter().enumerate() {
        if taken.contains(&part.first()) {
            continue;
        }
        if let Some(merged) = due_len(&parts[start..]) {
            return Some((start, start + merged));
        }
    }
    None
}
