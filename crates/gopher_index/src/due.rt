//! Runs of pages that are due to be merged, and merging them.

ghost use Rattle.std.specs.Prelude.{◌≡◌, map, IfOk};
ghost use Rattle.std.specs.Arc.{arc_value};
ghost use Rattle.gopher_segment.specs.Segment.{pages_of};
ghost use Rattle.gopher_index.specs.Index.{IsIndexRun};

use crate::part::{Part, pages_in};
use gopher_item::NoMemory;
use gopher_segment::{Segment, rows_len};
use std::alloc::Global;
use std::marker::Model;
use std::sync::Arc;

// The most rows that one list contains. A word of two pages counts twice.
const MOST_ROWS: usize = 262_144;

// Makes a segment of each part.
fn segments_of(alloc: Global, parts: &[Part]) -> Result<Vec<Arc<Segment>>, NoMemory>
    ensures { IfOk result (λ segments. map arc_value segments.items ≡ parts.now) }
{
    let mut segments = Vec::with_capacity(alloc, parts.len())?;
    for part in parts {
        segments.push(part.to_segment(alloc)?)?;
    }
    Ok(segments)
}

// Makes one segment of parts. `first` is the number of the first page.
//
// If single pages have too many words for one list of rows, a segment of each is made and merged.
fn segment_of(alloc: Global, first: usize, parts: &[Part]) -> Result<Segment, NoMemory>
    requires { IsIndexRun first parts.now }
    ensures first { IfOk result (λ segment. segment.first ≡ first) }
    ensures pages { IfOk result (λ segment. segment.pages ≡ pages_of parts.now) }
{
    if parts.iter().all(|part| part.as_segment().is_none()) {
        let pages = pages_in(alloc, parts)?;
        if rows_len(&pages) <= MOST_ROWS {
            return Segment::of_pages(alloc, first, &pages);
        }
    }
    Segment::merged(alloc, first, &segments_of(alloc, parts)?)
}

/// Consecutive pages of an index that are due to be merged into one segment.
///
/// It shares the pages, so they can be merged without access to the index.
#[derive(Debug, Drop)]
pub struct Due {
    pub(crate) first: usize,
    pub(crate) parts: Vec<Part>,
    pub(crate) merged: Option<Arc<Segment>>,
}

impl Model for Due {
    ghost use Rattle.gopher_segment.specs.Segment.{SegmentData};
    ghost use Rattle.gopher_index.specs.Index.{IsDue, run_data};

    ghost Value = { SegmentData };

    ghost view = { λ d. run_data d.first d.parts.items };

    ghost invariant = { λ d. IsDue d.first d.parts.items d.merged };
}

impl Due {
    /// Merges the pages into one segment, for `Index::install`.
    pub fn merge(&mut self, alloc: Global) -> Result<(), NoMemory>
        ensures { self.new ≡ self.old }
    {
        let segment = segment_of(alloc, self.first, &self.parts)?;
        self.merged = Some(Arc::new(alloc, segment)?);
        Ok(())
    }
}
