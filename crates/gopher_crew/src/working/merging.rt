//! `Merging`: when workers may merge pages, and whether merged pages are still to be published.

ghost use Rattle.std.specs.Prelude.{◌≡◌, ◌||◌, not, false};
ghost use Rattle.gopher_crew.specs.Merging.{is_at_last, may_merge, retry_after};

// After a merge runs out of memory, merging is tried again when this number of pages was found.
const PAGES_UNTIL_RETRY: usize = 64;

/// When workers may merge pages, and whether merged pages are still to be published.
#[derive(Drop)]
pub(crate) struct Merging {
    /// Whether pages were merged that aren't published as merged.
    pub is_merged: bool,
    // No pages are merged before this number of pages was found.
    retry_at: usize,
    // Whether a run was returned to be merged since the crawl finished.
    is_last_taken: bool,
}

impl Merging {
    /// Nothing was merged yet.
    pub fn new() -> Merging
        ensures merged { result.is_merged ≡ false }
        ensures retry { result.retry_at ≡ 0 }
        ensures last { result.is_last_taken ≡ false }
    {
        Merging {
            is_merged: false,
            retry_at: 0,
            is_last_taken: false,
        }
    }

    /// Returns whether pages may be merged, from how many places wait and are out, and how many
    /// pages were found. While places are out but none waits, merging would only delay the end of
    /// the crawl, because few pages are still to come. When the crawl is finished, one run is
    /// merged.
    pub fn may_merge(&mut self, waiting: u32, out: u32, found: usize) -> bool
        ensures may { result ≡ may_merge self.old waiting out found }
        ensures merged { self.new.is_merged ≡ self.old.is_merged }
        ensures retry { self.new.retry_at ≡ self.old.retry_at }
        ensures last { self.new.is_last_taken ≡ is_at_last self.old waiting out }
    {
        if waiting > 0 {
            return self.retry_at <= found;
        }
        if out > 0 {
            return false;
        }
        if self.is_last_taken {
            return false;
        }
        self.is_last_taken = true;
        self.retry_at <= found
    }

    /// Records the end of a merge, and how many pages were found by then. If memory ran out, the
    /// next waits until 64 more are found.
    pub fn end_merge(&mut self, was_merged: bool, found: usize)
        ensures merged { self.new.is_merged ≡ (was_merged || self.old.is_merged) }
        ensures retry { self.new.retry_at ≡ retry_after self.old was_merged found }
        ensures last { self.new.is_last_taken ≡ self.old.is_last_taken }
    {
        if was_merged {
            self.is_merged = true;
        } else {
            self.retry_at = found.saturating_add(PAGES_UNTIL_RETRY);
        }
    }

    /// Records whether the merged pages were published.
    pub fn end_renewal(&mut self, was_published: bool)
        ensures merged { self.new.is_merged ≡ not was_published }
        ensures retry { self.new.retry_at ≡ self.old.retry_at }
        ensures last { self.new.is_last_taken ≡ self.old.is_last_taken }
    {
        self.is_merged = !was_published;
    }
}
