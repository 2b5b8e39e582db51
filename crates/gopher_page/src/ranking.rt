//! How pages are listed: the order of hits (`Page::rank`), and the pages that contain a word
//! (`push_page`).

ghost use Rattle.std.specs.Prelude.{◌≡◌, ◌++◌, OnErr, OnOk};
ghost use Rattle.gopher_page.specs.Ranking.{counted_place, scored_cmp};

use crate::page::Page;
use gopher_item::{NoMemory, Place};
use std::cmp::Ordering;

impl Page {
    /// Returns the order of two hits, this page with its score and another with its own: the
    /// higher score is first, and pages of equal score are in place order.
    pub fn rank(&self, score: u64, other: &Page, other_score: u64) -> Ordering
        ensures { result ≡ scored_cmp (score, self.now.place) (other_score, other.now.place) }
    {
        // compares the scores first, so that a page is read only if they are equal
        match other_score.cmp(&score) {
            Ordering::Equal => self.place().cmp(other.place()),
            order => order,
        }
    }
}

/// Adds the place of a page to a list, with a word's count in the page, unless the count is 0.
///
/// # Errors
///
/// `NoMemory` (90): out of memory. The list stays unchanged.
pub fn push_page(page: &Page, count: u32, found: &mut Vec<(Place, u32)>) -> Result<(), NoMemory>
    ensures adds { OnOk result (found.new.items ≡ found.old.items ++ counted_place page.now count) }
    ensures refused { OnErr result (found.new.items ≡ found.old.items) }
{
    if count > 0 {
        found.push((page.place().clone()?, count))?;
    }
    Ok(())
}
