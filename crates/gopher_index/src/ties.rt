//! Pages that tie with the last of the best: the ranks of their places show which of them can't get
//! among the best, so that most of these pages aren't read.

ghost use Rattle.std.specs.Prelude.{◌≡◌, ◌<◌, Some, length, map, slice_get, OnOk};
ghost use Rattle.std.specs.Arc.{arc_value};
ghost use Rattle.gopher_index.specs.Best.{BestData};
ghost use Rattle.gopher_index.specs.Ties.{is_covered, AreTies, TakesPageAt};
ghost use Rattle.gopher_segment.specs.Ranks.{AreRanks};

use crate::best::Best;
use crate::part::Part;
use gopher_item::NoMemory;
use gopher_page::Page;
use std::sync::Arc;

/// The pages of a part, and one of them that can't get among the best.
///
/// A page with a higher rank and a score below `below` can't get among them either: its place
/// doesn't come before the place of that page.
#[derive(Drop)]
pub(crate) struct Ties<'a> {
    pages: &'a [Arc<Page>],
    ranks: &'a [u16],
    // The index of the page that can't get among the best, and its score.
    tied: usize,
    score: u64,
    // One more than the score, or 0 if no such page is known.
    below: u64,
}

impl<'a> Ties<'a> {
    /// Starts with no page that can't get among the best.
    pub fn new(part: &'a Part) -> Ties<'a>
        ensures pages { map arc_value result.pages.now ≡ part.now.pages }
        ensures ties { (best : BestData) → AreTies result best }
    {
        Ties {
            pages: part.pages(),
            ranks: part.ranks(),
            tied: 0,
            score: 0,
            below: 0,
        }
    }

    /// Returns the page at an index of the part.
    pub fn page(&self, index: usize) -> &'a Arc<Page>
        requires { index < length self.now.pages.now }
        ensures { slice_get (map arc_value self.now.pages.now) index ≡ Some (arc_value result.now) }
    {
        &self.pages[index]
    }

    // Returns whether a page with this score is known not to get among the best.
    fn covers(&self, index: usize, score: u64) -> bool
        requires within { index < length self.now.pages.now }
        requires each { length self.now.ranks.now ≡ length self.now.pages.now }
        requires tied { self.now.tied < length self.now.pages.now }
        ensures { result ≡ is_covered self.now index score }
    {
        score < self.below && self.ranks[self.tied] < self.ranks[index]
    }

    // Looks again whether the page at `tied` can't get among the best.
    fn renew(&mut self, best: &Best<'a>)
        requires ranks { AreRanks (map arc_value self.old.pages.now) self.old.ranks.now }
        requires tied { self.old.tied < length self.old.pages.now }
        ensures same { self.new.pages ≡ self.old.pages }
        ensures ties { AreTies self.new best.now }
    {
        let page = &self.pages[self.tied];
        self.below = if best.rejects(self.score, page) {
            self.score.saturating_add(1)
        } else {
            0
        };
    }

    /// Inserts the page at an index of the part, with its score, into the best. The page is read
    /// only if it isn't known that it can't get among them.
    pub fn insert(&mut self, index: usize, score: u64, best: &mut Best<'a>) -> Result<(), NoMemory>
        requires within { index < length self.old.pages.now }
        requires ties { AreTies self.old best.old }
        ensures same { self.new.pages ≡ self.old.pages }
        ensures ties { OnOk result (AreTies self.new best.new) }
        ensures takes { TakesPageAt self.old index score best.old best.new result }
    {
        if self.covers(index, score) {
            return Ok(());
        }
        let page = &self.pages[index];
        best.insert(score, page)?;
        if best.rejects(score, page) {
            self.tied = index;
            self.score = score;
        }
        self.renew(best);
        Ok(())
    }
}
