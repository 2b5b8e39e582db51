//! Searches that are done in steps, so that a thread can serve others in between.

ghost use Rattle.std.specs.Prelude.{◌≡◌, ◌<◌, None, Ok, length, map, IfOk, IfSome, OnErr};
ghost use Rattle.gopher_page.specs.Query.{IsQuery};
ghost use Rattle.gopher_segment.specs.Segment.{pages_of};
ghost use Rattle.gopher_index.specs.Answer.{answer_of};
ghost use Rattle.gopher_index.specs.Best.{kept_hit};
ghost use Rattle.gopher_index.specs.Searching.{AddsCells};

use crate::best::{Best, Kept};
use crate::by_cells::rank_cells;
use crate::hit::Hit;
use crate::joined::Joined;
use crate::part::Part;
use crate::plan::{Group, groups_of};
use gopher_item::NoMemory;
use gopher_page::Term;
use std::alloc::Global;
use std::marker::Model;

/// A search that is done in steps, so that a thread can serve others in between.
///
/// It shares the pages that the index had at `Index::begin`. If the index changes meanwhile, the
/// hits stay those of these pages.
#[derive(Debug)]
pub struct Search {
    alloc: Global,
    parts: Vec<Part>,
    terms: Vec<Term>,
    // None before the first step.
    groups: Vec<Group>,
    // The best of the pages that were searched.
    kept: Vec<Kept>,
    // The groups that were joined in the current part.
    joined: Joined,
    // The number of parts that were searched.
    done: usize,
}

// Written out: a derived one, and that of each part, is proved again in every crate above.
impl Drop for Search {
    fn drop(self) {
        let Self {
            alloc: _alloc,
            parts: _parts,
            terms: _terms,
            groups: _groups,
            kept: _kept,
            joined: _joined,
            done: _done,
        } = self;
    }
}

impl Model for Search {
    ghost use Rattle.gopher_index.specs.Answer.{SearchData};

    ghost Value = { SearchData };

    ghost use Rattle.gopher_index.specs.Searching.{search_data, IsSearching};

    ghost view = { search_data };

    ghost invariant = { IsSearching };
}

// Returns the best of the kept candidates and the pages of a part.
fn kept_with_cells(
    alloc: Global,
    kept: &[Kept],
    part: &Part,
    joined: &Joined,
) -> Result<Vec<Kept>, NoMemory>
    requires verdicts { length joined.now.verdicts.items ≡ length part.now.pages }
    requires scores { length joined.now.scores.items ≡ length part.now.pages }
    ensures { AddsCells part.now.pages joined.now kept.now result }
{
    let mut best = Best::of(alloc, kept)?;
    rank_cells(part, &joined.verdicts, &joined.scores, &mut best)?;
    best.kept(alloc)
}

// Returns the hits of the kept candidates.
fn hits_of(alloc: Global, kept: &[Kept]) -> Result<Vec<Hit>, NoMemory>
    ensures { IfOk result (λ hits. hits.items ≡ map kept_hit kept.now) }
{
    Best::of(alloc, kept)?.hits(alloc)
}

impl Search {
    /// Starts a search for the terms of a query in the pages of parts, which it shares. It doesn't
    /// group the terms, because the time grows with the square of their number, and beginning a
    /// search must be quick.
    pub(crate) fn new(alloc: Global, parts: &[Part], terms: &[Term]) -> Result<Search, NoMemory>
        requires { IsQuery terms.now }
        ensures { IfOk result (λ new. new.hits ≡ answer_of (pages_of parts.now) terms.now) }
    {
        Ok(Search {
            alloc,
            parts: parts.to_vec(alloc)?,
            terms: terms.to_vec(alloc)?,
            groups: Vec::new(alloc),
            kept: Vec::new(alloc),
            joined: Joined::new(alloc),
            done: 0,
        })
    }

    /// Does one step. Returns the hits if no step is left, and `None` otherwise.
    ///
    /// The first step groups equal terms. Each further step goes through the postings of one group
    /// of terms in one segment, or of all groups in a page that isn't in a segment. A large page
    /// counts as 2,048 postings. Or a step inserts the matching pages of a segment, or such a page,
    /// among the best.
    ///
    /// # Errors
    ///
    /// `NoMemory` (90): the step wasn't done, and as many are left. It can be tried again.
    pub fn step(&mut self) -> Result<Option<Vec<Hit>>, NoMemory>
        ensures hits { self.new.hits ≡ self.old.hits }
        ensures found { IfOk result (λ found. IfSome found (λ hits. hits.items ≡ self.old.hits)) }
        ensures still { IfOk result (λ it. IfSome it (λ _. self.new.left ≡ self.old.left)) }
        ensures left { result ≡ Ok None → self.new.left < self.old.left }
        ensures refused { OnErr result (self.new.left ≡ self.old.left) }
    {
        if self.groups.is_empty() {
            self.groups = groups_of(self.alloc, &self.terms)?;
            return Ok(None);
        }
        if self.done == self.parts.len() {
            return Ok(Some(hits_of(self.alloc, &self.kept)?));
        }
        let part = &self.parts[self.done];
        if self.joined.groups < self.groups.len() {
            self.joined.join_next(part, &self.groups)?;
            return Ok(None);
        }
        self.kept = kept_with_cells(self.alloc, &self.kept, part, &self.joined)?;
        self.done += 1;
        self.joined.groups = 0;
        Ok(None)
    }

    /// Does all steps that are left.
    pub(crate) fn finish(self) -> Result<Vec<Hit>, NoMemory>
        ensures { IfOk result (λ hits. hits.items ≡ self.hits) }
    {
        let mut search = self;
        loop {
            if let Some(hits) = search.step()? {
                return Ok(hits);
            }
        }
    }
}

/// A search that has ended or is under way, as `Index::begin` returns it.
#[derive(Debug, Drop)]
pub enum Begun {
    /// The hits of a short search.
    Found(Vec<Hit>),
    /// A search that finds the hits in steps.
    Searching(Search),
}
