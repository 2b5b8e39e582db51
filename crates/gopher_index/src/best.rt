//! The best of many hits, kept in rank order without sorting all of them.

ghost use Rattle.std.specs.Prelude.{◌≡◌, ◌≤◌, length, map, max, IfOk, OnOk};
ghost use Rattle.std.specs.Arc.{arc_value};
ghost use Rattle.gopher_index.specs.Best.{kept_hit, ranked_hit, hit_with, rank_of, is_equal_at, is_beyond, Inserts, is_whole, lowest_score, AddsHit, RankBefore};

use crate::hit::Hit;
use gopher_item::{ByteString, NoMemory};
use gopher_page::Page;
use std::alloc::Global;
use std::cmp::Ordering;
use std::marker::Model;
use std::sync::Arc;

/// The most hits that a search returns.
pub(crate) const MOST_HITS: usize = 50;

/// A candidate: a page and its score.
#[derive(Drop)]
pub(crate) struct Ranked<'a> {
    score: u64,
    page: &'a Arc<Page>,
}

/// A candidate that shares its page, so that it can outlive the list that the page comes from.
#[derive(Debug, Drop)]
pub(crate) struct Kept {
    score: u64,
    page: Arc<Page>,
}

fn rank(a: &Ranked, b: &Ranked) -> Ordering
    ensures { result ≡ rank_of a.now b.now }
{
    a.page.rank(a.score, b.page, b.score)
}

// Returns how many of the best rank before the candidate. `best` is in rank order.
fn count_before(best: &[Ranked], candidate: &Ranked) -> usize
    ensures within { result ≤ length best.now }
    ensures before { RankBefore candidate.now best.now result }
{
    match best.last() {
        // Pages of one score often come in place order.
        Some(last) if rank(candidate, last).is_gt() => best.len(),
        _ => best.partition_point(|other| rank(candidate, other).is_gt()),
    }
}

// Returns whether the one at `index` has the same rank as the candidate.
fn is_equal_at(best: &[Ranked], index: usize, candidate: &Ranked) -> bool
    ensures { result ≡ is_equal_at candidate.now best.now index }
{
    match best.get(index) {
        Some(other) => rank(candidate, other).is_eq(),
        None => false,
    }
}

// Inserts a candidate into the best at its rank, unless one of the same rank is there already.
fn put<'a>(best: &mut Vec<Ranked<'a>>, candidate: Ranked<'a>) -> Result<(), NoMemory>
    ensures { OnOk result (Inserts candidate.entry best.old.items best.new.items) }
{
    let index = count_before(best, &candidate);
    if is_equal_at(best, index, &candidate) {
        return Ok(());
    }
    let Ok(()) = best.insert(index, candidate) else {
        return Err(NoMemory);
    };
    Ok(())
}

/// The first 50 of the hits so far that reach a least score.
#[derive(Drop)]
pub(crate) struct Best<'a> {
    least: u64,
    ranked: Vec<Ranked<'a>>,
}

impl<'a> Model for Best<'a> {
    ghost use Rattle.std.specs.Prelude.{map};
    ghost use Rattle.gopher_index.specs.Best.{BestData, ranked_hit};

    ghost Value = { BestData };

    ghost view = { λ b. record { least = b.least; hits = map ranked_hit b.ranked.items } };
}

impl<'a> Best<'a> {
    /// Goes on from kept hits, or begins with none. There is no least score.
    pub fn of(alloc: Global, kept: &'a [Kept]) -> Result<Best<'a>, NoMemory>
        ensures least { IfOk result (λ best. best.least ≡ 0) }
        ensures hits { IfOk result (λ best. best.hits ≡ map kept_hit kept.now) }
    {
        // One more than a search returns, because `put` inserts before the last one is dropped.
        let mut ranked = Vec::with_capacity(alloc, MOST_HITS + 1)?;
        for one in kept {
            ranked.push(Ranked {
                score: one.score,
                page: &one.page,
            })?;
        }
        Ok(Best { least: 0, ranked })
    }

    /// Raises the least score that hits must have. Those so far stay.
    pub fn raise_least(&mut self, least: u64)
        ensures least { self.new.least ≡ max self.old.least least }
        ensures hits { self.new.hits ≡ self.old.hits }
    {
        self.least = self.least.max(least);
    }

    /// Returns the hits as candidates that share their pages.
    pub fn kept(&self, alloc: Global) -> Result<Vec<Kept>, NoMemory>
        ensures { IfOk result (λ kept. map kept_hit kept.items ≡ self.now.hits) }
    {
        let mut kept = Vec::with_capacity(alloc, self.ranked.len())?;
        for one in &self.ranked {
            kept.push(Kept {
                score: one.score,
                page: one.page.clone()?,
            })?;
        }
        Ok(kept)
    }

    /// Returns whether these are the best of all hits: there is no least score, or there are 50 of
    /// them.
    pub fn is_whole(&self) -> bool
        ensures { result ≡ is_whole self.now }
    {
        self.least == 0 || self.ranked.len() >= MOST_HITS
    }

    /// Returns whether a page with this score ranks after 50 of the hits.
    pub fn rejects(&self, score: u64, page: &Arc<Page>) -> bool
        ensures { result ≡ is_beyond (hit_with score (arc_value page.now)) self.now }
    {
        match self.ranked.get(MOST_HITS - 1) {
            Some(last) => rank(&Ranked { score, page }, last).is_gt(),
            None => false,
        }
    }

    /// Returns the lowest score with which a page can still get among the best.
    pub fn lowest_score(&self) -> u64
        ensures { result ≡ lowest_score self.now }
    {
        let last = self.ranked.get(MOST_HITS - 1);
        self.least.max(last.map_or(0, |last| last.score))
    }

    /// Inserts a page with its score, unless the score is below the least or the page ranks after
    /// 50 of the hits. Drops what is no longer among the first 50.
    pub fn insert(&mut self, score: u64, page: &'a Arc<Page>) -> Result<(), NoMemory>
        ensures least { self.new.least ≡ self.old.least }
        ensures hits { AddsHit (hit_with score (arc_value page.now)) self.old self.new result }
    {
        if score < self.least || self.rejects(score, page) {
            return Ok(());
        }
        put(&mut self.ranked, Ranked { score, page })?;
        self.ranked.truncate(MOST_HITS);
        Ok(())
    }

    /// Returns the hits.
    pub fn hits(&self, alloc: Global) -> Result<Vec<Hit>, NoMemory>
        ensures { IfOk result (λ hits. hits.items ≡ self.now.hits) }
    {
        let mut hits = Vec::with_capacity(alloc, self.ranked.len())?;
        for ranked in &self.ranked {
            hits.push(Hit {
                place: ranked.page.place().clone()?,
                title: ByteString::from_slice(alloc, ranked.page.title())?,
                score: ranked.score,
            })?;
        }
        Ok(hits)
    }
}
