//! Short searches, which run to their end in one call: part by part, through the posting list of a
//! single word (`by_postings`) or groups of equal terms (`joined`, `by_cells`).

ghost use Rattle.std.specs.Prelude.{◌≡◌, ◌∷◌, [], None, IfOk, IfSome, OnOk};
ghost use Rattle.std.specs.Arc.{arc_value};
ghost use Rattle.gopher_page.specs.Query.{IsQuery};
ghost use Rattle.gopher_index.specs.Answer.{answer_of};
ghost use Rattle.gopher_index.specs.Best.{IsBestOf, RanksPart, TakesIn};
ghost use Rattle.gopher_index.specs.ByPostings.{IsListOf};
ghost use Rattle.gopher_index.specs.Plan.{IsPlan};
ghost use Rattle.gopher_segment.specs.Segment.{pages_of};

use crate::best::Best;
use crate::by_cells::rank_cells;
use crate::by_postings::rank_postings;
use crate::hit::Hit;
use crate::joined::Joined;
use crate::likely::{likely_count, likely_hits, likely_score};
use crate::part::Part;
use crate::plan::{Group, groups_of};
use gopher_item::NoMemory;
use gopher_page::{Page, Query, Term};
use gopher_segment::Postings;
use std::alloc::Global;
use std::sync::Arc;

// Returns the posting list of the only term, if that is a word and the segment has lists.
fn list_of<'a>(part: &'a Part, terms: &[Term]) -> Option<Postings<'a>>
    requires { IsQuery terms.now }
    ensures { IfSome result (IsListOf terms.now part.now) }
{
    match terms {
        [term] if !term.is_prefix() => part.postings(term.word()),
        _ => None,
    }
}

// Inserts a page into the best if it matches.
fn rank_page<'a>(page: &'a Arc<Page>, query: &Query, best: &mut Best<'a>) -> Result<(), NoMemory>
    ensures { OnOk result (TakesIn query.now (arc_value page.now ∷ []) best.old best.new) }
{
    let mut truth = true;
    let mut score = 0;
    for term in query.terms() {
        let count = term.count_in(page);
        truth = term.operator().join(truth, count > 0);
        if term.operator().is_not() {
            continue;
        }
        score += u64::from(count);
    }
    if truth {
        best.insert(score, page)?;
    }
    Ok(())
}

// Inserts the pages of a segment that match into the best. Overwrites the cells.
//
// If `wanted` is given, the part is the first one, and the least score becomes a guess of the score
// that this many of its pages reach.
fn rank_segment<'a>(
    part: &'a Part,
    terms: &[Term],
    groups: &[Group],
    joined: &mut Joined,
    wanted: Option<usize>,
    best: &mut Best<'a>,
) -> Result<(), NoMemory>
    requires { IsPlan terms.now groups.now }
    ensures best { RanksPart terms.now part.now.pages wanted best.old best.new result }
    ensures plain { wanted ≡ None → OnOk result (best.new.least ≡ best.old.least) }
{
    if let Some(list) = list_of(part, terms) {
        best.raise_least(likely_count(&list, wanted));
        return rank_postings(part, &terms[0], &list, best);
    }
    joined.groups = 0;
    joined.join_to(groups.len(), part, groups)?;
    best.raise_least(likely_score(&joined.verdicts, &joined.scores, wanted));
    rank_cells(part, &joined.verdicts, &joined.scores, best)
}

// Inserts the pages of a part that match into the best. See `rank_segment` for `wanted`.
fn rank_part<'a>(
    part: &'a Part,
    query: &Query,
    groups: &[Group],
    joined: &mut Joined,
    wanted: Option<usize>,
    best: &mut Best<'a>,
) -> Result<(), NoMemory>
    requires { IsPlan query.now groups.now }
    ensures best { RanksPart query.now part.now.pages wanted best.old best.new result }
    ensures plain { wanted ≡ None → OnOk result (best.new.least ≡ best.old.least) }
{
    match part.as_page() {
        Some(page) => rank_page(page, query, best),
        None => rank_segment(part, query.terms(), groups, joined, wanted, best),
    }
}

// Returns the best of parts. If `likely` is given, the least score is a guess of the score that
// this many pages of the first part reach.
fn best_of<'a>(
    alloc: Global,
    parts: &'a [Part],
    query: &Query,
    groups: &[Group],
    likely: Option<usize>,
) -> Result<Best<'a>, NoMemory>
    requires { IsPlan query.now groups.now }
    ensures best { IfOk result (IsBestOf query.now (pages_of parts.now)) }
    ensures plain { likely ≡ None → IfOk result (λ best. best.least ≡ 0) }
{
    let mut joined = Joined::new(alloc);
    let mut best = Best::of(alloc, &[])?;
    let mut wanted = likely;
    for part in parts {
        rank_part(part, query, groups, &mut joined, wanted, &mut best)?;
        wanted = None;
    }
    Ok(best)
}

/// Searches the pages of parts.
pub(crate) fn search(alloc: Global, parts: &[Part], query: &Query) -> Result<Vec<Hit>, NoMemory>
    ensures { IfOk result (λ hits. hits.items ≡ answer_of (pages_of parts.now) query.now) }
{
    let groups = groups_of(alloc, query.terms())?;
    let best = best_of(alloc, parts, query, &groups, likely_hits(parts))?;
    if best.is_whole() {
        return best.hits(alloc);
    }
    let best = best_of(alloc, parts, query, &groups, None)?;
    best.hits(alloc)
}
