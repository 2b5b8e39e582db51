//! Inserting the pages of a part into the best by their verdicts and scores.

ghost use Rattle.std.specs.Prelude.{◌≡◌, ◌≤◌, length, nat_le, OnOk};
ghost use Rattle.std.specs.List.{list_any};
ghost use Rattle.gopher_index.specs.Ties.{AreTies, TakesBlock, TakesCells};

use crate::best::Best;
use crate::part::Part;
use crate::plan::is_match;
use crate::ties::Ties;
use gopher_item::NoMemory;

// The number of pages that are skipped at once if none of them can get among the best.
const BLOCK: usize = 64;

// Returns whether a score reaches `lowest`.
fn any_reaches(scores: &[u32], lowest: u32) -> bool
    ensures { result ≡ list_any (λ score. nat_le lowest score) scores.now }
{
    let mut is_reached = false;
    for score in scores {
        is_reached |= *score >= lowest;
    }
    is_reached
}

// Inserts the pages from `start` to `end` that match into the best. A page is read only if its
// score is high enough.
fn rank_block<'a>(
    ties: &mut Ties<'a>,
    verdicts: &[u16],
    scores: &[u32],
    start: usize,
    end: usize,
    best: &mut Best<'a>,
) -> Result<(), NoMemory>
    requires verdicts { length verdicts.now ≡ length ties.old.pages.now }
    requires scores { length scores.now ≡ length ties.old.pages.now }
    requires ties { AreTies ties.old best.old }
    requires forward { start ≤ end }
    requires within { end ≤ length ties.old.pages.now }
    ensures same { ties.new.pages ≡ ties.old.pages }
    ensures ties { OnOk result (AreTies ties.new best.new) }
    ensures takes { TakesBlock ties.old verdicts.now scores.now start end best.old best.new result }
{
    let mut lowest = best.lowest_score();
    for index in start..end {
        let score = u64::from(scores[index]);
        if score >= lowest && is_match(verdicts[index]) {
            ties.insert(index, score, best)?;
            lowest = best.lowest_score();
        }
    }
    Ok(())
}

/// Inserts the pages of a part that match into the best. Skips blocks without a score that is
/// high enough.
pub(crate) fn rank_cells<'a>(
    part: &'a Part,
    verdicts: &[u16],
    scores: &[u32],
    best: &mut Best<'a>,
) -> Result<(), NoMemory>
    requires verdicts { length verdicts.now ≡ length part.now.pages }
    requires scores { length scores.now ≡ length part.now.pages }
    ensures { TakesCells part.now.pages verdicts.now scores.now best.old best.new result }
{
    let mut ties = Ties::new(part);
    let mut start = 0;
    while start < scores.len() {
        let end = scores.len().min(start + BLOCK);
        let lowest = best.lowest_score().min(u64::from(u32::MAX)) as u32;
        if any_reaches(&scores[start..end], lowest) {
            rank_block(&mut ties, verdicts, scores, start, end, best)?;
        }
        start = end;
    }
    Ok(())
}
