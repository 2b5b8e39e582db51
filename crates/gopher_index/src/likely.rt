//! Guessing a score that 50 pages reach, so that a search can skip pages that don't reach it.
//!
//! The hits don't depend on the guess: if too few pages reach it, the search runs again without
//! one.

ghost use Rattle.std.specs.Prelude.{◌≡◌, None, length};

use crate::best::MOST_HITS;
use crate::part::Part;
use gopher_segment::Postings;

// The number of postings or pages in a block. It is small, so that a first segment of 1,024 pages
// has more blocks than the 18 that are wanted if it is a quarter of all pages.
const BLOCK: usize = 16;

fn highest_count(counts: &[u8]) -> u8 {
    let mut highest = 0;
    for count in counts {
        highest = highest.max(*count);
    }
    highest
}

fn highest_score(verdicts: &[u16], scores: &[u32]) -> u32
    requires { length scores.now ≡ length verdicts.now }
{
    let mut highest = 0;
    for (index, verdict) in verdicts.iter().enumerate() {
        highest = highest.max(scores[index] & u32::from(*verdict % 2).wrapping_neg());
    }
    highest
}

// Counts a block by its highest score. Scores above 255 count as 255.
fn note(blocks: &mut [u32; 256], highest: u32) {
    let index = highest.min(255) as usize;
    blocks[index] = blocks[index].saturating_add(1);
}

// Returns the highest score that `wanted` blocks reach, or 0 if there is none.
fn reached(blocks: &[u32; 256], wanted: usize) -> u64 {
    let mut reaching = 0_usize;
    for score in 1..256 {
        let score = 256 - score;
        reaching = reaching.saturating_add(blocks[score] as usize);
        if reaching >= wanted {
            return score as u64;
        }
    }
    0
}

/// Guesses how many of the first 50 hits are in the first of these parts: one and a half times its
/// share of all pages. `None` if that is less than an eighth.
pub(crate) fn likely_hits(parts: &[Part]) -> Option<usize> {
    let last = parts.last()?;
    let all = last.first().saturating_add(last.pages().len());
    let some = parts.first()?.pages().len();
    if some < all / 8 {
        return None;
    }
    let share = some.saturating_mul(MOST_HITS + MOST_HITS / 2) / all.max(1);
    Some(share.clamp(1, MOST_HITS))
}

/// Guesses a score that `wanted` pages reach for a word, from its posting list in a segment; 0 if
/// nothing is wanted.
pub(crate) fn likely_count(postings: &Postings, wanted: Option<usize>) -> u64
    ensures { wanted ≡ None → result ≡ 0 }
{
    let Some(wanted) = wanted else {
        return 0;
    };
    if postings.counts.len() < MOST_HITS {
        return 0;
    }
    let mut blocks = [0; 256];
    for block in postings.counts.chunks(BLOCK) {
        note(&mut blocks, u32::from(highest_count(block)));
    }
    reached(&blocks, wanted)
}

/// Guesses a score that `wanted` pages of a part reach; 0 if nothing is wanted.
pub(crate) fn likely_score(verdicts: &[u16], scores: &[u32], wanted: Option<usize>) -> u64
    requires { length scores.now ≡ length verdicts.now }
    ensures { wanted ≡ None → result ≡ 0 }
{
    let Some(wanted) = wanted else {
        return 0;
    };
    let mut blocks = [0; 256];
    let mut start = 0;
    while start < verdicts.len() {
        let end = verdicts.len().min(start + BLOCK);
        note(
            &mut blocks,
            highest_score(&verdicts[start..end], &scores[start..end]),
        );
        start = end;
    }
    reached(&blocks, wanted)
}
