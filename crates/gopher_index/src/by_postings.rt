//! Searching a part for a single word, through its posting list.

ghost use Rattle.std.specs.Prelude.{◌≡◌, ◌<◌, ◌≤◌, ◌∷◌, [], length, map, min, nat_le, OnOk};
ghost use Rattle.std.specs.Arc.{arc_value};
ghost use Rattle.std.specs.List.{list_any};
ghost use Rattle.gopher_page.specs.declared.query.Operator.TheVariants.{And};
ghost use Rattle.gopher_index.specs.Best.{TakesIn, lowest_score};
ghost use Rattle.gopher_index.specs.ByPostings.{is_again, ArePostingsOf, IsWholeCount, TakesPosting, WalksBetween};
ghost use Rattle.gopher_index.specs.Ties.{AreTies};

use crate::best::Best;
use crate::part::Part;
use crate::ties::Ties;
use gopher_item::NoMemory;
use gopher_page::{Page, Term};
use gopher_segment::Postings;

// The number of postings that are skipped at once if none of them can get among the best.
const BLOCK: usize = 64;

fn any_from(counts: &[u8], lowest: u8) -> bool
    ensures { result ≡ list_any (λ count. nat_le lowest count) counts.now }
{
    let mut is_reached = false;
    for count in counts {
        is_reached |= *count >= lowest;
    }
    is_reached
}

// Returns whether a posting belongs to the same page as the one before it.
fn is_again(numbers: &[u16], index: usize) -> bool
    requires { index < length numbers.now }
    ensures { result ≡ is_again numbers.now index }
{
    if index == 0 {
        return false;
    }
    numbers[index - 1] == numbers[index]
}

// Returns how often the word occurs in a page. `count` is that of its first posting: if it is 255,
// the page may have further postings.
fn whole_count(page: &Page, term: &Term, count: u8) -> u32
    ensures { IsWholeCount term.now page.now count result }
{
    if count < u8::MAX {
        return u32::from(count);
    }
    term.count_in(page)
}

// Inserts a page into the best. `count` is that of its first posting.
fn insert_posting<'a>(
    ties: &mut Ties<'a>,
    index: usize,
    term: &Term,
    count: u8,
    best: &mut Best<'a>,
) -> Result<(), NoMemory>
    requires and { term.now.operator ≡ And }
    requires within { index < length ties.old.pages.now }
    requires ties { AreTies ties.old best.old }
    ensures same { ties.new.pages ≡ ties.old.pages }
    ensures ties { OnOk result (AreTies ties.new best.new) }
    ensures takes { TakesPosting ties.old index term.now count best.old best.new result }
{
    let score = u64::from(whole_count(ties.page(index), term, count));
    ties.insert(index, score, best)
}

// Returns the lowest count of a first posting with which its page can get among the best.
fn lowest_count(best: &Best<'_>) -> u8
    ensures { result ≡ min (lowest_score best.now) 255 }
{
    best.lowest_score().min(255) as u8
}

// Inserts the pages whose first postings are between `start` and `end`. Skips postings whose count
// isn't high enough.
fn insert_postings<'a>(
    ties: &mut Ties<'a>,
    term: &Term,
    postings: &Postings,
    start: usize,
    end: usize,
    best: &mut Best<'a>,
) -> Result<(), NoMemory>
    requires and { term.now.operator ≡ And }
    requires beside { length postings.now.counts.now ≡ length postings.now.numbers.now }
    requires run { ArePostingsOf term.now (map arc_value ties.old.pages.now) postings.now }
    requires ties { AreTies ties.old best.old }
    requires forward { start ≤ end }
    requires within { end ≤ length postings.now.numbers.now }
    ensures same { ties.new.pages ≡ ties.old.pages }
    ensures ties { OnOk result (AreTies ties.new best.new) }
    ensures walk { WalksBetween term.now ties.old postings.now start end best.old best.new result }
{
    let mut lowest = lowest_count(best);
    for index in start..end {
        if postings.counts[index] >= lowest && !is_again(postings.numbers, index) {
            let page = usize::from(postings.numbers[index]) - postings.first;
            insert_posting(ties, page, term, postings.counts[index], best)?;
            lowest = lowest_count(best);
        }
    }
    Ok(())
}

/// Inserts the pages of a posting list into the best. Skips blocks without a count that is high
/// enough.
pub(crate) fn rank_postings<'a>(
    part: &'a Part,
    term: &Term,
    postings: &Postings,
    best: &mut Best<'a>,
) -> Result<(), NoMemory>
    requires and { term.now.operator ≡ And }
    requires beside { length postings.now.counts.now ≡ length postings.now.numbers.now }
    requires run { ArePostingsOf term.now part.now.pages postings.now }
    ensures { OnOk result (TakesIn (term.now ∷ []) part.now.pages best.old best.new) }
{
    let mut ties = Ties::new(part);
    let mut start = 0;
    while start < postings.numbers.len() {
        let end = postings.numbers.len().min(start + BLOCK);
        if any_from(&postings.counts[start..end], lowest_count(best)) {
            insert_postings(&mut ties, term, postings, start, end, best)?;
        }
        start = end;
    }
    Ok(())
}
