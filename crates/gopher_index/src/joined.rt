//! The verdicts and scores of a part's pages, joined group by group of a query's terms.

ghost use Rattle.std.specs.Prelude.{◌≡◌, ◌+◌, ◌*◌, ◌^◌, ◌≤◌, ◌<◌, ◌==◌, ◌∷◌, [], length, map, replicate, if◌then◌else◌, IfSome, OnOk};
ghost use Rattle.std.specs.List.{All};
ghost use Rattle.gopher_index.specs.Plan.{RisesAtMost, zipped, AreGroupCells, wanted_in};
ghost use Rattle.gopher_index.specs.Joined.{AreBegun, AreJoined, AddsOne, IsUnwantedList, JoinsTo, Raises, posted, posted_count, raised_verdicts};
ghost use Rattle.gopher_segment.specs.Postings.{AreWithin};

use crate::part::Part;
use crate::plan::{Group, higher, verdict_for};
use gopher_item::{MAX_LINE, NoMemory};
use gopher_segment::Postings;
use std::alloc::Global;

/// The verdicts and scores of a part's pages by the first groups of a query's terms.
///
/// Its memory is used for one part after another.
#[derive(Debug, Drop)]
pub(crate) struct Joined {
    counts: Vec<u32>,
    pub verdicts: Vec<u16>,
    pub scores: Vec<u32>,
    /// The number of groups that were joined. At 0, the cells belong to no part.
    pub groups: usize,
}

// Raises the verdict of each page to that of a group, from how often the page contains its words.
fn raise_verdicts(group: &Group, verdicts: &mut [u16], counts: &[u32])
    requires { length verdicts.old ≡ length counts.now }
    ensures { verdicts.new ≡ raised_verdicts group.now verdicts.old counts.now }
{
    // Read once: in the loop, the compiler can't rule out that the verdicts overlap the group.
    let holds = group.holds;
    let fails = group.fails;
    for (index, count) in counts.iter().enumerate() {
        verdicts[index] = higher(verdicts[index], verdict_for(holds, fails, *count));
    }
}

// Adds each count once.
fn add_counts(scores: &mut [u32], counts: &[u32])
    requires same { length scores.old ≡ length counts.now }
    requires room { All (λ score. score ≤ 2 ^ 31) scores.old }
    requires few { All (λ count. count ≤ 1048576) counts.now }
    ensures { scores.new ≡ zipped (λ score count. score + count) scores.old counts.now }
{
    for (index, count) in counts.iter().enumerate() {
        scores[index] += *count;
    }
}

// Adds each count `times` times.
fn add_times(times: u32, scores: &mut [u32], counts: &[u32])
    requires same { length scores.old ≡ length counts.now }
    requires times { times ≤ MAX_LINE }
    requires room { All (λ score. score ≤ 2 ^ 31) scores.old }
    requires few { All (λ count. count ≤ 1048576) counts.now }
    ensures { scores.new ≡ zipped (λ score count. score + times * count) scores.old counts.now }
{
    for (index, count) in counts.iter().enumerate() {
        scores[index] += times * *count;
    }
}

// Adds the counts of a group, once for each of its terms that counts for the score.
fn add_wanted(times: u32, scores: &mut [u32], counts: &[u32])
    requires same { length scores.old ≡ length counts.now }
    requires times { times ≤ MAX_LINE }
    requires room { All (λ score. score ≤ 2 ^ 31) scores.old }
    requires few { All (λ count. count ≤ 1048576) counts.now }
    ensures { scores.new ≡ zipped (λ score count. score + times * count) scores.old counts.now }
{
    match times {
        0 => {}
        1 => add_counts(scores, counts),
        _ => add_times(times, scores, counts),
    }
}

// Multiplies each score.
fn multiply(times: u32, scores: &mut [u32])
    requires times { times ≤ MAX_LINE }
    requires few { All (λ score. score ≤ 1048576) scores.old }
    ensures { scores.new ≡ map (λ score. times * score) scores.old }
{
    if times == 1 {
        return;
    }
    for index in 0..scores.len() {
        scores[index] = times * scores[index];
    }
}

// Joins the first group. Its counts are written to the scores directly.
fn join_first(part: &Part, group: &Group, verdicts: &mut [u16], scores: &mut [u32])
    requires times { group.now.wanted ≤ MAX_LINE }
    requires verdicts { verdicts.old ≡ replicate (length part.now.pages) 1 }
    requires scores { scores.old ≡ replicate (length part.now.pages) 0 }
    ensures cells { AreGroupCells (group.now ∷ []) part.now.pages verdicts.new scores.new }
    ensures few { All (λ score. score ≤ 1048576 * group.now.wanted) scores.new }
{
    part.spread(group.term.is_prefix(), group.term.word(), scores);
    raise_verdicts(group, verdicts, scores);
    multiply(group.wanted, scores);
}

// Returns the posting list of a group of `not` and one word, if the part has lists. No page
// changes that the list doesn't have.
fn unwanted_list<'a>(part: &'a Part, group: &Group) -> Option<Postings<'a>>
    ensures { IfSome result (IsUnwantedList group.now part.now.pages) }
{
    if group.wanted > 0 || group.fails > 0 || group.term.is_prefix() {
        return None;
    }
    part.postings(group.term.word())
}

// Raises the verdict of a page for one of its postings. The first verdict is that of page `first`.
fn raise_page(holds: u16, verdicts: &mut [u16], first: usize, page: usize, count: u8)
    requires from { first ≤ page }
    requires within { page < first + length verdicts.old }
    ensures { Raises holds (λ k. if page == first + k then count else 0) verdicts.old verdicts.new }
{
    let index = page - first;
    verdicts[index] = higher(verdicts[index], verdict_for(holds, 0, u32::from(count)));
}

// Raises the verdicts of the pages of postings. The first verdict is that of the first page.
fn raise_listed(postings: &Postings, holds: u16, verdicts: &mut [u16])
    requires beside { length postings.now.counts.now ≡ length postings.now.numbers.now }
    requires within { AreWithin postings.now.first (length verdicts.old) (posted postings.now) }
    ensures { Raises holds (posted_count postings.now) verdicts.old verdicts.new }
{
    for (index, number) in postings.numbers.iter().enumerate() {
        raise_page(
            holds,
            verdicts,
            postings.first,
            usize::from(*number),
            postings.counts[index],
        );
    }
}

// Joins a group to the groups before it. May overwrite `counts`.
fn join_group(
    part: &Part,
    group: &Group,
    counts: &mut [u32],
    verdicts: &mut [u16],
    scores: &mut [u32],
)
    requires times { group.now.wanted ≤ MAX_LINE }
    requires counts { length counts.old ≡ length part.now.pages }
    requires verdicts { length verdicts.old ≡ length part.now.pages }
    requires scores { length scores.old ≡ length part.now.pages }
    requires room { All (λ score. score ≤ 2 ^ 31) scores.old }
    ensures cells { AddsOne group.now part.now verdicts.old scores.old verdicts.new scores.new }
    ensures few { RisesAtMost (1048576 * group.now.wanted) scores.old scores.new }
{
    if let Some(postings) = unwanted_list(part, group) {
        raise_listed(&postings, group.holds, verdicts);
        return;
    }
    counts.fill(0);
    part.spread(group.term.is_prefix(), group.term.word(), counts);
    raise_verdicts(group, verdicts, counts);
    add_wanted(group.wanted, scores, counts);
}

impl Joined {
    /// Starts without groups, cells and memory.
    pub fn new(alloc: Global) -> Joined
        ensures { result.groups ≡ 0 }
    {
        Joined {
            counts: Vec::new(alloc),
            verdicts: Vec::new(alloc),
            scores: Vec::new(alloc),
            groups: 0,
        }
    }

    // Resets the cells to those of no group and `size` pages.
    fn clear(&mut self, size: usize) -> Result<(), NoMemory>
        ensures groups { self.new.groups ≡ self.old.groups }
        ensures counts { OnOk result (length self.new.counts.items ≡ size) }
        ensures verdicts { OnOk result (self.new.verdicts.items ≡ replicate size 1) }
        ensures scores { OnOk result (self.new.scores.items ≡ replicate size 0) }
    {
        self.counts.resize(size, 0)?;
        self.verdicts.clear();
        self.verdicts.resize(size, 1)?;
        self.scores.clear();
        self.scores.resize(size, 0)?;
        Ok(())
    }

    // Joins the first group of a part. After an error no group is joined.
    fn start(&mut self, part: &Part, groups: &[Group]) -> Result<(), NoMemory>
        requires few { wanted_in groups.now ≤ MAX_LINE }
        requires some { 0 < length groups.now }
        requires none { self.old.groups ≡ 0 }
        ensures cells { OnOk result (AreJoined groups.now part.now.pages self.new) }
        ensures joined { JoinsTo 1 self.old self.new result }
    {
        self.clear(part.pages().len())?;
        join_first(part, &groups[0], &mut self.verdicts, &mut self.scores);
        self.groups = 1;
        Ok(())
    }

    // Joins the next group.
    fn join(&mut self, part: &Part, groups: &[Group])
        requires few { wanted_in groups.now ≤ MAX_LINE }
        requires ahead { self.old.groups < length groups.now }
        requires joined { AreJoined groups.now part.now.pages self.old }
        ensures cells { AreJoined groups.now part.now.pages self.new }
        ensures one { self.new.groups ≡ self.old.groups + 1 }
    {
        let next = self.groups;
        let Joined {
            counts,
            verdicts,
            scores,
            ..
        } = self;
        join_group(part, &groups[next], counts, verdicts, scores);
        self.groups = next + 1;
    }

    /// Joins the next groups, until `end` groups are joined. After an error none is joined, and
    /// none was before.
    pub fn join_to(&mut self, end: usize, part: &Part, groups: &[Group]) -> Result<(), NoMemory>
        requires few { wanted_in groups.now ≤ MAX_LINE }
        requires ahead { self.old.groups < end }
        requires within { end ≤ length groups.now }
        requires begun { AreBegun groups.now part.now.pages self.old }
        ensures cells { OnOk result (AreJoined groups.now part.now.pages self.new) }
        ensures joined { JoinsTo end self.old self.new result }
    {
        if self.groups == 0 {
            self.start(part, groups)?;
        }
        while self.groups < end {
            self.join(part, groups);
        }
        Ok(())
    }

    /// Joins the next group or, if the part is a page that was found, all groups that are left.
    pub fn join_next(&mut self, part: &Part, groups: &[Group]) -> Result<(), NoMemory>
        requires few { wanted_in groups.now ≤ MAX_LINE }
        requires ahead { self.old.groups < length groups.now }
        requires begun { AreBegun groups.now part.now.pages self.old }
        ensures cells { OnOk result (AreJoined groups.now part.now.pages self.new) }
        ensures joined { JoinsTo self.new.groups self.old self.new result }
        ensures more { OnOk result (self.old.groups < self.new.groups) }
    {
        let end = match part.as_segment() {
            Some(_) => self.groups + 1,
            None => groups.len(),
        };
        self.join_to(end, part, groups)
    }
}
