//! Groups of equal terms, so that a search counts the words of each group once.

ghost use Rattle.std.specs.Prelude.{◌≡◌, ◌+◌, ◌≤◌, ◌<◌, max, length, nat_lt, if◌then◌else◌, IfOk, IfSome, OnOk};
ghost use Rattle.gopher_page.specs.Query.{IsQuery};
ghost use Rattle.gopher_index.specs.Plan.{verdict_of, is_match, wanted_in, AddsTerm, IsGroupOf, IsPlan, Joins, SayAlike};

use gopher_item::{MAX_LINE, NoMemory};
use gopher_page::{Operator, Term};
use std::alloc::Global;

// Returns the verdict of a term on a page. `number` is the term's index, and `holds` says whether
// the page contains a word that the term matches.
//
// Terms are joined from left to right, so the last term that changes the result decides: an `and`
// that doesn't hold, or an `or` or `not` that does. Its verdict is 2 * number + 2, plus 1 if the
// page matches. The verdict of a term that changes nothing is 0. So the highest verdict decides.
fn verdict_of(operator: Operator, number: usize, holds: bool) -> u16
    requires { number < MAX_LINE }
    ensures { result ≡ verdict_of operator number holds }
{
    let later = 2 * number as u16 + 2;
    match operator {
        Operator::And => if holds { 0 } else { later },
        Operator::Or => if holds { later + 1 } else { 0 },
        Operator::Not => if holds { later } else { 0 },
    }
}

/// Returns whether a page with this highest verdict matches.
#[inline(always)]
pub(crate) fn is_match(verdict: u16) -> bool
    ensures { result ≡ is_match verdict }
{
    verdict % 2 == 1
}

/// Returns the higher of two numbers.
#[inline(always)]
pub(crate) fn higher(a: u16, b: u16) -> u16
    ensures { result ≡ max a b }
{
    if a < b { b } else { a }
}

/// Returns the verdict of a group on a page that contains its words `count` times.
#[inline(always)]
pub(crate) fn verdict_for(holds: u16, fails: u16, count: u32) -> u16
    ensures { result ≡ if nat_lt 0 count then holds else fails }
{
    if count > 0 { holds } else { fails }
}

/// Equal terms: those of the same word, or of the same prefix.
#[derive(Debug, Drop)]
pub(crate) struct Group {
    /// One of the terms.
    pub term: Term,
    /// The number of these terms without `not`.
    pub wanted: u32,
    /// Their highest verdict on a page that contains their words.
    pub holds: u16,
    /// Their highest verdict on a page that contains none of their words.
    pub fails: u16,
}

impl Group {
    // Adds a term. `number` is its index in the query.
    fn join(&mut self, term: &Term, number: usize)
        requires number { number < MAX_LINE }
        requires wanted { self.old.wanted ≤ MAX_LINE }
        ensures { Joins term.now number self.old self.new }
    {
        let operator = term.operator();
        self.wanted += u32::from(!operator.is_not());
        self.holds = higher(self.holds, verdict_of(operator, number, true));
        self.fails = higher(self.fails, verdict_of(operator, number, false));
    }
}

fn find(groups: &[Group], term: &Term) -> Option<usize>
    ensures { IfSome result (IsGroupOf term.now groups.now) }
{
    for (index, group) in groups.iter().enumerate() {
        let own = &group.term;
        if own.is_prefix() == term.is_prefix() && own.word() == term.word() {
            return Some(index);
        }
    }
    None
}

// Returns the index of the group of a term. Adds an empty group if there is none.
fn index_of(groups: &mut Vec<Group>, term: &Term) -> Result<usize, NoMemory>
    ensures found { IfOk result (IsGroupOf term.now groups.new.items) }
    ensures same { OnOk result (SayAlike groups.old.items groups.new.items) }
    ensures most { OnOk result (length groups.new.items ≤ length groups.old.items + 1) }
{
    if let Some(index) = find(groups, term) {
        return Ok(index);
    }
    let index = groups.len();
    groups.push(Group {
        term: term.clone()?,
        wanted: 0,
        holds: 0,
        fails: 0,
    })?;
    Ok(index)
}

// Adds a term to its group. `number` is its index in the query.
fn add_term(groups: &mut Vec<Group>, term: &Term, number: usize) -> Result<(), NoMemory>
    requires number { number < MAX_LINE }
    requires few { wanted_in groups.old.items ≤ number }
    ensures adds { OnOk result (AddsTerm term.now number groups.old.items groups.new.items) }
    ensures some { OnOk result (0 < length groups.new.items) }
    ensures most { OnOk result (length groups.new.items ≤ length groups.old.items + 1) }
{
    let index = index_of(groups, term)?;
    groups[index].join(term, number);
    Ok(())
}

/// Returns the groups of a query's terms.
pub(crate) fn groups_of(alloc: Global, terms: &[Term]) -> Result<Vec<Group>, NoMemory>
    requires { IsQuery terms.now }
    ensures { IfOk result (λ groups. IsPlan terms.now groups.items) }
{
    let mut groups = Vec::new(alloc);
    for (number, term) in terms.iter().enumerate() {
        add_term(&mut groups, term, number)?;
    }
    Ok(groups)
}
