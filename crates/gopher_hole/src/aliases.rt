//! Old selectors that go on working (`Aliases`).

ghost use Rattle.std.specs.Prelude.{◌≡◌, [], IfOk, MatchResult, OnOk};
ghost use Rattle.std.specs.Option.{option_map};
ghost use Rattle.gopher_item.specs.Menu.{fields_of};
ghost use Rattle.gopher_hole.specs.Aliases.{AddsAlias, AliasesRead, IsFaultOfLine, ReadsAliases, TakesLine, alias_data, alias_fault_code, alias_of, is_skipped, selector_for, answered_selector, two_fields};

use gopher_item::{ByteString, NoMemory, first_line, is_selector, split_once};
use std::alloc::Global;
use std::collections::BTreeMap;
use std::marker::Model;
use thiserror::Error;

// The selector whose reply an old one gets, by the old one.
type Held = BTreeMap<Vec<u8>, ByteString>;

/// Why a text has no aliases.
#[derive(Clone, Copy, Debug, PartialEq, Eq, Error)]
pub enum AliasFault {
    /// 35: the line with this number, from 1, is bad.
    #[error("line {0} of the aliases is bad")]
    BadLine(usize),
    /// 90: out of memory.
    #[error("no memory")]
    NoMemory,
}

impl AliasFault {
    /// The number of the fault: 35 or 90.
    pub fn code(self) -> u8
        ensures { result ≡ alias_fault_code self }
    {
        match self {
            AliasFault::BadLine(_) => 35,
            AliasFault::NoMemory => 90,
        }
    }
}

impl From<NoMemory> for AliasFault {
    ghost use Rattle.gopher_hole.specs.declared.aliases.AliasFault.TheVariants.{NoMemory};

    ghost from_gives = { λ _ fault. fault ≡ NoMemory };

    fn from(_refused: NoMemory) -> AliasFault {
        AliasFault::NoMemory
    }
}

/// Old selectors, each with the selector whose reply it gets.
///
/// Contracts see it as a list of pairs, of which the first with an old selector counts.
#[derive(Debug, Drop)]
pub struct Aliases {
    held: Held,
}

impl Model for Aliases {
    ghost use Rattle.std.specs.Prelude.{List};
    ghost use Rattle.gopher_hole.specs.Aliases.{Alias, held_aliases};

    ghost Value = { List Alias };

    ghost view = { λ a. held_aliases a.held };
}

/// Returns whether a line of a list of aliases says nothing: it is empty, or begins with `#`.
pub fn is_skipped(line: &[u8]) -> bool
    ensures { result ≡ is_skipped line.now }
{
    matches!(line, [] | [b'#', ..])
}

// The two fields of a line that has two.
fn two_fields(line: &[u8]) -> Option<(&[u8], &[u8])>
    ensures { option_map alias_data result ≡ two_fields (fields_of line.now) }
{
    let (first, rest) = split_once(b'\t', line)?;
    match split_once(b'\t', rest) {
        Some(_) => None,
        None => Some((first, rest)),
    }
}

/// Returns the old selector and the selector of a line, without its end; `None` if it is skipped or
/// bad.
pub fn alias_of(line: &[u8]) -> Option<(&[u8], &[u8])>
    ensures { option_map alias_data result ≡ alias_of line.now }
{
    if is_skipped(line) {
        return None;
    }
    let (old, selector) = two_fields(line)?;
    (is_selector(old) && is_selector(selector)).then_some((old, selector))
}

// Adds an alias, unless its old selector has one.
fn add(alloc: Global, old: &[u8], selector: &[u8], held: &mut Held) -> Result<(), NoMemory>
    ensures { OnOk result (AddsAlias held.old held.new old.now selector.now) }
{
    if held.contains_key(old) {
        return Ok(());
    }
    let selector = ByteString::from_slice(alloc, selector)?;
    held.insert(Vec::from_slice(alloc, old)?, selector)?;
    Ok(())
}

// Adds the alias of the line with this number, if the line has one.
fn add_line(alloc: Global, number: usize, line: &[u8], held: &mut Held) -> Result<(), AliasFault>
    ensures { MatchResult result (λ _. TakesLine held.old held.new line.now)
        (IsFaultOfLine number line.now) }
{
    if is_skipped(line) {
        return Ok(());
    }
    let Some((old, selector)) = alias_of(line) else {
        return Err(AliasFault::BadLine(number));
    };
    add(alloc, old, selector, held)?;
    Ok(())
}

// Adds the aliases of all lines of a text to none.
fn add_lines(alloc: Global, text: &[u8], held: &mut Held) -> Result<(), AliasFault>
    requires { held.old.entries ≡ [] }
    ensures { ReadsAliases text.now held.new result }
{
    let mut number = 0;
    let mut rest = text;
    while let Some((line, after)) = first_line(rest) {
        number += 1;
        if let Err(fault) = add_line(alloc, number, line, held) {
            return Err(fault);
        }
        rest = after;
    }
    Ok(())
}

impl Aliases {
    /// No aliases.
    pub fn none(alloc: Global) -> Aliases
        ensures { result ≡ [] }
    {
        Aliases {
            held: BTreeMap::new(alloc),
        }
    }

    /// Reads the aliases of a text. Each line that isn't skipped is an old selector, a TAB and the
    /// selector whose reply it gets. The first line with an old selector counts.
    ///
    /// A line that is empty or begins with `#` is skipped.
    ///
    /// # Errors
    ///
    /// - `BadLine` (35): the first line that isn't skipped and isn't of that form
    /// - `NoMemory` (90)
    pub fn read(alloc: Global, text: &[u8]) -> Result<Aliases, AliasFault>
        ensures { AliasesRead text.now result }
    {
        let mut held = BTreeMap::new(alloc);
        add_lines(alloc, text, &mut held)?;
        Ok(Aliases { held })
    }

    /// Returns the selector whose reply an old selector gets; `None` if it has no alias.
    pub fn selector_for(&self, old: &[u8]) -> Option<&[u8]>
        ensures { option_map (λ selector. selector.now) result ≡ selector_for self.now old.now }
    {
        match self.held.get(old) {
            Some(selector) => Some(selector.as_slice()),
            None => None,
        }
    }

    /// Returns the selector whose reply a selector gets: its alias, or itself without one.
    pub fn answered_selector<'a>(&'a self, selector: &'a [u8]) -> &'a [u8]
        ensures { result.now ≡ answered_selector self.now selector.now }
    {
        match self.selector_for(selector) {
            Some(selector) => selector,
            None => selector,
        }
    }
}
