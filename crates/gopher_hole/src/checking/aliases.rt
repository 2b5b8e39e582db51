//! Aliases in the report of a check: the first bad line, lines that lead nowhere, and lines that
//! hide what the site has.

use crate::aliases::{AliasFault, Aliases, alias_of};
use crate::fault::ProgramFault;
use crate::opening::aliases_text;
use gopher_item::{NoMemory, first_line};
use gopher_scope::push_shown;
use gopher_tree::Tree;
use std::alloc::Global;
use std::fs::Files;

// The selector of the search.
const SEARCH: &[u8] = b"/search";

// Whether the site has something at a selector.
fn is_there(tree: &Tree, selector: &[u8]) -> bool {
    selector == SEARCH || tree.find(selector).is_some()
}

// Appends a warning of a line of the file of aliases.
fn push_warning(
    alloc: Global,
    path: &str,
    number: usize,
    words: &str,
    selector: &[u8],
    lines: &mut Vec<u8>,
) -> Result<(), NoMemory> {
    let front = format!(in alloc; "warning: line {number} of ")?;
    lines.extend_from_slice(front.as_bytes())?;
    push_shown(path.as_bytes(), lines)?;
    lines.extend_from_slice(words.as_bytes())?;
    push_shown(selector, lines)?;
    lines.extend_from_slice(b"\n")?;
    Ok(())
}

// Appends the warnings of an alias in the line with this number. Returns how many they are.
fn push_alias(
    alloc: Global,
    tree: &Tree,
    path: &str,
    number: usize,
    (old, selector): (&[u8], &[u8]),
    lines: &mut Vec<u8>,
) -> Result<usize, NoMemory> {
    let mut warnings = 0;
    if !is_there(tree, selector) {
        push_warning(alloc, path, number, " leads nowhere: ", selector, lines)?;
        warnings += 1;
    }
    if old != selector && is_there(tree, old) {
        push_warning(
            alloc,
            path,
            number,
            " hides what the site has: ",
            old,
            lines,
        )?;
        warnings += 1;
    }
    Ok(warnings)
}

/// Appends a warning for each line of a text of aliases that leads nowhere, and for each whose old
/// selector names something of the site, which the alias hides. `path` is the path of the text's
/// file. Returns how many warnings these are.
pub fn push_aliases(
    alloc: Global,
    tree: &Tree,
    path: &str,
    text: &[u8],
    lines: &mut Vec<u8>,
) -> Result<usize, NoMemory> {
    let mut number = 0_usize;
    let mut warnings = 0_usize;
    let mut rest = text;
    while let Some((line, after)) = first_line(rest) {
        number = number.saturating_add(1);
        if let Some(alias) = alias_of(line) {
            let found = push_alias(alloc, tree, path, number, alias, lines)?;
            warnings = warnings.saturating_add(found);
        }
        rest = after;
    }
    Ok(warnings)
}

/// A file of aliases, as a check finds it.
#[derive(Debug, Drop)]
pub enum AliasReport {
    /// Its text, which has no bad line; empty if no file is named.
    Sound(Vec<u8>),
    /// The report of its fault, and the fault.
    Faulty(Vec<u8>, ProgramFault),
}

// The cause and the remedy of a fault of a file of aliases, in words.
fn explain(fault: ProgramFault) -> (&'static str, &'static str) {
    match fault {
        ProgramFault::AliasesUnreadable => (
            "the aliases can't be read, or have over 1048576 bytes",
            "correct the path or the permissions",
        ),
        _ => (
            "this line of the aliases isn't an old selector, a TAB and a new one, of at most 255 bytes each",
            "write it so, or begin a comment with #",
        ),
    }
}

// The report of a fault of the file of aliases at `path`.
fn fault_report(alloc: Global, path: &str, fault: ProgramFault) -> Result<AliasReport, NoMemory> {
    let (cause, remedy) = explain(fault);
    let code = fault.code();
    let front = format!(in alloc; "fault: {code}\npath: ")?;
    let mut words = Vec::from_slice(alloc, front.as_bytes())?;
    push_shown(path.as_bytes(), &mut words)?;
    words.extend_from_slice(b"\n")?;
    if let ProgramFault::Aliases(AliasFault::BadLine(line)) = fault {
        words.extend_from_slice(format!(in alloc; "line: {line}\n")?.as_bytes())?;
    }
    let end = format!(in alloc; "cause: {cause}\nremedy: {remedy}\n")?;
    words.extend_from_slice(end.as_bytes())?;
    Ok(AliasReport::Faulty(words, fault))
}

/// Reads the file of aliases at `path`, if one is named, as a server does.
pub fn alias_report<R: Files>(
    rt: &R,
    alloc: Global,
    path: Option<&str>,
) -> Result<AliasReport, NoMemory> {
    let Some(path) = path else {
        return Ok(AliasReport::Sound(Vec::new(alloc)));
    };
    let text = match aliases_text(rt, alloc, path) {
        Ok(text) => text,
        Err(ProgramFault::NoMemory) => return Err(NoMemory),
        Err(fault) => return fault_report(alloc, path, fault),
    };
    match Aliases::read(alloc, &text) {
        Ok(_aliases) => Ok(AliasReport::Sound(text)),
        Err(AliasFault::NoMemory) => Err(NoMemory),
        Err(fault) => fault_report(alloc, path, ProgramFault::Aliases(fault)),
    }
}
