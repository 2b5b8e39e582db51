//! Counting the words of lines (`count_words`): joins the lines, lowers letters, sorts the words.

ghost use Rattle.std.specs.Prelude.{◌≡◌, ◌≤◌, length, map, IfOk};
ghost use Rattle.std.specs.List.{flat_map, sum_by};
ghost use Rattle.gopher_bytes.specs.Case.{lower_case};
ghost use Rattle.gopher_page.specs.Words.{joined_lines, bare_words, words_of};
ghost use Rattle.gopher_page.specs.Counts.{counts_of};

use crate::counts::Counts;
use crate::line::PageLines;
use crate::numbered::Numbered;
use crate::word::{next_token, runs_in};
use gopher_item::NoMemory;
use gopher_text::MAX_REPLY;
use std::alloc::Global;

// The text of a page, to be cut into words: its lines, each followed by an LF.
fn joined(alloc: Global, lines: &PageLines<'_>) -> Result<Vec<u8>, NoMemory>
    ensures { IfOk result (λ text. text.items ≡ joined_lines lines.now) }
{
    let mut text = Vec::with_capacity(alloc, lines.room())?;
    for line in lines.clone() {
        text.extend_from_slice(line)?;
        text.push(b'\n')?;
    }
    Ok(text)
}

fn lower(text: &mut Vec<u8>)
    ensures { text.new.items ≡ map lower_case text.old.items }
{
    text.make_ascii_lowercase();
}

// The words of a text, with their letters unchanged.
fn words_in(alloc: Global, text: &[u8]) -> Result<Vec<Numbered<'_>>, NoMemory>
    ensures { IfOk result (λ words. words.items ≡ bare_words text.now) }
{
    let mut words = Vec::with_capacity(alloc, runs_in(text))?;
    let mut rest = text;
    while let Some((word, _, after)) = next_token(rest) {
        words.push(Numbered::new(word))?;
        rest = after;
    }
    Ok(words)
}

/// Counts the words of the lines, which have at most 1,048,576 bytes (`MAX_REPLY`) together.
pub fn count_words(alloc: Global, lines: &PageLines<'_>) -> Result<Counts, NoMemory>
    requires { sum_by length lines.now ≤ MAX_REPLY }
    ensures { IfOk result (λ counts. counts ≡ counts_of (flat_map words_of lines.now)) }
{
    let mut text = joined(alloc, lines)?;
    lower(&mut text);
    let mut words = words_in(alloc, &text)?;
    words.sort_unstable();
    Counts::packed(alloc, &words)
}
