//! Words, the runs of letters, digits and bytes of 128 or more: `words`, `next_token`.

ghost use Rattle.std.specs.Prelude.{◌≡◌, ◌+◌, ◌<◌, ◌≤◌, [], length, position, IfOk, IfSome, MatchOption};
ghost use Rattle.gopher_page.specs.Words.{is_gap, is_word_byte, is_word, words_of, word_runs, IsOneRun, IsCutAtGap, IsFirstWord};

use gopher_item::{ByteString, NoMemory};
use std::alloc::Global;

/// The most bytes of a word. A longer run is no word.
pub const MAX_WORD: usize = 40;

// 1 for each byte that can be part of a word: one look-up is faster than several comparisons.
const WORD_BYTES: [u8; 256] = [
    0, 0, 0, 0, 0, 0, 0, 0, 0, 0, 0, 0, 0, 0, 0, 0, 0, 0, 0, 0, 0, 0, 0, 0, 0, 0, 0, 0, 0, 0, 0, 0,
    0, 0, 0, 0, 0, 0, 0, 0, 0, 0, 0, 0, 0, 0, 0, 0, 1, 1, 1, 1, 1, 1, 1, 1, 1, 1, 0, 0, 0, 0, 0, 0,
    0, 1, 1, 1, 1, 1, 1, 1, 1, 1, 1, 1, 1, 1, 1, 1, 1, 1, 1, 1, 1, 1, 1, 1, 1, 1, 1, 0, 0, 0, 0, 0,
    0, 1, 1, 1, 1, 1, 1, 1, 1, 1, 1, 1, 1, 1, 1, 1, 1, 1, 1, 1, 1, 1, 1, 1, 1, 1, 1, 0, 0, 0, 0, 0,
    1, 1, 1, 1, 1, 1, 1, 1, 1, 1, 1, 1, 1, 1, 1, 1, 1, 1, 1, 1, 1, 1, 1, 1, 1, 1, 1, 1, 1, 1, 1, 1,
    1, 1, 1, 1, 1, 1, 1, 1, 1, 1, 1, 1, 1, 1, 1, 1, 1, 1, 1, 1, 1, 1, 1, 1, 1, 1, 1, 1, 1, 1, 1, 1,
    1, 1, 1, 1, 1, 1, 1, 1, 1, 1, 1, 1, 1, 1, 1, 1, 1, 1, 1, 1, 1, 1, 1, 1, 1, 1, 1, 1, 1, 1, 1, 1,
    1, 1, 1, 1, 1, 1, 1, 1, 1, 1, 1, 1, 1, 1, 1, 1, 1, 1, 1, 1, 1, 1, 1, 1, 1, 1, 1, 1, 1, 1, 1, 1,
];

fn is_word_byte(byte: u8) -> bool
    ensures { result ≡ is_word_byte byte }
{
    WORD_BYTES[usize::from(byte)] != 0
}

fn is_word(run: &[u8]) -> bool
    ensures { result ≡ is_word run.now }
{
    !run.is_empty() && run.len() <= MAX_WORD
}

fn first_gap(bytes: &[u8]) -> Option<usize>
    ensures { result ≡ position is_gap bytes.now }
{
    bytes.iter().position(|byte| !is_word_byte(*byte))
}

// The bytes before the first gap, the gap and the bytes after it, or `None` if there is no gap.
fn split_at_gap(bytes: &[u8]) -> Option<(&[u8], u8, &[u8])>
    ensures runs { MatchOption result (IsOneRun bytes.now) (IsCutAtGap bytes.now) }
    ensures less { IfSome result (λ cut. length cut.0.now + length cut.2.now < length bytes.now) }
{
    let end = first_gap(bytes)?;
    Some((&bytes[..end], bytes[end], &bytes[end + 1..]))
}

/// Returns the first word of a text with its letters unchanged, whether `*` directly follows it,
/// and the text after it; `None` if the text contains no word.
pub fn next_token(text: &[u8]) -> Option<(&[u8], bool, &[u8])>
    ensures word { MatchOption result (word_runs text.now ≡ []) (IsFirstWord text.now) }
    ensures some { IfSome result (λ found. 0 < length found.0.now) }
    ensures less { IfSome result (λ cut. length cut.0.now + length cut.2.now ≤ length text.now) }
{
    let mut rest = text;
    while let Some((run, gap, after)) = split_at_gap(rest) {
        if is_word(run) {
            return Some((run, gap == b'*', after));
        }
        rest = after;
    }
    if is_word(rest) {
        Some((rest, false, &[]))
    } else {
        None
    }
}

/// Returns at least how many words a text has.
pub fn runs_in(text: &[u8]) -> usize {
    let (mut runs, mut is_inside) = (0_usize, false);
    for byte in text {
        let is_word = is_word_byte(*byte);
        runs = runs.saturating_add(usize::from(is_word && !is_inside));
        is_inside = is_word;
    }
    runs
}

/// Returns the words of the bytes in order, in lower case. A word is a run of 1 to 40 ASCII
/// letters, ASCII digits and bytes of 128 or more.
pub fn words(alloc: Global, bytes: &[u8]) -> Result<Vec<ByteString>, NoMemory>
    ensures { IfOk result (λ found. found.items ≡ words_of bytes.now) }
{
    let mut found = Vec::new(alloc);
    let mut rest = bytes;
    while let Some((word, _, after)) = next_token(rest) {
        found.push(ByteString::lower_cased(alloc, word)?)?;
        rest = after;
    }
    Ok(found)
}
