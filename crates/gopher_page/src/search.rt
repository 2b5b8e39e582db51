//! Searching words in byte order: `range_meant`.

ghost use Rattle.std.specs.Prelude.{◌≡◌, ◌<◌, ◌≤◌, length};
ghost use Rattle.gopher_page.specs.Counts.{is_meant, is_before, word_at, AreInOrder, AreMeantWords, LastPasses, FailsAt};

use gopher_bytes::{ByteStrings, first_index};

// Whether the word at an index equals `sought` or, if `is_prefix`, begins with it.
fn is_meant_at(words: &ByteStrings, is_prefix: bool, sought: &[u8], index: usize) -> bool
    requires { index < length words.now }
    ensures { result ≡ is_meant is_prefix sought.now (word_at words.now index) }
{
    let word = words.get(index);
    if is_prefix {
        word.starts_with(sought)
    } else {
        sought == word
    }
}

fn is_before_at(words: &ByteStrings, sought: &[u8], index: usize) -> bool
    requires { index < length words.now }
    ensures { result ≡ is_before (word_at words.now index) sought.now }
{
    words.get(index).cmp(sought).is_lt()
}

// An index up to which all words come before `sought`: the one after `index` if the word there
// does, or else 0.
fn low_bound(words: &ByteStrings, sought: &[u8], index: usize) -> usize
    ensures within { result ≤ length words.now }
    ensures before { LastPasses (λ word. is_before word sought.now) words.now 0 result }
{
    if index < words.len() && is_before_at(words, sought, index) {
        return index + 1;
    }
    0
}

// An index from which on no word comes before `sought`: `index` if the word there doesn't, or else
// the number of words.
fn high_bound(words: &ByteStrings, sought: &[u8], index: usize) -> usize
    ensures within { result ≤ length words.now }
    ensures here { FailsAt (λ word. is_before word sought.now) words.now result }
{
    if index < words.len() && !is_before_at(words, sought, index) {
        return index;
    }
    words.len()
}

// The number of words before `sought`, which is probably above `low_guess` and at most
// `high_guess`.
fn words_before(words: &ByteStrings, sought: &[u8], low_guess: usize, high_guess: usize) -> usize
    requires { AreInOrder words.now }
    ensures within { result ≤ length words.now }
    ensures before { LastPasses (λ word. is_before word sought.now) words.now 0 result }
    ensures here { FailsAt (λ word. is_before word sought.now) words.now result }
{
    let low = low_bound(words, sought, low_guess);
    let high = high_bound(words, sought, high_guess);
    first_index(low, high, |index| !is_before_at(words, sought, index))
}

// The end of the words that equal or begin with `sought`, which begin at `start`. At most one word
// equals it.
fn end_of_meant(words: &ByteStrings, is_prefix: bool, sought: &[u8], start: usize) -> usize
    requires order { AreInOrder words.now }
    requires start { start ≤ length words.now }
    requires here { FailsAt (λ word. is_before word sought.now) words.now start }
    ensures forward { start ≤ result }
    ensures within { result ≤ length words.now }
    ensures meant { LastPasses (is_meant is_prefix sought.now) words.now start result }
    ensures others { FailsAt (is_meant is_prefix sought.now) words.now result }
{
    if is_prefix {
        return first_index(
            start,
            words.len(),
            |index| !is_meant_at(words, true, sought, index),
        );
    }
    if start < words.len() && is_meant_at(words, false, sought, start) {
        return start + 1;
    }
    start
}

/// Returns the start and the end of the words that equal `sought` or, if `is_prefix`, begin with
/// it. The words are distinct and in byte order.
///
/// The start is probably above `low_guess` and at most `high_guess`. Any guess gives the same
/// range, and the number of words for both is no guess.
pub fn range_meant(
    words: &ByteStrings,
    is_prefix: bool,
    sought: &[u8],
    low_guess: usize,
    high_guess: usize,
) -> (usize, usize)
    requires { AreInOrder words.now }
    ensures { AreMeantWords words.now is_prefix sought.now result.0 result.1 }
{
    let start = words_before(words, sought, low_guess, high_guess);
    (start, end_of_meant(words, is_prefix, sought, start))
}
