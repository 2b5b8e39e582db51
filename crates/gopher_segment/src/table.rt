//! `Table`, the rows of a segment: each is a word with its postings. Finds the row of a word.

ghost use Rattle.std.specs.Prelude.{◌≡◌, ◌<◌, Some, length, slice_get, IfOk};
ghost use Rattle.std.specs.List.{zip};
ghost use Rattle.gopher_segment.specs.Rows.{words_of_rows, runs_of_rows, AreRowsInOrder, postings_meant};

use crate::runs::{Run, Runs};
use gopher_bytes::{ByteStrings, NoMemory};
use gopher_page::{Numbered, range_meant};
use std::alloc::Global;
use std::marker::Model;

// How many words a block has. A table keeps the leading number of the first word of each block.
const BLOCK: usize = 64;

// The leading number of the first word of each block.
fn numbers_of(alloc: Global, words: &ByteStrings) -> Result<Vec<u64>, NoMemory> {
    let mut numbers = Vec::with_capacity(alloc, words.len().div_ceil(BLOCK))?;
    for at in (0..words.len()).step_by(BLOCK) {
        numbers.push(Numbered::new(words.get(at)).number())?;
    }
    Ok(numbers)
}

/// Rows: words, each with its postings.
///
/// `numbers` has the leading number of each 64th word, eight bytes for 64 words. A search guesses a
/// range of rows from them, so it is right whatever the numbers are.
#[derive(Debug, Drop)]
pub(crate) struct Table {
    words: ByteStrings,
    runs: Runs,
    numbers: Vec<u64>,
}

impl Model for Table {
    ghost use Rattle.std.specs.Prelude.{ℕ, ◌≡◌, List, length};
    ghost use Rattle.std.specs.List.{zip};

    ghost Value = { List (List ℕ × List (ℕ × ℕ)) };

    ghost view = { λ t. zip t.words t.runs.whole };

    ghost invariant = { λ t. length t.runs.whole ≡ length t.words };
}

impl Table {
    /// Makes the table of words and as many runs, and frees unused room.
    pub fn packed(alloc: Global, mut words: ByteStrings, mut runs: Runs) -> Result<Table, NoMemory>
        requires { length runs.whole ≡ length words }
        ensures { IfOk result (λ table. table ≡ zip words runs.whole) }
    {
        words.shrink_to_fit();
        runs.shrink_to_fit();
        let numbers = numbers_of(alloc, &words)?;
        Ok(Table {
            words,
            runs,
            numbers,
        })
    }

    /// Returns the number of rows.
    pub fn len(&self) -> usize
        ensures { result ≡ length self.now }
    {
        self.words.len()
    }

    /// Returns the number of bytes of all words.
    pub fn bytes_len(&self) -> usize {
        self.words.bytes_len()
    }

    /// Returns the number of postings of all rows.
    pub fn postings_len(&self) -> usize {
        self.runs.postings_len()
    }

    /// Returns the word of the row at `index`.
    pub fn word(&self, index: usize) -> &[u8]
        requires { index < length self.now }
        ensures { slice_get (words_of_rows self.now) index ≡ Some result.now }
    {
        self.words.get(index)
    }

    /// Returns the postings of the row at `index`.
    pub fn run(&self, index: usize) -> Run<'_>
        requires { index < length self.now }
        ensures { slice_get (runs_of_rows self.now) index ≡ Some result }
    {
        self.runs.get(index)
    }

    /// Returns the postings of `sought` or, if `is_prefix`, of all words that begin with it, one
    /// word after another; none if no row has such a word.
    pub fn find(&self, is_prefix: bool, sought: &[u8]) -> Run<'_>
        requires { AreRowsInOrder self.now }
        ensures { result ≡ postings_meant is_prefix sought.now self.now }
    {
        let number = Numbered::new(sought).number();
        // This many blocks probably begin with a word before `sought`.
        let blocks = self.numbers.partition_point(|first| *first < number);
        let low = blocks.saturating_sub(1).saturating_mul(BLOCK);
        let high = blocks.saturating_mul(BLOCK);
        let (start, end) = range_meant(&self.words, is_prefix, sought, low, high);
        self.runs.between(start, end)
    }
}
