//! A row: one word of one page, with its count.

ghost use Rattle.std.specs.Prelude.{◌≡◌, ◌++◌, OnOk};
ghost use Rattle.std.specs.Ordering.{nat_cmp};
ghost use Rattle.std.specs.Cmp.Lexicographic.{slice_cmp};
ghost use Rattle.gopher_page.specs.Words.{same_word};
ghost use Rattle.gopher_segment.specs.Postings.{pieces};

use crate::runs::Runs;
use gopher_bytes::NoMemory;
use gopher_page::Numbered;
use std::cmp::Ordering;
use std::marker::Model;

/// A word of a page, with the page's number and its count of the word.
#[derive(Drop)]
pub(crate) struct Row<'a> {
    word: Numbered<'a>,
    number: u16,
    count: u32,
}

impl<'a> Model for Row<'a> {
    ghost use Rattle.std.specs.Prelude.{ℕ, List};

    ghost Value = { List ℕ × List (ℕ × ℕ) };

    ghost use Rattle.gopher_segment.specs.Postings.{pieces};

    ghost view = { λ r. (r.word, pieces r.number r.count) };
}

impl<'a> Row<'a> {
    /// The row of a word that the page `number` has `count` times.
    pub fn new(number: u16, word: &'a [u8], count: u32) -> Row<'a>
        ensures { result ≡ (word.now, pieces number count) }
    {
        Row {
            word: Numbered::new(word),
            number,
            count,
        }
    }

    /// Returns the word.
    pub fn word(&self) -> &'a [u8]
        ensures { result.now ≡ self.now.0 }
    {
        self.word.word()
    }

    /// Returns whether both rows have the same word.
    pub fn is_alike(&self, other: &Row<'_>) -> bool
        ensures { result ≡ same_word self.now.0 other.now.0 }
    {
        self.word == other.word
    }

    /// Compares the words of both rows by their bytes.
    pub fn cmp_word(&self, other: &Row<'_>) -> Ordering
        ensures { result ≡ slice_cmp nat_cmp self.now.0 other.now.0 }
    {
        self.word.cmp(&other.word)
    }

    /// Appends the postings of the row to the last run.
    ///
    /// If out of memory, the run can end with some of them.
    pub fn add_to(&self, runs: &mut Runs) -> Result<(), NoMemory>
        ensures whole { runs.new.whole ≡ runs.old.whole }
        ensures begun { OnOk result (runs.new.begun ≡ runs.old.begun ++ self.now.1) }
    {
        runs.push_count(self.number, self.count)
    }
}
