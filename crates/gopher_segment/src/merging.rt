//! Merging the tables of consecutive segments into one.

ghost use Rattle.std.specs.Prelude.{◌≡◌, ◌<◌, None, ◌++◌, length, map, drop, IfOk, IfSome, OnOk};
ghost use Rattle.std.specs.Option.{option_copied};
ghost use Rattle.gopher_segment.specs.Rows.{AreRowsInOrder, first_word, first_run, IsLowest, is_at, LackBefore, is_lower, passed, rows_left, taken, taken_of, AreAllInOrder, HavePostingsOf};

use crate::runs::{Run, Runs};
use crate::table::Table;
use gopher_bytes::{ByteStrings, NoMemory};
use gopher_page::Numbered;
use std::alloc::Global;
use std::marker::Model;

// The word of the row at an index, if there is a row.
fn word_at<'a>(table: &'a Table, at: usize) -> Option<Numbered<'a>>
    ensures { result ≡ first_word (drop at table.now) }
{
    if at < table.len() {
        Some(Numbered::new(table.word(at)))
    } else {
        None
    }
}

/// The rows of a table that aren't merged yet.
///
/// The first row's word is kept, because it is compared many times.
#[derive(Drop)]
pub(crate) struct Cursor<'a> {
    table: &'a Table,
    at: usize,
    word: Option<Numbered<'a>>,
}

impl<'a> Model for Cursor<'a> {
    ghost use Rattle.std.specs.Prelude.{ℕ, List, drop};
    ghost use Rattle.gopher_segment.specs.Rows.{IsCursor};

    ghost Value = { List (List ℕ × List (ℕ × ℕ)) };

    ghost view = { λ c. drop c.at c.table.now };

    ghost invariant = { λ c. IsCursor c.table.now c.at c.word };
}

impl<'a> Cursor<'a> {
    /// Starts before the first row of a table.
    pub fn new(table: &'a Table) -> Cursor<'a>
        ensures { result ≡ table.now }
    {
        Cursor {
            table,
            at: 0,
            word: word_at(table, 0),
        }
    }

    // The word of the first row, if there is a row.
    fn word(&self) -> Option<&Numbered<'a>>
        ensures { option_copied result ≡ first_word self.now }
    {
        self.word.as_ref()
    }

    // Whether the first row has this word.
    fn is_at(&self, word: &Numbered<'_>) -> bool
        ensures { result ≡ is_at word.now self.now }
    {
        match self.word() {
            Some(own) => own == word,
            None => false,
        }
    }

    // The postings of the first row.
    fn run(&self) -> Run<'a>
        requires { 0 < length self.now }
        ensures { result ≡ first_run self.now }
    {
        let table = self.table;
        table.run(self.at)
    }

    fn advance(&mut self)
        ensures { self.new ≡ drop 1 self.old }
    {
        if self.at < self.table.len() {
            self.at += 1;
            self.word = word_at(self.table, self.at);
        }
    }
}

// Whether there is a word, and it comes before the lowest one, if there is one.
fn is_lower(word: Option<&Numbered<'_>>, lowest: Option<&Numbered<'_>>) -> bool
    ensures { result ≡ is_lower (option_copied word.entry) (option_copied lowest.entry) }
{
    match (word, lowest) {
        // Their numbers decide most comparisons.
        (Some(word), Some(low)) => word.number() <= low.number() && word.cmp(low).is_lt(),
        (Some(_), None) => true,
        (None, _) => false,
    }
}

// The lowest of the first words, and the index of the first cursor that begins with it.
fn lowest_word<'a>(cursors: &[Cursor<'a>]) -> Option<(usize, Numbered<'a>)>
    ensures lowest { IfSome result (λ r. IsLowest cursors.now r.0 r.1) }
    ensures none { result ≡ None → rows_left cursors.now ≡ 0 }
{
    let mut lowest: Option<&Numbered<'a>> = None;
    let mut first = 0;
    for index in 0..cursors.len() {
        let cursor = &cursors[index];
        let word = cursor.word();
        if is_lower(word, lowest) {
            lowest = word;
            first = index;
        }
    }
    match lowest {
        Some(word) => Some((first, word.clone())),
        None => None,
    }
}

// If the first row has the word, appends its postings and moves past the row.
fn take_run(word: &Numbered<'_>, cursor: &mut Cursor<'_>, runs: &mut Runs) -> Result<(), NoMemory>
    ensures cursor { OnOk result (cursor.new ≡ passed word.now cursor.old) }
    ensures whole { runs.new.whole ≡ runs.old.whole }
    ensures begun { OnOk result (runs.new.begun ≡ runs.old.begun ++ taken word.now cursor.old) }
{
    if !cursor.is_at(word) {
        return Ok(());
    }
    runs.extend(&cursor.run())?;
    cursor.advance();
    Ok(())
}

// Appends the postings of the word from all cursors that begin with it, and moves them past their
// rows. The first such cursor has the index `first`.
fn take_runs(
    word: &Numbered<'_>,
    first: usize,
    cursors: &mut [Cursor<'_>],
    runs: &mut Runs,
) -> Result<(), NoMemory>
    requires { LackBefore word.now first cursors.old }
    ensures cursors { OnOk result (cursors.new ≡ map (passed word.now) cursors.old) }
    ensures whole { runs.new.whole ≡ runs.old.whole }
    ensures begun { OnOk result (runs.new.begun ≡ runs.old.begun ++ taken_of word.now cursors.old) }
{
    for index in first..cursors.len() {
        take_run(word, &mut cursors[index], runs)?;
    }
    Ok(())
}

// The numbers of rows, of bytes of their words, and of postings of all tables, which the merged
// table doesn't exceed.
fn room_of(cursors: &[Cursor<'_>]) -> (usize, usize, usize) {
    let mut room = (0_usize, 0_usize, 0_usize);
    for cursor in cursors {
        let table = cursor.table;
        room.0 = room.0.saturating_add(table.len());
        room.1 = room.1.saturating_add(table.bytes_len());
        room.2 = room.2.saturating_add(table.postings_len());
    }
    room
}

/// Merges tables into one. The rows of a word become one row, with their postings in order.
///
/// # Errors
///
/// `NoMemory` (90): out of memory, or the words would exceed 4,294,967,295 bytes, or the postings
/// that number (`MAX_PACKED`).
pub(crate) fn merge(alloc: Global, cursors: &mut [Cursor<'_>]) -> Result<Table, NoMemory>
    requires { AreAllInOrder cursors.old }
    ensures order { IfOk result (λ table. AreRowsInOrder table) }
    ensures runs { IfOk result (λ table. HavePostingsOf cursors.old table) }
{
    let (rows, bytes, postings) = room_of(cursors);
    let mut words = ByteStrings::with_capacity(alloc, rows, bytes)?;
    let mut runs = Runs::with_capacity(alloc, rows, postings)?;
    while let Some((first, word)) = lowest_word(cursors) {
        words.push(word.word())?;
        take_runs(&word, first, cursors, &mut runs)?;
        runs.end_run()?;
    }
    Table::packed(alloc, words, runs)
}
