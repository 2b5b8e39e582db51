//! Joining the words of pages into a table.

ghost use Rattle.std.specs.Prelude.{◌≡◌, ◌<◌, ◌≤◌, [], length, IfOk};
ghost use Rattle.gopher_segment.specs.Rows.{AreRowsInOrder, IsJoined, TellAlike, joined_rows};

use crate::row::Row;
use crate::runs::Runs;
use crate::table::Table;
use gopher_bytes::{ByteStrings, NoMemory};
use std::alloc::Global;

// The number of bytes of all words, at most `usize::MAX`.
fn bytes_len(rows: &[Row<'_>]) -> usize {
    let mut bytes = 0_usize;
    for row in rows {
        bytes = bytes.saturating_add(row.word().len());
    }
    bytes
}

// Appends the postings of the row at `start`, and of the next rows with the same word, to the last
// run. Returns the end of these rows.
fn take_word(rows: &[Row<'_>], start: usize, runs: &mut Runs) -> Result<usize, NoMemory>
    requires within { start < length rows.now }
    requires begun { runs.old.begun ≡ [] }
    ensures whole { runs.new.whole ≡ runs.old.whole }
    ensures forward { IfOk result (λ end. start < end) }
    ensures inside { IfOk result (λ end. end ≤ length rows.now) }
    ensures joined { IfOk result (λ end. IsJoined rows.now start end runs.new.begun) }
{
    rows[start].add_to(runs)?;
    let mut end = start + 1;
    while end < rows.len() {
        if !rows[end].is_alike(&rows[start]) {
            return Ok(end);
        }
        rows[end].add_to(runs)?;
        end += 1;
    }
    Ok(end)
}

// The table of sorted rows: the rows of a word become one row, with their postings in order.
fn table_of(alloc: Global, rows: &[Row<'_>]) -> Result<Table, NoMemory>
    ensures { IfOk result (λ table. table ≡ joined_rows rows.now) }
{
    let mut words = ByteStrings::with_capacity(alloc, rows.len(), bytes_len(rows))?;
    let mut runs = Runs::with_capacity(alloc, rows.len(), rows.len())?;
    let mut at = 0;
    while at < rows.len() {
        words.push(rows[at].word())?;
        at = take_word(rows, at, &mut runs)?;
        runs.end_run()?;
    }
    Table::packed(alloc, words, runs)
}

/// Makes one table of rows: the rows of a word become one row, with their postings in order.
///
/// # Errors
///
/// `NoMemory` (90): out of memory, or there would be over 4,294,967,295 rows or postings
/// (`MAX_PACKED`).
pub(crate) fn join(alloc: Global, rows: Vec<Row<'_>>) -> Result<Table, NoMemory>
    ensures order { IfOk result (λ table. AreRowsInOrder table) }
    ensures alike { IfOk result (λ table. TellAlike rows.entry.items table) }
{
    let mut rows = rows;
    // A stable sort by merging: the rows of each page are in order already, and those of an earlier
    // page stay first.
    rows.sort_by(|row, other| row.cmp_word(other))?;
    table_of(alloc, &rows)
}
