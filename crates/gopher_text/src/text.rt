//! Reading texts, without doubled periods: `read_text`, `first_text_line`.

ghost use Rattle.std.specs.Prelude.{◌≡◌, ◌<◌, false, length, IfOk, IfSome};
ghost use Rattle.std.specs.Io.BufRead.{drop_through};
ghost use Rattle.gopher_text.specs.Line.{has_feed};
ghost use Rattle.gopher_text.specs.Text.{CutsTextLine, EndsLikeRest, HoldNoFeed, ReadsText, line_read};

use gopher_bytes::{ByteStrings, NoMemory, first_line, is_last_line};
use std::alloc::Global;

// Most lines of a text are at least this long: room for the ends of all lines is reserved at once.
const BYTES_OF_A_LINE: usize = 32;

/// A text that was read.
#[derive(Debug, Drop)]
pub struct Text {
    /// The lines in order, without their ends and without the period that the sender put in front.
    pub lines: ByteStrings,
    /// Whether a line with a single period ended the text.
    pub ended: bool,
}

/// Reads a text from any bytes (RFC 1436, appendix: TextFile Entity).
///
/// The text ends at the first line that is a single period; bytes after it are ignored. A line that
/// begins with two periods loses one.
///
/// # Errors
///
/// `NoMemory` (90): out of memory, or the lines have over 4,294,967,295 bytes together.
pub fn read_text(alloc: Global, bytes: &[u8]) -> Result<Text, NoMemory>
    ensures read { IfOk result (λ text. ReadsText bytes.now text.lines text.ended) }
    ensures no_feed { IfOk result (λ text. HoldNoFeed text.lines) }
{
    let mut lines = ByteStrings::with_capacity(alloc, bytes.len() / BYTES_OF_A_LINE, bytes.len())?;
    let mut rest = bytes;
    while let Some((line, after)) = first_text_line(rest) {
        lines.push(line)?;
        rest = after;
    }
    Ok(Text {
        lines,
        ended: !rest.is_empty(),
    })
}

/// Returns the first line of a text, as it is read, and the bytes after its end; `None` if there
/// are no bytes, or the first line is the single period that ends the text (RFC 1436, appendix:
/// Lastline).
pub fn first_text_line(bytes: &[u8]) -> Option<(&[u8], &[u8])>
    ensures line { CutsTextLine bytes.now result }
    ensures ended { EndsLikeRest bytes.now result }
    ensures no_feed { IfSome result (λ parts. has_feed parts.0.now ≡ false) }
    ensures rest { IfSome result (λ parts. parts.1.now ≡ drop_through 10 bytes.now) }
    ensures shorter { IfSome result (λ parts. length parts.1.now < length bytes.now) }
{
    let (line, rest) = first_line(bytes)?;
    if is_last_line(line) {
        return None;
    }
    Some((line_as_read(line), rest))
}

// A line without the period that the sender put in front of it.
fn line_as_read(line: &[u8]) -> &[u8]
    ensures read { result.now ≡ line_read line.now }
    ensures no_feed { has_feed line.now ≡ false → has_feed result.now ≡ false }
{
    match line {
        [b'.', b'.', ..] => &line[1..],
        _ => line,
    }
}
