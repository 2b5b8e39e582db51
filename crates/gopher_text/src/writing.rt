//! Writing texts, with doubled periods: `write_text`.

ghost use Rattle.std.specs.Prelude.{◌≡◌, ◌++◌, OnOk, OnErr};
ghost use Rattle.std.specs.Io.{StartsWith};
ghost use Rattle.gopher_bytes.specs.Lines.{lines_of};
ghost use Rattle.gopher_text.specs.Text.{HoldNoFeed, IsReadBack, begins_with_period, lines_in, text_bytes, text_line_bytes};

use gopher_bytes::{NoMemory, first_line};
use std::alloc::AllocError;

// The most bytes that a line needs besides its own: a period, and CR LF.
const MOST_MORE: usize = 3;

// Most lines of a file are at least this long.
const BYTES_OF_A_LINE: usize = 32;

/// Appends the text of these lines, which a single period ends (RFC 1436, appendix: TextFile
/// Entity). No line may contain an LF.
///
/// `read_text` reads the bytes back as these lines, ended.
pub fn write_text(lines: &[Vec<u8>], out: &mut Vec<u8>) -> Result<(), NoMemory>
    requires { HoldNoFeed (lines_in lines.now) }
    ensures text { OnOk result (out.new.items ≡ out.old.items ++ text_bytes (lines_in lines.now)) }
    ensures read_back { OnOk result (IsReadBack (lines_in lines.now)) }
    ensures refused { OnErr result (out.new.items ≡ out.old.items) }
{
    let length = out.len();
    if out.reserve(room_for(lines)).is_err() || push_lines(lines, out).is_err() {
        out.truncate(length);
        return Err(NoMemory);
    }
    Ok(())
}

/// Appends the text of the lines of `bytes`, the contents of a file, which a single period ends
/// (RFC 1436, appendix: TextFile Entity).
pub fn write_text_of(bytes: &[u8], out: &mut Vec<u8>) -> Result<(), NoMemory>
    ensures text { OnOk result (out.new.items ≡ out.old.items ++ text_bytes (lines_of bytes.now)) }
    ensures refused { OnErr result (out.new.items ≡ out.old.items) }
{
    let length = out.len();
    if out.reserve(room_for_file(bytes)).is_err() || push_lines_of(bytes, out).is_err() {
        out.truncate(length);
        return Err(NoMemory);
    }
    Ok(())
}

// As many bytes as the text of a file needs, if its lines have the usual length: one more for each
// line, and for the period that ends it.
fn room_for_file(bytes: &[u8]) -> usize {
    bytes
        .len()
        .saturating_add(bytes.len() / BYTES_OF_A_LINE)
        .saturating_add(MOST_MORE)
}

// At least as many bytes as the text of the lines has.
fn room_for(lines: &[Vec<u8>]) -> usize {
    let mut room = MOST_MORE;
    for line in lines {
        room = room.saturating_add(line.len()).saturating_add(MOST_MORE);
    }
    room
}

// Appends the lines and the last line.
fn push_lines(lines: &[Vec<u8>], out: &mut Vec<u8>) -> Result<(), AllocError>
    ensures text { OnOk result (out.new.items ≡ out.old.items ++ text_bytes (lines_in lines.now)) }
    ensures kept { StartsWith out.new.items out.old.items }
{
    for line in lines {
        push_line(line, out)?;
    }
    out.extend_from_slice(b".\r\n")
}

// Appends the lines of `bytes` and the last line.
fn push_lines_of(bytes: &[u8], out: &mut Vec<u8>) -> Result<(), AllocError>
    ensures text { OnOk result (out.new.items ≡ out.old.items ++ text_bytes (lines_of bytes.now)) }
    ensures kept { StartsWith out.new.items out.old.items }
{
    let mut rest = bytes;
    while let Some((line, after)) = first_line(rest) {
        push_line(line, out)?;
        rest = after;
    }
    out.extend_from_slice(b".\r\n")
}

fn push_line(line: &[u8], out: &mut Vec<u8>) -> Result<(), AllocError>
    ensures written { OnOk result (out.new.items ≡ out.old.items ++ text_line_bytes line.now) }
    ensures kept { StartsWith out.new.items out.old.items }
{
    if begins_with_period(line) {
        out.push(b'.')?;
    }
    out.extend_from_slice(line)?;
    out.extend_from_slice(b"\r\n")
}

fn begins_with_period(line: &[u8]) -> bool
    ensures { result ≡ begins_with_period line.now }
{
    matches!(line, [b'.', ..])
}
