//! The lines of bytes: `lines`, `first_line`, `is_last_line`.

ghost use Rattle.std.specs.Prelude.{◌≡◌, ◌<◌, false, [], length, map, IfOk, IfSome, MatchOption};
ghost use Rattle.std.specs.Io.BufRead.{drop_through};
ghost use Rattle.std.specs.Str.Lines.{strip_carriage_return};
ghost use Rattle.gopher_bytes.specs.Lines.{IsAround, IsFirstOf, has_feed, is_last_line, lines_of};

use crate::fault::NoMemory;
use crate::split::split_once;
use std::alloc::Global;

/// The most bytes of a request line without its end.
pub const MAX_LINE: usize = 1_024;

/// Returns the first line of the bytes without its end, and the bytes after its end; `None` if
/// there are no bytes.
///
/// A line ends in LF, and one CR directly before the LF is part of the end. A last line without LF
/// keeps all its bytes. RFC 1436 ends lines with CR LF (section 2); this profile also reads a lone
/// LF.
pub fn first_line(bytes: &[u8]) -> Option<(&[u8], &[u8])>
    ensures line { MatchOption result (bytes.now ≡ []) (IsFirstOf lines_of bytes.now) }
    ensures no_feed { IfSome result (λ parts. has_feed parts.0.now ≡ false) }
    ensures rest { IfSome result (λ parts. parts.1.now ≡ drop_through 10 bytes.now) }
    ensures shorter { IfSome result (λ parts. length parts.1.now < length bytes.now) }
    ensures whole { IfSome result (λ parts. IsAround bytes.now parts.0.now parts.1.now) }
{
    if bytes.is_empty() {
        return None;
    }
    match split_once(b'\n', bytes) {
        Some((line, rest)) => Some((without_carriage_return(line), rest)),
        None => Some((bytes, &[])),
    }
}

fn without_carriage_return(line: &[u8]) -> &[u8]
    ensures stripped { result.now ≡ strip_carriage_return line.now }
    ensures whole { IsAround line.now result.now [] }
{
    match line {
        [front @ .., b'\r'] => front,
        _ => line,
    }
}

/// Returns whether the line is a single period, which ends a menu and a text (RFC 1436, appendix:
/// Lastline).
pub fn is_last_line(line: &[u8]) -> bool
    ensures { result ≡ is_last_line line.now }
{
    matches!(line, [b'.'])
}

/// Returns all lines of the bytes, cut as `first_line` cuts them.
pub fn lines(alloc: Global, bytes: &[u8]) -> Result<Vec<&[u8]>, NoMemory>
    ensures { IfOk result (λ found. map (λ line. line.now) found.items ≡ lines_of bytes.now) }
{
    let mut found = Vec::new(alloc);
    let mut rest = bytes;
    while let Some((line, after)) = first_line(rest) {
        found.push(line)?;
        rest = after;
    }
    Ok(found)
}
