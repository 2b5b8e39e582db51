//! Reading one line of a stream: `read_line_from`.

ghost use Rattle.std.specs.Prelude.{◌≡◌, ◌≤◌, length, take, IfErr, IfOk, OnOk, vec_len};
ghost use Rattle.gopher_text.specs.Line.{FailsToReadLine, IsNextLine, ReadsAndFailsAtMost, ReadsLine, StopsInLine, TakesAndFailsAtMost, without_end};
ghost use Rattle.gopher_text.specs.Watched.{HasRead};

use crate::fault::LineFault;
use crate::reading::{Reading, read_once};
use crate::watched::Watched;
use gopher_bytes::MAX_LINE;
use std::alloc::Global;
use std::io::Read;

// The most reads for a line.
const MAX_TURNS: u64 = 4_096;

// The most bytes of a line with its end, CR LF.
const MAX_WITH_END: usize = MAX_LINE + 2;

/// Reads the next line of `reader` and not a byte after it.
///
/// The line ends at an LF or the end of the input, and each read asks for one byte. The result
/// doesn't contain the LF and one CR directly before it; a last line without LF keeps all its
/// bytes. Interrupted reads are tried again.
///
/// # Errors
///
/// - `LineTooLong` (7): the line has more than 1,024 bytes (`MAX_LINE`) before its end; at most
///   1,026 bytes of it were read
/// - `ReadFailed` (10): a read failed for another reason than an interruption
/// - `TooManyTurns` (11): 4,096 reads, including interrupted ones, didn't reach the end of the line
/// - `NoMemory` (90): the whole line and its end were read
pub fn read_line_from<R: Read>(alloc: Global, reader: &mut Watched<R>) -> Result<Vec<u8>, LineFault>
    ensures line { IfOk result (λ line. IsNextLine R.remaining reader.old line.items) }
    ensures rest { OnOk result (ReadsLine R.remaining reader.old reader.new) }
    ensures short { IfOk result (λ line. vec_len line ≤ MAX_LINE) }
    ensures refused { IfErr result (FailsToReadLine R.remaining reader.old reader.new) }
    ensures turns { ReadsAndFailsAtMost R.remaining reader.old reader.new 4096 }
{
    let mut held = [0; MAX_WITH_END];
    let (filled, end) = fill(reader, &mut held);
    if let Err(fault) = end {
        return Err(fault);
    }
    let line = without_end(&held[..filled]);
    if line.len() > MAX_LINE {
        return Err(LineFault::LineTooLong);
    }
    let Ok(line) = Vec::from_slice(alloc, line) else {
        return Err(LineFault::NoMemory);
    };
    Ok(line)
}

// Reads into `held` up to an LF or the end of the input. Returns the number of bytes read, and why
// reading stopped.
fn fill<R: Read>(reader: &mut Watched<R>, held: &mut [u8]) -> (usize, Result<(), LineFault>)
    requires { length held.old ≡ 1026 }
    ensures within { result.0 ≤ 1026 }
    ensures read { HasRead R.remaining reader.old reader.new (take result.0 held.new) }
    ensures stop { StopsInLine R.remaining reader.old reader.new (take result.0 held.new) result.1 }
    ensures turns { TakesAndFailsAtMost reader.old reader.new result.0 4096 }
{
    let mut filled = 0;
    for _turn in 0..MAX_TURNS {
        let mut byte = [0];
        match read_once(reader, &mut byte) {
            Reading::Took(_) => {
                held[filled] = byte[0];
                filled += 1;
                if byte[0] == b'\n' {
                    return (filled, Ok(()));
                }
                if filled == MAX_WITH_END {
                    return (filled, Err(LineFault::LineTooLong));
                }
            }
            Reading::Ended => return (filled, Ok(())),
            Reading::Interrupted => {}
            Reading::Failed => return (filled, Err(LineFault::ReadFailed)),
        }
    }
    (filled, Err(LineFault::TooManyTurns))
}

fn without_end(bytes: &[u8]) -> &[u8]
    ensures { result.now ≡ without_end bytes.now }
{
    match bytes {
        [front @ .., b'\r', b'\n'] => front,
        [front @ .., b'\n'] => front,
        _ => bytes,
    }
}
