//! Reading a stream to its end, within a limit: `read_reply`.

ghost use Rattle.std.specs.Prelude.{◌≡◌, ◌+◌, ◌<◌, ◌≤◌, length, take, IfOk, IfErr, OnOk, vec_len};
ghost use Rattle.std.specs.Io.KnownBytes.{IsAtEnd};
ghost use Rattle.gopher_text.specs.Reply.{FailsToReadReply, ReadsAfter, StopsFilling};
ghost use Rattle.gopher_text.specs.Watched.{FailsAtMost, HasRead};

use crate::fault::ReplyFault;
use crate::reading::{Reading, read_once};
use crate::watched::Watched;
use std::alloc::{AllocError, Global};
use std::io::Read;

/// The most bytes of a reply that can be read. So a page has at most as many words and links.
pub const MAX_REPLY: usize = 1_048_576;

// The most reads for a reply.
const MAX_TURNS: u64 = 2_097_152;

// How many bytes the first read asks for.
const FIRST_ROOM: usize = 8_192;

/// Reads all of `reader`: a reply or other input of at most `limit` bytes, with `limit` at most
/// 1,048,576 (`MAX_REPLY`). Interrupted reads are tried again.
///
/// # Errors
///
/// The bytes that were read are lost: `limit + 1` of them for error 12, at most `limit` for the
/// others.
/// - `ReadFailed` (10): a read failed for another reason than an interruption
/// - `TooManyTurns` (11): 2,097,152 reads, including interrupted ones, didn't reach the end
/// - `ReplyTooLong` (12): the reply has more than `limit` bytes; reading stops at the first byte
///   over it
/// - `NoMemory` (90)
pub fn read_reply<R: Read>(
    alloc: Global,
    reader: &mut Watched<R>,
    limit: usize,
) -> Result<Vec<u8>, ReplyFault>
    requires { limit ≤ MAX_REPLY }
    ensures read { IfOk result (λ bytes. HasRead R.remaining reader.old reader.new bytes.items) }
    ensures whole { OnOk result (IsAtEnd (R.remaining reader.new.device)) }
    ensures within_limit { IfOk result (λ bytes. vec_len bytes ≤ limit) }
    ensures refused { IfErr result (FailsToReadReply R.remaining reader.old reader.new limit) }
    ensures turns { FailsAtMost reader.old reader.new 2097152 }
{
    let mut bytes = Vec::new(alloc);
    let (filled, end) = fill(reader, &mut bytes, limit);
    end?;
    bytes.truncate(filled);
    Ok(bytes)
}

// Reads into `bytes`. Returns the number of bytes read, and why reading stopped.
#[tactic(auto, using(crate::proofs::Streams::consumes_more, crate::proofs::Streams::consumes_kept))]
fn fill<R: Read>(
    reader: &mut Watched<R>,
    bytes: &mut Vec<u8>,
    limit: usize,
) -> (usize, Result<(), ReplyFault>)
    requires limit { limit ≤ MAX_REPLY }
    requires empty { length bytes.old.items ≡ 0 }
    ensures within { result.0 ≤ length bytes.new.items }
    ensures read { HasRead R.remaining reader.old reader.new (take result.0 bytes.new.items) }
    ensures stop { StopsFilling R.remaining reader.old reader.new limit bytes.new.items result }
    ensures turns { FailsAtMost reader.old reader.new 2097152 }
{
    let mut filled = 0;
    for _turn in 0..MAX_TURNS {
        if make_room(bytes, filled, limit).is_err() {
            return (filled, Err(ReplyFault::NoMemory));
        }
        match read_after(reader, bytes, filled) {
            Reading::Took(count) => {
                filled += count;
                if filled > limit {
                    return (filled, Err(ReplyFault::ReplyTooLong));
                }
            }
            Reading::Ended => return (filled, Ok(())),
            Reading::Interrupted => {}
            Reading::Failed => return (filled, Err(ReplyFault::ReadFailed)),
        }
    }
    (filled, Err(ReplyFault::TooManyTurns))
}

// Makes `bytes` longer than `filled` if it isn't. The bytes after `filled` are zeros.
fn make_room(bytes: &mut Vec<u8>, filled: usize, limit: usize) -> Result<(), AllocError>
    requires limit { limit ≤ MAX_REPLY }
    requires filled { filled ≤ limit }
    requires within { filled ≤ length bytes.old.items }
    requires short { length bytes.old.items ≤ limit + 1 }
    ensures within { filled ≤ length bytes.new.items }
    ensures short { length bytes.new.items ≤ limit + 1 }
    ensures front { take filled bytes.new.items ≡ take filled bytes.old.items }
    ensures room { OnOk result (filled < length bytes.new.items) }
{
    if filled < bytes.len() {
        return Ok(());
    }
    let room = FIRST_ROOM.max(filled * 4).min(limit + 1);
    bytes.resize(room, 0)
}

// Reads once into the part of `bytes` after `filled`.
fn read_after<R: Read>(reader: &mut Watched<R>, bytes: &mut Vec<u8>, filled: usize) -> Reading
    requires { filled < length bytes.old.items }
    ensures length { length bytes.new.items ≡ length bytes.old.items }
    ensures front { take filled bytes.new.items ≡ take filled bytes.old.items }
    ensures read { ReadsAfter R.remaining reader.old reader.new bytes.new.items filled result }
{
    read_once(reader, &mut bytes[filled..])
}
