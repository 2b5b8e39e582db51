//! Fetching the reply of a place over a stream (`fetch_over`).

ghost use Rattle.std.specs.Prelude.{◌≡◌, ◌≤◌, ◌++◌, ◌∷◌, [], IfOk};
ghost use Rattle.gopher_hole.specs.Fetch.{Fetches, request_bytes, why_of};

use gopher_catalogue::Why;
use gopher_item::{NoMemory, Place};
use gopher_text::{MAX_REPLY, ReplyFault, Watched, read_reply, send};
use std::alloc::{AllocError, Global};
use std::io::{Read, Write};

/// Fetches the reply of a place over a connection to its server: sends the selector and CR LF, and
/// reads to the end of the input. `limit` is the most bytes of the reply, at most 1,048,576
/// (`MAX_REPLY`).
///
/// # Errors
///
/// - `Write` (3): `gopher_text::send` failed. A prefix of the request was written.
/// - `Read` (2): `gopher_text::read_reply` failed with a failed read or too many reads.
/// - `TooLong` (4): the reply has more than `limit` bytes. One byte more than that was read.
/// - `NoMemory` (5): out of memory.
pub fn fetch_over<S: Read + Write>(
    alloc: Global,
    stream: &mut Watched<S>,
    place: &Place,
    limit: usize,
) -> Result<Vec<u8>, Why>
    requires { limit ≤ MAX_REPLY }
    ensures { Fetches S.contents S.remaining limit place.now stream.old stream.new result }
{
    let Ok(request) = request_of(alloc, place) else {
        return Err(Why::NoMemory);
    };
    let Ok(()) = send(stream, &request) else {
        return Err(Why::Write);
    };
    match read_reply(alloc, stream, limit) {
        Ok(reply) => Ok(reply),
        Err(fault) => Err(why_of(fault)),
    }
}

// The request for a place: its selector, and CR LF.
fn request_of(alloc: Global, place: &Place) -> Result<Vec<u8>, AllocError>
    ensures { IfOk result (λ request. request.items ≡ request_bytes place.now) }
{
    let mut request = Vec::from_slice(alloc, place.selector())?;
    request.extend_from_slice(b"\r\n")?;
    Ok(request)
}

// The reason of a reply that wasn't read to its end.
fn why_of(fault: ReplyFault) -> Why
    ensures { result ≡ why_of fault }
{
    match fault {
        ReplyFault::ReadFailed | ReplyFault::TooManyTurns => Why::Read,
        ReplyFault::ReplyTooLong => Why::TooLong,
        ReplyFault::NoMemory => Why::NoMemory,
    }
}
