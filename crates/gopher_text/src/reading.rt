//! One call of a reader and its outcome: `read_once`.

ghost use Rattle.std.specs.Prelude.{◌<◌, length};
ghost use Rattle.gopher_text.specs.Reply.{ReadsAfter};

use crate::watched::Watched;
use std::io::{ErrorKind, Read};

/// The outcome of one read.
#[derive(Clone, Copy)]
pub(crate) enum Reading {
    /// The read returned this many bytes, at least one.
    Took(usize),
    /// The input has ended.
    Ended,
    /// The read was interrupted.
    Interrupted,
    /// The read failed.
    Failed,
}

/// Reads once into `buffer`.
pub(crate) fn read_once<R: Read>(reader: &mut Watched<R>, buffer: &mut [u8]) -> Reading
    requires { 0 < length buffer.old }
    ensures { ReadsAfter R.remaining reader.old reader.new buffer.new 0 result }
{
    match reader.read(buffer) {
        Ok(0) => Reading::Ended,
        Ok(count) => Reading::Took(count),
        Err(error) if error.kind() == ErrorKind::Interrupted => Reading::Interrupted,
        Err(_) => Reading::Failed,
    }
}
