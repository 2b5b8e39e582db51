//! `LineFault`, `ReplyFault`, `SendFault`: why reading or sending fails, with the numbers.

ghost use Rattle.std.specs.Prelude.{◌≡◌};
ghost use Rattle.gopher_text.specs.Fault.{line_fault_code, reply_fault_code};

use thiserror::Error;

/// Why no line was read.
#[derive(Clone, Copy, Debug, PartialEq, Eq, Error)]
pub enum LineFault {
    /// 7: the line has more than 1,024 bytes before its end.
    #[error("the line is too long")]
    LineTooLong,
    /// 10: a read failed for another reason than an interruption.
    #[error("a read failed")]
    ReadFailed,
    /// 11: 4,096 reads, including interrupted ones, didn't reach the end of the line.
    #[error("too many reads")]
    TooManyTurns,
    /// 90: out of memory.
    #[error("no memory")]
    NoMemory,
}

impl LineFault {
    /// The number of the fault: 7, 10, 11 or 90.
    pub fn code(self) -> u8
        ensures { result ≡ line_fault_code self }
    {
        match self {
            LineFault::LineTooLong => 7,
            LineFault::ReadFailed => 10,
            LineFault::TooManyTurns => 11,
            LineFault::NoMemory => 90,
        }
    }
}

/// Why a reply wasn't read to its end.
#[derive(Clone, Copy, Debug, PartialEq, Eq, Error)]
pub enum ReplyFault {
    /// 10: a read failed for another reason than an interruption.
    #[error("a read failed")]
    ReadFailed,
    /// 11: 2,097,152 reads, including interrupted ones, didn't reach the end.
    #[error("too many reads")]
    TooManyTurns,
    /// 12: the reply has more bytes than the limit.
    #[error("the reply is too long")]
    ReplyTooLong,
    /// 90: out of memory.
    #[error("no memory")]
    NoMemory,
}

impl ReplyFault {
    /// The number of the fault: 10, 11, 12 or 90.
    pub fn code(self) -> u8
        ensures { result ≡ reply_fault_code self }
    {
        match self {
            ReplyFault::ReadFailed => 10,
            ReplyFault::TooManyTurns => 11,
            ReplyFault::ReplyTooLong => 12,
            ReplyFault::NoMemory => 90,
        }
    }
}

/// Why not all bytes were sent (13): a write failed or took no bytes, or 4,096 writes were
/// interrupted.
#[derive(Clone, Copy, Debug, PartialEq, Eq, Error)]
#[error("a write failed")]
pub struct SendFault {
    /// The number of bytes sent before the failure: exactly the first ones.
    pub sent: usize,
}

impl SendFault {
    /// The number of the fault, 13.
    pub fn code(self) -> u8
        ensures { result ≡ 13 }
    {
        13
    }
}
