//! The faults of a replay, with their numbers.

ghost use Rattle.std.specs.Prelude.{◌≡◌};
ghost use Rattle.gopher_script.specs.Fault.{replay_fault_code};

use gopher_item::NoMemory;
use gopher_text::ReplyFault;
use thiserror::Error;

/// Why a replay stopped before the end of its script.
#[derive(Clone, Copy, Debug, PartialEq, Eq, Error)]
pub enum ReplayFault {
    /// 10: a read failed for another reason than an interruption.
    #[error("a read failed")]
    ReadFailed,
    /// 11: 2,097,152 reads, including interrupted ones, didn't reach the end of the script.
    #[error("too many reads")]
    TooManyTurns,
    /// 12: the script has more than 1,048,576 bytes.
    #[error("the script is too long")]
    ReplyTooLong,
    /// 13: a write failed or took no bytes, or 4,096 writes of one answer were interrupted.
    #[error("a write failed")]
    WriteFailed,
    /// 70: the line with this number, from 1, is bad.
    #[error("line {0} of the script is bad")]
    BadScript(usize),
    /// 90: out of memory.
    #[error("no memory")]
    NoMemory,
}

impl ReplayFault {
    /// The number of the fault: 10 to 13, 70 or 90.
    pub fn code(self) -> u8
        ensures { result ≡ replay_fault_code self }
    {
        match self {
            ReplayFault::ReadFailed => 10,
            ReplayFault::TooManyTurns => 11,
            ReplayFault::ReplyTooLong => 12,
            ReplayFault::WriteFailed => 13,
            ReplayFault::BadScript(_) => 70,
            ReplayFault::NoMemory => 90,
        }
    }
}

impl From<NoMemory> for ReplayFault {
    ghost use Rattle.gopher_script.specs.declared.fault.ReplayFault.TheVariants.{NoMemory};

    ghost from_gives = { λ _ fault. fault ≡ NoMemory };

    fn from(_refused: NoMemory) -> ReplayFault {
        ReplayFault::NoMemory
    }
}

impl From<ReplyFault> for ReplayFault {
    ghost use Rattle.gopher_script.specs.Fault.{fault_of_script};

    ghost from_gives = { λ why fault. fault ≡ fault_of_script why };

    fn from(why: ReplyFault) -> ReplayFault {
        match why {
            ReplyFault::ReadFailed => ReplayFault::ReadFailed,
            ReplyFault::TooManyTurns => ReplayFault::TooManyTurns,
            ReplyFault::ReplyTooLong => ReplayFault::ReplyTooLong,
            ReplyFault::NoMemory => ReplayFault::NoMemory,
        }
    }
}
