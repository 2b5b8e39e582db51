//! The faults of conversations, with their numbers.

ghost use Rattle.std.specs.Prelude.{◌≡◌};
ghost use Rattle.gopher_serve.specs.Fault.{serve_fault_code, fault_of_line};

use gopher_item::NoMemory;
use gopher_text::{LineFault, SendFault};
use thiserror::Error;

/// Why a conversation failed.
#[derive(Clone, Copy, Debug, PartialEq, Eq, Error)]
pub enum ServeFault {
    /// 7: the line has more than 1,024 bytes before its end.
    #[error("the line is too long")]
    LineTooLong,
    /// 10: a read failed, and wasn't just interrupted.
    #[error("a read failed")]
    ReadFailed,
    /// 11: too many reads or writes, including interrupted ones.
    #[error("too many reads")]
    TooManyTurns,
    /// 13: a write failed and wasn't just interrupted, or took nothing, or too many were
    /// interrupted.
    #[error("a write failed")]
    WriteFailed,
    /// 90: out of memory.
    #[error("no memory")]
    NoMemory,
}

impl ServeFault {
    /// Returns the number of the fault: 7, 10, 11, 13 or 90.
    pub fn code(self) -> u8
        ensures { result ≡ serve_fault_code self }
    {
        match self {
            ServeFault::LineTooLong => 7,
            ServeFault::ReadFailed => 10,
            ServeFault::TooManyTurns => 11,
            ServeFault::WriteFailed => 13,
            ServeFault::NoMemory => 90,
        }
    }
}

impl From<LineFault> for ServeFault {
    ghost use Rattle.gopher_serve.specs.Fault.{fault_of_line};

    ghost from_gives = { λ why fault. fault ≡ fault_of_line why };

    fn from(why: LineFault) -> ServeFault {
        match why {
            LineFault::LineTooLong => ServeFault::LineTooLong,
            LineFault::ReadFailed => ServeFault::ReadFailed,
            LineFault::TooManyTurns => ServeFault::TooManyTurns,
            LineFault::NoMemory => ServeFault::NoMemory,
        }
    }
}

impl From<NoMemory> for ServeFault {
    ghost use Rattle.gopher_serve.specs.declared.fault.ServeFault.TheVariants.{NoMemory};

    ghost from_gives = { λ _ fault. fault ≡ NoMemory };

    fn from(_refused: NoMemory) -> ServeFault {
        ServeFault::NoMemory
    }
}

impl From<SendFault> for ServeFault {
    ghost use Rattle.gopher_serve.specs.declared.fault.ServeFault.TheVariants.{WriteFailed};

    ghost from_gives = { λ _ fault. fault ≡ WriteFailed };

    fn from(_why: SendFault) -> ServeFault {
        ServeFault::WriteFailed
    }
}
