//! `NoMemory`: the error of a call that allocates, with its number.

ghost use Rattle.std.specs.Prelude.{◌≡◌};

use std::alloc::{AllocError, AllocFailed};
use thiserror::Error;

/// Out of memory.
#[derive(Clone, Copy, Debug, PartialEq, Eq, Error)]
#[error("no memory")]
pub struct NoMemory;

impl NoMemory {
    /// The number of the fault, 90.
    pub fn code(self) -> u8
        ensures { result ≡ 90 }
    {
        90
    }
}

impl From<AllocError> for NoMemory {
    fn from(_refused: AllocError) -> NoMemory {
        NoMemory
    }
}

impl<T: Drop> From<AllocFailed<T>> for NoMemory {
    fn from(_refused: AllocFailed<T>) -> NoMemory {
        NoMemory
    }
}
