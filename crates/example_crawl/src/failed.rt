//! Why the example gives up.

use gopher_item::ItemFault;
use std::alloc::{AllocError, AllocFailed};
use std::io;

/// What was missing. A small type keeps the proofs of its callers short.
#[derive(Clone, Copy, Debug)]
pub enum Failed {
    /// Memory.
    Memory,
    /// A part of a place or a rule is bad.
    Part,
    /// A call of the library was refused.
    Refused,
    /// A line couldn't be printed.
    Printing,
}

impl From<AllocError> for Failed {
    fn from(_error: AllocError) -> Failed {
        Failed::Memory
    }
}

impl<T: Drop> From<AllocFailed<T>> for Failed {
    fn from(_failed: AllocFailed<T>) -> Failed {
        Failed::Memory
    }
}

impl From<ItemFault> for Failed {
    fn from(_fault: ItemFault) -> Failed {
        Failed::Part
    }
}

impl From<io::Error> for Failed {
    fn from(_error: io::Error) -> Failed {
        Failed::Printing
    }
}
