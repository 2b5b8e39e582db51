//! `SearchFault` and `DeskFault`: why a search failed, or why a desk wasn't opened.

ghost use Rattle.std.specs.Prelude.{◌≡◌};
ghost use Rattle.gopher_crew.specs.Fault.{search_fault_code, desk_fault_code};

use thiserror::Error;

/// Why a search failed.
#[derive(Clone, Copy, Debug, PartialEq, Eq, Error)]
pub enum SearchFault {
    /// 61: the published version can't be entered.
    #[error("the published version can't be entered")]
    NoEntry,
    /// 90: out of memory.
    #[error("no memory")]
    NoMemory,
}

impl SearchFault {
    /// Returns the number of the fault: 61 or 90.
    pub fn code(self) -> u8
        ensures { result ≡ search_fault_code self }
    {
        match self {
            SearchFault::NoEntry => 61,
            SearchFault::NoMemory => 90,
        }
    }
}

/// Why a desk wasn't opened.
#[derive(Clone, Copy, Debug, PartialEq, Eq, Error)]
pub enum DeskFault {
    /// 60: the number of passes or of shares isn't 1 to 16.
    #[error("the number of passes or of shares is not 1 to 16")]
    BadCount,
    /// 61: the history can't be entered, or a pass can't enter what is published.
    #[error("the published version can't be entered")]
    NoEntry,
    /// 90: out of memory.
    #[error("no memory")]
    NoMemory,
}

impl DeskFault {
    /// Returns the number of the fault: 60, 61 or 90.
    pub fn code(self) -> u8
        ensures { result ≡ desk_fault_code self }
    {
        match self {
            DeskFault::BadCount => 60,
            DeskFault::NoEntry => 61,
            DeskFault::NoMemory => 90,
        }
    }
}
