//! `OpenFault`, `FoundFault`, `FailRefused`: why a step is refused, with the numbers.

ghost use Rattle.std.specs.Prelude.{◌≡◌};
ghost use Rattle.gopher_catalogue.specs.Fault.{open_fault_code, found_fault_code};

use gopher_item::{Place, Scope};
use gopher_page::Page;
use thiserror::Error;

/// Why a catalogue could not be opened.
#[derive(Clone, Copy, Debug, PartialEq, Eq, Error)]
pub enum OpenFault {
    /// 50: the scope doesn't allow the seed at this index.
    #[error("seed {0} is out of scope")]
    SeedOutOfScope(usize),
    /// 51: the limit of places isn't 1 to 65,536.
    #[error("the number of places isn't 1 to 65536")]
    BadPlaces,
    /// 54: the number of tries isn't 1 to 5.
    #[error("the number of tries isn't 1 to 5")]
    BadTries,
    /// 90: out of memory.
    #[error("no memory")]
    NoMemory,
}

impl OpenFault {
    /// The number of the fault: 50, 51, 54, or 90.
    pub fn code(self) -> u8
        ensures { result ≡ open_fault_code self }
    {
        match self {
            OpenFault::SeedOutOfScope(_) => 50,
            OpenFault::BadPlaces => 51,
            OpenFault::BadTries => 54,
            OpenFault::NoMemory => 90,
        }
    }
}

/// The error of `Catalogue::open`, with the arguments that it took.
#[derive(Debug, Drop, Error)]
#[error("{fault}")]
pub struct OpenRefused {
    /// Why the call failed.
    pub fault: OpenFault,
    /// The scope that was passed in.
    pub scope: Scope,
    /// The seeds that were passed in.
    pub seeds: Vec<Place>,
}

/// Why a page could not be recorded.
#[derive(Clone, Copy, Debug, PartialEq, Eq, Error)]
pub enum FoundFault {
    /// 52: the number isn't out.
    #[error("the place is not out")]
    NotOut,
    /// 53: the page is of another place than the number.
    #[error("the page is of another place")]
    WrongPlace,
    /// 90: out of memory.
    #[error("no memory")]
    NoMemory,
}

impl FoundFault {
    /// The number of the fault: 52, 53, or 90.
    pub fn code(self) -> u8
        ensures { result ≡ found_fault_code self }
    {
        match self {
            FoundFault::NotOut => 52,
            FoundFault::WrongPlace => 53,
            FoundFault::NoMemory => 90,
        }
    }
}

/// The error of `Catalogue::found`, with the page that it took.
#[derive(Debug, Drop, Error)]
#[error("{fault}")]
pub struct FoundRefused {
    /// Why the call failed.
    pub fault: FoundFault,
    /// The page that was passed in.
    pub page: Page,
}

/// The error of `Catalogue::fail`: the number isn't out.
#[derive(Clone, Copy, Debug, PartialEq, Eq, Error)]
#[error("the place is not out")]
pub struct FailRefused;

impl FailRefused {
    /// The number of the fault, 52.
    pub fn code(self) -> u8
        ensures { result ≡ 52 }
    {
        52
    }
}
