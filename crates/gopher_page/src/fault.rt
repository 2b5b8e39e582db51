//! `QueryFault`: why a text isn't a query, with the numbers.

ghost use Rattle.std.specs.Prelude.{◌≡◌};
ghost use Rattle.gopher_page.specs.Query.{query_fault_code};

use gopher_item::NoMemory;
use thiserror::Error;

/// Why a text isn't a query.
#[derive(Clone, Copy, Debug, PartialEq, Eq, Error)]
pub enum QueryFault {
    /// 40: the text contains no word.
    #[error("the query has no words")]
    NoWords,
    /// 90: out of memory.
    #[error("no memory")]
    NoMemory,
}

impl QueryFault {
    /// The number of the fault: 40 or 90.
    pub fn code(self) -> u8
        ensures { result ≡ query_fault_code self }
    {
        match self {
            QueryFault::NoWords => 40,
            QueryFault::NoMemory => 90,
        }
    }
}

impl From<NoMemory> for QueryFault {
    ghost use Rattle.gopher_page.specs.declared.fault.QueryFault.{QueryFault};

    ghost from_gives = { λ _ fault. fault ≡ QueryFault.NoMemory };

    fn from(_refused: NoMemory) -> QueryFault {
        QueryFault::NoMemory
    }
}
