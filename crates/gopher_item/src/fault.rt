//! `ItemFault`: why items are refused, with the numbers.

ghost use Rattle.std.specs.Prelude.{◌≡◌};
ghost use Rattle.gopher_item.specs.Fault.{item_fault_code};

use gopher_bytes::NoMemory;
use thiserror::Error;

/// Why parts don't make an item.
#[derive(Clone, Copy, Debug, PartialEq, Eq, Error)]
pub enum ItemFault {
    /// 1: the type of a place isn't `0` or `1`.
    #[error("the type of a place is neither 0 nor 1")]
    BadKind = 1,
    /// 2: a selector or a prefix of selectors has over 255 bytes, or contains a TAB, CR, LF or NUL.
    #[error("the selector is too long or holds a special byte")]
    BadSelector = 2,
    /// 3: a host is empty, has over 255 bytes, or contains a space or a control byte.
    #[error("the host is empty, too long, or holds a space or a control byte")]
    BadHost = 3,
    /// 4: a port is 0.
    #[error("the port is 0")]
    BadPort = 4,
    /// 5: a display string contains a TAB, CR, LF or NUL.
    #[error("the display string holds a special byte")]
    BadDisplay = 5,
    /// 6: the type of a menu line is a control byte, a space or a period.
    #[error("the type is a control byte, a space or a period")]
    BadType = 6,
    /// 90: out of memory.
    #[error("no memory")]
    NoMemory = 90,
}

impl ItemFault {
    /// The number of the fault: 1 to 6, or 90.
    pub fn code(self) -> u8
        ensures { result ≡ item_fault_code self }
    {
        self as u8
    }
}

impl From<NoMemory> for ItemFault {
    ghost use Rattle.gopher_item.specs.declared.fault.ItemFault.{ItemFault};

    ghost from_gives = { λ _ fault. fault ≡ ItemFault.NoMemory };

    fn from(_refused: NoMemory) -> ItemFault {
        ItemFault::NoMemory
    }
}
