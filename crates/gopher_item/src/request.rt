//! `Request`, `RequestFault`: reading a request line (`read_request`).

ghost use Rattle.std.specs.Prelude.{◌≡◌};
ghost use Rattle.gopher_item.specs.Request.{ReadsRequest, request_fault_code};

use crate::fields::is_selector;
use crate::item::field;
use gopher_bytes::{ByteString, MAX_LINE, NoMemory};
use std::alloc::Global;
use thiserror::Error;

/// A request of a client (RFC 1436, sections 2 and 3.7).
#[derive(Debug, Drop, PartialEq, Eq)]
pub struct Request {
    /// The selector; empty for the top menu.
    pub selector: ByteString,
    /// The search string, if the line contains a TAB.
    pub search: Option<ByteString>,
}

/// Why a line isn't a request.
#[derive(Clone, Copy, Debug, PartialEq, Eq, Error)]
pub enum RequestFault {
    /// 2: the selector has over 255 bytes, or contains a CR, LF or NUL.
    #[error("the selector is too long or holds a special byte")]
    BadSelector = 2,
    /// 7: the line has over 1,024 bytes.
    #[error("the line is too long")]
    LineTooLong = 7,
    /// 90: out of memory.
    #[error("no memory")]
    NoMemory = 90,
}

impl RequestFault {
    /// The number of the fault: 2, 7 or 90.
    pub fn code(self) -> u8
        ensures { result ≡ request_fault_code self }
    {
        self as u8
    }
}

impl From<NoMemory> for RequestFault {
    ghost use Rattle.gopher_item.specs.declared.request.RequestFault.{RequestFault};

    ghost from_gives = { λ _ fault. fault ≡ RequestFault.NoMemory };

    fn from(_refused: NoMemory) -> RequestFault {
        RequestFault::NoMemory
    }
}

/// Reads a request line, without its CR LF (RFC 1436, section 2, and appendix: Full-Text Search
/// Transaction).
///
/// The selector ends at the first TAB, the search string at the second; the rest, which Gopher+
/// clients send, is ignored.
///
/// # Errors
///
/// The first fault in this order:
/// - `LineTooLong` (7): the line has over 1,024 bytes (`MAX_LINE`), a limit of this profile
/// - `BadSelector` (2): the selector has over 255 bytes, or contains a CR, LF or NUL
/// - `NoMemory` (90)
pub fn read_request(alloc: Global, line: &[u8]) -> Result<Request, RequestFault>
    ensures { ReadsRequest line.now result }
{
    if line.len() > MAX_LINE {
        return Err(RequestFault::LineTooLong);
    }
    let (selector, rest) = field(line);
    if !is_selector(selector) {
        return Err(RequestFault::BadSelector);
    }
    let selector = ByteString::from_slice(alloc, selector)?;
    let search = match rest {
        Some(rest) => Some(ByteString::from_slice(alloc, field(rest).0)?),
        None => None,
    };
    Ok(Request { selector, search })
}
