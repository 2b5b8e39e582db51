//! Bytes: owned, packed in lists, cut into lines and fields, trimmed and read as numbers.
//!
//! Contracts see a `ByteString` as the list of its bytes, and a `ByteStrings` as the list of its
//! strings. The crates above also keep packed lists of their own: they use the definitions of
//! `specs/Parts.antt` and the ranges of `range_at` and `span_at`. Their binary search is
//! `first_index`.
//!
//! Error 90 (`NoMemory`, or `AllocError` in calls that have no other error) means out of memory. A
//! public call that fails with it leaves its arguments unchanged. Calls that can't fail with it
//! allocate nothing.
//!
//! Library API that only tests and benchmarks here call: `lines` and `ByteString::into_vec`.
#![tactic(auto)]

mod byte_string;
mod byte_strings;
mod fault;
mod line;
mod number;
mod parts;
mod search;
mod split;
mod trim;

pub use byte_string::ByteString;
pub use byte_strings::ByteStrings;
pub use fault::NoMemory;
pub use line::{MAX_LINE, first_line, is_last_line, lines};
pub use number::read_number;
pub use parts::{MAX_PACKED, range_at, span_at};
pub use search::first_index;
pub use split::split_once;
pub use trim::trim_spaces;
