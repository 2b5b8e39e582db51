//! Texts of Gopher (RFC 1436), and the bytes that were read from or sent to a stream.
//!
//! The crates above use these contracts: texts are read and written as `specs/Text.antt` defines,
//! and each call on a stream says exactly which bytes it consumed or sent.
//!
//! Error 90 (`NoMemory`) means out of memory. A public call that fails with it leaves the vector to
//! which it appends unchanged. Bytes that a reader consumed stay consumed. Calls that can't fail
//! with it allocate nothing.
//!
//! Library API that only tests and benchmarks here call: `read_text` and `write_text`.
#![tactic(auto)]

mod fault;
mod line_reader;
mod reading;
mod reply_reader;
mod sending;
mod text;
mod watched;
mod writing;

pub use fault::{LineFault, ReplyFault, SendFault};
pub use line_reader::read_line_from;
pub use reply_reader::{MAX_REPLY, read_reply};
pub use sending::send;
pub use text::{Text, first_text_line, read_text};
pub use watched::Watched;
pub use writing::{write_text, write_text_of};
