//! The log of a server: lines for requests (`Batch`), as server threads fill it (`ThreadLog`), and
//! a thread of its own that writes it (`start_log`).
//!
//! A server thread gathers lines and hands them on in batches. It never waits for the file: if 64
//! batches wait, it keeps its lines, and counts those for which it has no room. The thread that
//! writes sleeps while there is nothing to write.
//!
//! Contracts say what a line is, and which bytes are written. `Batch::add`, `tell_dropped` and
//! `take` change a batch as `AddsRequestTo`, `with_told` and `no_lines` define
//! (`specs/Batch.antt`), so each line of a batch is whole. It is of one request as it was passed,
//! or of the number of dropped requests. Each write takes the first of the bytes that remain, no
//! byte is written twice or left out, and a batch that the queue or the file refuses stays whole.
//! Contracts know no files, clocks or channels, so the thread itself is only tested.
//!
//! Error 90 (`NoMemory`) means out of memory, and leaves a batch unchanged unless a call says
//! otherwise. Calls that can't fail with it allocate nothing. RFC 1436 doesn't define a log: this
//! profile does.

mod batch;
mod queue;
mod request_line;
mod rests;
mod thread_log;
mod writer;

pub use queue::LogQueue;
pub use request_line::search_of;
pub use thread_log::{Accepted, RequestEnd, ThreadLog};
pub use writer::{Log, OpenLog, end_log, start_log};
