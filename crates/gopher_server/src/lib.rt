//! A server thread. It accepts connections at all listeners and converses with clients over sockets
//! that never block. When all places are taken, it closes a connection that has asked nothing, or
//! else the one that was idle longest.
//!
//! Searches that take long are done in steps. While their queue isn't empty, a thread doesn't wait
//! for events: in each round it handles all events first, then works for about a millisecond on the
//! first search of the queue. The others hold only their lines, and begin when they are the first.
//!
//! The system resets a connection whose reply is cut: because the process ends, because all places
//! are taken, or because memory runs out. So the client doesn't take a part for the whole. For that
//! the request stays in the system's queue until the system has the whole reply (`request_reader`).
//!
//! Contracts here say what an error of accept(2) means, how the clock counts, that a failed thread
//! accepts nothing more, and that a connection takes its request out of that queue exactly when its
//! reply is whole; otherwise only that calls are safe. `gopher_serve` promises what a client
//! receives. Contracts of `decisions` say what the thread decides: how long it waits for events,
//! when it accepts, which connection is closed for room, how many connections a network has, and
//! which search is next. Contracts of `logging` say what a line of the log is, when a request is
//! dropped, and which bytes of it are written.
#![tactic(auto)]

mod acceptor;
mod connection;
mod decisions;
mod logging;
mod messages;
mod request_reader;
mod send_buffer;
mod server;
mod setup;
mod thread_clock;
mod waiting;

pub use acceptor::MAX_LISTENERS;
pub use logging::{Log, LogQueue, OpenLog, end_log, start_log};
pub use messages::{MessageStream, Messages, start_messages};
pub use send_buffer::limit_send_buffers;
pub use server::{ThreadEnd, serve};
pub use setup::{ServerSetup, ThreadSetup, max_connections, set_up};
