//! What a server thread decides: what it does next with a connection, which one is closed for room,
//! which are past their deadline, whose search is next, how long it may wait for events, when it
//! accepts and when it wakes the other threads, how many connections the server may hold, how many
//! of one network, how many it still accepts, how much of a request the system still holds, and
//! when it says how many connections it closed for room.
//!
//! No socket, thread or clock appears here: a connection is whatever the server keeps, and times
//! are numbers. The server uses these contracts: a key returns the connection that was taken in at
//! it, the one closed for room is the one touched least recently of those that have asked nothing
//! if there are any, no connection ends before its deadline, searches are served first in, first
//! out, a connection that ends leaves the queue, a thread waits no longer than until its next work,
//! and one that stops accepting hands over to the others.
//!
//! Error 90 (`AllocError`) means out of memory, and leaves everything unchanged. Calls that can't
//! fail with it allocate nothing.

mod accepting;
mod clients;
mod closings;
mod held;
mod next;
mod places;
mod unread;
mod waits;

pub use accepting::{
    AcceptDuty, AcceptEvent, AcceptFailure, Accepting, FIRST_LISTENER, WAKER, failure_of,
    listeners_at,
};
pub use clients::{Clients, network_of};
pub use closings::Closings;
pub use held::Held;
pub use next::Next;
pub use places::{Places, max_of_network, max_places};
pub use unread::unread_after;
pub use waits::longest_wait;
