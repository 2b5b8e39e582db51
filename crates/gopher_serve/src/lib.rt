//! What a server sends to a client, from the bytes of the request line to those of the reply: the
//! kept replies of a tree, menus of hits, and conversations.
//!
//! No socket appears here. A conversation reads from any reader and writes to any writer. Over
//! streams that never block it is a state machine: `converse` goes on until a call would block, or
//! until others should be served first.
//!
//! The crates above use three contracts. Each reply of a tree is the one that `Tree::reply` makes
//! (RFC 1436, section 2). The bytes of a search's reply are decided when the search begins. A
//! client receives exactly the reply to its first line, and nothing before that line's end; if the
//! conversation breaks, it has received a prefix of the reply.
//!
//! Error 90 (`NoMemory`) means out of memory. `Replies::new` returns its arguments in the error.
//! Calls that can't fail with it allocate nothing.
#![tactic(auto)]

mod advancing;
mod answer;
mod conversation;
mod conversing;
mod fault;
mod hits;
mod kept;
pub mod laws;
mod replies;

pub use advancing::{Progress, advance};
pub use answer::{Answer, Answers};
pub use conversation::Conversation;
pub use conversing::converse;
pub use fault::ServeFault;
pub use hits::hits_menu;
pub use replies::{Replies, RepliesRefused};
