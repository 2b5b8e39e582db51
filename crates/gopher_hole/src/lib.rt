//! The program `hole` as a library: a server that crawls and answers, and crawls replayed from
//! scripts.
//!
//! `run` is the whole program, from its arguments to its exit status. For callers of its parts, the
//! crate also has `answer` and `serve_one` (the reply to a request line), `fetch_over` and
//! `TcpFetch` (fetching from other servers) and `replay` (replaying the script of a crawl). It
//! hands on the types that these calls take and return, and those with which a pass is made.
//!
//! `answer`, `answer_kept` and `answer_aliased` return replies as `specs/Answer.antt` defines them,
//! and `fetch_over` fetches as `specs/Fetch.antt` says. The other contracts of this crate cover the
//! program's status and what it writes. `gopher_serve` says how much of a reply a client receives,
//! and `gopher_crew` what a crawl leaves.
//!
//! Error 90 (`NoMemory`) means out of memory.
#![tactic(auto)]

mod aliases;
mod announcing;
mod arguments;
mod checking;
mod crewing;
mod failures;
mod fault;
mod fetching;
pub mod laws;
mod listening;
mod opening;
mod program;
mod progress;
mod site;
mod starting;

pub use aliases::{AliasFault, Aliases};
pub use crewing::System;
pub use fault::{Detail, ProgramFault};
pub use fetching::{TcpFetch, fetch_over};
pub use gopher_catalogue::{Catalogue, OpenFault, OpenRefused, Why};
pub use gopher_crew::{Blank, Calls, Crew, Desk, DeskFault, DeskRefused, Fetch, Pass, Share};
pub use gopher_item::{Home, ItemFault, NoMemory, Place};
pub use gopher_scope::{Key, Rule, Scope, SettingsFault};
pub use gopher_script::{ReplayFault, replay};
pub use gopher_serve::{Answer, Answers, Replies, RepliesRefused, ServeFault};
pub use gopher_server::OpenLog;
pub use gopher_text::{MAX_REPLY, Watched};
pub use gopher_tree::{Trail, Tree, TreeFault};
pub use program::run;
pub use site::{Site, answer, answer_aliased, answer_kept, serve_one};
