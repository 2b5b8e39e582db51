//! The replay of a crawl from a script.
//!
//! The crate above uses one contract: `replay` writes the output of its script, `script_output` in
//! `specs/Script.antt`, or a prefix of it if it fails.
//!
//! Error 90 (`NoMemory`) means out of memory. RFC 1436 doesn't define scripts: this profile defines
//! their commands and answers.
#![tactic(auto)]

mod command;
mod crawl;
mod draft;
mod fault;
mod lines;
mod listing;
mod reading;
mod replaying;
mod script;
mod stage;

pub use fault::ReplayFault;
pub use lines::status_line;
pub use replaying::{replay, send_all};
