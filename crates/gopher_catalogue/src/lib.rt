//! The sequential catalogue of a crawl: its record of events, its frontier, and searches of its
//! pages.
//!
//! The crates above use one contract. Each call of `Catalogue` is one step of the sequential
//! catalogue from the record before to the record after, every record is legal, and a search covers
//! all pages that the record found. `specs/Step.antt` defines the steps, `specs/Legal.antt` the
//! legal records.
//!
//! Error 90 (`NoMemory`) means out of memory. A call that fails with it changes nothing, and its
//! error contains the arguments that the call took. Calls that can't fail with 90 allocate nothing,
//! except `install` and `settle`, which put off a merge when out of memory.
//!
//! RFC 1436 doesn't define crawls and leaves search results to the server: this profile defines
//! both.
//!
//! Library API that only tests here call: `Book`, a searchable copy of a record, and
//! `Catalogue::is_finished` and `Catalogue::places`.
#![tactic(auto)]

mod answer;
mod archive;
mod book;
mod catalogue;
pub mod closure;
mod event;
mod fault;
mod frontier;
pub mod laws;
mod opening;

pub use answer::{Claim, Turn};
pub use book::Book;
pub use catalogue::Catalogue;
pub use event::{Event, EventData, Why};
pub use fault::{FailRefused, FoundFault, FoundRefused, OpenFault, OpenRefused};
pub use frontier::{Added, Status};
pub use gopher_index::{Due, Hit};
pub use opening::Opening;
