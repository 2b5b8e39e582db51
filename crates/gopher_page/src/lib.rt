//! Words, queries and pages: what a catalogue keeps of a reply, and what a search looks for.
//!
//! The crates above use two contracts: `Page::of` returns the page that `page_of` defines
//! (`specs/Page.antt`), and a query matches and scores a page by the page's counts alone
//! (`specs/Query.antt`).
//!
//! Error 90 (`NoMemory`) means out of memory. Functions that return no `Result` allocate nothing.
//!
//! RFC 1436 leaves search results to the server: this profile defines words, queries and pages.
#![tactic(auto)]

mod counting;
mod counts;
mod fault;
mod line;
mod links;
mod numbered;
mod page;
mod query;
mod ranking;
mod repeats;
mod search;
mod title;
mod word;

pub use counts::{Counts, EachCount};
pub use fault::QueryFault;
pub use numbered::Numbered;
pub use page::{BYTES_WHILE_MADE, Page};
pub use query::{Operator, Query, Term};
pub use ranking::push_page;
pub use search::range_meant;
pub use title::MAX_TITLE;
pub use word::{MAX_WORD, words};
