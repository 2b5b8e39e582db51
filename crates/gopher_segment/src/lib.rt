//! Consecutive pages with one table of their words and posting lists: the parts of an index.
//!
//! RFC 1436 doesn't say how a search server finds pages: everything here is this profile's.
//!
//! The crates above use these contracts: contracts see a `Segment` as the list of its pages and the
//! number of the first page. `Segment::spread` returns for a word what these pages count, and so
//! does `Segment::postings` if no page is large (`specs/Segment.antt`).
//!
//! Pages have consecutive numbers. A table has a row for each word: the word and its run, which is
//! its list of postings. The words of large pages aren't in the table; they are found in the pages
//! (`large`). A word is found by binary search, which the leading numbers of some words narrow: the
//! first eight bytes of each 64th word.
//!
//! Error 90 (`NoMemory`) means out of memory. Unless its comment says otherwise, a public call that
//! fails with it leaves its arguments unchanged. Calls that can't fail with it allocate nothing.
#![tactic(auto)]

mod gathering;
mod joining;
mod large;
mod merging;
mod postings;
mod ranks;
mod row;
mod runs;
mod segment;
mod sharing;
mod size;
mod table;

pub use gathering::rows_len;
pub use postings::Postings;
pub use segment::Segment;
pub use sharing::share;
pub use size::Size;
