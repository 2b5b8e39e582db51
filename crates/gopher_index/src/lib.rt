//! The pages that a crawl found, in segments that snapshots share, and searches over them.
//!
//! The crates above use one contract: an `Index` is the list of its pages, an added page comes
//! last, and a search covers all pages. RFC 1436 doesn't define the results of a search: this
//! profile does.
//!
//! # Pages
//!
//! An index is a list of parts (`part`): segments, and *loose* pages, which `add` appends one by
//! one. A run of parts is due to be merged when it is 64 loose pages, or four segments of one size
//! (`picking`). Segments have 64 pages, then 256 and so on up to 16,384, or fewer if one can't hold
//! all their words. `due` shares the pages of a run and merges them without the index.
//! `installing` puts the new segment in place of its pages. Runs that are being merged are marked,
//! and several can be merged at once. At 512 loose pages, `add` merges everything that is due
//! itself and forgets all marks. Single-threaded callers call `settle` to merge segments.
//!
//! # Searches
//!
//! `Index::begin` runs a short search to its end (`search`): one of at most four terms whose
//! prefixes go through at most 16,777,216 postings together. Each prefix goes through all postings,
//! and a large page counts as 2,048 for each term. A word without `*` goes through one posting
//! list, which doesn't count. A search groups equal terms (`plan`) and goes through the parts in
//! order. In each it spreads the counts of one group after another over an
//! array with one element for each page, and joins them to the matches and the scores so far
//! (`joined`). A group of `not` and a word goes through the word's posting list, since it changes
//! no other page. For a single word it goes through the posting list instead, and skips blocks of
//! 64 postings that can't reach the best 50, and such postings in other blocks (`by_postings`).
//! Loose pages, and segments with large pages, have no lists, so their counts are spread for a
//! single word too. Pages that reach the lowest of the best scores are inserted among them
//! (`by_cells`, `best`). If a page of that score isn't among them, no page of the segment with that
//! score and a later place is, and the ranks of places in the segment show which these are
//! (`ties`). So most pages of one score are never read.
//!
//! A query has at most as many terms as its line has bytes, 1,024 (`MAX_LINE`). So scores fit in a
//! `u32`, and verdicts in a `u16`.
//!
//! To skip more, a short search first guesses a score that 50 pages reach, from the first segment
//! (`likely`). If fewer than 50 hits reach it, the search runs again without a guess. No contract
//! depends on the guess.
//!
//! Any other search becomes a `Search`, which shares the pages and goes on in steps (`searching`).
//! Its first step groups the terms. Each further step does one of two things. It joins one group in
//! one segment: it goes through at most all postings of the segment, and 2,048 for each of its
//! large pages. A word of a large page counts as a posting. In a loose page it joins all groups. Or
//! it inserts the pages of a part that match among the best.
//!
//! # Errors
//!
//! `NoMemory` (90) means out of memory. The object is then as it was before the call.
#![tactic(auto)]

mod best;
mod by_cells;
mod by_postings;
mod due;
mod hit;
mod index;
mod installing;
mod joined;
mod likely;
mod occurrences;
mod part;
mod picking;
mod plan;
mod search;
mod searching;
mod ties;

pub use due::Due;
pub use hit::Hit;
pub use index::Index;
pub use searching::{Begun, Search};
