//! A desk at which workers crawl one catalogue together, and passes that search its snapshots.
//!
//! The crates above rely on three contracts. Each call at a desk is a step of one sequential
//! catalogue. A search answers from one legal record that begins with everything the same pass saw
//! before. The workers of a crawl keep the parts of their shares, so that the desk can be closed.
//!
//! # Words
//!
//! The *record* is the list of a crawl's events. A *record prefix* (`RecordPrefix`) is a token that
//! the record begins with certain events. The *history* is the record as the crate `logbook` keeps
//! it in proofs: one list that only grows. It may lag behind the record, hence a second name. A
//! *crew* (`Crew`) is a type by which contracts name one desk and all that belongs to it. A *blank*
//! (`Blank`) is what a desk is opened with: a ledger that counts nothing yet, and an empty history.
//! The *rule* of a desk (`Admits`) says which outcomes a place may have. A caller that adds one
//! proves that the rule admits it, so each outcome in the record of a closed desk is admitted.
//!
//! # The way of a found page
//!
//! The picture `docs/found.svg` shows it. A worker claims a place under the desk's lock. It fetches
//! the place while it holds no lock, and makes its page without the desk's: under a limit of memory
//! it first waits for room (`PageMemory`). Behind the desk's lock again, `Kept` adds the event to
//! the catalogue and counts it for the worker's share. The publication enters the event into the
//! history, and makes an `Update` of the events since the published record. Its writer
//! (`left_right`) keeps two copies: readers use one while the writer changes the other, and each
//! update is applied to both. An update changes no pages, adds one page, or replaces all pages by
//! those of an index if segments were merged since. Then the fetcher is told (`Fetch::recorded`).
//!
//! If a publication runs out of memory, its update waits, and the next publication publishes it
//! first. So at most one update waits, however often memory runs out. The desk counts each failed
//! publication (`Desk::published`). The reply of that call has no note, and its share counts it
//! (`Share::missed`). So what is published is the whole record if nothing failed.
//!
//! A search shares the published `Version` and leaves at once, so a long search doesn't delay a
//! publication.
//!
//! # Merging
//!
//! Before a worker claims, it takes one run of pages that is due to be merged (`MergeJob`), merges
//! it without the lock, puts the segment in their place, and publishes it. The pages are still in
//! the index, because the record has only grown since. The job has the token of its record to prove
//! it.
//!
//! # Tokens
//!
//! Desks, versions, notes, passes, shares and merge jobs have a `RecordPrefix`. Only its length
//! exists in the program. Of two prefixes of one history, the shorter is a prefix of the longer. So
//! a pass compares two numbers to know that a version isn't older than what it saw. A share has the
//! token of the record that the last reply to its holder was on, so each reply names its record. A
//! desk has that of the record it was opened with. The word of the history, behind the lock, is the
//! history's length (`Head`).
//!
//! The history also has the maker of each event, the number of the share by which it was added. So
//! no claim is handed to two workers (`laws::no_event_has_two_makers`).
//!
//! # One record
//!
//! `Desk::close` returns a catalogue whose record begins with what each share saw. `Pass::tell`
//! tells a share what a pass was told. So the record of a closed catalogue begins with that of each
//! reply and of each search. `search_and_close` of the crate `example_crawl` proves this for two
//! searches, from public contracts.
//!
//! # Files
//!
//! | subject | files |
//! |---|---|
//! | opening and closing a desk | `desk`; in `desk/`: `blank`, `opening`, `closing`, `refusals` |
//! | calls of a desk, behind its lock | `desk`; in `desk/`: `kept`, `outcomes`, `share` |
//! | workers | `working`; in `working/`: `crawling`, `fetch`, `settling`, `memory` |
//! | merging | in `working/`: `merging`, `merge_job`; `Kept::merge_job`, `Desk::merge_due` |
//! | publishing | `publication`; in `publication/`: `update`, `version` |
//! | history and tokens | in `publication/`: `history`, `entering`, `record_prefix`, `note` |
//! | searching | `pass` |
//! | names and faults | `crew`, `fault` |
//!
//! # Opening a desk
//!
//! `Desk::open` takes a new `Blank`. Its two conditions say that the crew type `C` has the blank's
//! names, and that nothing of another crawl was entered into its history. A caller chooses `Brand`
//! as `C` and a fresh `Blank::new()`; then both hold. The crate `example_crawl` shows it.
//!
//! `Note`, `Pass::hear` and `Catalogue`'s `Book` are for callers of the library: no program here
//! uses them.
//!
//! # Errors
//!
//! `NoMemory` (90) means out of memory. The desk, its record and what is published are then as
//! before.
#![tactic(auto)]

mod crew;
mod desk;
mod fault;
pub mod laws;
mod pass;
mod publication;
mod working;

pub use crew::{Admits, Crew};
pub use desk::Desk;
pub use desk::blank::Blank;
pub use desk::outcomes::Outcomes;
pub use desk::refusals::{CloseRefused, DeskRefused};
pub use desk::share::Share;
pub use fault::{DeskFault, SearchFault};
pub use pass::{Answer, Pass};
pub use publication::Published;
pub use publication::note::Note;
pub use working::crawling::{CrawlRefused, crawl};
pub use working::fetch::{Calls, Fetch};
pub use working::settling::settle;
pub use working::{Stop, WorkEnd, work};
