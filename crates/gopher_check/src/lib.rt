//! What readers of a site will find: the site's own crawl in memory, what that crawl reaches, and
//! warnings of menus, texts, seeds and rules.
//!
//! No socket appears here. The crawl asks the site's tree for replies, as the server would answer
//! its own crawler.
//!
//! The crate above uses these contracts. The crawl's record agrees with the table of the site's
//! replies without the bytes of texts, which have no links (`specs/Crawl.antt`), and what counts as
//! reached are the pages that the crawl found
//! (`specs/Coverage.antt`). `laws` says what both mean together if the crawl dropped nothing.
//!
//! Warnings are data: which there are, and of which path, line, seed or rule, is defined by the
//! tree's files and the settings (`specs/MenuWarning.antt`, `specs/TextWarning.antt`,
//! `specs/Script.antt`, `specs/CrawlWarning.antt`). No contract speaks of their words, which stand
//! in `words` and `survey`, nor of who may execute a script (`programs`).
//!
//! Error 90 (`NoMemory`) means out of memory.
#![tactic(auto)]

mod coverage;
mod crawl;
mod crawl_warning;
pub mod laws;
mod menu_warning;
mod reach;
mod script;
mod survey;
mod text_warning;
mod words;

pub use coverage::{Coverage, Unreached, coverage_of};
pub use crawl::crawl_site;
pub use crawl_warning::{CrawlWarning, RuleMistake, SeedMistake, crawl_warnings};
pub use menu_warning::{MenuMistake, MenuWarning, menu_warnings};
pub use reach::Reason;
pub use script::{programs, scripts};
pub use survey::{Survey, survey_site};
pub use text_warning::{TextMistake, TextWarning, text_warnings};
