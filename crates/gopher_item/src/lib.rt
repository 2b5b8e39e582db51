//! The items of Gopher (RFC 1436): places, menus and requests, read from bytes and written to
//! bytes; and the scope of a crawl, which says which places it may visit.
//!
//! The crates above use these contracts: `first_entry`, `read_menu` and `read_request` return what
//! `FindsFirstEntry`, `ReadsMenu` and `ReadsRequest` define (`specs/EntryParts.antt`,
//! `specs/Menu.antt`, `specs/Request.antt`), `read_menu` reads a written menu back as the same
//! lines, and a `Place` or a `MenuLine` has only valid parts. `Scope::allows` returns what `allows`
//! defines (`specs/Scope.antt`).
//!
//! Error 90 (`NoMemory`, or `AllocError` in calls that have no other error) means out of memory.
//! Unless its comment says otherwise, a public call that fails with it leaves its arguments
//! unchanged. Calls that can't fail with it allocate nothing.
//!
//! Byte strings, lines, numbers and `NoMemory` are those of gopher_bytes.
//!
//! RFC 1436 doesn't define crawls: their rules are this profile's.
//!
//! Library API that only tests and benchmarks here call: `read_menu`, `write_menu`.
#![tactic(auto)]

mod entry_parts;
mod fault;
mod fields;
mod home;
mod item;
mod limits;
mod menu;
mod menu_line;
mod menu_line_parts;
mod place;
mod places;
mod request;
mod rule;
mod scope;
mod writing;

pub use entry_parts::{EntryParts, first_entry};
pub use fault::ItemFault;
pub use fields::{address_fault, has_special, is_control, is_host, is_selector, lowered_host};
pub use gopher_bytes::{
    ByteString, ByteStrings, MAX_LINE, NoMemory, first_line, lines, read_number, split_once,
    trim_spaces,
};
pub use home::Home;
pub use limits::{MAX_HOST, MAX_PLACES, MAX_PORT, MAX_SELECTOR, MAX_TRIES};
pub use menu::{Entry, Menu, read_menu};
pub use menu_line::{MenuLine, is_bad_type};
pub use menu_line_parts::MenuLineParts;
pub use place::Place;
pub use places::{EachPlace, PlaceParts, Places};
pub use request::{Request, RequestFault, read_request};
pub use rule::Rule;
pub use scope::Scope;
pub use writing::{push_front, push_last_line, push_menu_line, push_server, write_menu};
