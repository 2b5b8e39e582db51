//! A tree of files and folders, and the replies that a Gopher server sends for it: menus, texts and
//! raw files (RFC 1436).
//!
//! The crates above use one contract: `Tree::reply` returns `tree_reply` (`specs/Reply.antt`),
//! which depends only on the list of files, the server's address and the selector.
//!
//! Error 90 (`NoMemory`) means out of memory. `Tree::of_files` then drops its list; the other calls
//! borrow their arguments. Calls that can't fail with it allocate nothing.
//!
//! Library API that only tests here call: `Tree::of_files`, which makes a tree without a file
//! system.
#![tactic(auto)]

mod fault;
pub mod laws;
mod load;
mod menu_file;
mod reply;
mod tree;

pub use fault::TreeFault;
pub use load::left_out::LeftOut;
pub use load::trail::Trail;
pub use menu_file::{WrittenLine, written_line};
pub use reply::{error_reply, not_found};
pub use tree::{MAX_BYTES, MAX_FILE, MAX_NODES, Node, Tree};
