//! `Outcomes`: how many places are in each state, and how many pages were found.

use gopher_catalogue::Status;

/// How many places of a record are in each state, and how many pages it found. So
/// `status.done - found` places failed at their last try.
#[derive(Clone, Copy, Debug, PartialEq, Eq)]
pub struct Outcomes {
    /// The number of places in each state.
    pub status: Status,
    /// The number of pages found.
    pub found: u64,
}
