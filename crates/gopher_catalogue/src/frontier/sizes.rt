//! `Status`, `Added`: the counts of a frontier, and what a page adds to them.

/// What a page adds to the frontier.
#[derive(Clone, Copy, Debug, PartialEq, Eq)]
pub struct Added {
    /// The number of places that became known.
    pub fresh: u32,
    /// The number of dropped mentions: of unknown places, after the limit of places was reached.
    pub dropped: u32,
}

/// The counts of a frontier.
#[derive(Clone, Copy, Debug, PartialEq, Eq)]
pub struct Status {
    /// The number of known places.
    pub known: u32,
    /// The number of places that wait to be claimed.
    pub waiting: u32,
    /// The number of places that were claimed and have no outcome yet.
    pub out: u32,
    /// The number of places that were found, or failed at their last try.
    pub done: u32,
    /// The number of dropped mentions: of unknown places, after the limit of places was reached.
    pub dropped: u64,
}
