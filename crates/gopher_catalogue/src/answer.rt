//! `Turn`, `Claim`: the result of a claim.

use gopher_item::Place;
use std::sync::Arc;

/// A claimed place, ready to be fetched.
#[derive(Debug, Drop)]
pub struct Claim {
    /// The number of the place, which `found` and `fail` expect.
    pub number: u32,
    /// The place.
    pub place: Arc<Place>,
}

/// The result of a claim.
#[derive(Debug, Drop)]
pub enum Turn {
    /// The first waiting place, which is now out.
    Take(Claim),
    /// No place waits, but some are out: their outcomes may add more.
    Idle,
    /// No place waits and none is out: the crawl is finished.
    Finished,
}
