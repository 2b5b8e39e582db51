//! `Hit`: a page that a search found, with its title and score.

use gopher_item::{ByteString, Place};

/// A page that a search found.
#[derive(Debug, Drop)]
pub struct Hit {
    /// The place that the page was fetched from.
    pub place: Place,
    /// The title of the page, at most 69 bytes.
    pub title: ByteString,
    /// How often the words of the terms without `not` occur in the page. A word of two terms counts
    /// twice.
    pub score: u64,
}
