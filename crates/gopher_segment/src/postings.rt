//! The postings of a word, for searches.

/// The posting list of a word: the numbers of the pages that contain it, with its counts.
///
/// A posting counts at most 255. A page with a higher count has several postings in sequence.
#[derive(Debug, Drop)]
pub struct Postings<'a> {
    /// The number of the segment's first page.
    pub first: usize,
    /// The page number of each posting, in ascending order.
    pub numbers: &'a [u16],
    /// The count of each posting.
    pub counts: &'a [u8],
}
