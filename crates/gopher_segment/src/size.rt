//! `Size`: how large a segment is, and whether one can be as large.

ghost use Rattle.std.specs.Prelude.{◌≡◌, ◌+◌, ◌-◌, ◌^◌, length, min};
ghost use Rattle.gopher_segment.specs.Segment.{segment_fits};

use crate::segment::Segment;
use gopher_bytes::MAX_PACKED;

// The most pages of a segment.
const MAX_PAGES: usize = 16_384;

// The most postings of a segment that was merged from others. A step of a search goes through the
// postings of one segment at most.
const MAX_POSTINGS: usize = 8_388_608;

/// The size of a segment: its pages, the bytes of the words in its table, and its postings. The
/// words of its large pages count as postings.
#[derive(Clone, Copy, Debug, Default)]
pub struct Size {
    /// The number of pages.
    pub pages: usize,
    bytes: usize,
    postings: usize,
}

impl Size {
    /// Returns the size of a segment.
    pub fn of(segment: &Segment) -> Size
        ensures { result.pages ≡ length segment.now.pages }
    {
        Size {
            pages: segment.pages().len(),
            bytes: segment.table().bytes_len(),
            postings: segment
                .table()
                .postings_len()
                .saturating_add(segment.large_words()),
        }
    }

    /// Returns the most that two segments have when merged; each sum is at most `usize::MAX`.
    pub fn with(self, other: Size) -> Size
        ensures { result.pages ≡ min (self.pages + other.pages) (2 ^ 64 - 1) }
    {
        Size {
            pages: self.pages.saturating_add(other.pages),
            bytes: self.bytes.saturating_add(other.bytes),
            postings: self.postings.saturating_add(other.postings),
        }
    }

    /// Returns whether a segment can have this size: at most 16,384 pages (`MAX_PAGES`),
    /// 4,294,967,295 bytes of words (`MAX_PACKED`) and 8,388,608 postings (`MAX_POSTINGS`).
    pub fn fits(self) -> bool
        ensures { result ≡ segment_fits self.pages self.bytes self.postings }
    {
        self.pages <= MAX_PAGES && self.bytes <= MAX_PACKED && self.postings <= MAX_POSTINGS
    }
}
