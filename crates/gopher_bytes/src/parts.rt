//! The ranges of lists whose items are packed in one list, from the end of each: `range_at`,
//! `span_at`.

ghost use Rattle.std.specs.Prelude.{◌≡◌, ℕ, ◌<◌, ◌≤◌, length, slice_index};
ghost use Rattle.gopher_bytes.specs.Parts.{AreEnds, start_at};

/// The most items of all packed lists together, so that each end fits into 32 bits.
pub const MAX_PACKED: usize = 4_294_967_295;

/// Returns the start and the end of the list at `index`, from the ends of all lists.
pub fn range_at(ends: &[u32], index: usize) -> (usize, usize)
    requires { index < length ends.now }
    ensures start { result.0 ≡ start_at 0 ends.now index }
    ensures end { result.1 ≡ slice_index ends.now index }
    ensures forward { (limit : ℕ) → AreEnds 0 ends.now limit → result.0 ≤ result.1 }
    ensures within { (limit : ℕ) → AreEnds 0 ends.now limit → result.1 ≤ limit }
{
    (start_of(ends, index), ends[index] as usize)
}

// The start of the list at an index, or the end of all if there are as many.
fn start_of(ends: &[u32], index: usize) -> usize
    requires { index ≤ length ends.now }
    ensures { result ≡ start_at 0 ends.now index }
{
    if index == 0 {
        0
    } else {
        ends[index - 1] as usize
    }
}

/// Returns the start and the end of the lists from index `start` up to, not including, `end`, from
/// the ends of all lists.
pub fn span_at(ends: &[u32], start: usize, end: usize) -> (usize, usize)
    requires forward { start ≤ end }
    requires within { end ≤ length ends.now }
    ensures start { result.0 ≡ start_at 0 ends.now start }
    ensures end { result.1 ≡ start_at 0 ends.now end }
    ensures forward { (limit : ℕ) → AreEnds 0 ends.now limit → result.0 ≤ result.1 }
    ensures within { (limit : ℕ) → AreEnds 0 ends.now limit → result.1 ≤ limit }
{
    (start_of(ends, start), start_of(ends, end))
}
