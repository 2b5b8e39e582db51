//! Binary search by a test of indices: `first_index`.

ghost use Rattle.std.specs.Prelude.{◌≡◌, ◌-◌, ◌<◌, ◌≤◌, ℕ, true, false};

/// Returns the first index from `start` up to, not including, `end` at which a test holds, or `end`
/// if there is none.
///
/// The search is binary: the test must hold at each index after the first one at which it holds.
/// For any other test, the result is an index at which it holds, or `end`, and it doesn't hold
/// directly before.
pub fn first_index<F: Fn(usize) -> bool>(start: usize, end: usize, holds: F) -> usize
    requires order { start ≤ end }
    requires calls { (index : ℕ) → index < end → F.pre holds index }
    ensures forward { start ≤ result }
    ensures within { result ≤ end }
    ensures before { start < result → F.post holds (result - 1) false }
    ensures here { result < end → F.post holds result true }
{
    let mut low = start;
    let mut high = end;
    while low < high {
        let middle = low + (high - low) / 2;
        if holds(middle) {
            high = middle;
        } else {
            low = middle + 1;
        }
    }
    low
}
