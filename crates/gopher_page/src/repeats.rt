//! `Repeats`: a list of counts, most of them below 256.

ghost use Rattle.std.specs.Prelude.{◌≡◌, ◌+◌, ◌*◌, ◌<◌, ◌≤◌, Some, [], ◌∷◌, ◌++◌, ◌-◌, length, take, drop, slice_get, IfOk, OnOk};
ghost use Rattle.std.specs.List.{sum};
ghost use Rattle.gopher_item.specs.Places.{IsSum};
ghost use Rattle.gopher_page.specs.Packed.{len_to_last};

use gopher_item::NoMemory;
use gopher_text::MAX_REPLY;
use std::alloc::Global;
use std::marker::Model;

/// Counts of at most 1,048,576 (`MAX_REPLY`), with one byte for each.
///
/// Each count up to the last one of 256 or more takes two bytes more.
#[derive(Debug, Drop)]
pub struct Repeats {
    low: Vec<u8>,
    high: Vec<u16>,
}

impl Model for Repeats {
    ghost use Rattle.std.specs.Prelude.{ℕ, List};

    ghost Value = { List ℕ };

    ghost use Rattle.gopher_page.specs.Packed.{joined_parts, AreParts};

    ghost view = { λ r. joined_parts 256 r.low.items r.high.items };

    ghost invariant = { λ r. AreParts 256 r.low.items r.high.items };
}

fn sum_of_bytes(counts: &[u8]) -> u32
    requires { sum counts.now ≤ MAX_REPLY }
    ensures { result ≡ sum counts.now }
{
    let mut total = 0;
    for count in counts {
        total += u32::from(*count);
    }
    total
}

fn sum_of_pairs(counts: &[u16]) -> u32
    requires { sum counts.now ≤ MAX_REPLY }
    ensures { result ≡ sum counts.now }
{
    let mut total = 0;
    for count in counts {
        total += u32::from(*count);
    }
    total
}

// The numbers from `start` up to, not including, `end`, as far as there are any.
fn part_of(high: &[u16], start: usize, end: usize) -> &[u16]
    requires { start ≤ end }
    ensures { result.now ≡ take (end - start) (drop start high.now) }
{
    &high[start.min(high.len())..end.min(high.len())]
}

impl Repeats {
    /// An empty list with room for `capacity` counts below 256.
    pub fn with_capacity(alloc: Global, capacity: usize) -> Result<Repeats, NoMemory>
        ensures { IfOk result (λ repeats. repeats ≡ []) }
    {
        Ok(Repeats {
            low: Vec::with_capacity(alloc, capacity)?,
            high: Vec::new(alloc),
        })
    }

    /// Appends a count.
    pub fn push(&mut self, count: u32) -> Result<(), NoMemory>
        requires { count ≤ MAX_REPLY }
        ensures { OnOk result (self.new ≡ self.old ++ count ∷ []) }
    {
        let index = self.low.len();
        self.low.push((count % 256) as u8)?;
        if count >= 256 {
            self.high.resize(index + 1, 0)?;
            self.high[index] = (count / 256) as u16;
        }
        Ok(())
    }

    /// Frees unused room.
    pub fn shrink_to_fit(&mut self)
        ensures { self.new ≡ self.old }
    {
        self.low.shrink_to_fit();
        self.high.shrink_to_fit();
    }

    /// Returns the number of bytes that the counts take; at most `usize::MAX`.
    pub fn size(&self) -> usize
        ensures { IsSum (length self.now + 2 * len_to_last 256 self.now) result }
    {
        let high = self.high.len().saturating_mul(2);
        self.low.len().saturating_add(high)
    }

    /// Returns the count at `index`.
    pub fn get(&self, index: usize) -> u32
        requires { index < length self.now }
        ensures { slice_get self.now index ≡ Some result }
    {
        let low = u32::from(self.low[index]);
        match self.high.get(index) {
            Some(high) => low + 256 * u32::from(*high),
            None => low,
        }
    }

    /// Returns the sum of the counts from `start` up to, not including, `end`.
    pub fn sum(&self, start: usize, end: usize) -> u32
        requires forward { start ≤ end }
        requires within { end ≤ length self.now }
        requires few { sum self.now ≤ MAX_REPLY }
        ensures { result ≡ sum (take (end - start) (drop start self.now)) }
    {
        let low = sum_of_bytes(&self.low[start..end]);
        low + 256 * sum_of_pairs(part_of(&self.high, start, end))
    }
}
