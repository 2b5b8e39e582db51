//! `ByteStrings`: a packed list of byte strings.

ghost use Rattle.std.specs.Prelude.{◌≡◌, ◌<◌, ◌≤◌, ◌==◌, ◌-◌, slice_index, Some, [], ◌∷◌, ◌++◌, length, take, drop, slice_get, sum_by, IfOk, OnErr, OnOk};
ghost use Rattle.gopher_bytes.specs.Parts.{start_at};

use crate::fault::NoMemory;
use crate::parts::MAX_PACKED;
use std::alloc::Global;
use std::marker::Model;

// The ends from the first one of this number on take four bytes each, and those before it two.
const LOW_ENDS: usize = 65_536;

/// A list of byte strings that share one allocation.
///
/// The end of a string takes two bytes. From the first end of 65,536 or more on, it takes four.
#[derive(Debug, Drop)]
pub struct ByteStrings {
    bytes: Vec<u8>,
    low: Vec<u16>,
    high: Vec<u32>,
}

impl Model for ByteStrings {
    ghost use Rattle.std.specs.Prelude.{ℕ, List, ◌++◌};

    ghost Value = { List (List ℕ) };

    ghost use Rattle.gopher_bytes.specs.Parts.{parts, ArePacked};

    ghost view = { λ s. parts s.bytes.items 0 (s.low.items ++ s.high.items) };

    ghost invariant = { λ s. ArePacked s.bytes.items (s.low.items ++ s.high.items) };
}

// The end of the string at an index.
fn end_at(low: &[u16], high: &[u32], index: usize) -> usize
    requires { index < length (low.now ++ high.now) }
    ensures { result ≡ slice_index (low.now ++ high.now) index }
{
    if index < low.len() {
        usize::from(low[index])
    } else {
        high[index - low.len()] as usize
    }
}

// The start of the string at an index.
fn start_at(low: &[u16], high: &[u32], index: usize) -> usize
    requires { index < length (low.now ++ high.now) }
    ensures { result ≡ start_at 0 (low.now ++ high.now) index }
{
    if index == 0 {
        0
    } else {
        end_at(low, high, index - 1)
    }
}

fn between(bytes: &[u8], start: usize, end: usize) -> &[u8]
    requires forward { start ≤ end }
    requires within { end ≤ length bytes.now }
    ensures { result.now ≡ take (end - start) (drop start bytes.now) }
{
    &bytes[start..end]
}

impl ByteStrings {
    /// An empty list.
    pub fn new(alloc: Global) -> ByteStrings
        ensures { result ≡ [] }
    {
        ByteStrings {
            bytes: Vec::new(alloc),
            low: Vec::new(alloc),
            high: Vec::new(alloc),
        }
    }

    /// An empty list with room for `strings` strings with `bytes` bytes together.
    pub fn with_capacity(
        alloc: Global,
        strings: usize,
        bytes: usize,
    ) -> Result<ByteStrings, NoMemory>
        ensures { IfOk result (λ strings. strings ≡ []) }
    {
        Ok(ByteStrings {
            bytes: Vec::with_capacity(alloc, bytes)?,
            low: Vec::with_capacity(alloc, strings)?,
            high: Vec::with_capacity(alloc, if bytes < LOW_ENDS { 0 } else { strings })?,
        })
    }

    /// Frees unused room.
    pub fn shrink_to_fit(&mut self)
        ensures { self.new ≡ self.old }
    {
        self.bytes.shrink_to_fit();
        self.low.shrink_to_fit();
        self.high.shrink_to_fit();
    }

    /// Returns the number of strings.
    pub fn len(&self) -> usize
        ensures { result ≡ length self.now }
    {
        self.low.len() + self.high.len()
    }

    /// Returns whether there are no strings.
    pub fn is_empty(&self) -> bool
        ensures { result ≡ (length self.now == 0) }
    {
        self.len() == 0
    }

    /// Returns the number of bytes of all strings together.
    pub fn bytes_len(&self) -> usize
        ensures { result ≡ sum_by length self.now }
    {
        self.bytes.len()
    }

    /// Returns the string at `index`.
    pub fn get(&self, index: usize) -> &[u8]
        requires { index < length self.now }
        ensures { slice_get self.now index ≡ Some result.now }
    {
        let start = start_at(&self.low, &self.high, index);
        let end = end_at(&self.low, &self.high, index);
        between(&self.bytes, start, end)
    }

    /// Appends a string.
    ///
    /// # Errors
    ///
    /// `NoMemory` (90): out of memory, or all strings together would exceed 4,294,967,295 bytes.
    /// The list stays unchanged.
    #[inline(always)]
    pub fn push(&mut self, string: &[u8]) -> Result<(), NoMemory>
        ensures added { OnOk result (self.new ≡ self.old ++ string.now ∷ []) }
        ensures refused { OnErr result (self.new ≡ self.old) }
    {
        if string.len() > MAX_PACKED || self.bytes.len() > MAX_PACKED - string.len() {
            return Err(NoMemory);
        }
        let end = self.bytes.len() + string.len();
        if end < LOW_ENDS && self.high.is_empty() {
            self.low.reserve(1)?;
            self.bytes.extend_from_slice(string)?;
            self.low.push_reserved(end as u16);
        } else {
            self.high.reserve(1)?;
            self.bytes.extend_from_slice(string)?;
            self.high.push_reserved(end as u32);
        }
        Ok(())
    }
}
