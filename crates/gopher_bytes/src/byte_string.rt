//! `ByteString`: an owned string of bytes, which contracts see as the list of its bytes.

ghost use Rattle.std.specs.Prelude.{◌≡◌, ◌==◌, ℕ, List, [], ◌∷◌, ◌++◌, length, map, nat_eq, Some, IfOk, refl};
ghost use Rattle.std.specs.Ordering.{nat_cmp};
ghost use Rattle.std.specs.Cmp;
ghost use Rattle.std.specs.Cmp.Lexicographic.{pointwise, slice_cmp, nat_list_eq_equiv, nat_list_cmp_total, texts_ties, texts_po};
ghost use Rattle.std.specs.Cmp.Rules.{hashing};
ghost use Rattle.std.specs.Hash as fed;
ghost use Rattle.std.proofs.Common.{rules};
ghost use Rattle.gopher_bytes.specs.Case.{lower_case};

use crate::fault::NoMemory;
use bstr::BStr;
use std::alloc::{AllocError, Global};
use std::cmp::Ordering;
use std::convert::AsSlice;
use std::fmt;
use std::hash::{Hash, Hasher};
use std::marker::Model;

fn lower_case(byte: u8) -> u8
    ensures { result ≡ lower_case byte }
{
    byte.to_ascii_lowercase()
}

/// An owned string of bytes.
#[derive(Drop)]
pub struct ByteString {
    held: Vec<u8>,
}

impl Model for ByteString {
    ghost Value = { List ℕ };

    ghost view = { λ b. b.held.items };
}

impl ByteString {
    /// Copies `bytes`.
    pub fn from_slice(alloc: Global, bytes: &[u8]) -> Result<Self, NoMemory>
        ensures { IfOk result (λ b. b ≡ bytes.now) }
    {
        Ok(ByteString {
            held: Vec::from_slice(alloc, bytes)?,
        })
    }

    /// Copies `bytes` with their ASCII letters in lower case.
    pub fn lower_cased(alloc: Global, bytes: &[u8]) -> Result<Self, NoMemory>
        ensures { IfOk result (λ b. b ≡ map lower_case bytes.now) }
    {
        Ok(ByteString {
            held: bytes.iter().map(|byte| lower_case(*byte)).collect(alloc)?,
        })
    }

    /// Returns the bytes.
    pub fn as_slice(&self) -> &[u8]
        ensures { result.now ≡ self.now }
    {
        &self.held
    }

    /// Converts to a vector without a copy.
    pub fn into_vec(self) -> Vec<u8>
        ensures { result.items ≡ self }
    {
        let ByteString { held } = self;
        held
    }

    /// Returns the number of bytes.
    pub fn len(&self) -> usize
        ensures { result ≡ length self.now }
    {
        self.held.len()
    }

    /// Returns whether there are no bytes.
    pub fn is_empty(&self) -> bool
        ensures { result ≡ (length self.now == 0) }
    {
        self.held.is_empty()
    }
}

impl Clone for ByteString {
    ghost is_clone = { λ bytes copy. copy ≡ bytes };

    fn clone(&self) -> Result<ByteString, AllocError> {
        Ok(ByteString {
            held: self.held.clone()?,
        })
    }
}

impl AsSlice<u8> for ByteString {
    ghost items = { λ b. b };

    fn as_slice(&self) -> &[u8] {
        ByteString::as_slice(self)
    }
}

impl From<Vec<u8>> for ByteString {
    ghost from_gives = { λ v b. b ≡ v.items };

    fn from(held: Vec<u8>) -> ByteString {
        ByteString { held }
    }
}

// Prints the bytes as text, as `"a\tb"`.
impl fmt::Debug for ByteString {
    fn fmt<W: fmt::Write>(&self, f: &mut fmt::Formatter<W>) -> fmt::Result {
        fmt::Debug::fmt(&BStr::new(self.as_slice()), f)
    }
}

impl PartialEq for ByteString {
    ghost eq = { pointwise nat_eq };

    ghost laws = { Cmp.partial_equiv_from_equiv nat_list_eq_equiv };

    fn eq(&self, other: &ByteString) -> bool {
        self.as_slice() == other.as_slice()
    }
}

impl Eq for ByteString {
    ghost laws = { nat_list_eq_equiv };
}

impl PartialOrd for ByteString {
    ghost partial_cmp = { λ x y. Some (slice_cmp nat_cmp x y) };

    ghost laws = { texts_po };

    fn partial_cmp(&self, other: &ByteString) -> Option<Ordering> {
        Some(self.cmp(other))
    }
}

impl Ord for ByteString {
    ghost cmp = { slice_cmp nat_cmp };

    ghost total = { nat_list_cmp_total };

    ghost matches_partial_cmp = { λ x y. refl };

    ghost matches_eq = { texts_ties };

    fn cmp(&self, other: &ByteString) -> Ordering {
        self.as_slice().cmp(other.as_slice())
    }
}

impl Hash for ByteString {
    ghost hash_input = { λ bytes. fed.usize (length bytes) ++ bytes ∷ [] };

    ghost respects_eq = { Prim.search (hashing, rules) };

    fn hash<H: Hasher>(&self, state: &mut H) {
        state.write_usize(self.held.len());
        state.write(&self.held);
    }
}
