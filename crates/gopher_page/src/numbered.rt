//! `Numbered`: a word with its first bytes as a number, which is enough for most comparisons.

ghost use Rattle.std.specs.Prelude.{◌≡◌, ◌<◌, ◌≤◌, Some, length, nat_eq, refl};
ghost use Rattle.std.specs.Ordering.{nat_cmp};
ghost use Rattle.std.specs.Cmp;
ghost use Rattle.std.specs.Cmp.Lexicographic.{pointwise, slice_cmp, nat_list_eq_equiv, nat_list_cmp_total, texts_ties, texts_po};
ghost use Rattle.gopher_page.specs.Numbered.{leading, AreBytes, IsNumbered};

use std::cmp::Ordering;
use std::marker::Model;

// The first four bytes of a word as one big-endian number.
fn first_four(word: &[u8]) -> u64
    requires { 4 ≤ length word.now }
    ensures { result ≡ leading 4 word.now }
{
    let bytes = [word[0], word[1], word[2], word[3]];
    u64::from(u32::from_be_bytes(bytes))
}

// A word of less than four bytes as a big-endian number of four; a missing byte counts as 0.
fn first_few(word: &[u8]) -> u64
    requires { length word.now < 4 }
    ensures { result ≡ leading 4 word.now }
{
    let bytes = match word {
        [a, b, c, ..] => [*a, *b, *c, 0],
        [a, b] => [*a, *b, 0, 0],
        [a] => [*a, 0, 0, 0],
        [] => [0; 4],
    };
    u64::from(u32::from_be_bytes(bytes))
}

// The first eight bytes of a word as one big-endian number; a missing byte counts as 0.
fn leading_number(word: &[u8]) -> u64
    ensures { result ≡ leading 8 word.now }
{
    if word.len() < 4 {
        return first_few(word) << 32;
    }
    // The last four of these bytes can overlap the first four: the shift drops what is in both.
    let end = word.len().min(8);
    let last = first_four(&word[end - 4..]) << (64 - 8 * end);
    (first_four(word) << 32) + last % 0x1_0000_0000
}

// Whether two words with equal numbers are equal. Short words of equal length are, because the
// number contains all their bytes.
fn is_same_tied(word: &[u8], other: &[u8]) -> bool
    requires word { AreBytes word.now }
    requires other { AreBytes other.now }
    requires tied { leading 8 word.now ≡ leading 8 other.now }
    ensures { result ≡ pointwise nat_eq word.now other.now }
{
    if word.len() <= 8 && other.len() <= 8 {
        word.len() == other.len()
    } else {
        word == other
    }
}

// The order of two words with equal numbers. Of two words of at most eight bytes the shorter comes
// first.
fn cmp_tied(word: &[u8], other: &[u8]) -> Ordering
    requires word { AreBytes word.now }
    requires other { AreBytes other.now }
    requires tied { leading 8 word.now ≡ leading 8 other.now }
    ensures { result ≡ slice_cmp nat_cmp word.now other.now }
{
    if word.len() <= 8 && other.len() <= 8 {
        word.len().cmp(&other.len())
    } else {
        word.cmp(other)
    }
}

/// A word with its first eight bytes as one number.
///
/// If two words have different numbers, their numbers order them as their bytes do.
#[derive(Debug, Drop)]
pub struct Numbered<'a> {
    number: u64,
    word: &'a [u8],
}

impl<'a> Model for Numbered<'a> {
    ghost use Rattle.std.specs.Prelude.{ℕ, List};

    ghost Value = { List ℕ };

    ghost use Rattle.gopher_page.specs.Numbered.{IsNumbered};

    ghost view = { λ n. n.word.now };

    ghost invariant = { λ n. IsNumbered n.number n.word.now };
}

impl<'a> Numbered<'a> {
    /// Computes the number of a word.
    pub fn new(word: &'a [u8]) -> Self
        ensures { result ≡ word.now }
    {
        Numbered {
            number: leading_number(word),
            word,
        }
    }

    /// Copies the reference to the word and its number.
    pub fn clone(&self) -> Numbered<'a>
        ensures { result ≡ self.now }
    {
        Numbered {
            number: self.number,
            word: self.word,
        }
    }

    /// Returns the first eight bytes of the word as one big-endian number; a missing byte counts as
    /// 0.
    pub fn number(&self) -> u64
        ensures { IsNumbered result self.now }
    {
        self.number
    }

    /// Returns the word.
    pub fn word(&self) -> &'a [u8]
        ensures { result.now ≡ self.now }
    {
        self.word
    }
}

impl<'a> PartialEq for Numbered<'a> {
    ghost eq = { pointwise nat_eq };

    ghost laws = { Cmp.partial_equiv_from_equiv nat_list_eq_equiv };

    #[inline(always)]
    fn eq(&self, other: &Numbered<'a>) -> bool {
        self.number == other.number && is_same_tied(self.word, other.word)
    }
}

impl<'a> Eq for Numbered<'a> {
    ghost laws = { nat_list_eq_equiv };
}

impl<'a> PartialOrd for Numbered<'a> {
    ghost partial_cmp = { λ x y. Some (slice_cmp nat_cmp x y) };

    ghost laws = { texts_po };

    fn partial_cmp(&self, other: &Numbered<'a>) -> Option<Ordering> {
        Some(self.cmp(other))
    }
}

impl<'a> Ord for Numbered<'a> {
    ghost cmp = { slice_cmp nat_cmp };

    ghost total = { nat_list_cmp_total };

    ghost matches_partial_cmp = { λ x y. refl };

    ghost matches_eq = { texts_ties };

    fn cmp(&self, other: &Numbered<'a>) -> Ordering {
        match self.number.cmp(&other.number) {
            Ordering::Equal => cmp_tied(self.word, other.word),
            order => order,
        }
    }
}
