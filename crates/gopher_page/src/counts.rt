//! `Counts`: the words of a page with their counts, packed, and the count of a word or prefix;
//! `EachCount`: an iterator over them.

ghost use Rattle.std.specs.Prelude.{◌≡◌, ◌<◌, ◌≤◌, List, Some, [], length, slice_get, IfOk, OnOk};
ghost use Rattle.std.specs.List.{zip};
ghost use Rattle.std.specs.Iterator.{YieldsFirstBy, item_count};
ghost use Rattle.std.specs.List.Sorted.{IsSorted};
ghost use Rattle.std.specs.Ordering.{nat_cmp};
ghost use Rattle.std.specs.Cmp.Lexicographic.{slice_cmp};
ghost use Rattle.gopher_item.specs.Places.{IsSum};
ghost use Rattle.gopher_page.specs.Counts.{count_meant, counts_of, IsWordRun, run_lengths};
ghost use Rattle.gopher_page.specs.Packed.{AreCounts};
ghost use Rattle.gopher_page.specs.Page.{counts_size, ends_size, postings_len, words_bytes};

use crate::numbered::Numbered;
use crate::repeats::Repeats;
use crate::search::range_meant;
use gopher_bytes::ByteStrings;
use gopher_item::NoMemory;
use gopher_text::MAX_REPLY;
use std::alloc::Global;
use std::marker::Model;

// The most occurrences that a posting of an index counts.
const MAX_COUNT: u32 = 255;

/// The distinct words of a page in byte order, each with its number of occurrences.
///
/// The words' bytes share one allocation, because a catalogue keeps every page.
#[derive(Debug, Drop)]
pub struct Counts {
    words: ByteStrings,
    counts: Repeats,
}

impl Model for Counts {
    ghost use Rattle.std.specs.Prelude.{ℕ, List};

    ghost Value = { List (List ℕ × ℕ) };

    ghost use Rattle.std.specs.List.{zip};
    ghost use Rattle.gopher_page.specs.Packed.{AreCounted};

    ghost view = { λ c. zip c.words c.counts };

    ghost invariant = { λ c. AreCounted c.words c.counts };
}

// The most bytes that the ends of `count` words with `bytes` bytes together take.
fn size_of_ends(bytes: usize, count: usize) -> usize
    ensures { IsSum (ends_size bytes count) result }
{
    if bytes < 65_536 {
        count.saturating_mul(2)
    } else {
        count.saturating_mul(4)
    }
}

// The end of the run of words that equal the one at `start`.
fn end_of_run(words: &[Numbered<'_>], start: usize) -> usize
    requires { start < length words.now }
    ensures after { start < result }
    ensures within { result ≤ length words.now }
    ensures run { IsWordRun words.now start result }
{
    let word = &words[start];
    let mut end = start + 1;
    while end < words.len() {
        if words[end] == *word {
            end += 1;
        } else {
            return end;
        }
    }
    end
}

// The number of distinct words, and of the bytes of these words.
fn sizes_of(words: &[Numbered<'_>]) -> (usize, usize) {
    let (mut count, mut size) = (0_usize, 0_usize);
    let mut start = 0;
    while start < words.len() {
        count = count.saturating_add(1);
        size = size.saturating_add(words[start].word().len());
        start = end_of_run(words, start);
    }
    (count, size)
}

// Appends each distinct word, and its number of occurrences, to no words and no counts.
fn push_runs(
    words: &[Numbered<'_>],
    distinct: &mut ByteStrings,
    counts: &mut Repeats,
) -> Result<(), NoMemory>
    requires few { length words.now ≤ MAX_REPLY }
    requires words { distinct.old ≡ [] }
    requires counts { counts.old ≡ [] }
    ensures runs { OnOk result (zip distinct.new counts.new ≡ run_lengths words.now) }
    ensures same { OnOk result (length counts.new ≡ length distinct.new) }
{
    let mut start = 0;
    while start < words.len() {
        let end = end_of_run(words, start);
        distinct.push(words[start].word())?;
        counts.push((end - start) as u32)?;
        start = end;
    }
    Ok(())
}

impl Counts {
    /// Counts the occurrences of each word. The words are in byte order; there are at most
    /// 1,048,576 (`MAX_REPLY`).
    pub fn packed(alloc: Global, words: &[Numbered<'_>]) -> Result<Counts, NoMemory>
        requires sorted { IsSorted (slice_cmp nat_cmp) words.now }
        requires few { length words.now ≤ MAX_REPLY }
        ensures { IfOk result (λ counts. counts ≡ counts_of words.now) }
    {
        let (count, size) = sizes_of(words);
        // Lists of this size need no growth: growing and then shrinking them would leave fragments
        // too small to use again.
        let mut distinct = ByteStrings::with_capacity(alloc, count, size)?;
        let mut counts = Repeats::with_capacity(alloc, count)?;
        push_runs(words, &mut distinct, &mut counts)?;
        distinct.shrink_to_fit();
        counts.shrink_to_fit();
        Ok(Counts {
            words: distinct,
            counts,
        })
    }

    /// Returns the number of distinct words.
    pub fn len(&self) -> usize
        ensures value { result ≡ length self.now }
        ensures counts { AreCounts self.now }
    {
        self.words.len()
    }

    /// Returns the number of bytes of all distinct words.
    pub fn bytes_len(&self) -> usize
        ensures { result ≡ words_bytes self.now }
    {
        self.words.bytes_len()
    }

    /// Returns how many bytes the words, their ends and their counts take at most; at most
    /// `usize::MAX`.
    pub fn size(&self) -> usize
        ensures { IsSum (counts_size self.now) result }
    {
        let bytes = self.bytes_len();
        let ends = size_of_ends(bytes, self.len());
        let tables = ends.saturating_add(self.counts.size());
        bytes.saturating_add(tables)
    }

    /// Returns how many postings an index has for the words, each of which counts at most 255
    /// occurrences; at most `usize::MAX`.
    pub fn postings_len(&self) -> usize
        ensures { IsSum (postings_len self.now) result }
    {
        let mut postings = 0_usize;
        for (_, count) in self {
            postings = postings.saturating_add(count.div_ceil(MAX_COUNT) as usize);
        }
        postings
    }

    /// Returns the word at `index`, which is below `len`, and its count.
    pub fn get(&self, index: usize) -> (&[u8], u32)
        requires { index < length self.now }
        ensures { slice_get self.now index ≡ Some (result.0.now, result.1) }
    {
        let word = self.words.get(index);
        (word, self.counts.get(index))
    }

    /// Returns an iterator over the words and their counts.
    pub fn iter(&self) -> EachCount<'_>
        ensures { result ≡ self.now }
    {
        EachCount {
            counts: self,
            next: 0,
        }
    }

    /// Returns the number of occurrences of `sought` or, if `is_prefix`, of all words that begin
    /// with it.
    pub fn count_meant(&self, is_prefix: bool, sought: &[u8]) -> u32
        ensures { result ≡ count_meant is_prefix sought.now self.now }
    {
        let (start, end) = range_meant(&self.words, is_prefix, sought, self.len(), self.len());
        self.counts.sum(start, end)
    }
}

/// An iterator over the distinct words of a page in byte order, each with its number of
/// occurrences. It allocates nothing.
#[derive(Debug, Drop)]
pub struct EachCount<'a> {
    counts: &'a Counts,
    next: usize,
}

impl<'a> Model for EachCount<'a> {
    ghost use Rattle.std.specs.Prelude.{ℕ, List, drop};

    ghost Value = { List (List ℕ × ℕ) };

    ghost view = { λ e. drop e.next e.counts.now };
}

impl<'a> Iterator for EachCount<'a> {
    type Item = (&'a [u8], u32);

    ghost next_gives = { YieldsFirstBy (λ entry. (entry.0.now, entry.1)) (λ left. left) };

    ghost remaining = { item_count (λ left. left) };

    fn next(&mut self) -> Option<(&'a [u8], u32)> {
        if self.next >= self.counts.len() {
            return None;
        }
        let (word, count) = self.counts.get(self.next);
        self.next += 1;
        Some((word, count))
    }

    fn size_hint(&self) -> (usize, Option<usize>) {
        let len = self.len();
        (len, Some(len))
    }
}

impl<'a> IntoIterator for &'a Counts {
    type Item = (&'a [u8], u32);

    type IntoIter = EachCount<'a>;

    ghost into_iter_gives = { λ counts each. each ≡ counts.now };

    fn into_iter(self) -> EachCount<'a> {
        self.iter()
    }
}

impl<'a> ExactSizeIterator for EachCount<'a> {
    fn len(&self) -> usize {
        self.counts.len().saturating_sub(self.next)
    }
}
