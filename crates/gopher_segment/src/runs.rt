//! The postings of each word, packed in one list: appending them, and adding their counts to cells.

ghost use Rattle.std.specs.Prelude.{◌≡◌, ◌+◌, ◌<◌, ◌≤◌, Some, [], ◌∷◌, ◌++◌, ◌-◌, length, take, drop, slice_get, ◌==◌, if◌then◌else◌, IfOk, OnOk};
ghost use Rattle.std.specs.List.{zip};
ghost use Rattle.gopher_segment.specs.Postings.{AreRaised, AreWithin, HaveRoom, count_in, one_run, pieces};

use gopher_bytes::{MAX_PACKED, NoMemory, range_at, span_at};
use std::alloc::Global;
use std::marker::Model;

/// The postings of a word: page numbers, with a count for each.
///
/// A posting counts at most 255. A page with a higher count has several postings in sequence.
#[derive(Drop)]
pub(crate) struct Run<'a> {
    pages: &'a [u16],
    counts: &'a [u8],
}

impl<'a> Model for Run<'a> {
    ghost use Rattle.std.specs.Prelude.{ℕ, ◌≡◌, List, length};
    ghost use Rattle.std.specs.List.{zip};

    ghost Value = { List (ℕ × ℕ) };

    ghost view = { λ r. zip r.pages.now r.counts.now };

    ghost invariant = { λ r. length r.counts.now ≡ length r.pages.now };
}

// Adds a count to the cell of a page. The first cell is that of page `first`.
fn add_count(cells: &mut [u32], first: usize, page: usize, count: u32)
    requires from { first ≤ page }
    requires within { page < first + length cells.old }
    requires room { HaveRoom first cells.old (λ number. if page == number then count else 0) }
    ensures { AreRaised first cells.old cells.new (λ number. if page == number then count else 0) }
{
    cells[page - first] += count;
}

impl<'a> Run<'a> {
    /// Returns the page numbers and the counts.
    pub fn parts(&self) -> (&'a [u16], &'a [u8])
        ensures whole { zip result.0.now result.1.now ≡ self.now }
        ensures beside { length result.1.now ≡ length result.0.now }
    {
        (self.pages, self.counts)
    }

    /// Adds the counts to the cells of their pages. The first cell is that of page `first`.
    pub fn add_to(&self, first: usize, cells: &mut [u32])
        requires within { AreWithin first (length cells.old) self.now }
        requires room { HaveRoom first cells.old (λ page. count_in page self.now) }
        ensures { AreRaised first cells.old cells.new (λ page. count_in page self.now) }
    {
        for (index, page) in self.pages.iter().enumerate() {
            add_count(
                cells,
                first,
                usize::from(*page),
                u32::from(self.counts[index]),
            );
        }
    }
}

/// A packed list of runs of postings. The last run may not be ended yet.
#[derive(Debug, Drop)]
pub(crate) struct Runs {
    pages: Vec<u16>,
    counts: Vec<u8>,
    ends: Vec<u32>,
}

impl Model for Runs {
    ghost use Rattle.std.specs.Prelude.{ℕ, List, drop};
    ghost use Rattle.std.specs.List.{zip};
    ghost use Rattle.gopher_segment.specs.Postings.{RunsData};

    ghost Value = { RunsData };

    ghost use Rattle.gopher_bytes.specs.Parts.{parts, last_end};
    ghost use Rattle.gopher_segment.specs.Postings.{ArePackedRuns};

    ghost view = { λ r. record {
      whole = parts (zip r.pages.items r.counts.items) 0 r.ends.items;
      begun = drop (last_end 0 r.ends.items) (zip r.pages.items r.counts.items);
    } };

    ghost invariant = { λ r. ArePackedRuns r.pages.items r.counts.items r.ends.items };
}

impl Runs {
    /// An empty list with room for `runs` runs with `postings` postings together.
    pub fn with_capacity(alloc: Global, runs: usize, postings: usize) -> Result<Runs, NoMemory>
        ensures whole { IfOk result (λ runs. runs.whole ≡ []) }
        ensures begun { IfOk result (λ runs. runs.begun ≡ []) }
    {
        Ok(Runs {
            pages: Vec::with_capacity(alloc, postings)?,
            counts: Vec::with_capacity(alloc, postings)?,
            ends: Vec::with_capacity(alloc, runs)?,
        })
    }

    /// Frees unused room.
    pub fn shrink_to_fit(&mut self)
        ensures { self.new ≡ self.old }
    {
        self.pages.shrink_to_fit();
        self.counts.shrink_to_fit();
        self.ends.shrink_to_fit();
    }

    /// Returns the number of postings of all runs.
    pub fn postings_len(&self) -> usize {
        self.pages.len()
    }

    /// Returns the run at `index`.
    pub fn get(&self, index: usize) -> Run<'_>
        requires { index < length self.now.whole }
        ensures { slice_get self.now.whole index ≡ Some result }
    {
        let (start, end) = range_at(&self.ends, index);
        Run {
            pages: &self.pages[start..end],
            counts: &self.counts[start..end],
        }
    }

    /// Returns the postings of the runs from index `start` up to, not including, `end`, as one run.
    pub fn between(&self, start: usize, end: usize) -> Run<'_>
        requires forward { start ≤ end }
        requires within { end ≤ length self.now.whole }
        ensures { result ≡ one_run (take (end - start) (drop start self.now.whole)) }
    {
        let (first, last) = span_at(&self.ends, start, end);
        Run {
            pages: &self.pages[first..last],
            counts: &self.counts[first..last],
        }
    }

    // Appends a posting to the last run.
    #[inline(always)]
    fn push(&mut self, page: u16, count: u8) -> Result<(), NoMemory>
        ensures whole { self.new.whole ≡ self.old.whole }
        ensures begun { OnOk result (self.new.begun ≡ self.old.begun ++ (page, count) ∷ []) }
    {
        self.counts.reserve(1)?;
        self.pages.push(page)?;
        self.counts.push_reserved(count);
        Ok(())
    }

    /// Appends the postings of a page that has the word `count` times to the last run.
    ///
    /// If out of memory, the run can end with some of them.
    pub fn push_count(&mut self, page: u16, count: u32) -> Result<(), NoMemory>
        ensures whole { self.new.whole ≡ self.old.whole }
        ensures begun { OnOk result (self.new.begun ≡ self.old.begun ++ pieces page count) }
    {
        let mut left = count;
        while left > 255 {
            self.push(page, 255)?;
            left -= 255;
        }
        self.push(page, left as u8)?;
        Ok(())
    }

    /// Appends the postings of a run to the last run.
    pub fn extend(&mut self, run: &Run<'_>) -> Result<(), NoMemory>
        ensures whole { self.new.whole ≡ self.old.whole }
        ensures begun { OnOk result (self.new.begun ≡ self.old.begun ++ run.now) }
    {
        if run.pages.len() == 1 {
            return self.push(run.pages[0], run.counts[0]);
        }
        self.pages.reserve(run.pages.len())?;
        self.counts.reserve(run.counts.len())?;
        self.pages.extend_from_slice(run.pages)?;
        self.counts.extend_from_slice(run.counts)?;
        Ok(())
    }

    /// Ends the last run and begins another.
    ///
    /// # Errors
    ///
    /// `NoMemory` (90): out of memory, or there are over 4,294,967,295 postings (`MAX_PACKED`).
    #[inline(always)]
    pub fn end_run(&mut self) -> Result<(), NoMemory>
        ensures whole { OnOk result (self.new.whole ≡ self.old.whole ++ self.old.begun ∷ []) }
        ensures begun { OnOk result (self.new.begun ≡ []) }
    {
        if self.pages.len() > MAX_PACKED {
            return Err(NoMemory);
        }
        self.ends.push(self.pages.len() as u32)?;
        Ok(())
    }
}
