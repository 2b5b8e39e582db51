//! `MergeJob`: pages that a worker merges while it holds no lock.

ghost use Rattle.std.specs.Prelude.{◌≡◌, IfSome};
ghost use Rattle.gopher_index.specs.Index.{IsSliceOf};
ghost use Rattle.gopher_catalogue.specs.Pages.{pages_found};

use crate::crew::Crew;
use crate::publication::record_prefix::RecordPrefix;
use gopher_catalogue::Due;
use std::alloc::Global;
use std::marker::{Model, PhantomData};

/// A run of pages that a worker merges, and the record that found them. Contracts see the pages.
#[derive(Drop)]
pub struct MergeJob<C: Crew> {
    due: Due,
    prefix: RecordPrefix,
    was_merged: bool,
    of: PhantomData<C>,
}

impl<C: Crew> Model for MergeJob<C> {
    ghost use Rattle.gopher_segment.specs.Segment.{SegmentData};
    ghost use Rattle.gopher_crew.specs.MergeJob.{IsMergeJob};

    ghost Value = { SegmentData };

    ghost view = { λ j. j.due };

    ghost invariant = { λ j. IsMergeJob C.history j.prefix j.due };
}

impl<C: Crew> MergeJob<C> {
    /// The job to merge pages that a record found.
    pub fn new(due: Due, prefix: RecordPrefix) -> MergeJob<C>
        requires history { prefix.history ≡ C.history }
        requires stands { IsSliceOf due (pages_found prefix.events) }
        ensures { result ≡ due }
    {
        MergeJob {
            due,
            prefix,
            was_merged: false,
            of: PhantomData,
        }
    }

    /// Merges the pages, unless memory runs out.
    pub fn run(&mut self, alloc: Global)
        ensures { self.new ≡ self.old }
    {
        self.was_merged = self.due.merge(alloc).is_ok();
    }

    /// Returns whether the pages were merged.
    pub fn was_merged(&self) -> bool {
        self.was_merged
    }

    /// Returns the pages, if this record begins with the one that found them.
    pub fn due_in(self, prefix: &RecordPrefix) -> Option<Due>
        requires { prefix.now.history ≡ C.history }
        ensures same { IfSome result (λ due. due ≡ self) }
        ensures stands { IfSome result (λ due. IsSliceOf due (pages_found prefix.now.events)) }
    {
        let MergeJob {
            due,
            prefix: own,
            was_merged: _was_merged,
            of: _of,
        } = self;
        if !own.begins(prefix) {
            return None;
        }
        Some(due)
    }
}
