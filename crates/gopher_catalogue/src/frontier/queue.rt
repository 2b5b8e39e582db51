//! `Queue`: the numbers of the places that wait, in order.

ghost use Rattle.std.specs.Prelude.{◌≡◌, ◌+◌, ◌-◌, ◌^◌, ◌<◌, ◌≤◌, [], ◌∷◌, ◌++◌, length, drop, slice_get, OnOk};
ghost use Rattle.std.specs.List.{range_with_len};

use gopher_item::NoMemory;
use std::alloc::Global;
use std::marker::Model;

/// A queue of numbers. Taken numbers stay in the list: only the index of the first waiting one
/// grows.
#[derive(Debug, Drop)]
pub(crate) struct Queue {
    entries: Vec<u32>,
    taken: usize,
}

impl Model for Queue {
    ghost use Rattle.std.specs.Prelude.{◌≤◌, vec_len};
    ghost use Rattle.gopher_catalogue.specs.Tables.{QueueData, queue_with};

    ghost Value = { QueueData };

    ghost view = { λ q. queue_with q.entries q.taken };

    ghost invariant = { λ q. q.taken ≤ vec_len q.entries };
}

impl Queue {
    /// An empty queue.
    pub fn new(alloc: Global) -> Queue
        ensures { result.waiting ≡ [] }
    {
        Queue {
            entries: Vec::new(alloc),
            taken: 0,
        }
    }

    /// Returns the number of waiting numbers.
    pub fn len(&self) -> usize
        ensures { result ≡ length self.now.waiting }
    {
        self.entries.len() - self.taken
    }

    /// Returns the first waiting number.
    pub fn first(&self) -> Option<u32>
        ensures { result ≡ slice_get self.now.waiting 0 }
    {
        self.entries.get(self.taken).copied()
    }

    /// Takes the first waiting number.
    pub fn take_first(&mut self)
        requires { 0 < length self.old.waiting }
        ensures waiting { self.new.waiting ≡ drop 1 self.old.waiting }
        ensures room { self.new.room ≡ self.old.room }
    {
        self.taken += 1;
    }

    /// Reserves room for at least `additional` more numbers. Even a failed call never reduces the
    /// room.
    pub fn reserve(&mut self, additional: usize) -> Result<(), NoMemory>
        ensures waiting { self.new.waiting ≡ self.old.waiting }
        ensures room { self.old.room ≤ self.new.room }
        ensures ok { OnOk result (additional ≤ self.new.room) }
    {
        self.entries.reserve(additional)?;
        Ok(())
    }

    /// Appends a number. There must be room for it.
    pub fn push(&mut self, number: u32)
        requires { 0 < self.old.room }
        ensures waiting { self.new.waiting ≡ self.old.waiting ++ number ∷ [] }
        ensures room { self.new.room + 1 ≡ self.old.room }
    {
        self.entries.push_reserved(number);
    }

    /// Appends the numbers from `first` up to, not including, `end`. There must be room for them.
    pub fn push_range(&mut self, first: u32, end: u32)
        requires order { first ≤ end }
        requires room { end - first ≤ self.old.room }
        ensures range { self.new.waiting ≡ self.old.waiting ++ range_with_len first (end - first) }
        ensures room { self.new.room + (end - first) ≡ self.old.room }
    {
        for number in first..end {
            self.push(number);
        }
    }
}
