//! The connections that a server thread holds, and what each is doing.

ghost use Rattle.std.specs.Prelude.{◌≡◌, ◌+◌, ◌-◌, ◌^◌, [], length, min, nat_eq, nat_lt, Some, IfOk, IfErr, OnOk, OnErr};
ghost use Rattle.std.specs.Option.{option_copied_mut};
ghost use Rattle.std.specs.Borrow.{sem};
ghost use Rattle.std.specs.Map.{remove_entry};
ghost use Rattle.lru.specs.LruCache.{lru_cache, promoted};
ghost use Rattle.gopher_server.specs.Held.{IsSound, LendsHeld, PutsHeld, added, connection, deadlines, due_at, enlarged, first_deadline, foremost, has_key, held_entries, is_behind, large_of, lingering, lingers, next_at, queue, queue_after, queued, silent, silent_with, victim, with_first, without, without_key};

use crate::decisions::next::Next;
use lru::LruCache;
use std::alloc::{AllocError, Global};
use std::collections::VecDeque;

// For how many milliseconds a connection lingers at most. No more than 128 KiB of its reply are
// still in the system by then, so that each client receives all that takes 8 KiB a second.
const LINGER: u64 = 16_000;

// The most connections of a thread that have a larger queue.
const MAX_LARGE: usize = 16;

/// The connections that a server thread holds. Each is in one of three states: its key is in the
/// queue of searches, or its reply is sent and it lingers until its deadline, or it waits for its
/// client. Keys are numbers from 0, and no key is used twice.
///
/// Contracts see the pairs of keys and connections as `held_entries`, the most recently used first,
/// or with the most that there may be, which is any number, as `connections`. They see the keys of
/// those that search as `queue`, the next one first, and the keys of those that have a larger queue
/// in the system as `large_of`. They see the keys of those that have asked nothing yet, each beside
/// an empty value, as `silent`, the most recently used first, and the deadlines of those that
/// linger, each beside its key, as `deadlines`, the earliest last.
#[derive(Drop)]
pub struct Held<T: Drop> {
    connections: LruCache<usize, T>,
    silent: LruCache<usize, ()>,
    next_key: usize,
    searching: VecDeque<usize>,
    large: VecDeque<usize>,
    // The deadlines of those that linger. Each gets the same time, so the one set first is the
    // earliest.
    deadlines: LruCache<usize, u64>,
}

// Appends the key of a connection that is held, unless it is there.
fn add_key<T: Drop>(
    held: &LruCache<usize, T>,
    keys: &mut VecDeque<usize>,
    key: usize,
) -> Result<(), AllocError>
    ensures added { OnOk result (keys.new.items ≡ added held.now.entries key keys.old.items) }
    ensures refused { OnErr result (keys.new.items ≡ keys.old.items) }
{
    if held.contains(&key) && !keys.contains(&key) {
        keys.push_back(key)?;
    }
    Ok(())
}

// Removes a key. The others keep their order.
fn remove_key(keys: &mut VecDeque<usize>, key: usize)
    ensures { keys.new.items ≡ without_key key keys.old.items }
{
    keys.retain(|other| *other != key);
}

impl<T: Drop> Held<T> {
    /// Makes an empty collection.
    pub fn new(alloc: Global) -> Result<Held<T>, AllocError>
        ensures none { IfOk result (λ none. none.connections ≡ lru_cache [] (2 ^ 64 - 1)) }
        ensures next { IfOk result (λ none. none.next_key ≡ 0) }
        ensures queue { IfOk result (λ none. queue none ≡ []) }
        ensures large { IfOk result (λ none. large_of none ≡ []) }
        ensures deadlines { IfOk result (λ none. none.deadlines ≡ lru_cache [] (2 ^ 64 - 1)) }
        ensures silent { IfOk result (λ none. none.silent ≡ lru_cache [] (2 ^ 64 - 1)) }
        ensures sound { IfOk result IsSound }
    {
        Ok(Held {
            connections: LruCache::unbounded(alloc)?,
            silent: LruCache::unbounded(alloc)?,
            next_key: 0,
            searching: VecDeque::new(alloc),
            large: VecDeque::new(alloc),
            deadlines: LruCache::unbounded(alloc)?,
        })
    }

    /// Returns the number of connections.
    pub fn len(&self) -> usize
        ensures { result ≡ length (held_entries self.now) }
    {
        self.connections.len()
    }

    /// Takes in a connection at a new key and returns the key. The connection is then the most
    /// recently used, and waits for its client.
    ///
    /// # Errors
    ///
    /// The connection that was passed in, if out of memory; nothing changes.
    pub fn take_in(&mut self, taken: T) -> Result<usize, T>
        ensures key { IfOk result (λ key. key ≡ self.old.next_key) }
        ensures named { IfOk result (λ key. connection self.new key ≡ Some taken) }
        ensures others { OnOk result (PutsHeld self.old self.new taken) }
        ensures next { OnOk result (self.new.next_key ≡ min (self.old.next_key + 1) (2 ^ 64 - 1)) }
        ensures returned { IfErr result (λ refused. refused ≡ taken) }
        ensures kept { OnErr result (self.new ≡ self.old) }
        ensures queue { queue self.new ≡ queue self.old }
        ensures large { large_of self.new ≡ large_of self.old }
        ensures deadlines { deadlines self.new ≡ deadlines self.old }
        ensures silent { silent self.new ≡ silent self.old }
    {
        let key = self.next_key;
        match self.connections.put(key, taken) {
            Ok(_replaced) => {
                self.next_key = key.saturating_add(1);
                Ok(key)
            }
            Err(refused) => Err(refused.value.1),
        }
    }

    /// Returns the connection at a key, or `None` if there is none. What is written to it stays at
    /// that key, and nothing else changes.
    pub fn get_mut(&mut self, key: usize) -> Option<&mut T>
        ensures* written { sem 𝓛 (LendsHeld T.row self.entry key result) }
        ensures found { option_copied_mut result ≡ connection self.old key }
    {
        self.connections.peek_mut(&key)
    }

    /// Returns the key of the connection that is closed if room is needed: the one that was used
    /// least recently, of those that have asked nothing if there are any. Takes constant time.
    pub fn victim(&self) -> Option<usize>
        ensures { result ≡ victim self.now }
    {
        match self.silent.peek_lru() {
            Some(pair) => Some(*pair.0),
            None => self.connections.peek_lru().map(|pair| *pair.0),
        }
    }

    /// Makes the connection at a key the most recently used.
    pub fn touch(&mut self, key: usize)
        ensures first { self.new.connections ≡ with_first self.old key }
        ensures next { self.new.next_key ≡ self.old.next_key }
        ensures queue { queue self.new ≡ queue self.old }
        ensures large { large_of self.new ≡ large_of self.old }
        ensures deadlines { deadlines self.new ≡ deadlines self.old }
        ensures silent { silent self.new ≡ promoted (nat_eq key) (silent self.old) }
        ensures sound { IsSound self.old → IsSound self.new }
    {
        let _found = self.connections.promote(&key);
        let _found = self.silent.promote(&key);
    }

    /// Ends the connection at a key: removes it from all that it was in, its deadline too. Returns
    /// it, or `None` if there is none.
    pub fn end(&mut self, key: usize) -> Option<T>
        ensures taken { result ≡ connection self.old key }
        ensures others { self.new.connections ≡ without self.old key }
        ensures next { self.new.next_key ≡ self.old.next_key }
        ensures queue { queue self.new ≡ without_key key (queue self.old) }
        ensures large { large_of self.new ≡ without_key key (large_of self.old) }
        ensures deadlines { deadlines self.new ≡ remove_entry (nat_eq key) (deadlines self.old) }
        ensures silent { silent self.new ≡ remove_entry (nat_eq key) (silent self.old) }
        ensures sound { IsSound self.old → IsSound self.new }
    {
        remove_key(&mut self.searching, key);
        remove_key(&mut self.large, key);
        let _deadline = self.deadlines.pop(&key);
        let _was_silent = self.silent.pop(&key);
        self.connections.pop(&key)
    }

    /// Returns what is done after an event with the connection at a key, or `None` if there is
    /// none. It goes on, or lingers on. If a search makes its reply, it waits for its turn, or is
    /// closed if its client takes nothing more (`is_gone`).
    pub fn next_after_event(&self, key: usize, is_gone: bool) -> Option<Next>
        ensures { result ≡ next_at self.now key is_gone }
    {
        if !self.connections.contains(&key) {
            None
        } else if self.searching.contains(&key) {
            Some(if is_gone {
                Next::Breaks
            } else {
                Next::Searches
            })
        } else if self.lingers(key) {
            Some(Next::Lingers)
        } else {
            Some(Next::GoesOn)
        }
    }

    // ---- silence

    /// Records that the connection at a key has asked nothing yet. It is then the most recently
    /// used of those.
    pub fn mark_silent(&mut self, key: usize) -> Result<(), AllocError>
        ensures silent { OnOk result (self.new.silent ≡ silent_with self.old key) }
        ensures refused { OnErr result (self.new.silent ≡ self.old.silent) }
        ensures others { self.new.connections ≡ self.old.connections }
        ensures queue { queue self.new ≡ queue self.old }
        ensures large { large_of self.new ≡ large_of self.old }
        ensures deadlines { deadlines self.new ≡ deadlines self.old }
    {
        if self.connections.contains(&key) {
            let _before = self.silent.put(key, ())?;
        }
        Ok(())
    }

    /// Records that the connection at a key has asked something.
    pub fn mark_asked(&mut self, key: usize)
        ensures silent { silent self.new ≡ remove_entry (nat_eq key) (silent self.old) }
        ensures others { self.new.connections ≡ self.old.connections }
        ensures queue { queue self.new ≡ queue self.old }
        ensures large { large_of self.new ≡ large_of self.old }
        ensures deadlines { deadlines self.new ≡ deadlines self.old }
        ensures sound { IsSound self.old → IsSound self.new }
    {
        let _silent = self.silent.pop(&key);
    }

    // ---- searches

    /// Puts a connection whose reply a search makes behind the others in the queue, unless it is in
    /// the queue.
    pub fn queue_search(&mut self, key: usize) -> Result<(), AllocError>
        ensures queue { OnOk result (queue self.new ≡ queued self.old key) }
        ensures refused { OnErr result (queue self.new ≡ queue self.old) }
        ensures others { self.new.connections ≡ self.old.connections }
        ensures large { large_of self.new ≡ large_of self.old }
        ensures deadlines { deadlines self.new ≡ deadlines self.old }
        ensures silent { silent self.new ≡ silent self.old }
        ensures sound { IsSound self.old → IsSound self.new }
    {
        add_key(&self.connections, &mut self.searching, key)
    }

    /// Returns the key of the connection whose search is next, or `None` if none searches.
    pub fn next_search(&self) -> Option<usize>
        ensures { result ≡ foremost (queue self.now) }
    {
        self.searching.front().copied()
    }

    /// Returns whether the connection at a key waits for its turn to search: others are before it
    /// in the queue. Its search begins when it is the first.
    pub fn waits_for_turn(&self, key: usize) -> bool
        ensures { result ≡ is_behind key (queue self.now) }
    {
        self.searching.front().is_some_and(|first| *first != key)
    }

    /// Ends a turn of the search of the connection at a key, which is then the most recently used.
    /// If the search goes on, it keeps its place in the queue, otherwise it leaves the queue.
    pub fn end_turn(&mut self, key: usize, goes_on: bool)
        ensures first { self.new.connections ≡ with_first self.old key }
        ensures queue { queue self.new ≡ queue_after goes_on key (queue self.old) }
        ensures large { large_of self.new ≡ large_of self.old }
        ensures deadlines { deadlines self.new ≡ deadlines self.old }
        ensures silent { silent self.new ≡ promoted (nat_eq key) (silent self.old) }
        ensures sound { IsSound self.old → IsSound self.new }
    {
        self.touch(key);
        if !goes_on {
            remove_key(&mut self.searching, key);
        }
    }

    // ---- lingering

    /// Has the connection at a key linger for 16 s (`LINGER`) from `now`, unless it lingers. Times
    /// are milliseconds by one clock.
    pub fn linger(&mut self, key: usize, now: u64) -> Result<(), AllocError>
        ensures set { OnOk result (self.new.deadlines ≡ lingering self.old key now) }
        ensures refused { OnErr result (self.new.deadlines ≡ self.old.deadlines) }
        ensures others { self.new.connections ≡ self.old.connections }
        ensures queue { queue self.new ≡ queue self.old }
        ensures large { large_of self.new ≡ large_of self.old }
        ensures silent { silent self.new ≡ silent self.old }
        ensures sound { IsSound self.old → IsSound self.new }
    {
        if self.connections.contains(&key) && !self.lingers(key) {
            let _before = self.deadlines.put(key, now.saturating_add(LINGER))?;
        }
        Ok(())
    }

    /// Returns whether the connection at a key lingers: it has a deadline.
    pub fn lingers(&self, key: usize) -> bool
        ensures { result ≡ lingers self.now key }
    {
        self.deadlines.contains(&key)
    }

    /// Returns the earliest deadline, or `None` if there is none.
    pub fn first_deadline(&self) -> Option<u64>
        ensures { result ≡ first_deadline self.now }
    {
        self.deadlines.peek_lru().map(|pair| *pair.1)
    }

    /// Removes the earliest deadline and returns its key, if the deadline isn't after the time
    /// `now`.
    pub fn take_due(&mut self, now: u64) -> Option<usize>
        ensures due { (result, deadlines self.new) ≡ due_at now (deadlines self.old) }
        ensures others { self.new.connections ≡ self.old.connections }
        ensures queue { queue self.new ≡ queue self.old }
        ensures large { large_of self.new ≡ large_of self.old }
        ensures silent { silent self.new ≡ silent self.old }
        ensures sound { IsSound self.old → IsSound self.new }
    {
        if self.first_deadline()? > now {
            return None;
        }
        self.deadlines.pop_lru().map(|pair| pair.0)
    }

    // ---- larger queues

    /// Returns whether the connection at a key has a larger queue.
    pub fn is_large(&self, key: usize) -> bool
        ensures { result ≡ has_key key (large_of self.now) }
    {
        self.large.contains(&key)
    }

    /// Returns whether one more connection may have a larger queue: fewer than 16 (`MAX_LARGE`)
    /// have one.
    pub fn may_enlarge(&self) -> bool
        ensures { result ≡ nat_lt (length (large_of self.now)) 16 }
    {
        self.large.len() < MAX_LARGE
    }

    /// Records that the connection at a key has a larger queue.
    pub fn mark_large(&mut self, key: usize) -> Result<(), AllocError>
        ensures large { OnOk result (large_of self.new ≡ enlarged self.old key) }
        ensures refused { OnErr result (large_of self.new ≡ large_of self.old) }
        ensures others { self.new.connections ≡ self.old.connections }
        ensures queue { queue self.new ≡ queue self.old }
        ensures deadlines { deadlines self.new ≡ deadlines self.old }
        ensures silent { silent self.new ≡ silent self.old }
        ensures sound { IsSound self.old → IsSound self.new }
    {
        add_key(&self.connections, &mut self.large, key)
    }
}
