//! The places for connections of all server threads: how many are taken, the quota of those that
//! are still accepted, and the fair share of one thread.

ghost use Rattle.std.specs.Prelude.{◌≡◌, ◌-◌, ◌<◌, ◌≤◌, max, nat_lt, true, false, None, Some, if◌then◌else◌};
ghost use Rattle.gopher_server.specs.Places.{fair_share, max_of_network as most_of_network, max_places as most, may_accept, other_files};

use std::sync::atomic::{AtomicU64, Ordering};

// The fewest files that are left for the rest of the program.
const OTHER_FILES: u64 = 64;

// Files that aren't counted one by one: the standard streams, the log, settings, and the system's
// own.
const UNCOUNTED_FILES: u64 = 16;

// The most connections that a server holds.
const MAX_CONNECTIONS: u64 = 16_384;

// A thread leaves new connections to other threads when it holds this many more than its fair
// share.
const MAX_ABOVE_SHARE: u64 = 16;

// How many files a server opens that aren't its connections, with these numbers of listeners,
// threads and workers: at least 64.
fn other_files(listeners: u32, threads: u32, workers: u32) -> u64
    ensures { result ≡ other_files listeners threads workers }
{
    let of_threads = 3 * u64::from(threads);
    let of_workers = 2 * u64::from(workers);
    let all = UNCOUNTED_FILES + u64::from(listeners) + of_threads + of_workers;
    all.max(OTHER_FILES)
}

/// Returns the most connections that a server holds if its process may open `files` files: at most
/// 16,384. `None` if they don't suffice for its own crawl by `workers` workers, and one client
/// beside it.
pub fn max_places(files: u64, listeners: u32, threads: u32, workers: u32) -> Option<u64>
    ensures { result ≡ most files listeners threads workers }
{
    let others = other_files(listeners, threads, workers);
    let places = files.saturating_sub(others).min(MAX_CONNECTIONS);
    (u64::from(workers) < places).then_some(places)
}

/// Returns the most connections of one network that a server with these places holds: as many as
/// are asked for, or a quarter of the places, but at least 1.
pub fn max_of_network(places: u64, asked: Option<u64>) -> u64
    ensures { result ≡ most_of_network places asked }
{
    asked.unwrap_or(places / 4).max(1)
}

// The fair share of one of `threads` threads in `all` connections, at least 1.
fn fair_share(all: u64, threads: u64) -> u64
    ensures { result ≡ fair_share all threads }
{
    (all / threads.max(1)).max(1)
}

// Returns whether one more connection may be accepted after `accepted` connections.
fn may_accept(quota: Option<u64>, accepted: u64) -> bool
    ensures { result ≡ may_accept quota accepted }
{
    quota.is_none_or(|quota| accepted < quota)
}

/// The connections that all server threads may hold together (their places), how many places are
/// taken, and how many connections they still accept (their quota). A thread without a connection
/// takes a place even if all are taken, so each thread can add one connection to the limit.
#[derive(Drop)]
pub struct Places {
    most: u64,
    threads: AtomicU64,
    taken: AtomicU64,
    quota: Option<u64>,
    accepted: AtomicU64,
}

impl Places {
    /// Makes `most` places, none of them taken, without a thread. The quota is any number if it is
    /// `None`.
    pub fn new(most: u64, quota: Option<u64>) -> Places
        ensures most { result.most ≡ most }
        ensures quota { result.quota ≡ quota }
    {
        Places {
            most,
            threads: AtomicU64::new(0),
            taken: AtomicU64::new(0),
            quota,
            accepted: AtomicU64::new(0),
        }
    }

    /// Takes one from the quota, and returns whether one was left. A thread takes one before it
    /// accepts a connection.
    pub fn take_quota(&self) -> bool
        ensures unlimited { self.now.quota ≡ None → result ≡ true }
        ensures none { self.now.quota ≡ Some 0 → result ≡ false }
    {
        may_accept(self.quota, self.accepted.fetch_add(1, Ordering::SeqCst))
    }

    /// Takes a place.
    pub fn take(&self) {
        let _before = self.taken.fetch_add(1, Ordering::SeqCst);
    }

    /// Gives back a place that was taken.
    pub fn give_back(&self) {
        let _before = self.taken.fetch_sub(1, Ordering::SeqCst);
    }

    /// Returns how many places are taken.
    pub fn taken(&self) -> u64 {
        self.taken.load(Ordering::SeqCst)
    }

    /// Returns whether more places are taken than exist.
    pub fn are_exceeded(&self) -> bool {
        self.taken.load(Ordering::SeqCst) > self.most
    }

    /// Gives back a place if more are taken than exist, and returns whether it did. If several
    /// threads call it at once, they give back exactly the excess.
    pub fn give_back_excess(&self) -> bool {
        let most = self.most;
        let fewer = self.taken.fetch_update(
            Ordering::SeqCst,
            Ordering::SeqCst,
            move |taken| one_less(taken, most),
        );
        fewer.is_ok()
    }

    /// Returns whether a thread that holds `held` connections holds more than its share of the
    /// places. The share is at least 1, and at most all places if there are any.
    pub fn is_above_share(&self, held: u64) -> bool
        ensures above { max self.now.most 1 < held → result ≡ true }
        ensures within { held ≤ 1 → result ≡ false }
    {
        held > fair_share(self.most, self.threads.load(Ordering::SeqCst))
    }

    /// Returns whether a thread that holds `held` connections leaves new ones to other threads: it
    /// holds over 16 (`MAX_ABOVE_SHARE`) more than its share of the places that are taken, which is
    /// at least 1.
    pub fn leaves_to_others(&self, held: u64) -> bool
        ensures within { held ≤ 17 → result ≡ false }
    {
        let taken = self.taken.load(Ordering::SeqCst);
        let share = fair_share(taken, self.threads.load(Ordering::SeqCst));
        held > share.saturating_add(MAX_ABOVE_SHARE)
    }

    /// Records that one more thread accepts connections.
    pub fn add_thread(&self) {
        let _before = self.threads.fetch_add(1, Ordering::SeqCst);
    }

    /// Records that one thread fewer accepts connections.
    pub fn lose_thread(&self) {
        let _before = self.threads.fetch_sub(1, Ordering::SeqCst);
    }
}

// One fewer than `taken` if it is over `most`, otherwise `None`.
fn one_less(taken: u64, most: u64) -> Option<u64>
    ensures { result ≡ (if nat_lt most taken then Some (taken - 1) else None) }
{
    if taken > most { Some(taken - 1) } else { None }
}
