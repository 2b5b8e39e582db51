//! How long the thread that writes rests while its file takes nothing.

ghost use Rattle.std.specs.Prelude.{◌≡◌, None, Some, if◌then◌else◌};
ghost use Rattle.gopher_server.specs.Rests.{gives_up, rested};

// The longest rest, in milliseconds.
const MAX_REST: u64 = 100;

// How many of the longest rests are made once no more batches come.
const MAX_TRIES_AT_END: u32 = 10;

/// How long the thread that writes rests while its file takes nothing.
#[derive(Clone, Copy)]
pub(crate) struct Rests {
    next: u64,
    // How many of the longest rests were made since no more batches come.
    tries: u32,
}

impl Rests {
    /// Begins with a rest of 1 ms.
    pub(crate) fn new() -> Rests
        ensures { result ≡ record { next = 1; tries = 0 } }
    {
        Rests { next: 1, tries: 0 }
    }

    /// Returns how many milliseconds to rest, or `None` to give up. `is_closed` says whether no
    /// more batches come.
    pub(crate) fn next(&mut self, is_closed: bool) -> Option<u64>
        ensures rest { result ≡ (if gives_up is_closed self.old then None else Some self.old.next) }
        ensures after { self.new ≡ rested is_closed self.old }
    {
        let Rests { next, tries } = *self;
        let is_last = is_closed && next == MAX_REST;
        if is_last && tries >= MAX_TRIES_AT_END {
            return None;
        }
        self.next = next.saturating_mul(2).min(MAX_REST);
        self.tries = if is_last { tries + 1 } else { tries };
        Some(next)
    }
}
