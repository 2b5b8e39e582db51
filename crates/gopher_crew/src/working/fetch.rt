//! `Fetch`: what a worker fetches replies with.

ghost use Rattle.std.specs.Prelude.{◌≡◌, ℕ, ◌≤◌, vec_len, IfOk};
ghost use Rattle.gopher_item.specs.Place.{PlaceData};
ghost use Rattle.gopher_catalogue.specs.Closure.{OutcomeData};
ghost use Rattle.gopher_crew.specs.Rounds.{one_more_call, outcome_of};

use gopher_catalogue::Why;
use gopher_item::Place;
use std::alloc::Global;

/// Counts a fetcher's calls, and says for contracts what a call did. `Fetch` has the runtime as a
/// parameter, so these have their own trait: `fetcher.calls()` names no runtime.
///
/// `called` is the number that `calls` returns. `fetches` relates the fetcher before and after a
/// call, the place and the limit of the call, and its outcome: the bytes, or the reason why there
/// are none.
pub trait Calls {
    ghost called: { Self → ℕ };

    ghost fetches: { Self → Self → PlaceData → ℕ → OutcomeData → Type 0 };

    /// Returns the number of fetches, failed or not. It stays at the last value of a `u64`.
    fn calls(&self) -> u64
        ensures { result ≡ called self.now };
}

/// Fetches the replies of places, and is told what was recorded of each fetch. `R` is the runtime
/// that it needs. A fetch over a network waits for its peer; one from memory needs no runtime.
pub trait Fetch<R>: Calls {
    /// Fetches the reply of a place, at most `limit` bytes, which is at most 1,048,576 (`MAX_REPLY`
    /// of gopher_text). Returns the reason if there is none.
    fn fetch(&mut self, rt: &R, alloc: Global, place: &Place, limit: usize) -> Result<Vec<u8>, Why>
        requires { limit ≤ 1048576 }
        ensures within { IfOk result (λ bytes. vec_len bytes ≤ limit) }
        ensures calls { Self.called self.new ≡ one_more_call (Self.called self.old) }
        ensures fetched { Self.fetches self.old self.new place.now limit (outcome_of result) };

    /// Is told what was recorded of a place with this number: `None` if its page was found, and
    /// otherwise the reason why it failed. The reason can differ from that of the fetch: it is
    /// `NoMemory` (5) if the page had no memory, or was past the limit of memory.
    ///
    /// A worker calls it once for each place that it found or failed, after the fetch, and holds no
    /// lock of the desk. If nothing is recorded, because the number is no longer out, there is no
    /// call.
    fn recorded(&self, _rt: &R, _number: u32, _place: &Place, _failed: Option<Why>) {}
}
