//! `Deadline`: how long a fetch may take, and each of its steps.

ghost use Rattle.std.specs.Prelude.{◌≡◌, ◌<◌, ◌*◌, ◌↔◌, min, IfOk, IfSome, IsSome};
ghost use Rattle.std.specs.Duration.{as_nanos};
ghost use Rattle.gopher_hole.specs.Deadline.{AllowsWait, nanos_left, wait_nanos, whole_nanos};

use std::io::{self, ErrorKind};
use std::time::{Clock, Duration, Instant};

// How many times as long as one step a whole fetch may take.
const STEPS: u32 = 10;

/// How long a fetch may take that began then. A step of it, a connect, a write or a read, may take
/// `step`, and all of it ten times as long. If `step` is zero, it may take for ever.
#[derive(Clone, Copy)]
pub struct Deadline {
    began: Instant,
    step: Duration,
}

// How much is left of a time that began then. `None` if nothing is.
fn time_left(began: Instant, limit: Duration, now: Instant) -> Option<Duration>
    ensures variant { IsSome result ↔ (0 < nanos_left began (as_nanos limit) now) }
    ensures some { IfSome result (λ left. as_nanos left ≡ nanos_left began (as_nanos limit) now) }
{
    let left = limit.saturating_sub(now.duration_since(began));
    if left.is_zero() { None } else { Some(left) }
}

// The shorter of two times.
fn shorter(first: Duration, second: Duration) -> Duration
    ensures { as_nanos result ≡ min (as_nanos first) (as_nanos second) }
{
    if first.as_nanos() <= second.as_nanos() {
        first
    } else {
        second
    }
}

impl Deadline {
    /// The deadline of a fetch that began then, with these seconds for a step.
    pub fn new(began: Instant, seconds: u64) -> Deadline
        ensures began { result.began ≡ began }
        ensures step { as_nanos result.step ≡ seconds * 1_000_000_000 }
    {
        Deadline {
            began,
            step: Duration::from_secs(seconds),
        }
    }

    // How long a step that begins now may take. `None` if no time is left for it.
    fn wait_at(self, now: Instant) -> Option<Duration>
        ensures variant { IsSome result ↔ (0 < nanos_left self.began (whole_nanos self.step) now) }
        ensures some { IfSome result (λ wait. as_nanos wait ≡ wait_nanos self.began self.step now) }
    {
        match time_left(self.began, self.step.saturating_mul(STEPS), now) {
            Some(left) => Some(shorter(self.step, left)),
            None => None,
        }
    }

    /// How long a step that begins now may take: more than no time, and at most `step`. `None` if
    /// it may take for ever.
    ///
    /// # Errors
    ///
    /// `TimedOut` if no time is left, or an error of the clock.
    pub fn wait(self, clock: &impl Clock) -> io::Result<Option<Duration>>
        ensures { IfOk result (AllowsWait self.step) }
    {
        if self.step.is_zero() {
            return Ok(None);
        }
        let now = Instant::now(clock)?;
        match self.wait_at(now) {
            Some(wait) => Ok(Some(wait)),
            None => Err(io::Error::from(ErrorKind::TimedOut)),
        }
    }
}
