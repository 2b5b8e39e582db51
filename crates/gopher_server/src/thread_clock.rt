//! The clock of a server thread, and the present moment.

ghost use Rattle.std.specs.Prelude.{◌≡◌};
ghost use Rattle.gopher_server.specs.ThreadLog.{IsMomentAt, micros_of};

use jiff_core::civil::DateTime;
use std::io;
use std::time::{Clock, Duration, Instant, SystemTime, UNIX_EPOCH};

/// Measures the time since it was made.
#[derive(Clone, Copy)]
pub(crate) struct ThreadClock {
    began: Instant,
}

/// Returns the whole microseconds of a time, at most 2^64 - 1.
pub(crate) fn micros_of(time: Duration) -> u64
    ensures { result ≡ micros_of time }
{
    u64::try_from(time.as_micros()).unwrap_or(u64::MAX)
}

// Returns the moment at a time after the beginning of 1970, or `None` after the year 9999.
fn moment_at(since: Duration) -> Option<DateTime>
    ensures { IsMomentAt since result }
{
    let nanos = i128::try_from(since.as_nanos()).ok()?;
    DateTime::from_nanosecond(nanos).ok()
}

/// Returns the present moment, or `None` if the clock can't be read, or is set before 1970 or after
/// 9999.
pub(crate) fn moment_now(clock: &impl Clock) -> Option<DateTime> {
    let now = SystemTime::now(clock).ok()?;
    moment_at(now.duration_since(UNIX_EPOCH).ok()?)
}

impl ThreadClock {
    /// Makes a clock that begins now.
    ///
    /// # Errors
    ///
    /// The system's clock can't be read.
    pub(crate) fn new(clock: &impl Clock) -> io::Result<ThreadClock> {
        let began = Instant::now(clock)?;
        Ok(ThreadClock { began })
    }

    /// Returns the microseconds since it began; 0 if the system's clock can't be read.
    pub(crate) fn micros(&self, clock: &impl Clock) -> u64 {
        match Instant::now(clock) {
            Ok(now) => micros_of(now.duration_since(self.began)),
            Err(_) => 0,
        }
    }

    /// Returns the milliseconds since it began; 0 if the system's clock can't be read.
    pub(crate) fn now(&self, clock: &impl Clock) -> u64 {
        self.micros(clock) / 1_000
    }
}
