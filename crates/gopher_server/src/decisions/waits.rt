//! How long a server thread may wait for events.

ghost use Rattle.std.specs.Prelude.{◌≡◌};
ghost use Rattle.gopher_server.specs.Waits.{longest_wait as longest, shorter};

// The shorter of two waits, if there are any.
fn shorter(wait: Option<u64>, other: Option<u64>) -> Option<u64>
    ensures { result ≡ shorter wait other }
{
    match (wait, other) {
        (Some(wait), Some(other)) => Some(wait.min(other)),
        _ => wait.or(other),
    }
}

/// Returns for how many milliseconds a server thread may wait for events; `None` if until one
/// comes. It has work without an event while a search waits for its turn, at the end `resume` of
/// its pause, at the first `deadline` of a connection, and once the `log` has kept lines for that
/// long. Times are milliseconds by one clock.
pub fn longest_wait(
    searches: bool,
    resume: Option<u64>,
    deadline: Option<u64>,
    log: Option<u64>,
    now: u64,
) -> Option<u64>
    ensures { result ≡ longest searches resume deadline log now }
{
    if searches {
        return Some(0);
    }
    let time = shorter(resume, deadline);
    shorter(time.map(|time| time.saturating_sub(now)), log)
}
