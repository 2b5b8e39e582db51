//! The lines that tell how far a crawl is, as values: what each says, and when it is due.

ghost use Rattle.std.specs.Prelude.{◌≡◌, ◌≢◌, ◌-◌, Some};
ghost use Rattle.std.specs.Bool.{MatchBool};
ghost use Rattle.gopher_hole.specs.Progress.{is_limit_due, newly_stopped};

use gopher_catalogue::Status;
use gopher_crew::Outcomes;
use std::fmt;

/// The sizes of a crawl.
#[derive(Clone, Copy, Debug, PartialEq, Eq)]
pub struct Sizes {
    /// The number of places in each state.
    pub status: Status,
    /// How many places failed for good.
    pub failed: u64,
}

impl Sizes {
    /// Returns the sizes with these outcomes: a place with its last outcome that isn't found failed
    /// for good.
    pub fn of(outcomes: Outcomes) -> Sizes
        ensures status { result.status ≡ outcomes.status }
        ensures failed { result.failed ≡ outcomes.status.done - outcomes.found }
    {
        let Outcomes { status, found } = outcomes;
        Sizes {
            status,
            failed: u64::from(status.done).saturating_sub(found),
        }
    }

    /// Returns whether a line of these sizes is due after the last one, if there was one: it told
    /// other sizes.
    pub fn are_due(self, told: Option<Sizes>) -> bool
        ensures { MatchBool result (told ≢ Some self) (told ≡ Some self) }
    {
        told != Some(self)
    }
}

/// How many workers stopped because memory ran out.
#[derive(Clone, Copy, Debug)]
pub struct StoppedWorkers {
    /// Their number.
    pub count: u64,
}

impl fmt::Display for StoppedWorkers {
    ghost use Rattle.std.specs.Prelude.{Some};
    ghost use Rattle.gopher_hole.specs.Progress.{stopped_line};

    ghost output = { λ stopped. Some (stopped_line stopped.count) };

    fn fmt<W: fmt::Write>(&self, f: &mut fmt::Formatter<W>) -> fmt::Result {
        let count = self.count;
        write!(f, "hole: workers that stopped, out of memory: {count}")
    }
}

/// Returns how many workers are told to have stopped: all that did, if they are more than `told`.
pub fn newly_stopped(told: u64, stopped: u64) -> Option<u64>
    ensures { result ≡ newly_stopped told stopped }
{
    if told < stopped { Some(stopped) } else { None }
}

/// Returns whether to tell that this number of pages was left out for the limit of memory. That is
/// told once.
pub fn is_limit_due(is_told: bool, past_limit: u64) -> bool
    ensures { result ≡ is_limit_due is_told past_limit }
{
    !is_told && 0 < past_limit
}
