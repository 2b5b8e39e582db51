//! Laws of workers, of shares and of admitted outcomes; and, for tests and wrong bodies, `Kept` and
//! `settle`, which no other crate uses.

ghost use Rattle.gopher_crew.specs.Admitted.{AdmittedOutcomesAgree};
ghost use Rattle.gopher_crew.specs.Rounds.{RoundsAreCounted};
ghost use Rattle.gopher_crew.specs.Share.{NoEventHasTwoMakers};

pub use crate::desk::kept::Kept;
use crate::working::fetch::Calls;
pub use crate::working::settling::settle;

/// Over a worker's rounds, its share rises by at least two for each place that it found or failed,
/// and by at most two for each call of its fetcher, unless the count of its calls is at its last
/// value. The function does nothing: its contract is the law.
pub fn rounds_are_counted<F: Calls>()
    ensures { RoundsAreCounted F.fetches F.called }
{}

/// A legal record agrees with a table of outcomes if the rule of its desk admits no others than the
/// table's. So a finished crawl of such a desk gives the final answers of `gopher_catalogue`,
/// by any workers and in any order. The function does nothing: its contract is the law.
pub fn admitted_outcomes_agree()
    ensures { AdmittedOutcomesAgree }
{}

/// No event has two makers, so no claim is handed to two workers, whatever the interleaving of
/// their calls. `Desk::close` shows that all its shares saw one record and one list of makers. The
/// shares of a desk have different numbers (`Desk::open`), which no call changes. The function does
/// nothing: its contract is the law.
pub fn no_event_has_two_makers()
    ensures { NoEventHasTwoMakers }
{}
