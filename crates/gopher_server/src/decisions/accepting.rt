//! Whether a server thread accepts connections, what it has to do when that changes, at which
//! listeners an event has it accept, and what the error of a failed accept means.

ghost use Rattle.std.specs.Prelude.{◌≡◌};
ghost use Rattle.gopher_server.specs.Accepting.{after_event, duty_at, failure_of, has_ended, is_shortage, is_watching, listeners_at as listeners_at_token, loss_after, pause_end};

use std::ops::Range;

/// The token of the first listener's events; each further listener has the next number. Keys of
/// connections are lower.
pub const FIRST_LISTENER: usize = usize::MAX - 1_024;

/// The token of the events of a thread's waker.
pub const WAKER: usize = usize::MAX - 1_025;

// For how many milliseconds a thread accepts nothing if descriptors or memory are short, or many
// connections in a row are lost.
const PAUSE: u64 = 100;

// This many connections in a row that are lost are too many.
const MANY_LOST: u32 = 64;

/// Whether a server thread accepts connections, and if not, why.
#[derive(Clone, Copy, Debug)]
pub enum Accepting {
    /// It accepts what waits.
    Watches,
    /// It holds many more connections than its share, and leaves new ones to other threads.
    Leaves,
    /// Descriptors or memory are short, or many connections in a row are lost: it accepts nothing
    /// before this time, in milliseconds.
    Pauses(u64),
    /// It accepts nothing more.
    Ended,
}

/// What changes whether a server thread accepts connections.
#[derive(Clone, Copy, Debug)]
pub enum AcceptEvent {
    /// Descriptors or memory are short, or many connections in a row are lost.
    IsShort,
    /// The quota is used up, or the thread fails.
    Ends,
    /// A round of events ends; true if the thread holds many more connections than its share.
    Round(bool),
}

/// What a server thread has to do at such a change.
#[derive(Clone, Copy, Debug)]
pub enum AcceptDuty {
    /// Nothing.
    Nothing,
    /// It has the system report the connections that wait.
    Watch,
    /// It stops these reports and wakes the other threads, which may have connections to accept or
    /// to close.
    HandOver,
    /// It stops these reports for good, counts as gone, and wakes the other threads.
    End,
}

/// Returns the numbers of the listeners at which an event with this token has a thread accept: all
/// of its `listeners` listeners if another thread woke it. `None` if the event is of a connection.
pub fn listeners_at(token: usize, listeners: usize) -> Option<Range<usize>>
    ensures { result ≡ listeners_at_token token listeners }
{
    if token == WAKER {
        return Some(0..listeners);
    }
    let first = token.checked_sub(FIRST_LISTENER)?;
    Some(first..first + 1)
}

/// What the error of a failed accept means.
#[derive(Clone, Copy, Debug)]
pub enum AcceptFailure {
    /// The connection is lost; the next may be accepted.
    IsLost,
    /// It is lost like 63 before it, so waiting may help.
    AreLost,
    /// Descriptors or memory are short; the connection waits.
    IsShort,
    /// They are short again, so closing one more connection makes no room.
    StaysShort,
    /// The listener is broken.
    IsBroken,
}

impl AcceptFailure {
    /// Returns whether descriptors or memory are short. The next failure for that reason then isn't
    /// the first.
    pub fn is_shortage(self) -> bool
        ensures { result ≡ is_shortage self }
    {
        matches!(self, AcceptFailure::IsShort | AcceptFailure::StaysShort)
    }
}

// What a connection that is lost means after `lost` others in a row.
fn loss_after(lost: u32) -> AcceptFailure
    ensures { result ≡ loss_after lost }
{
    if lost < MANY_LOST - 1 {
        AcceptFailure::IsLost
    } else {
        AcceptFailure::AreLost
    }
}

/// Returns what an error of accept(2) means, by its number on Linux, or 0 if it has none, as the
/// client then has no IP address. `was_short` says whether the accept before failed because
/// descriptors or memory were short. `lost` is the number of accepts in a row before it whose
/// connections were lost.
pub fn failure_of(error: u32, was_short: bool, lost: u32) -> AcceptFailure
    ensures { result ≡ failure_of error was_short lost }
{
    match error {
        // ENOMEM, ENFILE, EMFILE, ENOBUFS
        12 | 23 | 24 | 105 => {
            if was_short {
                AcceptFailure::StaysShort
            } else {
                AcceptFailure::IsShort
            }
        }
        // The call was interrupted, or one connection is lost. EPERM, EINTR, and the network errors
        // after which accept(2) says to try again: ENONET, EPROTO, ENOPROTOOPT, ENETDOWN,
        // ENETUNREACH, ECONNABORTED, EHOSTDOWN, EHOSTUNREACH. It names EOPNOTSUPP too, but every
        // accept at a socket without connections fails with that.
        0 | 1 | 4 | 64 | 71 | 92 | 100 | 101 | 103 | 112 | 113 => loss_after(lost),
        _ => AcceptFailure::IsBroken,
    }
}

impl Accepting {
    /// Returns whether the thread accepts what waits.
    pub fn is_watching(self) -> bool
        ensures { result ≡ is_watching self }
    {
        matches!(self, Accepting::Watches)
    }

    /// Returns whether the thread accepts nothing more.
    pub fn has_ended(self) -> bool
        ensures { result ≡ has_ended self }
    {
        matches!(self, Accepting::Ended)
    }

    /// Returns the end of the pause, in milliseconds, if the thread pauses.
    pub fn pause_end(self) -> Option<u64>
        ensures { result ≡ pause_end self }
    {
        match self {
            Accepting::Pauses(until) => Some(until),
            _ => None,
        }
    }

    // What a change from this state to a new one asks of the thread.
    fn duty_at(self, new: Accepting) -> AcceptDuty
        ensures { result ≡ duty_at self new }
    {
        if new.has_ended() && !self.has_ended() {
            AcceptDuty::End
        } else if self.is_watching() && !new.is_watching() {
            AcceptDuty::HandOver
        } else if new.is_watching() && !self.is_watching() {
            AcceptDuty::Watch
        } else {
            AcceptDuty::Nothing
        }
    }

    /// Goes over to the state after an event at the time `now`, in milliseconds. Returns what the
    /// thread has to do.
    pub fn meet(&mut self, event: AcceptEvent, now: u64) -> AcceptDuty
        ensures state { self.new ≡ after_event self.old event now }
        ensures duty { result ≡ duty_at self.old self.new }
    {
        let old = *self;
        *self = match (old, event) {
            (Accepting::Ended, _) | (_, AcceptEvent::Ends) => Accepting::Ended,
            (_, AcceptEvent::IsShort) => Accepting::Pauses(now.saturating_add(PAUSE)),
            (Accepting::Pauses(until), AcceptEvent::Round(_)) if now < until => old,
            (Accepting::Pauses(_), AcceptEvent::Round(_)) => Accepting::Watches,
            (_, AcceptEvent::Round(true)) => Accepting::Leaves,
            (_, AcceptEvent::Round(false)) => Accepting::Watches,
        };
        old.duty_at(*self)
    }
}
