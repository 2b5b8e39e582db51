//! `CrawlState`: what the workers of a crawl share beside its desk.

ghost use Rattle.std.specs.Prelude.{◌≡◌};
ghost use Rattle.gopher_hole.specs.Silences.{silent_at};

use crate::arguments::Serving;
use crate::failures::{Failures, print_failure};
use crate::fetching::cause::Cause;
use crate::fetching::pauses::Pauses;
use crate::fetching::silences::{EndNote, FetchEnd, MAX_TIMEOUTS, Permit, Silences};
use crate::progress::outs::Outs;
use crate::progress::urls::HostPort;
use gopher_catalogue::Why;
use gopher_item::{Home, NoMemory, Place};
use gopher_server::{MessageStream, Messages};
use std::alloc::Global;
use std::io::Eprint;
use std::sync::{Arc, Mutex, Wait};
use std::thread;
use std::time::{Clock, Duration, Instant};

/// What the workers of a crawl share: the places that failed and those that are being fetched, the
/// hosts that time out, when the next fetch of a host may begin, and where messages go.
pub struct CrawlState {
    /// The places that failed.
    pub failures: Failures,
    /// The places that are being fetched.
    pub outs: Outs,
    /// After how many seconds without progress a fetch fails; 0 if it never does.
    pub timeout: u64,
    // The least time between the beginnings of two fetches of a host.
    pause: Duration,
    // The site's own host, which is fetched without a pause.
    own: Place,
    silences: Mutex<Silences>,
    pauses: Mutex<Pauses>,
    messages: Option<Arc<Messages>>,
}

// Written out: a derived one, and that of each part, is proved again at each way out of `serve`.
impl Drop for CrawlState {
    fn drop(self) {
        let Self {
            failures: _failures,
            outs: _outs,
            timeout: _timeout,
            pause: _pause,
            own: _own,
            silences: _silences,
            pauses: _pauses,
            messages: _messages,
        } = self;
    }
}

/// Why a fetch failed: the reason of the event, and what stopped it.
#[derive(Clone, Copy, Debug)]
pub struct Failure {
    /// The reason.
    pub why: Why,
    /// What stopped it.
    pub cause: Cause,
}

/// A fetch that has begun.
#[derive(Clone, Copy, Debug)]
pub struct Begun {
    /// When it began.
    pub began: Instant,
    // Whether its host was given up.
    is_retry: bool,
}

// The step at which a fetch that failed timed out. `None` if it didn't. A failed lookup of the
// host's name counts as a time-out, because it may take as long.
fn silent_at(failure: Failure) -> Option<Why>
    ensures { result ≡ silent_at failure }
{
    match failure.cause {
        Cause::TimedOut | Cause::NoSuchHost => Some(failure.why),
        _ => None,
    }
}

// The time. If the clock can't be read, no connection is made.
fn now(rt: &impl Clock) -> Result<Instant, Failure> {
    match Instant::now(rt) {
        Ok(now) => Ok(now),
        Err(error) => Err(Failure {
            why: Why::Connect,
            cause: Cause::of(error),
        }),
    }
}

// The failure of a place whose host is given up, and last timed out at this step.
fn given_up(why: Why) -> Failure {
    Failure {
        why,
        cause: Cause::GivenUp,
    }
}

// Prints that the host of a place is given up.
fn print_given_up(rt: &impl Eprint, place: &Place) {
    let host = HostPort::of(place);
    let _ = eprintln!(rt; "hole: host given up: {host} ({MAX_TIMEOUTS} time-outs)");
}

impl CrawlState {
    /// The state of a crawl that hasn't begun. Its messages go to the error stream at once if there
    /// are no `messages`.
    ///
    /// # Errors
    ///
    /// `NoMemory` (90).
    pub fn new(
        alloc: Global,
        home: &Home,
        tries: u32,
        serving: &Serving<'_>,
        messages: Option<Arc<Messages>>,
    ) -> Result<CrawlState, NoMemory> {
        let Ok(own) = Place::new(alloc, b'1', b"", home.host(), home.port()) else {
            return Err(NoMemory);
        };
        Ok(CrawlState {
            failures: Failures::new(alloc, tries, serving.progress),
            outs: Outs::new(alloc, serving.progress),
            timeout: serving.fetch_timeout,
            pause: Duration::from_millis(serving.fetch_pause),
            own,
            silences: Mutex::new(Silences::new(alloc)),
            pauses: Mutex::new(Pauses::new(alloc)),
            messages,
        })
    }

    /// Returns the stream for the messages of the server.
    pub fn stream<'s, R>(&'s self, rt: &'s R) -> MessageStream<'s, R> {
        MessageStream::new(rt, &self.messages)
    }

    /// Returns the messages of the server, for its threads. `None` also if memory runs out.
    pub fn messages(&self) -> Option<Arc<Messages>> {
        Arc::try_clone(self.messages.as_ref()?).ok()
    }

    /// Waits until the messages are printed, for a second at most.
    pub fn end_messages<R: Wait + Clock>(&self, rt: &R) {
        if let Some(messages) = &self.messages {
            messages.end(rt);
        }
    }

    /// Adds a failure of the place with this number, if failures are printed (`Failures::add`).
    pub fn add_failure<R: Wait + Eprint>(
        &self,
        rt: &R,
        number: u32,
        place: &Place,
        why: Why,
        cause: Cause,
    ) {
        if self.failures.add(rt, number) {
            print_failure(&self.stream(rt), place, why, cause);
        }
    }

    // Waits until a fetch of a host may begin. Fails at once if the host is given up.
    fn wait_for_turn<R: Clock + Wait>(&self, rt: &R, host: &Place) -> Result<(), Failure> {
        if self.pause.is_zero() || *host == self.own {
            return Ok(());
        }
        let now = now(rt)?;
        let permit = self.silences.lock(rt).permit(host, now);
        if let Permit::GivenUp(why) = permit {
            return Err(given_up(why));
        }
        let next = self.pauses.lock(rt).reserve(host, self.pause, now);
        let wait = match next {
            Ok(next) => next.duration_since(now),
            Err(_full) => self.pause,
        };
        thread::sleep(rt, wait);
        Ok(())
    }

    /// Begins a fetch of a host, once its turn comes.
    ///
    /// # Errors
    ///
    /// - the last reason of the host, `GivenUp`: the host is given up
    /// - `Connect` (1): the clock can't be read
    pub fn begin<R: Clock + Wait>(&self, rt: &R, host: &Place) -> Result<Begun, Failure> {
        self.wait_for_turn(rt, host)?;
        let began = now(rt)?;
        let permit = self.silences.lock(rt).begin(host, began);
        match permit {
            Permit::Free => Ok(Begun {
                began,
                is_retry: false,
            }),
            Permit::Retry => Ok(Begun {
                began,
                is_retry: true,
            }),
            Permit::GivenUp(why) => Err(given_up(why)),
        }
    }

    // Notes that a fetch of a host ended now. `None` if nothing could be noted.
    fn note_end<R: Clock + Wait>(
        &self,
        rt: &R,
        host: Place,
        begun: Begun,
        why: Option<Why>,
    ) -> Option<EndNote> {
        let Begun { began, is_retry } = begun;
        let end = FetchEnd {
            began,
            ended: Instant::now(rt).unwrap_or(began),
            is_retry,
        };
        self.silences.lock(rt).end(host, end, why).ok()
    }

    // Rests after a fetch that timed out. Others whose fetches of the host began with it then have
    // timed out too, before it asks the host again. The system may end a wait later than it was
    // asked to, by an eighth of it.
    fn rest(&self, rt: &impl Clock) {
        thread::sleep(rt, Duration::from_secs(self.timeout / 8 + 1));
    }

    /// Ends a fetch of a place that failed. If the place's host becomes given up and failures are
    /// printed, prints that. If the fetch timed out and the host isn't given up, rests.
    pub fn end_failed<R: Clock + Wait + Eprint>(
        &self,
        rt: &R,
        host: Place,
        place: &Place,
        begun: Begun,
        failure: Failure,
    ) {
        let note = self.note_end(rt, host, begun, silent_at(failure));
        if note.is_some_and(|note| note.becomes_given_up) && self.failures.are_told {
            print_given_up(&self.stream(rt), place);
        }
        let is_given_up = note.is_some_and(|note| note.is_given_up);
        if failure.cause == Cause::TimedOut && !is_given_up {
            self.rest(rt);
        }
    }

    /// Ends a fetch of a host that was answered.
    pub fn end_answered<R: Clock + Wait>(&self, rt: &R, host: Place, begun: Begun) {
        let _note = self.note_end(rt, host, begun, None);
    }
}
