//! Fetching over connections, and for a crawl whose failures are printed (in `fetching/`: what is
//! sent and read).

ghost use Rattle.std.specs.Prelude.{◌≡◌, ◌≤◌, vec_len, IfOk};
ghost use Rattle.gopher_crew.specs.Rounds.{one_more_call};

mod cause;
mod connecting;
mod crawl_state;
mod deadline;
mod exchange;
mod pauses;
mod silences;
mod timed;

pub use cause::Cause;
use connecting::connect_before;
pub use crawl_state::CrawlState;
use crawl_state::Failure;
use deadline::Deadline;
pub use exchange::fetch_over;
use gopher_catalogue::Why;
use gopher_crew::{Calls, Fetch};
use gopher_item::Place;
use gopher_text::{MAX_REPLY, Watched};
pub use silences::host_of;
use std::alloc::Global;
use std::io::Eprint;
use std::net::{Net, TcpListener, TcpStream};
use std::str;
use std::sync::Wait;
use std::time::Clock;
use timed::TimedStream;

/// Fetches the replies of places, each over a connection of its own to the place's host and port.
#[derive(Debug, Drop)]
pub struct TcpFetch {
    pub(crate) calls: u64,
}

impl TcpFetch {
    /// Makes a fetcher that has fetched nothing yet.
    pub fn new() -> TcpFetch
        ensures { result.calls ≡ 0 }
    {
        TcpFetch { calls: 0 }
    }
}

// Connects to the server of a place. `None` if the host's name isn't UTF-8 or has no address, or if
// no server answers.
fn connect<R: Net<Listener = TcpListener, Stream = TcpStream>>(
    rt: &R,
    place: &Place,
) -> Option<TcpStream> {
    let host = str::from_utf8(place.host()).ok()?;
    TcpStream::connect(rt, (host, place.port())).ok()
}

// Contracts know nothing of what a socket sends, so of a fetch they say only that it was counted.
impl Calls for TcpFetch {
    ghost called = { λ fetcher. fetcher.calls };

    ghost fetches = { λ old new place limit outcome. new.calls ≡ one_more_call old.calls };

    fn calls(&self) -> u64 {
        self.calls
    }
}

impl<R: Net<Listener = TcpListener, Stream = TcpStream>> Fetch<R> for TcpFetch {
    fn fetch(
        &mut self,
        rt: &R,
        alloc: Global,
        place: &Place,
        limit: usize,
    ) -> Result<Vec<u8>, Why> {
        self.calls = self.calls.saturating_add(1);
        match connect(rt, place) {
            Some(stream) => fetch_over(alloc, &mut Watched::new(stream), place, limit),
            None => Err(Why::Connect),
        }
    }
}

// Fetches the reply of a place before a deadline.
fn fetch_before<R: Net + Clock>(
    rt: &R,
    alloc: Global,
    place: &Place,
    limit: usize,
    deadline: Deadline,
) -> Result<Vec<u8>, Failure>
    requires { limit ≤ MAX_REPLY }
    ensures { IfOk result (λ bytes. vec_len bytes ≤ limit) }
{
    let stream = match connect_before(rt, place, deadline) {
        Ok(stream) => stream,
        Err(cause) => {
            return Err(Failure {
                why: Why::Connect,
                cause,
            });
        }
    };
    let mut watched = Watched::new(TimedStream::new(rt, stream, deadline));
    match fetch_over(alloc, &mut watched, place, limit) {
        Ok(reply) => Ok(reply),
        Err(why) => Err(Failure {
            why,
            cause: watched.into_inner().cause(),
        }),
    }
}

// Fetches a place, unless its host is given up, and notes in the state how that ended.
fn fetch_and_note<R: Net + Clock + Wait + Eprint>(
    rt: &R,
    alloc: Global,
    state: &CrawlState,
    place: &Place,
    limit: usize,
) -> Result<Vec<u8>, Failure>
    requires { limit ≤ MAX_REPLY }
    ensures { IfOk result (λ bytes. vec_len bytes ≤ limit) }
{
    let Ok(host) = host_of(alloc, place) else {
        return Err(Failure {
            why: Why::NoMemory,
            cause: Cause::Unknown,
        });
    };
    let begun = state.begin(rt, &host)?;
    let deadline = Deadline::new(begun.began, state.timeout);
    state.outs.begin(rt, place);
    let fetched = fetch_before(rt, alloc, place, limit, deadline);
    state.outs.end(rt, place);
    match fetched {
        Ok(reply) => {
            state.end_answered(rt, host, begun);
            Ok(reply)
        }
        Err(failure) => {
            state.end_failed(rt, host, place, begun, failure);
            Err(failure)
        }
    }
}

/// Fetches as a `TcpFetch` does, but in time, as the state of the crawl says, and none of the hosts
/// that are given up. Adds each place that is recorded as failed to the failures of the crawl.
#[derive(Drop)]
pub struct CrawlFetch<'a> {
    calls: u64,
    state: &'a CrawlState,
    // What stopped the last fetch; `Unknown` if nothing did.
    cause: Cause,
}

impl<'a> CrawlFetch<'a> {
    /// Makes a fetcher that has fetched nothing yet.
    pub fn new(state: &'a CrawlState) -> CrawlFetch<'a>
        ensures { result.calls ≡ 0 }
    {
        CrawlFetch {
            calls: 0,
            state,
            cause: Cause::Unknown,
        }
    }
}

impl<'a> Calls for CrawlFetch<'a> {
    ghost called = { λ fetcher. fetcher.calls };

    ghost fetches = { λ old new place limit outcome. new.calls ≡ one_more_call old.calls };

    fn calls(&self) -> u64 {
        self.calls
    }
}

impl<'a, R: Net<Listener = TcpListener, Stream = TcpStream> + Clock + Wait + Eprint> Fetch<R>
    for CrawlFetch<'a> {
    fn fetch(
        &mut self,
        rt: &R,
        alloc: Global,
        place: &Place,
        limit: usize,
    ) -> Result<Vec<u8>, Why> {
        self.calls = self.calls.saturating_add(1);
        self.cause = Cause::Unknown;
        match fetch_and_note(rt, alloc, self.state, place, limit) {
            Ok(reply) => Ok(reply),
            Err(failure) => {
                self.cause = failure.cause;
                Err(failure.why)
            }
        }
    }

    fn recorded(&self, rt: &R, number: u32, place: &Place, failed: Option<Why>) {
        if let Some(why) = failed {
            self.state.add_failure(rt, number, place, why, self.cause);
        }
    }
}
