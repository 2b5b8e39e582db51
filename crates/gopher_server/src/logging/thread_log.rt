//! A server thread's part of the log: adding lines, and handing on batches.

ghost use Rattle.std.specs.Prelude.{◌≡◌, true, false, None, Some, IfSome, if◌then◌else◌};
ghost use Rattle.gopher_text.specs.Watched.{CountsFailure};
ghost use Rattle.gopher_server.specs.Batch.{is_empty, is_full, no_lines, with_dropped};
ghost use Rattle.gopher_server.specs.ThreadLog.{AddsLine, AddsRequest, KeepsSince, OffersLines, is_due, poll_timeout, logged_request, since_with};

use crate::logging::batch::Batch;
use crate::logging::queue::{LogQueue, Receipt};
use crate::logging::request_line::RequestLine;
use crate::thread_clock::{micros_of, moment_now};
use jiff_core::civil::DateTime;
use std::alloc::Global;
use std::net::IpAddr;
use std::sync::{Arc, Wait};
use std::thread;
use std::time::{Clock, Duration, Instant};

// For how many milliseconds a server thread keeps a line to itself at most.
const MAX_KEPT: u64 = 250;

// How often a server thread that ends tries to hand on its lines, and the milliseconds between two
// tries.
const MAX_TRIES: u32 = 20;

const REST: u64 = 50;

/// How a connection was accepted.
#[derive(Clone, Copy, Debug)]
pub struct Accepted {
    peer: IpAddr,
    began: Instant,
}

/// When a request ended: the time by which its duration is measured, and the moment that the log
/// tells.
#[derive(Clone, Copy, Debug)]
pub struct RequestEnd {
    at: Instant,
    moment: DateTime,
}

impl RequestEnd {
    /// Returns the present. `None` if a clock can't be read, or is set before 1970 or after 9999.
    pub fn now(clock: &impl Clock) -> Option<RequestEnd> {
        let at = Instant::now(clock).ok()?;
        let moment = moment_now(clock)?;
        Some(RequestEnd { at, moment })
    }
}

// Whether lines that are kept since a time are handed on now.
fn is_due(since: Option<Instant>, now: Instant) -> bool
    ensures { result ≡ is_due since now }
{
    since.is_some_and(|since| now.duration_since(since) >= Duration::from_millis(MAX_KEPT))
}

/// A server thread's part of the log. It never waits for the thread that writes: if the queue is
/// full, it keeps its lines, and counts the requests for which it has no room.
///
/// Contracts see its lines as `batch`, the time from which they are kept as `since`, what the queue
/// said of the last lines that it took as `receipt`, and as `refusals` how often the queue refused
/// lines, memory ran out or a clock couldn't be read. So a request is dropped only if that number
/// rose, and lines are gone only if there is a receipt for them.
#[derive(Drop)]
pub struct ThreadLog {
    batch: Batch,
    queue: Option<Arc<LogQueue>>,
    since: Option<Instant>,
    receipt: Option<Receipt>,
    refusals: u64,
}

impl ThreadLog {
    /// Makes a part without lines, whose batches go to `queue`. Without a queue, nothing is logged.
    /// Takes no memory.
    pub fn new(alloc: Global, queue: Option<Arc<LogQueue>>) -> ThreadLog
        ensures lines { result.batch ≡ no_lines }
        ensures since { result.since ≡ None }
    {
        ThreadLog {
            batch: Batch::new(alloc),
            queue,
            since: None,
            receipt: None,
            refusals: 0,
        }
    }

    /// Records that a connection from an address is accepted now. Returns `None` if nothing is
    /// logged, or the clock can't be read.
    pub fn accept(&self, clock: &impl Clock, peer: IpAddr) -> Option<Accepted>
        ensures none { self.now.queue ≡ None → result ≡ None }
        ensures peer { IfSome result (λ accepted. accepted.peer ≡ peer) }
    {
        let _queue = self.queue.as_ref()?;
        let began = Instant::now(clock).ok()?;
        Some(Accepted { peer, began })
    }

    /// Adds the line of a request: how its connection was accepted, the line that was asked, how
    /// many bytes were sent, and when it ended. If the lines are full, it hands them on first. If
    /// the queue refuses them or memory runs out, it counts the request as dropped. The time from
    /// which lines are kept stays, unless there is no room for the line.
    pub fn add(
        &mut self,
        rt: &impl Wait,
        alloc: Global,
        accepted: Accepted,
        asked: &[u8],
        sent: u64,
        end: RequestEnd,
    )
        ensures lines { AddsLine (logged_request accepted asked.now sent end) self.old self.new }
        ensures since { is_full self.old.batch ≡ false → KeepsSince self.old.since self.new.since }
    {
        if self.batch.is_full() {
            self.hand_on(rt, alloc, end.at);
        }
        self.add_request(alloc, accepted, asked, sent, end);
    }

    // Adds the line of a request without handing on. Counts it as dropped if the lines are full or
    // memory runs out.
    fn add_request(
        &mut self,
        alloc: Global,
        accepted: Accepted,
        asked: &[u8],
        sent: u64,
        end: RequestEnd,
    )
        ensures lines { AddsRequest (logged_request accepted asked.now sent end) self.old self.new }
        ensures since { self.new.since ≡ since_with self.old.since end.at }
        ensures receipt { self.new.receipt ≡ self.old.receipt }
    {
        self.since = self.since.or(Some(end.at));
        let address = accepted.peer;
        let Ok(peer) = format!(in alloc; "{address}") else {
            return self.refuse_line();
        };
        let request = RequestLine {
            ended: end.moment,
            peer: peer.as_bytes(),
            asked,
            sent,
            micros: micros_of(end.at.duration_since(accepted.began)),
        };
        match self.batch.add(&request) {
            Ok(true) => {}
            Ok(false) => self.batch.drop_one(),
            Err(_) => self.refuse_line(),
        }
    }

    // Counts a request as dropped, and that its line was refused.
    fn refuse_line(&mut self)
        ensures dropped { self.new.batch ≡ with_dropped self.old.batch }
        ensures counted { CountsFailure self.old.refusals self.new.refusals }
        ensures since { self.new.since ≡ self.old.since }
        ensures receipt { self.new.receipt ≡ self.old.receipt }
    {
        self.batch.drop_one();
        self.refusals = self.refusals.saturating_add(1);
    }

    /// Counts a request as dropped whose end isn't known, because a clock can't be read.
    pub fn drop_request(&mut self)
        ensures dropped { self.new.batch ≡ with_dropped self.old.batch }
        ensures counted { CountsFailure self.old.refusals self.new.refusals }
    {
        self.refuse_line();
    }

    /// Returns for how many milliseconds the thread may wait before it hands on its lines. Returns
    /// `None` if it has none.
    pub fn poll_timeout(&self) -> Option<u64>
        ensures { result ≡ poll_timeout self.now.batch }
    {
        (!self.batch.is_empty()).then_some(MAX_KEPT)
    }

    /// Hands on its lines, if the first of them is kept for 250 ms (`MAX_KEPT`) at the time `now`.
    pub fn hand_on_due(&mut self, rt: &impl Wait, alloc: Global, now: Instant)
        ensures due { is_due self.old.since now ≡ true → OffersLines self.old self.new }
        ensures early { is_due self.old.since now ≡ false → self.new ≡ self.old }
    {
        if is_due(self.since, now) {
            self.hand_on(rt, alloc, now);
        }
    }

    // Hands on its lines, if the queue has room. Otherwise keeps them for another 250 ms from now.
    fn hand_on(&mut self, rt: &impl Wait, alloc: Global, now: Instant)
        ensures lines { OffersLines self.old self.new }
        ensures since { self.new.since ≡ (if is_empty self.new.batch then None else Some now) }
    {
        self.offer(rt, alloc);
        self.since = (!self.batch.is_empty()).then_some(now);
    }

    // Hands on its lines, if the queue has room. Otherwise keeps them, and counts the refusal.
    fn offer(&mut self, rt: &impl Wait, alloc: Global)
        ensures { OffersLines self.old self.new }
    {
        if self.batch.is_empty() {
            return;
        }
        let Some(queue) = &self.queue else {
            self.refusals = self.refusals.saturating_add(1);
            return;
        };
        let batch = self.batch.take(alloc);
        match queue.offer(rt, batch) {
            Ok(receipt) => self.receipt = Some(receipt),
            Err(batch) => {
                self.batch = batch;
                self.refusals = self.refusals.saturating_add(1);
            }
        }
    }

    /// Hands on its lines when the thread ends. It waits for room, for a second at most.
    #[tactic(auto, using(crate::proofs::Handing::offered_again))]
    pub fn end<R: Wait + Clock>(&mut self, rt: &R, alloc: Global)
        ensures { OffersLines self.old self.new }
    {
        self.offer(rt, alloc);
        for _try in 1..MAX_TRIES {
            if self.batch.is_empty() {
                return;
            }
            thread::sleep(rt, Duration::from_millis(REST));
            self.offer(rt, alloc);
        }
    }
}
