//! A server thread at work (`serve`): accepting clients, and its round of events.

ghost use Rattle.std.specs.Prelude.{◌≡◌};
ghost use Rattle.std.specs.Option.{is_some};
ghost use Rattle.gopher_server.specs.Waits.{HasNeededTime, IsLongestWait, has_no_work, has_times};
ghost use Rattle.gopher_server.specs.declared.decisions.accepting.Accepting.TheVariants.{Ended};
ghost use Rattle.gopher_server.specs.declared.server.ThreadEnd.TheVariants.{Failed};

use crate::acceptor::Acceptor;
use crate::connection::{Answering, BUFFER_BYTES, Connection, Step};
use crate::decisions::{
    AcceptEvent, AcceptFailure, Closings, Held, Next, WAKER, failure_of, listeners_at,
    longest_wait, network_of,
};
use crate::logging::ThreadLog;
use crate::messages::{MessageStream, Messages};
use crate::send_buffer::limit_send_buffer;
use crate::setup::ThreadSetup;
use crate::thread_clock::ThreadClock;
use gopher_serve::Answers;
use mio::net::TcpStream;
use mio::{Events, Poll};
use std::alloc::Global;
use std::io::{self, Eprint, ErrorKind};
use std::net::SocketAddr;
use std::sync::{Arc, Wait};
use std::time::{Clock, Duration, Instant};

// The most connections that are accepted at a listener before other events are handled. Those left
// wait in the system's queue, which reports them again in the next round.
const MAX_ACCEPTS: u32 = 64;

// After this many reports in a row of one connection each, a thread looks whether more wait.
const MAX_SINGLE: u32 = 4;

/// How a server thread ended.
#[derive(Clone, Copy, Debug, PartialEq, Eq)]
pub enum ThreadEnd {
    /// All connections of the quota were accepted, and all of its connections have ended.
    Served,
    /// A listener is broken, or the system refused to wait.
    Failed,
    /// Out of memory before anything was accepted.
    LacksMemory,
}

/// A server thread.
#[derive(Drop)]
pub(crate) struct Server<'a, A: Answers<'a> + Drop> {
    pub(crate) poll: Poll,
    pub(crate) acceptor: Acceptor,
    pub(crate) connections: Held<Connection<'a>>,
    pub(crate) answering: Answering<A>,
    pub(crate) log: ThreadLog,
    pub(crate) clock: ThreadClock,
    pub(crate) end: ThreadEnd,
    /// The connections that it closed for room.
    pub(crate) closings: Closings,
    // Whether it says on the error stream why it fails.
    tells: bool,
    // Whether it says that a client got no whole reply.
    tells_shortage: bool,
    messages: Option<Arc<Messages>>,
}

impl<'a, A: Answers<'a> + Drop> Server<'a, A> {
    // ---- messages

    // If it tells what fails, says what failed, and the system's error.
    fn tell<R: Wait + Eprint>(&self, rt: &R, what: &str, error: io::Error) {
        if self.tells {
            let stream = MessageStream::new(rt, &self.messages);
            let _ = eprintln!(stream; "{what}{error}");
        }
    }

    // Says once that a client got no whole reply.
    fn tell_shortage<R: Wait + Eprint>(&mut self, rt: &R) {
        if self.answering.is_short && self.tells_shortage {
            self.tells_shortage = false;
            let stream = MessageStream::new(rt, &self.messages);
            let _ = stream.eprintln("hole: a client got no whole reply: out of memory");
        }
    }

    // If it tells what fails, says how many connections were closed for room: at once, and then at
    // most once in a minute.
    fn tell_closings<R: Wait + Clock + Eprint>(&mut self, rt: &R) {
        if !self.tells || !self.closings.are_untold() {
            return;
        }
        let now = self.clock.now(rt);
        if let Some(count) = self.closings.take_due(now) {
            let stream = MessageStream::new(rt, &self.messages);
            let _ = eprintln!(stream; "hole: connections closed for room: {count}");
        }
    }

    // ---- accepting

    // Accepts the connections that wait at a listener, or the first of them: the system reports the
    // others again, unless another thread woke this one. An accept that finds none costs more than
    // a further report, so it takes one connection for each report while one came at a time. While
    // a search waits it accepts all, because each round then takes longer.
    fn accept<R: Wait + Clock + Eprint>(&mut self, rt: &R, index: usize, is_woken: bool) {
        if is_woken || self.connections.next_search().is_some() {
            self.acceptor.single = MAX_SINGLE;
        }
        let mut was_short = false;
        for _accepted in 0..MAX_ACCEPTS {
            match self.acceptor.next_client(index) {
                Some(Ok((stream, address))) => {
                    self.acceptor.lost = 0;
                    self.welcome(rt, stream, address);
                    self.acceptor.take_quota(&self.poll);
                    if self.acceptor.single < MAX_SINGLE {
                        self.acceptor.single += 1;
                        return;
                    }
                }
                Some(Err(error)) if error.kind() == ErrorKind::WouldBlock => {
                    self.acceptor.single = 0;
                    self.acceptor.lost = 0;
                    return;
                }
                Some(Err(error)) => was_short = self.meet_failure(rt, error, was_short),
                None => return,
            }
        }
    }

    // Handles the error of a failed accept. If descriptors or memory are short, makes room, or else
    // accepts nothing for a time and leaves the connection to the other threads, as it does if many
    // connections in a row are lost. Returns whether it did one of both; `was_short` says whether
    // the accept before did.
    fn meet_failure<R: Wait + Clock + Eprint>(
        &mut self,
        rt: &R,
        error: io::Error,
        was_short: bool,
    ) -> bool {
        let number = error.raw_os_error().unwrap_or(0).unsigned_abs();
        let failure = failure_of(number, was_short, self.acceptor.lost);
        match failure {
            AcceptFailure::IsLost => {
                self.acceptor.lost = self.acceptor.lost.saturating_add(1);
                return false;
            }
            AcceptFailure::IsShort => {
                if let Some(key) = self.connections.victim() {
                    self.closings.add();
                    self.close(rt, key);
                    return failure.is_shortage();
                }
            }
            AcceptFailure::StaysShort | AcceptFailure::AreLost => {}
            AcceptFailure::IsBroken => {
                self.tell(rt, "hole: connections can't be accepted: ", error);
                self.fail();
                return false;
            }
        }
        let now = self.clock.now(rt);
        self.acceptor.lost = 0;
        self.acceptor.meet(&self.poll, AcceptEvent::IsShort, now);
        failure.is_shortage()
    }

    // Goes on with a new connection at once, and holds it if it has to wait.
    fn welcome<R: Wait + Clock>(&mut self, rt: &R, stream: TcpStream, address: SocketAddr) {
        let alloc = self.answering.alloc;
        let peer = address.ip();
        let accepted = self.log.accept(rt, peer);
        limit_send_buffer(&stream, self.acceptor.shared.places.taken());
        let mut connection: Connection<'a> = Connection::new(
            alloc,
            stream,
            network_of(peer),
            accepted,
        );
        let may_enlarge = self.connections.may_enlarge();
        let is_held_back = self.connections.next_search().is_some();
        let step = connection.go_on(&mut self.answering, may_enlarge, is_held_back);
        match step.next {
            Next::Ends | Next::Breaks => connection.log_request(rt, alloc, &mut self.log),
            _ => self.hold(rt, connection, step),
        }
    }

    // Holds a connection that has to wait, unless its network has as many as it may.
    fn hold<R: Wait + Clock>(&mut self, rt: &R, connection: Connection<'a>, step: Step) {
        let mut connection = connection;
        match self.acceptor.shared.take_client(rt, connection.network) {
            Ok(true) => self.take_in(rt, connection, step),
            Ok(false) => connection.log_request(rt, self.answering.alloc, &mut self.log),
            Err(_) => {
                self.answering.is_short = true;
                connection.log_request(rt, self.answering.alloc, &mut self.log);
            }
        }
    }

    // Takes in a connection that is counted for its network. Then makes room if there are too many.
    fn take_in<R: Wait + Clock>(&mut self, rt: &R, connection: Connection<'a>, step: Step) {
        let (is_silent, network) = (!connection.has_asked(), connection.network);
        match self.connections.take_in(connection) {
            Ok(key) => {
                self.acceptor.shared.places.take();
                if is_silent && self.connections.mark_silent(key).is_err() {
                    return self.close(rt, key);
                }
                self.meet_step(rt, key, step);
                self.make_room(rt);
            }
            Err(mut refused) => {
                self.acceptor.shared.give_back_client(rt, network);
                refused.log_request(rt, self.answering.alloc, &mut self.log);
            }
        }
    }

    // ---- rounds

    // Goes on with what an event names. `is_gone` says that a client takes nothing more.
    fn handle_event<R: Wait + Clock + Eprint>(&mut self, rt: &R, token: usize, is_gone: bool) {
        if let Some(listeners) = listeners_at(token, self.acceptor.number_of_listeners()) {
            for index in listeners {
                self.accept(rt, index, token == WAKER);
            }
            return;
        }
        match self.connections.next_after_event(token, is_gone) {
            Some(Next::GoesOn) => self.go_on(rt, token),
            Some(Next::Lingers) => self.read_on(rt, token),
            Some(Next::Breaks) => self.close(rt, token),
            _ => {}
        }
    }

    // Whether nothing is left to do.
    fn is_done(&self) -> bool
        ensures { result ≡ has_no_work self.now.acceptor.state self.now.connections }
    {
        self.acceptor.state.has_ended() && self.connections.len() == 0
    }

    /// Returns the time if it is needed: a round in which nothing has a time reads no clock.
    pub(crate) fn time_if(&self, clock: &impl Clock, is_needed: bool) -> Option<u64>
        ensures { is_some result ≡ is_needed }
    {
        if is_needed {
            Some(self.clock.now(clock))
        } else {
            None
        }
    }

    // Whether it has something to do at a time: at the end of its pause, or at a deadline.
    fn has_times(&self) -> bool
        ensures { result ≡ has_times self.now.acceptor.state self.now.connections }
    {
        let pause_end = self.acceptor.state.pause_end();
        pause_end.is_some() || self.connections.first_deadline().is_some()
    }

    // How long it may wait for events at the time `now`; `None` if it may wait until one comes.
    fn poll_timeout(&self, now: Option<u64>) -> Option<Duration>
        requires { HasNeededTime self.now.acceptor.state self.now.connections now }
        ensures { IsLongestWait self.now.connections self.now.acceptor.state self.now.log now
            result }
    {
        let searches = self.connections.next_search().is_some();
        let resume = self.acceptor.state.pause_end();
        let deadline = self.connections.first_deadline();
        let log = self.log.poll_timeout();
        let wait = longest_wait(searches, resume, deadline, log, now.unwrap_or(0))?;
        Some(Duration::from_millis(wait))
    }

    // Waits for events, and handles them. Then accepts no more than its share of connections: it
    // leaves new ones to other threads while it holds many more than its share, and accepts again
    // when it doesn't, or when a pause is over.
    fn work<R: Wait + Clock + Eprint>(&mut self, rt: &R, events: &mut Events) -> io::Result<()> {
        let now = self.time_if(rt, self.has_times());
        let timeout = self.poll_timeout(now);
        self.poll.poll(events, timeout)?;
        for event in events.iter() {
            let is_gone = event.is_error() || event.is_write_closed();
            self.handle_event(rt, event.token().0, is_gone);
        }
        self.search(rt);
        self.end_lingering(rt);
        self.close_excess(rt);
        self.tell_shortage(rt);
        self.tell_closings(rt);
        let now = self.time_if(rt, !self.acceptor.state.is_watching());
        let held = self.connections.len() as u64;
        let round = AcceptEvent::Round(self.acceptor.shared.places.leaves_to_others(held));
        self.acceptor.meet(&self.poll, round, now.unwrap_or(0));
        if self.log.poll_timeout().is_some() {
            if let Ok(now) = Instant::now(rt) {
                self.log.hand_on_due(rt, self.answering.alloc, now);
            }
        }
        Ok(())
    }

    // Works until nothing is left to do, or the system refuses to wait. Then hands on what is left
    // of the log.
    fn work_to_end<R: Wait + Clock + Eprint>(&mut self, rt: &R, events: &mut Events) -> ThreadEnd {
        self.acceptor.take_quota(&self.poll);
        for _round in rt.forever() {
            if self.is_done() {
                break;
            }
            if let Err(error) = self.work(rt, events) {
                self.tell(rt, "hole: a server thread can't wait for clients: ", error);
                self.give_up(rt);
                break;
            }
        }
        self.log.end(rt, self.answering.alloc);
        self.end
    }

    // Accepts nothing more, and reports a failure at its end.
    fn fail(&mut self)
        ensures state { self.new.acceptor.state ≡ Ended }
        ensures end { self.new.end ≡ Failed }
    {
        self.end = ThreadEnd::Failed;
        self.acceptor.meet(&self.poll, AcceptEvent::Ends, 0);
    }

    // Closes all connections, and fails.
    fn give_up<R: Wait + Clock>(&mut self, rt: &R)
        ensures state { self.new.acceptor.state ≡ Ended }
        ensures end { self.new.end ≡ Failed }
    {
        for _closed in 0..self.connections.len() {
            if let Some(key) = self.connections.victim() {
                self.close(rt, key);
            }
        }
        self.fail();
    }
}

/// Serves in this thread: accepts connections and answers each. Returns when the quota is used up
/// and no connection is left. If it fails before and the setup says so, it says why on the error
/// stream.
pub fn serve<'a, A: Answers<'a> + Drop, R: Wait + Clock + Eprint>(
    rt: &R,
    alloc: Global,
    setup: ThreadSetup,
    answers: A,
) -> ThreadEnd {
    drop(setup.blocks);
    let mut events = setup.events;
    let (Ok(connections), Ok(clock)) = (Held::new(alloc), ThreadClock::new(rt)) else {
        if setup.tells {
            let stream = MessageStream::new(rt, &setup.messages);
            let _ = stream.eprintln("hole: a server thread ends: out of memory");
        }
        return ThreadEnd::LacksMemory;
    };
    let answering = Answering {
        alloc,
        answers,
        buffer: [0u8; BUFFER_BYTES],
        is_short: false,
    };
    let mut server = Server {
        poll: setup.poll,
        acceptor: Acceptor::new(setup.listeners, setup.shared),
        connections,
        answering,
        log: setup.log,
        clock,
        end: ThreadEnd::Served,
        closings: Closings::new(),
        tells: setup.tells,
        tells_shortage: setup.tells,
        messages: setup.messages,
    };
    server.work_to_end(rt, &mut events)
}
