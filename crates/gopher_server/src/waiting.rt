//! The connections of a server thread that wait: for their clients, or for the search that makes
//! their reply.

use crate::connection::Step;
use crate::decisions::Next;
use crate::server::Server;
use gopher_serve::Answers;
use std::sync::Wait;
use std::time::Clock;

// For how many microseconds a thread works on a search before it looks for events again.
const SEARCH_TIME: u64 = 1_000;

// How many steps of a search it takes at most before it looks for events again, however short they
// are.
const MAX_SEARCH_STEPS: u32 = 1_000;

impl<'a, A: Answers<'a> + Drop> Server<'a, A> {
    /// If all places are taken, closes connections of this thread if it has more than its share of
    /// them, or else wakes the other threads: one of them has.
    pub(crate) fn make_room<R: Wait + Clock>(&mut self, rt: &R) {
        if !self.acceptor.shared.places.are_exceeded() {
            return;
        }
        if self.is_above_share() {
            self.close_excess(rt);
        } else {
            self.acceptor.shared.wake_all();
        }
    }

    // Whether it holds more than its share of the places.
    fn is_above_share(&self) -> bool {
        let held = self.connections.len() as u64;
        self.acceptor.shared.places.is_above_share(held)
    }

    /// Closes connections while all places are taken and this thread has more than its share of
    /// them: first those that have asked nothing, the one idle longest first.
    pub(crate) fn close_excess<R: Wait + Clock>(&mut self, rt: &R) {
        for _closed in 0..self.connections.len() {
            if !self.is_above_share() || !self.acceptor.shared.places.give_back_excess() {
                return;
            }
            if let Some(key) = self.connections.victim() {
                self.closings.add();
                let _closed = self.take_out(rt, key);
            }
        }
    }

    // Takes out the connection at a key, which closes it, and returns whether there was one.
    fn take_out<R: Wait + Clock>(&mut self, rt: &R, key: usize) -> bool {
        let Some(mut connection) = self.connections.end(key) else {
            return false;
        };
        self.acceptor
            .shared
            .give_back_client(rt, connection.network);
        connection.log_request(rt, self.answering.alloc, &mut self.log);
        true
    }

    /// Closes the connection at a key, and gives its place back.
    pub(crate) fn close<R: Wait + Clock>(&mut self, rt: &R, key: usize) {
        if self.take_out(rt, key) {
            self.acceptor.shared.places.give_back();
        }
    }

    /// Goes on with the connection at a key, for which no search works.
    pub(crate) fn go_on<R: Wait + Clock>(&mut self, rt: &R, key: usize) {
        let may_enlarge = self.connections.may_enlarge() && !self.connections.is_large(key);
        let is_held_back = self.connections.next_search().is_some();
        let Some(connection) = self.connections.get_mut(key) else {
            return;
        };
        let step = connection.go_on(&mut self.answering, may_enlarge, is_held_back);
        let has_asked = connection.has_asked();
        self.connections.touch(key);
        if has_asked {
            self.connections.mark_asked(key);
        }
        self.meet_step(rt, key, step);
    }

    /// Reads what the client of the connection at a key, which lingers, still sends.
    pub(crate) fn read_on<R: Wait + Clock>(&mut self, rt: &R, key: usize) {
        let Some(connection) = self.connections.get_mut(key) else {
            return;
        };
        let next = connection.read_on(&mut self.answering.buffer);
        self.connections.touch(key);
        self.meet_next(rt, key, next);
    }

    /// Does what a step of the connection at a key asks.
    pub(crate) fn meet_step<R: Wait + Clock>(&mut self, rt: &R, key: usize, step: Step) {
        if step.is_enlarged && self.connections.mark_large(key).is_err() {
            return self.close(rt, key);
        }
        self.meet_next(rt, key, step.next);
    }

    // Does what is next with the connection at a key. Unless it is closed, has it reported when its
    // client is ready.
    fn meet_next<R: Wait + Clock>(&mut self, rt: &R, key: usize, next: Next) {
        match next {
            Next::GoesOn | Next::Waits => {}
            Next::Searches => self.queue_search(rt, key),
            Next::Lingers => self.linger(rt, key),
            Next::Ends | Next::Breaks => return self.close(rt, key),
        }
        let lingers = self.connections.lingers(key);
        let Some(connection) = self.connections.get_mut(key) else {
            return;
        };
        if !connection.watch(self.poll.registry(), key, next, lingers) {
            self.close(rt, key);
        }
    }

    // Has the connection at a key logged, and closed in time.
    fn linger<R: Wait + Clock>(&mut self, rt: &R, key: usize) {
        let Some(connection) = self.connections.get_mut(key) else {
            return;
        };
        connection.log_request(rt, self.answering.alloc, &mut self.log);
        let now = self.clock.now(rt);
        if self.connections.linger(key, now).is_err() {
            self.close(rt, key);
        }
    }

    /// Closes the connections that lingered for their time.
    pub(crate) fn end_lingering<R: Wait + Clock>(&mut self, rt: &R) {
        let Some(now) = self.time_if(rt, self.connections.first_deadline().is_some()) else {
            return;
        };
        for _closed in 0..u64::MAX {
            let Some(key) = self.connections.take_due(now) else {
                return;
            };
            self.close(rt, key);
        }
    }

    // ---- searches

    // Puts the connection at a key behind the others whose replies searches make. Unless it is the
    // first, it holds only its line until its turn.
    fn queue_search<R: Wait + Clock>(&mut self, rt: &R, key: usize) {
        if self.connections.queue_search(key).is_err() {
            self.close(rt, key);
        } else if self.connections.waits_for_turn(key) {
            if let Some(connection) = self.connections.get_mut(key) {
                connection.conversation.put_back();
            }
        }
    }

    // Takes steps of the search of the connection at a key, for about `SEARCH_TIME`. Returns what
    // is done next with it, or `None` if there is none.
    fn take_steps(&mut self, clock: &impl Clock, key: usize) -> Option<Next> {
        let until = self.clock.micros(clock).saturating_add(SEARCH_TIME);
        for _step in 0..MAX_SEARCH_STEPS {
            let connection = self.connections.get_mut(key)?;
            let next = connection.go_on(&mut self.answering, false, false).next;
            if next != Next::Searches || self.clock.micros(clock) >= until {
                return Some(next);
            }
        }
        Some(Next::Searches)
    }

    /// Works for a time on the search that is first in the queue.
    pub(crate) fn search<R: Wait + Clock>(&mut self, rt: &R) {
        let Some(key) = self.connections.next_search() else {
            return;
        };
        let next = self.take_steps(rt, key);
        self.connections.end_turn(key, next == Some(Next::Searches));
        match next {
            Some(Next::Searches) | None => {}
            Some(next) => self.meet_next(rt, key, next),
        }
    }
}
