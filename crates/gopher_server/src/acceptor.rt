//! How a server thread accepts connections: its listeners, its quota, its pauses, and what it
//! shares with other threads.

ghost use Rattle.std.specs.Prelude.{◌≡◌, None};
ghost use Rattle.gopher_server.specs.declared.decisions.accepting.Accepting.TheVariants.{Ended};
ghost use Rattle.gopher_server.specs.declared.decisions.accepting.AcceptDuty.TheVariants.{End};
ghost use Rattle.gopher_server.specs.declared.decisions.accepting.AcceptEvent.TheVariants.{Ends};

use crate::decisions::{AcceptDuty, AcceptEvent, Accepting, Clients, FIRST_LISTENER, Places};
use libc::net::{EPOLL_CTL_ADD, EPOLL_CTL_DEL, EPOLLIN};
use mio::net::{TcpListener, TcpStream};
use mio::{Poll, Waker};
use std::alloc::AllocError;
use std::io;
use std::net::SocketAddr;
use std::os::fd::AsRawFd;
use std::sync::{Arc, Mutex, Wait};

/// The most listeners of a server.
pub const MAX_LISTENERS: usize = 1_024;

// Wakes one thread for each connection instead of all (`EPOLLEXCLUSIVE` of Linux).
const EPOLLEXCLUSIVE: u32 = 1 << 28;

/// The state that all server threads share: how many connections they hold and accept together, how
/// many they hold of each network, and the waker of each thread.
#[derive(Drop)]
pub(crate) struct ServerShared {
    pub(crate) places: Places,
    pub(crate) clients: Mutex<Clients>,
    pub(crate) wakers: Vec<Waker>,
}

impl ServerShared {
    /// Counts one more connection of a network, unless it has as many as it may. Returns whether it
    /// did.
    ///
    /// # Errors
    ///
    /// Out of memory: none is counted.
    pub(crate) fn take_client(&self, rt: &impl Wait, network: u64) -> Result<bool, AllocError> {
        self.clients.lock(rt).take(network)
    }

    /// Counts one connection of a network fewer.
    pub(crate) fn give_back_client(&self, rt: &impl Wait, network: u64) {
        self.clients.lock(rt).give_back(network);
    }

    /// Wakes all threads, so that each looks at the shared state again.
    pub(crate) fn wake_all(&self) {
        for waker in self.wakers.iter() {
            let _refused = waker.wake();
        }
    }
}

/// Starts reports of the connections that wait at the listeners. Returns false if the system
/// refuses.
pub(crate) fn watch(poll: &Poll, listeners: &[TcpListener]) -> bool {
    for (index, listener) in listeners.iter().enumerate() {
        let token = FIRST_LISTENER.saturating_add(index) as u64;
        let (poll_fd, fd) = (poll.as_raw_fd(), listener.as_raw_fd());
        if os::epoll_ctl(poll_fd, EPOLL_CTL_ADD, fd, EPOLLIN | EPOLLEXCLUSIVE, token) != 0 {
            unwatch(poll, listeners);
            return false;
        }
    }
    true
}

/// Stops the reports of connections that wait at the listeners.
pub(crate) fn unwatch(poll: &Poll, listeners: &[TcpListener]) {
    for listener in listeners {
        let (poll, fd) = (poll.as_raw_fd(), listener.as_raw_fd());
        let _refused = os::epoll_ctl(poll, EPOLL_CTL_DEL, fd, 0, 0);
    }
}

/// What accepts the connections of a server thread. Times are milliseconds by the thread's clock.
#[derive(Drop)]
pub(crate) struct Acceptor {
    listeners: Option<Arc<Vec<TcpListener>>>,
    /// Whether it accepts connections, and if not, why.
    pub(crate) state: Accepting,
    /// How many reports in a row it took for one connection each; `MAX_SINGLE` while it accepts
    /// until none waits.
    pub(crate) single: u32,
    /// How many accepts in a row lost their connections.
    pub(crate) lost: u32,
    /// What it shares with those of other threads.
    pub(crate) shared: Arc<ServerShared>,
}

impl Acceptor {
    /// Makes an acceptor for these listeners. Their connections are reported already.
    pub(crate) fn new(listeners: Arc<Vec<TcpListener>>, shared: Arc<ServerShared>) -> Acceptor {
        shared.places.add_thread();
        Acceptor {
            listeners: Some(listeners),
            state: Accepting::Watches,
            single: 0,
            lost: 0,
            shared,
        }
    }

    /// Returns how many listeners it has, 0 if it accepts nothing more.
    pub(crate) fn number_of_listeners(&self) -> usize {
        self.listeners
            .as_ref()
            .map_or(0, |listeners| listeners.len())
    }

    // Does what a change of its state asks. Returns false if the system refuses.
    fn fulfil(&mut self, poll: &Poll, duty: AcceptDuty) -> bool
        ensures state { self.new.state ≡ self.old.state }
        ensures closed { duty ≡ End → self.new.listeners ≡ None }
    {
        let Some(listeners) = &self.listeners else {
            return true;
        };
        match duty {
            AcceptDuty::Nothing => return true,
            AcceptDuty::Watch => return watch(poll, listeners),
            AcceptDuty::HandOver => unwatch(poll, listeners),
            AcceptDuty::End => {
                unwatch(poll, listeners);
                let _closed = self.listeners.take();
                self.shared.places.lose_thread();
            }
        }
        self.shared.wake_all();
        true
    }

    /// Goes over to the state after an event at the time `now`, and does what that asks. The last
    /// thread that ends closes the listeners. If the system refuses reports of connections, it
    /// pauses as if memory were short.
    pub(crate) fn meet(&mut self, poll: &Poll, event: AcceptEvent, now: u64)
        ensures { event ≡ Ends → self.new.state ≡ Ended }
    {
        let duty = self.state.meet(event, now);
        if !self.fulfil(poll, duty) {
            let duty = self.state.meet(AcceptEvent::IsShort, now);
            let _done = self.fulfil(poll, duty);
        }
    }

    /// Takes one of the quota, or stops accepting if none is left.
    pub(crate) fn take_quota(&mut self, poll: &Poll) {
        if !self.shared.places.take_quota() {
            self.meet(poll, AcceptEvent::Ends, 0);
        }
    }

    /// Accepts the next connection at a listener; `None` if nothing is accepted now.
    pub(crate) fn next_client(&self, index: usize) -> Option<io::Result<(TcpStream, SocketAddr)>> {
        if !self.state.is_watching() {
            return None;
        }
        let listener = self.listeners.as_ref()?.get(index)?;
        Some(listener.accept())
    }
}
