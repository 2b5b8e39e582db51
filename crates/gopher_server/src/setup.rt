//! What server threads need of the system, made before they start (`set_up`).

use crate::acceptor::{ServerShared, watch};
use crate::decisions::{Clients, Places, WAKER, max_of_network, max_places};
use crate::logging::{LogQueue, ThreadLog};
use crate::messages::Messages;
use gopher_item::NoMemory;
use mio::net::TcpListener;
use mio::{Events, Poll, Token, Waker};
use std::alloc::Global;
use std::io;
use std::net::Net;
use std::sync::{Arc, Mutex};

// The most events of one round.
const MAX_EVENTS: usize = 256;

// The least bytes of the blocks of memory that the C library keeps for the thread that gave them
// back, the number of their sizes, each 16 bytes larger, and how many of each size are set aside. A
// small request needs none above 1,032 bytes.
const MIN_BLOCK: usize = 24;

const SIZES: usize = 64;

const BLOCKS: usize = 3;

/// What the threads of a server have in common.
#[derive(Drop)]
pub struct ServerSetup {
    /// Where they accept connections.
    pub listeners: Vec<TcpListener>,
    /// How many connections they accept together; any number if `None`.
    pub requests: Option<u64>,
    /// How many connections they hold at once at most (`max_connections`).
    pub places: u64,
    /// How many of these they hold of one address at most; a quarter of the places if `None`.
    pub clients_per_address: Option<u64>,
    /// Where they hand on the lines of the log, if requests are logged.
    pub log: Option<Arc<LogQueue>>,
    /// Whether they say on the error stream why they fail, and how many connections they close for
    /// room.
    pub tells: bool,
    /// Where their messages go; to the error stream at once if `None`.
    pub messages: Option<Arc<Messages>>,
}

/// The system resources of a server thread.
#[derive(Drop)]
pub struct ThreadSetup {
    pub(crate) poll: Poll,
    pub(crate) events: Events,
    pub(crate) listeners: Arc<Vec<TcpListener>>,
    pub(crate) shared: Arc<ServerShared>,
    pub(crate) log: ThreadLog,
    /// Memory for small requests, set aside.
    pub(crate) blocks: Vec<Vec<u8>>,
    pub(crate) tells: bool,
    pub(crate) messages: Option<Arc<Messages>>,
}

// The limit of open files of the process, 0 if it isn't known.
fn max_files() -> u64 {
    let mut limit = libc::types::rlimit {
        rlim_cur: 0,
        rlim_max: 0,
    };
    let _refused = libc::getrlimit(libc::RLIMIT_NOFILE, &mut limit);
    limit.rlim_cur
}

/// Returns how many connections a server may hold at once by the limit of open files: at most
/// 16,384. `None` if they don't suffice for a crawl of this very server by `workers` workers, and
/// one client beside it. Without a crawl, `workers` is 0.
pub fn max_connections(listeners: usize, threads: usize, workers: usize) -> Option<u64> {
    let files = max_files();
    let count = |number: usize| u32::try_from(number).unwrap_or(u32::MAX);
    max_places(files, count(listeners), count(threads), count(workers))
}

// A poll for a thread, and its waker.
fn poll_and_waker<R: Net>(rt: &R) -> io::Result<(Poll, Waker)> {
    let poll = Poll::new(rt)?;
    let waker = Waker::new(poll.registry(), Token(WAKER))?;
    Ok((poll, waker))
}

// A poll and a waker for each thread; fewer if the system refuses some.
fn polls_and_wakers<R: Net>(
    rt: &R,
    alloc: Global,
    threads: usize,
) -> Result<(Vec<Poll>, Vec<Waker>), NoMemory> {
    let mut polls = Vec::with_capacity(alloc, threads)?;
    let mut wakers = Vec::with_capacity(alloc, threads)?;
    for _thread in 0..threads {
        if let Ok((poll, waker)) = poll_and_waker(rt) {
            polls.push(poll)?;
            wakers.push(waker)?;
        }
    }
    Ok((polls, wakers))
}

// Blocks of memory of each size that a small request may need. A thread gives them back when it
// starts. The C library then keeps them for that thread, so that a crawl can't take them.
fn small_blocks(alloc: Global) -> Result<Vec<Vec<u8>>, NoMemory> {
    let mut blocks = Vec::new(alloc);
    for block in 0..SIZES * BLOCKS {
        let size = MIN_BLOCK + 16 * (block % SIZES);
        blocks.push(Vec::with_capacity(alloc, size)?)?;
    }
    Ok(blocks)
}

// What the threads of a server share.
#[derive(Drop)]
struct Common {
    listeners: Arc<Vec<TcpListener>>,
    shared: Arc<ServerShared>,
    log: Option<Arc<LogQueue>>,
    messages: Option<Arc<Messages>>,
    tells: bool,
}

// The resources of the thread with this poll.
fn setup_with(alloc: Global, poll: Poll, common: &Common) -> Result<ThreadSetup, NoMemory> {
    let queue = common.log.as_ref().map(Arc::try_clone).transpose()?;
    Ok(ThreadSetup {
        poll,
        events: Events::with_capacity(alloc, MAX_EVENTS)?,
        listeners: Arc::try_clone(&common.listeners)?,
        shared: Arc::try_clone(&common.shared)?,
        log: ThreadLog::new(alloc, queue),
        blocks: small_blocks(alloc)?,
        tells: common.tells,
        messages: common.messages.as_ref().map(Arc::try_clone).transpose()?,
    })
}

/// Sets up `threads` threads of a server, or fewer if the system refuses resources. Starts no
/// thread.
///
/// # Errors
///
/// Out of memory (90).
pub fn set_up<R: Net>(
    rt: &R,
    alloc: Global,
    server: ServerSetup,
    threads: usize,
) -> Result<Vec<ThreadSetup>, NoMemory> {
    let (polls, wakers) = polls_and_wakers(rt, alloc, threads)?;
    let places = Places::new(server.places, server.requests);
    let most = max_of_network(server.places, server.clients_per_address);
    let clients = Mutex::new(Clients::new(alloc, most));
    let shared = ServerShared {
        places,
        clients,
        wakers,
    };
    let common = Common {
        listeners: Arc::new(alloc, server.listeners)?,
        shared: Arc::new(alloc, shared)?,
        log: server.log,
        messages: server.messages,
        tells: server.tells,
    };
    let mut setups = Vec::with_capacity(alloc, threads)?;
    for poll in polls {
        let setup = setup_with(alloc, poll, &common)?;
        if watch(&setup.poll, &common.listeners) {
            setups.push(setup)?;
        }
    }
    Ok(setups)
}
