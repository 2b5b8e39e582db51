//! Starting server threads, and waiting for their end.

ghost use Rattle.std.specs.Prelude.{◌≡◌};
ghost use Rattle.gopher_hole.specs.Ending.{EndAs, StartsAll, after_thread};

use crate::crewing::System;
use crate::site::{Content, Site};
use gopher_crew::{Crew, Pass};
use gopher_server::{ThreadEnd, ThreadSetup, serve};
use std::alloc::Global;
use std::sync::Arc;
use std::thread::{Builder, Promise, PromisedHandle, Threads};

// The bytes of a server thread's stack. The system's own choice, often 8 MiB, uses up a limit of
// the address space.
const STACK: usize = 1 << 20;

/// The promise of a thread that may end in any way.
#[derive(Clone, Copy, Debug, Drop)]
pub struct AnyEnd;

impl Promise<ThreadEnd> for AnyEnd {
    ghost use Rattle.std.specs.Prelude.{⊤};

    ghost kept_by = { λ _ _. ⊤ };
}

/// The server threads that were started.
#[derive(Drop)]
pub struct Started<P: Promise<ThreadEnd>> {
    /// The threads. Each returns how it ended.
    pub threads: Vec<PromisedHandle<ThreadEnd, P>>,
    /// Whether a thread couldn't be started.
    pub is_short: bool,
}

/// How server threads ended.
#[derive(Clone, Copy, Debug, PartialEq, Eq)]
pub struct ThreadsEnd {
    /// Whether a thread failed: a listener was broken, or the system refused to wait.
    pub failed: bool,
    /// Whether a thread couldn't be started, or was out of memory before it accepted anything.
    pub is_short: bool,
}

// Starts a server thread. Returns `None` if the system refuses it or memory runs out.
fn start_one<C: Crew + Send + Sync + 'static, R: System>(
    rt: &R,
    alloc: Global,
    content: &Arc<Content>,
    setup: ThreadSetup,
    pass: Pass<C>,
) -> Option<PromisedHandle<ThreadEnd, AnyEnd>> {
    let content = Arc::try_clone(content).ok()?;
    let theirs = rt.clone().ok()?;
    let builder = Builder::new().stack_size(STACK);
    let thread = builder.spawn_with(rt, AnyEnd, move || {
        let site = Site::new(&content.replies, &content.aliases, pass);
        serve(&theirs, alloc, setup, site)
    });
    thread.ok()
}

/// Starts a server thread for each pass, with one of the setups.
pub fn start_threads<C: Crew + Send + Sync + 'static, R: System>(
    rt: &R,
    alloc: Global,
    content: &Arc<Content>,
    setups: Vec<ThreadSetup>,
    passes: Vec<Pass<C>>,
) -> Started<AnyEnd>
    ensures { StartsAll passes result }
{
    let mut is_short = false;
    let mut setups = setups;
    let mut threads = Vec::new(alloc);
    for pass in passes {
        let started = match setups.pop() {
            Some(setup) => start_one(rt, alloc, content, setup, pass),
            None => None,
        };
        match started {
            Some(thread) => is_short |= threads.push(thread).is_err(),
            None => is_short = true,
        }
    }
    Started { threads, is_short }
}

// Adds the end of one thread to those of the threads before it.
fn after_thread(end: ThreadsEnd, thread: ThreadEnd) -> ThreadsEnd
    ensures { result ≡ after_thread end thread }
{
    let ThreadsEnd { failed, is_short } = end;
    match thread {
        ThreadEnd::Served => end,
        ThreadEnd::Failed => ThreadsEnd {
            failed: true,
            is_short,
        },
        ThreadEnd::LacksMemory => ThreadsEnd {
            failed,
            is_short: true,
        },
    }
}

/// Waits until all threads have ended. Returns how they ended.
pub fn join_all<P: Promise<ThreadEnd>, R: Threads>(rt: &R, started: Started<P>) -> ThreadsEnd
    ensures { EndAs P.Promise started result }
{
    let mut end = ThreadsEnd {
        failed: false,
        is_short: started.is_short,
    };
    for thread in started.threads {
        end = after_thread(end, thread.join(rt));
    }
    end
}
