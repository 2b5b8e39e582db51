//! The messages of a server for the error stream (`Messages`), and the thread that prints them
//! (`start_messages`).
//!
//! A thread that has a message adds it and goes on, so an error stream that nobody reads holds up
//! neither requests nor a crawl. Messages that find no room are counted, and the number is printed
//! once there is room again.
//!
//! Contracts say that a message is added whole, or counted if there is no room for it
//! (`PendingMessages`). Contracts know no threads or streams, so the thread itself is only tested.

mod pending;

use crate::messages::pending::{PendingMessages, room};
use crossbeam_channel::{Receiver, Sender, bounded};
use gopher_item::NoMemory;
use std::alloc::Global;
use std::fmt::Display;
use std::io::{self, Eprint};
use std::sync::atomic::{AtomicBool, Ordering};
use std::sync::{Arc, Mutex, Wait};
use std::thread::{self, Builder, Threads};
use std::time::{Clock, Duration};

// The bytes of the stack of the thread that prints.
const STACK: usize = 262_144;

// For how many milliseconds the end waits until the last messages are printed.
const MAX_WAIT: u64 = 1_000;

/// The messages that wait to be printed. All threads of a server share them.
#[derive(Drop)]
pub struct Messages {
    pending: Mutex<PendingMessages>,
    // Wakes the thread that prints.
    wake: Sender<(), Global>,
    is_closed: AtomicBool,
    // Whether the thread has printed all messages.
    is_over: AtomicBool,
}

/// An error stream whose messages go to a queue, or without one are printed at once. Each message
/// is a line of its own.
#[derive(Drop)]
pub struct MessageStream<'a, R> {
    rt: &'a R,
    messages: Option<&'a Messages>,
}

impl<'a, R> MessageStream<'a, R> {
    /// The stream of these messages, or that of `rt` if there are none.
    pub fn new(rt: &'a R, messages: &'a Option<Arc<Messages>>) -> MessageStream<'a, R> {
        MessageStream {
            rt,
            messages: messages.as_deref(),
        }
    }
}

impl<R: Wait + Eprint> Eprint for MessageStream<'_, R> {
    fn eprint<D: Display + Drop>(&self, value: D) -> io::Result<()> {
        self.eprintln(value)
    }

    fn eprintln<D: Display + Drop>(&self, value: D) -> io::Result<()> {
        match self.messages {
            Some(messages) => {
                messages.add(self.rt, value);
                Ok(())
            }
            None => self.rt.eprintln(value),
        }
    }
}

impl Messages {
    // Makes an empty queue, and the receiver that wakes the thread that prints.
    fn new(alloc: Global) -> Result<(Messages, Receiver<(), Global>), NoMemory> {
        let (wake, receiver) = bounded(alloc, 1)?;
        let messages = Messages {
            pending: Mutex::new(PendingMessages::new(alloc)?),
            wake,
            is_closed: AtomicBool::new(false),
            is_over: AtomicBool::new(false),
        };
        Ok((messages, receiver))
    }

    // Adds the line of a message. Takes no memory, so that a message can say that there is none.
    fn add<D: Display + Drop>(&self, rt: &impl Wait, value: D) {
        self.pending.lock(rt).add(value);
        let _full = self.wake.try_send(rt, ());
    }

    // Moves the messages that wait into `text`, and leaves its room. Returns how many had no room.
    fn take(&self, rt: &impl Wait, text: &mut String) -> u64 {
        self.pending.lock(rt).take(text)
    }

    /// Waits until all messages are printed, for a second at most: longer, and nobody reads them.
    pub fn end<R: Wait + Clock>(&self, rt: &R) {
        self.is_closed.store(true, Ordering::SeqCst);
        let _full = self.wake.try_send(rt, ());
        for _rest in 0..MAX_WAIT {
            if self.is_over.load(Ordering::SeqCst) {
                return;
            }
            thread::sleep(rt, Duration::from_millis(1));
        }
    }
}

// Prints messages, and how many had no room.
fn print(rt: &impl Eprint, text: &str, dropped: u64) {
    for line in text.lines() {
        let _ = rt.eprintln(line);
    }
    if dropped > 0 {
        let _ = eprintln!(rt; "hole: messages that had no room: {dropped}");
    }
}

// Prints messages until no more come. `text` is the room for those that are being printed.
fn print_all<R: Wait + Eprint>(
    rt: &R,
    messages: &Messages,
    text: String,
    receiver: &Receiver<(), Global>,
) {
    let mut text = text;
    for _round in rt.forever() {
        let is_last = messages.is_closed.load(Ordering::SeqCst);
        let dropped = messages.take(rt, &mut text);
        if !text.is_empty() || dropped > 0 {
            print(rt, text.as_str(), dropped);
            text.clear();
        } else if is_last || receiver.recv(rt).is_err() {
            messages.is_over.store(true, Ordering::SeqCst);
            return;
        }
    }
    unreachable!()
}

/// Starts the thread that prints messages. `None` if the system refuses it or memory runs out: then
/// each thread prints its messages itself.
pub fn start_messages<R: Threads + Wait + Eprint + Clone + Send + Drop + 'static>(
    rt: &R,
    alloc: Global,
) -> Option<Arc<Messages>> {
    let (messages, receiver) = Messages::new(alloc).ok()?;
    let text = room(alloc).ok()?;
    let messages = Arc::new(alloc, messages).ok()?;
    let theirs = Arc::try_clone(&messages).ok()?;
    let runtime = rt.clone().ok()?;
    let builder = Builder::new().stack_size(STACK);
    let started = builder.spawn(rt, move || print_all(&runtime, &theirs, text, &receiver));
    started.ok().map(|_thread| messages)
}
