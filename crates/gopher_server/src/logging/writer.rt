//! The thread that writes the log.

ghost use Rattle.std.specs.Prelude.{◌≡◌, None};
ghost use Rattle.gopher_server.specs.Batch.{KeepsPending, is_tried_again};

use crate::logging::batch::Batch;
use crate::logging::queue::LogQueue;
use crate::logging::rests::Rests;
use crossbeam_channel::Receiver;
use std::alloc::Global;
use std::fs::{File, OpenOptions};
use std::io::{self, Eprint, ErrorKind, Write};
use std::os::fd::AsRawFd;
use std::os::unix::fs::OpenOptionsExt;
use std::str;
use std::sync::{Arc, Wait};
use std::thread::{self, Builder, JoinHandle, Threads};
use std::time::{Clock, Duration};

// Who may read and write a log that is made: it has the addresses of clients.
const LOG_MODE: u32 = 0o640;

// The bytes of the stack of the thread that writes.
const STACK: usize = 262_144;

// The path that stands for standard error.
const STANDARD_ERROR: &str = "-";

/// The log of a server, while it is written.
#[derive(Drop)]
pub struct Log {
    queue: Arc<LogQueue>,
    thread: JoinHandle<()>,
}

// What the thread works with.
#[derive(Drop)]
struct LogWriter {
    path: String,
    file: Option<File>,
    // What is left of the batch that is being written.
    pending: Batch,
    is_told: bool,
}

/// A runtime that opens logs. It is a trait of its own, because what is known of a type parameter's
/// `Files` isn't known in another thread.
pub trait OpenLog {
    /// Opens a log for appending, and makes the file if there is none: its owner can read and write
    /// it, and its group can read it. A pipe is opened for reading too, so that it can be opened
    /// and written while nobody reads it. Calls of the file don't wait for a reader.
    ///
    /// # Errors
    ///
    /// The system's error.
    fn open_log(&self, path: &str) -> io::Result<File>;
}

impl OpenLog for HostRuntime {
    fn open_log(&self, path: &str) -> io::Result<File> {
        let mut how = OpenOptions::new();
        how.read(true).append(true).create(true).mode(LOG_MODE);
        let file = how.open(self, path)?;
        let _refused = os::set_nonblocking(file.as_raw_fd(), true);
        Ok(file)
    }
}

// Standard error as the stream of a log. A write waits until all bytes are written.
#[derive(Drop)]
struct ErrorStream<'a, R: Eprint> {
    rt: &'a R,
}

impl<R: Eprint> Write for ErrorStream<'_, R> {
    ghost contents = { λ _. None };

    fn write(&mut self, bytes: &[u8]) -> io::Result<usize> {
        let text = str::from_utf8(bytes).unwrap_or("");
        self.rt.eprint(text)?;
        Ok(bytes.len())
    }

    fn flush(&mut self) -> io::Result<()> {
        Ok(())
    }
}

// Whether a write that failed is tried again at once.
fn is_tried_again(kind: ErrorKind) -> bool
    ensures { result ≡ is_tried_again kind }
{
    matches!(kind, ErrorKind::Interrupted)
}

impl LogWriter {
    // Prints on the error stream, once, that the log can't be written.
    fn tell(&mut self, rt: &impl Eprint, error: io::Error) {
        if !self.is_told {
            self.is_told = true;
            let _ = eprintln!(rt; "hole: the log can't be written: {error}");
        }
    }

    // Opens the file, if it isn't open.
    fn open<R: OpenLog + Eprint>(&mut self, rt: &R) {
        if self.file.is_some() || self.path.as_str() == STANDARD_ERROR {
            return;
        }
        match rt.open_log(self.path.as_str()) {
            Ok(file) => self.file = Some(file),
            Err(error) => self.tell(rt, error),
        }
    }

    // Waits for the next batch, if all of the last is written. Returns false if no more come.
    fn take_next(
        &mut self,
        rt: &impl Wait,
        receiver: &Receiver<Batch, Global>,
        queue: &LogQueue,
    ) -> bool
        ensures { KeepsPending self.old.pending self.new.pending result }
    {
        if !self.pending.is_empty() {
            return true;
        }
        let next = if queue.is_closed() {
            receiver.try_recv(rt).ok()
        } else {
            receiver.recv(rt).ok()
        };
        let Some(batch) = next else {
            return false;
        };
        self.pending = batch;
        true
    }

    // Calls the file once with what is left of the batch. Without a file nothing is written.
    fn write_once<R: Eprint>(&mut self, rt: &R) -> io::Result<usize> {
        if self.path.as_str() == STANDARD_ERROR {
            return self.pending.write_to(&mut ErrorStream { rt });
        }
        match &mut self.file {
            Some(file) => self.pending.write_to(file),
            None => Ok(0),
        }
    }

    // Writes what is left of the batch, as far as the file takes it in one call. Returns false if
    // it takes nothing, unless the call was interrupted.
    fn write<R: OpenLog + Eprint>(&mut self, rt: &R) -> bool {
        if self.pending.is_empty() {
            return true;
        }
        self.open(rt);
        if self.pending.tell_dropped().is_err() {
            return false;
        }
        match self.write_once(rt) {
            Ok(count) => count > 0,
            Err(error) if is_tried_again(error.kind()) => true,
            Err(error) => {
                self.tell(rt, error);
                false
            }
        }
    }
}

// Writes the batches of a queue until no more come. What the file doesn't take is tried again after
// a rest; once no more batches come, it is given up after some tries.
fn write_log<R: OpenLog + Wait + Clock + Eprint>(
    rt: &R,
    writer: LogWriter,
    receiver: &Receiver<Batch, Global>,
    queue: &LogQueue,
) {
    let mut writer = writer;
    let mut rests = Rests::new();
    writer.open(rt);
    for _step in rt.forever() {
        if !writer.take_next(rt, receiver, queue) {
            return;
        }
        if writer.write(rt) {
            rests = Rests::new();
            continue;
        }
        match rests.next(queue.is_closed()) {
            Some(millis) => thread::sleep(rt, Duration::from_millis(millis)),
            None => return,
        }
    }
    unreachable!()
}

// Starts the thread. `None` if the system refuses it or memory runs out.
fn spawn_writer<R: OpenLog + Threads + Wait + Clock + Eprint + Clone + Send + Drop + 'static>(
    rt: &R,
    alloc: Global,
    path: &str,
) -> Option<Log> {
    let (queue, receiver) = LogQueue::new(alloc).ok()?;
    let queue = Arc::new(alloc, queue).ok()?;
    let writer = LogWriter {
        path: String::from_str(alloc, path).ok()?,
        file: None,
        pending: Batch::new(alloc),
        is_told: false,
    };
    let theirs = Arc::try_clone(&queue).ok()?;
    let runtime = rt.clone().ok()?;
    let builder = Builder::new().stack_size(STACK);
    let thread = builder.spawn(rt, move || write_log(&runtime, writer, &receiver, &theirs));
    Some(Log {
        queue,
        thread: thread.ok()?,
    })
}

/// Starts the thread that writes the log at `path`, if there is one. If it can't be started, prints
/// that on the error stream and returns `None`; then nothing is logged.
pub fn start_log<R: OpenLog + Threads + Wait + Clock + Eprint + Clone + Send + Drop + 'static>(
    rt: &R,
    alloc: Global,
    path: Option<&str>,
) -> Option<Log> {
    let log = spawn_writer(rt, alloc, path?);
    if log.is_none() {
        let _ = rt.eprintln("hole: the log can't be written: its thread can't be started");
    }
    log
}

impl Log {
    /// Returns the queue for server threads, or `None` if memory runs out.
    pub fn queue(&self) -> Option<Arc<LogQueue>> {
        Arc::try_clone(&self.queue).ok()
    }
}

/// Ends the log, if there is one: writes the batches that wait, as far as the file takes them.
pub fn end_log<R: Threads + Wait>(rt: &R, alloc: Global, log: Option<Log>) {
    if let Some(log) = log {
        log.queue.close(rt, alloc);
        log.thread.join(rt);
    }
}
