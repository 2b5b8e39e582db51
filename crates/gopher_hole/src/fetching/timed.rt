//! `TimedStream`: a stream whose reads and writes end in time.

ghost use Rattle.std.specs.Prelude.{◌≡◌};
ghost use Rattle.gopher_hole.specs.declared.fetching.cause.Cause.TheVariants as cause;

use crate::fetching::cause::Cause;
use crate::fetching::deadline::Deadline;
use std::io::{self, ErrorKind, Read, Write};
use std::net::OpenStream;
use std::time::Clock;

/// A stream whose reads and writes fail once they took too long. It keeps what failed last.
#[derive(Drop)]
pub struct TimedStream<'a, R: Clock, S> {
    clock: &'a R,
    stream: S,
    deadline: Deadline,
    cause: Cause,
}

// The cause of a fetch whose last error came before, if this call on its stream ends like this. An
// interruption is no error, because the call is made again.
fn cause_after<T>(before: Cause, outcome: &io::Result<T>) -> Cause {
    match outcome {
        Err(error) if error.kind() != ErrorKind::Interrupted => Cause::of(*error),
        _ => before,
    }
}

impl<'a, R: Clock, S> TimedStream<'a, R, S> {
    /// Gives the reads and writes of a stream a deadline.
    pub fn new(clock: &'a R, stream: S, deadline: Deadline) -> TimedStream<'a, R, S>
        ensures stream { result.stream ≡ stream }
        ensures deadline { result.deadline ≡ deadline }
        ensures cause { result.cause ≡ cause.Unknown }
    {
        TimedStream {
            clock,
            stream,
            deadline,
            cause: Cause::Unknown,
        }
    }

    /// Returns what failed last; `Unknown` if nothing did.
    pub fn cause(&self) -> Cause
        ensures { result ≡ self.now.cause }
    {
        self.cause
    }
}

impl<'a, R: Clock, S: OpenStream> TimedStream<'a, R, S> {
    // Lets the next read take as long as the deadline says.
    fn limit_read(&self) -> io::Result<()> {
        let wait = self.deadline.wait(self.clock)?;
        self.stream.set_read_timeout(wait)
    }

    // Lets the next write take as long as the deadline says.
    fn limit_write(&self) -> io::Result<()> {
        let wait = self.deadline.wait(self.clock)?;
        self.stream.set_write_timeout(wait)
    }
}

impl<'a, R: Clock, S: Read + OpenStream> Read for TimedStream<'a, R, S> {
    ghost remaining = { λ timed. S.remaining timed.stream };

    fn read(&mut self, buf: &mut [u8]) -> io::Result<usize> {
        let outcome = match self.limit_read() {
            Ok(()) => self.stream.read(buf),
            Err(error) => Err(error),
        };
        self.cause = cause_after(self.cause, &outcome);
        outcome
    }
}

impl<'a, R: Clock, S: Write + OpenStream> Write for TimedStream<'a, R, S> {
    ghost contents = { λ timed. S.contents timed.stream };

    fn write(&mut self, buf: &[u8]) -> io::Result<usize> {
        let outcome = match self.limit_write() {
            Ok(()) => self.stream.write(buf),
            Err(error) => Err(error),
        };
        self.cause = cause_after(self.cause, &outcome);
        outcome
    }

    fn flush(&mut self) -> io::Result<()> {
        self.stream.flush()
    }
}
