//! `Watched`: a reader or writer that counts its failed calls.

ghost use Rattle.std.specs.Prelude.{◌≡◌};
ghost use Rattle.std.specs.Io.{ReadsAtMost, WritesAtMost};
ghost use Rattle.std.specs.Io.KnownBytes.{Keeps};
ghost use Rattle.gopher_text.specs.Watched.{WatchedData, CountsFailure, CountsErrors, CountsWrite, Reads, Writes};

use std::io::{self, Read, Write};
use std::marker::Model;

/// A reader or a writer that passes each call on to `device` and counts the calls that failed.
///
/// A call failed if it returned an error, including an interruption, or if it was a write that took
/// none of one or more bytes. The count stops at `u64::MAX`.
#[derive(Debug, Drop)]
pub struct Watched<D> {
    device: D,
    failures: u64,
}

impl<D> Model for Watched<D> {
    ghost use Rattle.gopher_text.specs.Watched.{WatchedData};

    ghost Value = { WatchedData D };

    ghost view = { λ w. record { device = w.device; failures = w.failures } };
}

impl<D> Watched<D> {
    /// Watches `device`, with a count of 0.
    pub fn new(device: D) -> Self
        ensures { result ≡ record { device = device; failures = 0 } }
    {
        let failures = 0;
        Watched { device, failures }
    }

    /// Returns the reader or writer that was watched.
    pub fn into_inner(self) -> D
        ensures { result ≡ self.device }
    {
        let Watched { device, .. } = self;
        device
    }

    /// Returns the number of failed calls, at most `u64::MAX`.
    pub fn failures(&self) -> u64
        ensures { result ≡ self.now.failures }
    {
        self.failures
    }

    fn count_failure(&mut self)
        ensures device { self.new.device ≡ self.old.device }
        ensures count { CountsFailure self.old.failures self.new.failures }
    {
        self.failures = self.failures.saturating_add(1);
    }
}

impl<D: Read> Read for Watched<D> {
    ghost remaining = { λ w. D.remaining w.device };

    fn read(&mut self, buf: &mut [u8]) -> io::Result<usize>
        ensures bound { ReadsAtMost result buf.new }
        ensures bytes { Reads D.remaining self.old self.new result buf.new }
        ensures count { CountsErrors self.old.failures self.new.failures result }
    {
        let outcome = self.device.read(buf);
        if outcome.is_err() {
            self.count_failure();
        }
        outcome
    }
}

impl<D: Write> Write for Watched<D> {
    ghost contents = { λ w. D.contents w.device };

    fn write(&mut self, buf: &[u8]) -> io::Result<usize>
        ensures bound { WritesAtMost result buf.now }
        ensures bytes { Writes D.contents self.old self.new result buf.now }
        ensures count { CountsWrite self.old.failures self.new.failures buf.now result }
    {
        let answer = self.device.write(buf);
        let took_nothing = matches!(answer, Ok(0)) && !buf.is_empty();
        if took_nothing || answer.is_err() {
            self.count_failure();
        }
        answer
    }

    fn flush(&mut self) -> io::Result<()>
        ensures bytes { Keeps (D.contents self.old.device) (D.contents self.new.device) }
        ensures count { CountsErrors self.old.failures self.new.failures result }
    {
        let answer = self.device.flush();
        if answer.is_err() {
            self.count_failure();
        }
        answer
    }
}
