//! A stream in memory that moves little at a time, is interrupted, waits and fails.

use std::alloc::Global;
use std::io::{self, Error, ErrorKind, Read, Write};

/// How a stream goes on once it has moved its bytes.
#[derive(Clone, Copy, PartialEq, Eq)]
pub enum Ending {
    /// Calls move nothing.
    Ends,
    /// Calls would block.
    Waits,
    /// Calls fail.
    Fails,
}

/// Gives `given`. Takes `room` bytes, which have to be those that `left` begins with. A call moves
/// at most `size` bytes. Once there is nothing to move, calls end as `ending` says.
#[derive(Clone, Copy)]
pub struct Stream<'a> {
    pub given: &'a [u8],
    pub left: &'a [u8],
    pub room: usize,
    pub size: usize,
    pub ending: Ending,
    /// How many calls are interrupted before each other call.
    pub interruptions: u32,
    /// How many calls are interrupted before the next other call.
    pub now: u32,
}

impl<'a> Stream<'a> {
    /// One that gives and takes these bytes, three a call. Every other call is interrupted.
    pub fn new(given: &'a [u8], left: &'a [u8], room: usize, ending: Ending) -> Stream<'a> {
        Stream {
            given,
            left,
            room,
            size: 3,
            ending,
            interruptions: 1,
            now: 1,
        }
    }

    /// A reader that gives these bytes.
    pub fn giving(given: &'a [u8], ending: Ending) -> Stream<'a> {
        Stream::new(given, b"", 0, ending)
    }

    /// A writer that takes `room` of these bytes.
    pub fn taking(left: &'a [u8], room: usize, ending: Ending) -> Stream<'a> {
        Stream::new(b"", left, room, ending)
    }

    // How many bytes this call may move.
    fn begin(&mut self, is_at_end: bool) -> io::Result<usize> {
        if is_at_end {
            return match self.ending {
                Ending::Ends => Ok(0),
                Ending::Waits => Err(ErrorKind::WouldBlock.into()),
                Ending::Fails => Err(Error::other("broken")),
            };
        }
        if self.now > 0 {
            self.now -= 1;
            return Err(ErrorKind::Interrupted.into());
        }
        self.now = self.interruptions;
        Ok(self.size)
    }
}

impl Read for Stream<'_> {
    fn read(&mut self, buf: &mut [u8]) -> io::Result<usize> {
        let count = self.begin(self.given.is_empty())?.min(buf.len());
        self.given.read(&mut buf[..count])
    }
}

impl Write for Stream<'_> {
    fn write(&mut self, buf: &[u8]) -> io::Result<usize> {
        let count = self.begin(self.room == 0)?.min(buf.len()).min(self.room);
        let Some(rest) = self.left.strip_prefix(&buf[..count]) else {
            return Err(Error::other("other bytes"));
        };
        (self.room, self.left) = (self.room - count, rest);
        Ok(count)
    }

    fn flush(&mut self) -> io::Result<()> {
        match self.ending {
            Ending::Ends => Ok(()),
            _ => Err(Error::other("broken")),
        }
    }
}

/// Gives the letter `a` a number of times, one a read, each after an interrupted read.
#[derive(Drop)]
pub struct Letters {
    left: u32,
    was_interrupted: bool,
}

impl Letters {
    /// One that gives this number of letters.
    pub fn new(left: u32) -> Letters {
        Letters {
            left,
            was_interrupted: false,
        }
    }
}

/// A number of letters. It is a call because the prover would write out a number that it sees.
pub fn many_letters(alloc: Global, count: usize) -> Option<Vec<u8>> {
    vec![in alloc; b'a'; count].ok()
}

impl Read for Letters {
    fn read(&mut self, buf: &mut [u8]) -> io::Result<usize> {
        let Some(first) = buf.first_mut() else {
            return Ok(0);
        };
        if self.left == 0 {
            return Ok(0);
        }
        self.was_interrupted = !self.was_interrupted;
        if self.was_interrupted {
            return Err(ErrorKind::Interrupted.into());
        }
        *first = b'a';
        self.left -= 1;
        Ok(1)
    }
}
