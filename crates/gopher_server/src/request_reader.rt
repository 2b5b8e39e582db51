//! Reads a request line so that a client can tell a reply that was cut from a whole one.

ghost use Rattle.std.specs.Prelude.{◌≡◌, None, IfOk, OnOk};
ghost use Rattle.std.specs.Io.{ReadsAtMost};
ghost use Rattle.std.specs.Io.KnownBytes.{ReadConsumes};
ghost use Rattle.gopher_server.specs.Unread.{unread_after};

use crate::decisions::unread_after;
use mio::net::TcpStream;
use std::io::{self, ErrorKind, Read};

/// Reads from a client. The bytes that it read last stay in the system's queue until the next read.
///
/// TCP resets a connection that is closed over bytes that its owner didn't take (RFC 1122, section
/// 4.2.2.13), also if the process is killed. So a client sees that its reply was cut if its request
/// stays in the queue until the whole reply is sent. If a line ends with the client's side, nothing
/// of it stays: that end is seen only after all bytes are taken.
#[derive(Drop)]
pub(crate) struct RequestReader<'a> {
    stream: &'a TcpStream,
    /// How many of the bytes that it read are still in the system's queue.
    pub(crate) unread: usize,
}

impl<'a> RequestReader<'a> {
    /// Makes a reader of a stream. `unread` bytes were read before and are still in the queue.
    pub(crate) fn new(stream: &'a TcpStream, unread: usize) -> RequestReader<'a>
        ensures { result.unread ≡ unread }
    {
        RequestReader { stream, unread }
    }

    // Takes the bytes that were read out of the system's queue. Fails with `Interrupted` if the
    // system gives only some of them.
    fn take_unread(&mut self, buffer: &mut [u8]) -> io::Result<()>
        ensures { OnOk result (self.new.unread ≡ 0) }
    {
        if self.unread == 0 {
            return Ok(());
        }
        let room = self.unread.min(buffer.len());
        let mut stream = self.stream;
        let taken = stream.read(&mut buffer[..room])?;
        self.unread = unread_after(self.unread, taken);
        if self.unread == 0 {
            Ok(())
        } else {
            Err(io::Error::from(ErrorKind::Interrupted))
        }
    }
}

impl Read for RequestReader<'_> {
    fn read(&mut self, buf: &mut [u8]) -> io::Result<usize>
        ensures bound { ReadsAtMost result buf.new }
        ensures bytes { ReadConsumes None None result buf.new }
        ensures unread { IfOk result (λ count. self.new.unread ≡ count) }
    {
        self.take_unread(buf)?;
        let count = self.stream.peek(buf)?;
        self.unread = count;
        Ok(count)
    }
}
