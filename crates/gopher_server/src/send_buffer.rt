//! How many bytes of a reply the system queues for a client.

ghost use Rattle.std.specs.Prelude.{◌≡◌};
ghost use Rattle.gopher_server.specs.SendBuffer.{send_buffer_of};

use libc::net::{SO_SNDBUF, SOL_SOCKET, setsockopt};
use mio::net::{TcpListener, TcpStream};
use std::io::{self, Write};
use std::os::fd::{AsRawFd, RawFd};

// The most bytes of a reply that the system queues for a client. The system doubles the number for
// its own use. It bounds the kernel memory of a client that reads nothing.
const SEND_BUFFER: u32 = 65_536;

// The same for the few clients of a thread that are sent a long reply by a larger queue. Each piece
// that the system queues wakes the client once, and the server once more.
const LARGE_SEND_BUFFER: u32 = 262_144;

// A reply is long if more than this is left of it. Less than this fits into an ordinary queue.
const LONG_REPLY: usize = 114_688;

// The most bytes that the system queues for all clients together, unless each has only the least
// queue.
const ALL_BUFFERS: u64 = 67_108_864;

// The least queue of a client.
const LEAST_BUFFER: u64 = 8_192;

// How many bytes the system queues for a client at most while the server holds `held` connections.
fn send_buffer_of(held: u64) -> u32
    ensures { result ≡ send_buffer_of held }
{
    let share = ALL_BUFFERS / held.max(1);
    share.max(LEAST_BUFFER).min(u64::from(SEND_BUFFER)) as u32
}

/// Limits the bytes that the system queues for a new client of a server that holds `held`
/// connections. With few of them the limit of its listener stays.
pub(crate) fn limit_send_buffer(stream: &TcpStream, held: u64) {
    let bytes = send_buffer_of(held);
    if bytes < SEND_BUFFER {
        set_send_buffer(stream.as_raw_fd(), bytes);
    }
}

// Sets the bytes that the system queues for a socket. If the system refuses, its own limit stays.
fn set_send_buffer(socket: RawFd, bytes: u32) {
    let mut value = [0u8; 16];
    value[..4].copy_from_slice(&bytes.to_ne_bytes());
    let _refused = unsafe { setsockopt(socket, SOL_SOCKET, SO_SNDBUF, &value, 4) };
}

/// Limits the bytes that the system queues for each client of these listeners. A client that
/// connected before isn't limited, so call it before any client knows of them.
pub fn limit_send_buffers(listeners: &[TcpListener]) {
    for listener in listeners {
        set_send_buffer(listener.as_raw_fd(), SEND_BUFFER);
    }
}

/// Writes to a client. Before it writes a long reply, it has the system queue more, if it may.
#[derive(Drop)]
pub(crate) struct ReplyWriter<'a> {
    stream: &'a TcpStream,
    may_enlarge: bool,
    /// Whether the system queues more for the client.
    pub(crate) is_large: bool,
}

impl<'a> ReplyWriter<'a> {
    /// Makes a writer to a client, with an ordinary queue so far. `may_enlarge` says whether it may
    /// be larger.
    pub(crate) fn new(stream: &'a TcpStream, may_enlarge: bool) -> ReplyWriter<'a> {
        ReplyWriter {
            stream,
            may_enlarge,
            is_large: false,
        }
    }
}

impl Write for ReplyWriter<'_> {
    fn write(&mut self, buf: &[u8]) -> io::Result<usize> {
        if self.may_enlarge && !self.is_large && buf.len() > LONG_REPLY {
            set_send_buffer(self.stream.as_raw_fd(), LARGE_SEND_BUFFER);
            self.is_large = true;
        }
        let mut stream = self.stream;
        stream.write(buf)
    }

    fn flush(&mut self) -> io::Result<()> {
        Ok(())
    }
}
