//! Connecting to the server of a place before a deadline (`connect_before`).

use crate::fetching::cause::Cause;
use crate::fetching::deadline::Deadline;
use gopher_item::Place;
use libc::net::{SO_KEEPALIVE, SOL_SOCKET, setsockopt};
use std::net::{HostAddrs, Net, SocketAddr, TcpStream, ToSocketAddrs};
use std::os::fd::AsRawFd;
use std::time::Clock;
use std::{io, str};

// Has the system ask now and then whether the other side of an idle connection is still there. If
// the system refuses, it doesn't.
fn keep_alive(stream: &impl AsRawFd) {
    let mut value = [0u8; 16];
    value[..4].copy_from_slice(&1i32.to_ne_bytes());
    let _refused = unsafe { setsockopt(stream.as_raw_fd(), SOL_SOCKET, SO_KEEPALIVE, &value, 4) };
}

// Connects to an address, for as long as the deadline says.
fn connect_to<R: Net + Clock>(
    rt: &R,
    address: SocketAddr,
    deadline: Deadline,
) -> io::Result<R::Stream> {
    match deadline.wait(rt)? {
        Some(wait) => TcpStream::connect_timeout(rt, &address, wait),
        None => rt.connect(address),
    }
}

// Connects to the first of some addresses that answers. Fails with what stopped the last one.
fn connect_to_first<R: Net + Clock>(
    rt: &R,
    addresses: HostAddrs,
    deadline: Deadline,
) -> Result<R::Stream, Cause> {
    let mut cause = Cause::NoSuchHost;
    for address in addresses {
        match connect_to(rt, address, deadline) {
            Ok(stream) => return Ok(stream),
            Err(error) => cause = Cause::of(error),
        }
    }
    Err(cause)
}

/// Connects to the server of a place. Each of the host's addresses is tried for as long as the
/// deadline says.
///
/// # Errors
///
/// - `NoSuchHost`: the host's name isn't UTF-8, or the lookup of its addresses failed
/// - what stopped the last address
pub fn connect_before<R: Net + Clock>(
    rt: &R,
    place: &Place,
    deadline: Deadline,
) -> Result<R::Stream, Cause> {
    let Ok(host) = str::from_utf8(place.host()) else {
        return Err(Cause::NoSuchHost);
    };
    let Ok(addresses) = (host, place.port()).to_socket_addrs(rt) else {
        return Err(Cause::NoSuchHost);
    };
    let stream = connect_to_first(rt, addresses, deadline)?;
    keep_alive(&stream);
    Ok(stream)
}
