//! The sockets on which a server listens.

ghost use Rattle.std.specs.Prelude.{IfErr};
ghost use Rattle.gopher_hole.specs.ServerFault.{IsServingFault};

use crate::arguments::values::with_port;
use crate::fault::ProgramFault;
use gopher_item::{Home, NoMemory};
use gopher_server::{MAX_LISTENERS, limit_send_buffers};
use libc::net::{IPPROTO_TCP, TCP_NODELAY, getsockopt};
use mio::net::TcpListener;
use os::FromRawFd;
use std::alloc::Global;
use std::env::{self, Env, VarError};
use std::io::{self, Eprint};
use std::net::{Net, SocketAddr, ToSocketAddrs};
use std::str;

// The first descriptor that systemd's socket activation hands to a process (sd_listen_fds(3)).
const FIRST_INHERITED: u8 = 3;

// The most sockets that it may hand over.
const MAX_INHERITED: u8 = 64;

// If `tells`, prints on the error stream why an address can't be bound.
fn tell<R: Eprint>(rt: &R, host: &str, error: io::Error, tells: bool) {
    if tells {
        let _ = eprintln!(rt; "hole: can't listen at {host}: {error}");
    }
}

// Listens at an address, unless there are as many listeners as a server may have. If the system
// refuses and `tells`, prints why.
fn listen_at<R: Net + Eprint>(
    rt: &R,
    alloc: Global,
    address: SocketAddr,
    tells: bool,
    listeners: &mut Vec<TcpListener>,
) -> Result<(), NoMemory> {
    if listeners.len() >= MAX_LISTENERS {
        return Ok(());
    }
    match TcpListener::bind(rt, address) {
        Ok(listener) => listeners.push(listener)?,
        Err(error) => {
            if let Ok(name) = format!(in alloc; "{address}") {
                tell(rt, name.as_str(), error, tells);
            }
        }
    }
    Ok(())
}

// Listens at each address of a host.
fn listen_at_host<R: Net + Eprint>(
    rt: &R,
    alloc: Global,
    host: &str,
    port: u16,
    tells: bool,
    listeners: &mut Vec<TcpListener>,
) -> Result<(), NoMemory> {
    if let Ok(address) = host.parse::<SocketAddr>() {
        return listen_at(rt, alloc, address, tells, listeners);
    }
    match (host, port).to_socket_addrs(rt) {
        Ok(addresses) => {
            for address in addresses {
                listen_at(rt, alloc, address, tells, listeners)?;
            }
        }
        Err(error) => tell(rt, host, error, tells),
    }
    Ok(())
}

// The number in a variable of the environment.
fn number_of<R: Env + AllocGlobal>(rt: &R, name: &str) -> Option<i32> {
    let text = env::var(rt, name).ok()?;
    text.as_str().parse::<i32>().ok()
}

// The number of sockets that a text says, or `None` if it says none up to `MAX_INHERITED`.
fn count_of(text: &str) -> Option<u8> {
    match text.parse::<u8>() {
        Ok(count) if count <= MAX_INHERITED => Some(count),
        _ => None,
    }
}

// How many sockets systemd's socket activation hands to this process (sd_listen_fds(3)). If it
// doesn't say, or they are too many, and `tells`, prints so.
fn inherited_count<R: Env + Eprint + AllocGlobal>(rt: &R, tells: bool) -> Result<u8, ProgramFault>
    ensures { IfErr result IsServingFault }
{
    if number_of(rt, "LISTEN_PID") != Some(libc::getpid()) {
        return Ok(0);
    }
    let count = match env::var(rt, "LISTEN_FDS") {
        Ok(text) => count_of(text.as_str()),
        Err(VarError::NotPresent) => Some(0),
        Err(VarError::OutOfMemory) => return Err(ProgramFault::NoMemory),
        Err(VarError::NotUnicode) => None,
    };
    if let Some(count) = count {
        return Ok(count);
    }
    if tells {
        let _ = eprintln!(rt; "hole: can't listen: LISTEN_FDS isn't a number up to 64");
    }
    Err(ProgramFault::ListenFailed)
}

// Whether a descriptor is a TCP socket: nothing else has this option.
fn is_tcp(descriptor: u8) -> bool {
    let socket = i32::from(descriptor);
    let (mut value, mut len) = ([0u8; 16], 4);
    unsafe { getsockopt(socket, IPPROTO_TCP, TCP_NODELAY, &mut value, &mut len) == 0 }
}

// The socket of a descriptor that no other value owns, as a listener whose `accept` never blocks.
fn listener_of(descriptor: u8) -> TcpListener {
    let socket = i32::from(descriptor);
    let _refused = os::set_nonblocking(socket, true);
    unsafe { TcpListener::from_raw_fd(socket) }
}

// The sockets that systemd's socket activation hands to this process. At anything else a thread
// would wait for ever or never wait. If `tells`, prints which it is.
fn inherited<R: Env + Eprint + AllocGlobal>(
    rt: &R,
    alloc: Global,
    tells: bool,
) -> Result<Vec<TcpListener>, ProgramFault>
    ensures { IfErr result IsServingFault }
{
    let mut listeners = Vec::new(alloc);
    for index in 0..inherited_count(rt, tells)? {
        let descriptor = FIRST_INHERITED.saturating_add(index);
        if !is_tcp(descriptor) {
            if tells {
                let _ = eprintln!(rt;
                    "hole: can't listen at descriptor {descriptor}: not a TCP socket"
                );
            }
            return Err(ProgramFault::ListenFailed);
        }
        let Ok(()) = listeners.push(listener_of(descriptor)) else {
            return Err(ProgramFault::NoMemory);
        };
    }
    Ok(listeners)
}

// Listens at each of the addresses, or at those of the host.
fn listen_at_all<R: Net + Eprint>(
    rt: &R,
    alloc: Global,
    home: &Home,
    addresses: &[SocketAddr],
    tells: bool,
) -> Result<Vec<TcpListener>, ProgramFault>
    ensures { IfErr result IsServingFault }
{
    let Ok(host) = str::from_utf8(home.host()) else {
        return Err(ProgramFault::ListenFailed);
    };
    let mut listeners = Vec::new(alloc);
    for address in addresses {
        let address = with_port(*address, home.port());
        listen_at(rt, alloc, address, tells, &mut listeners)?;
    }
    if addresses.is_empty() {
        listen_at_host(rt, alloc, host, home.port(), tells, &mut listeners)?;
    }
    Ok(listeners)
}

/// Listens at each of the addresses; port 0 stands for the port of `home`. Without addresses,
/// listens at each address of the host of `home`. The `accept` of a listener never blocks.
///
/// If systemd's socket activation hands sockets to the process, it uses these instead of addresses.
/// They are at most 64 TCP sockets. If `tells`, it prints on the error stream of `rt` what else was
/// handed over, or which address can't be bound, and why. One that can is enough.
///
/// # Errors
///
/// - `ListenFailed` (81): no address can be bound, what was handed over isn't a TCP socket, or the
///   number of sockets can't be read or is over 64.
/// - `NoMemory` (90).
pub fn listen<R: Net + Env + Eprint + AllocGlobal>(
    rt: &R,
    alloc: Global,
    home: &Home,
    addresses: &[SocketAddr],
    tells: bool,
) -> Result<Vec<TcpListener>, ProgramFault>
    ensures { IfErr result IsServingFault }
{
    let mut listeners = inherited(rt, alloc, tells)?;
    if listeners.is_empty() {
        listeners = listen_at_all(rt, alloc, home, addresses, tells)?;
    }
    if listeners.is_empty() {
        return Err(ProgramFault::ListenFailed);
    }
    limit_send_buffers(&listeners);
    Ok(listeners)
}
