//! The addresses at which a server will listen, in the report of a check.

use crate::arguments::Checking;
use crate::arguments::values::with_port;
use gopher_item::{Home, NoMemory};
use mio::net::TcpListener;
use std::alloc::Global;
use std::io::ErrorKind;
use std::net::{Net, SocketAddr, ToSocketAddrs};
use std::str;

// Why a server can't listen at any address.
#[derive(Clone, Copy, Debug, PartialEq, Eq)]
enum Unheard {
    // The host has no address.
    NoAddress,
    // No address of the host is one of this machine.
    Elsewhere,
    // None of the host's addresses can be bound.
    NotBound,
    // None of the named addresses can be bound.
    NoneNamed,
}

impl Unheard {
    // The cause and the remedy in words.
    fn explain(self) -> (&'static str, &'static str) {
        match self {
            Unheard::NoAddress => (
                "the host has no address",
                "host is a bare name or address, without gopher:// and port; correct it, or its entry in DNS",
            ),
            Unheard::Elsewhere => (
                "no address of the host is one of this machine",
                "correct host or its entry in DNS, or check and serve with --listen ADDRESS",
            ),
            Unheard::NotBound => (
                "no address could be bound",
                "end what listens there, or give the server's user the right to ports below 1024",
            ),
            Unheard::NoneNamed => (
                "no address of --listen could be bound",
                "give an address of this machine, or 0.0.0.0 or [::] for all of them",
            ),
        }
    }
}

// Binds an address for a moment, and appends a line that says whether a server can listen there,
// and if not, why. Returns the reason.
fn push_bound<R: Net>(
    rt: &R,
    alloc: Global,
    address: SocketAddr,
    lines: &mut Vec<u8>,
) -> Result<Option<ErrorKind>, NoMemory> {
    let (line, refused) = match TcpListener::bind(rt, address) {
        Ok(_listener) => (format!(in alloc; "can listen at: {address}\n")?, None),
        Err(error) => {
            let line = format!(in alloc; "can't listen at: {address}: {error}\n")?;
            (line, Some(error.kind()))
        }
    };
    lines.extend_from_slice(line.as_bytes())?;
    Ok(refused)
}

// Whether an address is one of this machine: a port that the system chooses can be bound there, for
// a moment, beside a server and without rights. If not, appends a line with the system's error.
fn push_own<R: Net>(
    rt: &R,
    alloc: Global,
    address: SocketAddr,
    lines: &mut Vec<u8>,
) -> Result<bool, NoMemory> {
    let ip = address.ip();
    match TcpListener::bind(rt, SocketAddr::new(ip, 0)) {
        Ok(_listener) => Ok(true),
        Err(error) => {
            let line = format!(in alloc; "not of this machine: {ip}: {error}\n")?;
            lines.extend_from_slice(line.as_bytes())?;
            Ok(false)
        }
    }
}

// Why a server can't listen at an address of the host that can't be bound for this reason.
fn unheard_by(kind: ErrorKind) -> Unheard {
    match kind {
        ErrorKind::AddrNotAvailable => Unheard::Elsewhere,
        _ => Unheard::NotBound,
    }
}

// Appends the lines of an address of the host. If `listens`, binds it for a moment. Returns why a
// server can't listen there, as far as that was tried.
fn push_address<R: Net>(
    rt: &R,
    alloc: Global,
    address: SocketAddr,
    listens: bool,
    lines: &mut Vec<u8>,
) -> Result<Option<Unheard>, NoMemory> {
    let line = format!(in alloc; "resolves to: {address}\n")?;
    lines.extend_from_slice(line.as_bytes())?;
    if listens {
        let refused = push_bound(rt, alloc, address, lines)?;
        return Ok(refused.map(unheard_by));
    }
    match push_own(rt, alloc, address, lines)? {
        true => Ok(None),
        false => Ok(Some(Unheard::Elsewhere)),
    }
}

// Appends the lines of a host's addresses. If `listens`, binds each for a moment. Returns why a
// server can't listen at any of them, as far as that was tried.
fn push_host<R: Net>(
    rt: &R,
    alloc: Global,
    host: (&str, u16),
    listens: bool,
    lines: &mut Vec<u8>,
) -> Result<Option<Unheard>, NoMemory> {
    let addresses = match host.to_socket_addrs(rt) {
        Ok(addresses) => addresses,
        Err(error) => {
            let line = format!(in alloc; "resolves to nothing: {error}\n")?;
            lines.extend_from_slice(line.as_bytes())?;
            return Ok(Some(Unheard::NoAddress));
        }
    };
    let mut is_fine = false;
    let mut last = Unheard::NoAddress;
    for address in addresses {
        match push_address(rt, alloc, address, listens, lines)? {
            None => is_fine = true,
            Some(why) => last = why,
        }
    }
    Ok((!is_fine).then_some(last))
}

// Whether a server may be able to listen at an address. One that is in use may be the server's own,
// and the server may have the right to a port that the user of the check lacks.
fn may_listen(refused: Option<ErrorKind>) -> bool {
    matches!(
        refused,
        None | Some(ErrorKind::AddrInUse | ErrorKind::PermissionDenied)
    )
}

// Binds each of these addresses for a moment, and appends a line for each. Returns whether a server
// may be able to listen at one of them.
fn push_named<R: Net>(
    rt: &R,
    alloc: Global,
    addresses: &[SocketAddr],
    port: u16,
    lines: &mut Vec<u8>,
) -> Result<bool, NoMemory> {
    let mut is_fine = false;
    for address in addresses {
        let refused = push_bound(rt, alloc, with_port(*address, port), lines)?;
        is_fine |= may_listen(refused);
    }
    Ok(is_fine)
}

// Appends the lines of the addresses at which a server will listen. Returns why it can't listen at
// any of them, as far as that was tried.
fn push_all<R: Net>(
    rt: &R,
    alloc: Global,
    home: &Home,
    checking: &Checking<'_>,
    lines: &mut Vec<u8>,
) -> Result<Option<Unheard>, NoMemory> {
    if !checking.addresses.is_empty() {
        let is_fine = push_named(rt, alloc, &checking.addresses, home.port(), lines)?;
        return Ok((!is_fine).then_some(Unheard::NoneNamed));
    }
    match str::from_utf8(home.host()) {
        Ok(host) => push_host(rt, alloc, (host, home.port()), checking.listens, lines),
        Err(_) => Ok(Some(Unheard::NoAddress)),
    }
}

// Appends the report of the fault 81: the settings file, the key unless an argument is at fault,
// the cause and the remedy.
fn push_fault(
    alloc: Global,
    settings: &str,
    why: Unheard,
    lines: &mut Vec<u8>,
) -> Result<(), NoMemory> {
    let (cause, remedy) = why.explain();
    let key = match why {
        Unheard::NoneNamed => "",
        _ => "key: host\n",
    };
    let fault = format!(in alloc;
        "fault: 81\npath: {settings}\n{key}cause: {cause}\nremedy: {remedy}\n"
    )?;
    lines.extend_from_slice(fault.as_bytes())?;
    Ok(())
}

/// Where a server will listen, in lines of a report.
#[derive(Debug, Drop)]
pub struct Listening {
    /// The lines.
    pub words: Vec<u8>,
    /// Whether it may be able to listen at one of the addresses, as far as that was tried.
    pub is_fine: bool,
}

/// Tells the addresses at which a server will listen, a line each. These are the addresses of its
/// host, or those that `checking` names. Binds each for a moment if `checking` asks for that, and
/// tells whether that succeeded, or the system's error; otherwise it binds a port that the system
/// chooses, which shows whether the address is one of this machine. Named addresses aren't
/// resolved.
///
/// It isn't fine if the host has no address; if none of its addresses is one of this machine, or
/// none can be bound; or if none of the named addresses can be bound, for other reasons than that
/// it is in use or that permission is missing. Then a report of the fault 81 follows the lines.
pub fn addresses<R: Net>(
    rt: &R,
    alloc: Global,
    home: &Home,
    checking: &Checking<'_>,
) -> Result<Listening, NoMemory> {
    let mut words = Vec::new(alloc);
    let unheard = push_all(rt, alloc, home, checking, &mut words)?;
    if let Some(why) = unheard {
        push_fault(alloc, checking.settings, why, &mut words)?;
    }
    Ok(Listening {
        words,
        is_fine: unheard.is_none(),
    })
}
