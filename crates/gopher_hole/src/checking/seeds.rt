//! Seeds at hosts that have no address, in the report of a check.

use gopher_item::{Home, NoMemory, Place};
use gopher_scope::Settings;
use std::alloc::Global;
use std::net::{Net, ToSocketAddrs};
use std::str;

// After how many hosts without an address no other is looked up: each can take the resolver's
// whole time-out.
const MOST_LOST: usize = 3;

// Whether a seed's host has to be looked up: no earlier seed has it, and it isn't the server's own.
fn is_new(home: &Home, earlier: &[Place], seed: &Place) -> bool {
    let host = seed.host();
    !host.eq_ignore_ascii_case(home.host()) && !earlier.iter().any(|other| other.host() == host)
}

// Appends a warning if the seed with this index is at a host that has no address. Returns whether
// it is.
fn push_lost<R: Net>(
    rt: &R,
    alloc: Global,
    index: usize,
    seed: &Place,
    lines: &mut Vec<u8>,
) -> Result<bool, NoMemory> {
    let Ok(host) = str::from_utf8(seed.host()) else {
        return Ok(false);
    };
    let Err(error) = (host, seed.port()).to_socket_addrs(rt) else {
        return Ok(false);
    };
    let line = format!(in alloc;
        "warning: seeds[{index}] is at a host without an address, {host}: {error}\n"
    )?;
    lines.extend_from_slice(line.as_bytes())?;
    Ok(true)
}

/// Appends a warning for the first seed of each host that has no address, except the server's own,
/// up to three of them. Returns how many these are.
pub fn push_lost_seeds<R: Net>(
    rt: &R,
    alloc: Global,
    settings: &Settings,
    lines: &mut Vec<u8>,
) -> Result<usize, NoMemory> {
    let seeds = settings.seeds.as_slice();
    let mut warnings = 0_usize;
    for (index, seed) in seeds.iter().enumerate() {
        if warnings >= MOST_LOST {
            break;
        }
        let is_lost = is_new(&settings.home, &seeds[..index], seed)
            && push_lost(rt, alloc, index, seed, lines)?;
        warnings = warnings.saturating_add(usize::from(is_lost));
    }
    Ok(warnings)
}
