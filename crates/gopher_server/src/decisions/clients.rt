//! How many connections the server holds for each network that clients come from.

ghost use Rattle.std.specs.Prelude.{◌≡◌, IfOk};
ghost use Rattle.gopher_server.specs.Clients.{CountsOne, GivesOneBack, count_of, has_room, is_counted, network_by, network_of as network_at};

use std::alloc::{AllocError, Global};
use std::collections::BTreeMap;
use std::net::IpAddr;

// The number of a network by the segments of an IPv6 address.
fn network_by_segments(segments: [u16; 8]) -> u64
    ensures { result ≡ network_by segments }
{
    let [a, b, c, d, e, f, g, h] = segments;
    if a == 0 && b == 0 && c == 0 && d == 0 && e == 0 && f == 65_535 {
        return u64::from(g) * 65_536 + u64::from(h);
    }
    ((u64::from(a) * 65_536 + u64::from(b)) * 65_536 + u64::from(c)) * 65_536 + u64::from(d)
}

/// Returns the number of the network of a client's address: an IPv4 address, also one that is
/// mapped into IPv6, or the first 64 bits of another IPv6 address.
pub fn network_of(address: IpAddr) -> u64
    ensures { result ≡ network_at address }
{
    match address {
        IpAddr::V4(address) => {
            let [a, b, c, d] = address.octets();
            ((u64::from(a) * 256 + u64::from(b)) * 256 + u64::from(c)) * 256 + u64::from(d)
        }
        IpAddr::V6(address) => network_by_segments(address.segments()),
    }
}

/// How many connections the server holds for each network, and the most that it holds for one.
///
/// Contracts see the number for a network as `count_of`.
#[derive(Drop)]
pub struct Clients {
    counts: BTreeMap<u64, u64>,
    most: u64,
}

impl Clients {
    /// Counts none so far. At most `most` connections are counted for each network.
    pub fn new(alloc: Global, most: u64) -> Clients
        ensures none { (network : _) → count_of result network ≡ 0 }
        ensures most { result.most ≡ most }
    {
        Clients {
            counts: BTreeMap::new(alloc),
            most,
        }
    }

    // How many connections are counted for a network.
    fn count(&self, network: u64) -> u64
        ensures { result ≡ count_of self.now network }
    {
        self.counts.get(&network).copied().unwrap_or(0)
    }

    /// Counts one more connection for a network, if fewer than the most are counted for it. Returns
    /// whether it did.
    ///
    /// # Errors
    ///
    /// Out of memory: none is counted.
    pub fn take(&mut self, network: u64) -> Result<bool, AllocError>
        ensures room { IfOk result (λ counted. counted ≡ has_room self.old network) }
        ensures counts { CountsOne self.old self.new network (is_counted result) }
        ensures most { self.new.most ≡ self.old.most }
    {
        let count = self.count(network);
        if count >= self.most {
            return Ok(false);
        }
        match self.counts.insert(network, count + 1) {
            Ok(_before) => Ok(true),
            Err(_) => Err(AllocError),
        }
    }

    /// Counts one connection fewer for a network.
    pub fn give_back(&mut self, network: u64)
        ensures counts { GivesOneBack self.old self.new network }
        ensures most { self.new.most ≡ self.old.most }
    {
        let count = self.count(network);
        if count > 1 {
            let _before = self.counts.insert(network, count - 1);
        } else {
            let _before = self.counts.remove(&network);
        }
    }
}
