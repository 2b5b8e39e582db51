//! `Home`: the server's own host and port.

ghost use Rattle.std.specs.Prelude.{◌≡◌};
ghost use Rattle.gopher_item.specs.Place.{MakesHome};

use crate::fault::ItemFault;
use crate::fields::address_fault;
use gopher_bytes::ByteString;
use std::alloc::Global;
use std::marker::Model;

/// The host and the port that a server writes into the menu lines of its own items.
#[derive(Debug, Drop)]
pub struct Home {
    host: ByteString,
    port: u16,
}

impl Model for Home {
    ghost use Rattle.gopher_item.specs.Place.{HomeData};

    ghost Value = { HomeData };

    ghost view = { λ h. record { host = h.host; port = h.port } };
}

impl Home {
    /// Checks and copies the parts of an address. The case of the host stays.
    ///
    /// # Errors
    ///
    /// The first fault in this order:
    /// - `BadHost` (3): the host is empty, has over 255 bytes, or contains a space or a control
    ///   byte
    /// - `BadPort` (4): the port is 0
    /// - `NoMemory` (90)
    pub fn new(alloc: Global, host: &[u8], port: u16) -> Result<Home, ItemFault>
        ensures { MakesHome host.now port result }
    {
        if let Some(fault) = address_fault(host, port) {
            return Err(fault);
        }
        let host = ByteString::from_slice(alloc, host)?;
        Ok(Home { host, port })
    }

    /// Returns the host with its case unchanged.
    pub fn host(&self) -> &[u8]
        ensures { result.now ≡ self.now.host }
    {
        self.host.as_slice()
    }

    /// Returns the port, at least 1.
    pub fn port(&self) -> u16
        ensures { result ≡ self.now.port }
    {
        self.port
    }
}
