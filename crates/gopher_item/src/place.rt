//! `Place`: a type, selector, host and port; places and their order.

ghost use Rattle.std.specs.Prelude.{◌≡◌, refl, IfOk};
ghost use Rattle.std.specs.Cmp;
ghost use Rattle.std.specs.Ordering.{as_partial_cmp};
ghost use Rattle.gopher_item.specs.Laws.{same_place_equiv, place_cmp_total, same_place_ties};
ghost use Rattle.gopher_item.specs.Place.{MakesPlace, place_fault, same_place, place_cmp};

use crate::fault::ItemFault;
use crate::fields::{address_fault, is_selector};
use gopher_bytes::{ByteString, NoMemory};
use std::alloc::Global;
use std::cmp::Ordering;
use std::marker::Model;

/// One file or directory of one server: the unit of crawls and of search results.
///
/// Place order is by host (its bytes), port (as a number), selector (its bytes) and type.
#[derive(Debug, Drop, Eq, Hash)]
pub struct Place {
    pub(crate) host: ByteString,
    pub(crate) port: u16,
    pub(crate) selector: ByteString,
    pub(crate) kind: u8,
}

impl Model for Place {
    ghost use Rattle.gopher_item.specs.Place.{PlaceData};

    ghost Value = { PlaceData };

    ghost view = { λ p.
        record { host = p.host; port = p.port; selector = p.selector; kind = p.kind } };

    ghost inverse = { λ d.
        record { host = d.host; port = d.port; selector = d.selector; kind = d.kind } };
}

fn place_fault(kind: u8, selector: &[u8], host: &[u8], port: u16) -> Option<ItemFault>
    ensures { result ≡ place_fault kind selector.now host.now port }
{
    if !matches!(kind, b'0' | b'1') {
        Some(ItemFault::BadKind)
    } else if !is_selector(selector) {
        Some(ItemFault::BadSelector)
    } else {
        address_fault(host, port)
    }
}

impl Place {
    /// Makes the place of these parts, with the ASCII letters of the host in lower case.
    ///
    /// # Errors
    ///
    /// The first fault in this order:
    /// - `BadKind` (1): `kind` isn't `0` or `1`
    /// - `BadSelector` (2): the selector has over 255 bytes, or contains a TAB, CR, LF or NUL
    /// - `BadHost` (3): the host is empty, has over 255 bytes, or contains a space or a control
    ///   byte
    /// - `BadPort` (4): the port is 0
    /// - `NoMemory` (90)
    pub fn new(
        alloc: Global,
        kind: u8,
        selector: &[u8],
        host: &[u8],
        port: u16,
    ) -> Result<Place, ItemFault>
        ensures { MakesPlace kind selector.now host.now port result }
    {
        if let Some(fault) = place_fault(kind, selector, host, port) {
            return Err(fault);
        }
        let host = ByteString::lower_cased(alloc, host)?;
        let selector = ByteString::from_slice(alloc, selector)?;
        Ok(Place {
            host,
            port,
            selector,
            kind,
        })
    }

    /// Returns the host in lower case.
    pub fn host(&self) -> &[u8]
        ensures { result.now ≡ self.now.host }
    {
        self.host.as_slice()
    }

    /// Returns the port, at least 1.
    pub fn port(&self) -> u16
        ensures { result ≡ self.now.port }
    {
        self.port
    }

    /// Returns the selector, which a client sends for this place.
    pub fn selector(&self) -> &[u8]
        ensures { result.now ≡ self.now.selector }
    {
        self.selector.as_slice()
    }

    /// Returns the type: `0` for a file, `1` for a directory (RFC 1436, section 3.8).
    pub fn kind(&self) -> u8
        ensures { result ≡ self.now.kind }
    {
        self.kind
    }

    /// Copies the place.
    pub fn clone(&self) -> Result<Place, NoMemory>
        ensures { IfOk result (λ p. p ≡ self.now) }
    {
        Ok(Place {
            host: self.host.clone()?,
            port: self.port,
            selector: self.selector.clone()?,
            kind: self.kind,
        })
    }
}

impl PartialEq for Place {
    ghost eq = { same_place };

    ghost laws = { Cmp.partial_equiv_from_equiv same_place_equiv };

    fn eq(&self, other: &Place) -> bool {
        self.host == other.host
            && self.port == other.port
            && self.selector == other.selector
            && self.kind == other.kind
    }
}

impl PartialOrd for Place {
    ghost partial_cmp = { as_partial_cmp place_cmp };

    ghost laws = { Cmp.partial_order_from_own_ties (Cmp.partial_order_from_total place_cmp_total)
        same_place_ties };

    fn partial_cmp(&self, other: &Place) -> Option<Ordering> {
        Some(self.cmp(other))
    }
}

impl Ord for Place {
    ghost cmp = { place_cmp };

    ghost total = { place_cmp_total };

    ghost matches_partial_cmp = { λ a b. refl };

    ghost matches_eq = { same_place_ties };

    fn cmp(&self, other: &Place) -> Ordering {
        self.host
            .cmp(&other.host)
            .then(self.port.cmp(&other.port))
            .then(self.selector.cmp(&other.selector))
            .then(self.kind.cmp(&other.kind))
    }
}
