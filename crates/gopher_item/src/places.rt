//! `Places`: a packed list of places; `PlaceParts`, one of them; `EachPlace`, its iterator.

ghost use Rattle.std.specs.Prelude.{◌≡◌, ℕ, ◌<◌, List, ◌++◌, [], ◌∷◌, Some, length, slice_get, IfOk, OnOk, OnErr};
ghost use Rattle.std.specs.Iterator.{YieldsFirst, item_count};
ghost use Rattle.gopher_item.specs.Places.{names_len, IsSum, places_lent};

use crate::place::Place;
use gopher_bytes::{ByteString, ByteStrings, MAX_PACKED, NoMemory};
use std::alloc::Global;
use std::marker::Model;

// What a place has beside its selector; its host by its index among the hosts.
#[derive(Clone, Copy, Debug)]
pub(crate) struct Row {
    pub(crate) host: u32,
    pub(crate) port: u16,
    pub(crate) kind: u8,
}

/// A packed list of places.
///
/// The selectors share one allocation. Places of one host that follow each other share its bytes.
#[derive(Debug, Drop)]
pub struct Places {
    hosts: ByteStrings,
    selectors: ByteStrings,
    rows: Vec<Row>,
}

impl Model for Places {
    ghost use Rattle.std.specs.Prelude.{List};
    ghost use Rattle.gopher_item.specs.Place.{PlaceData};
    ghost use Rattle.gopher_item.specs.Places.{unpacked, AreRows};

    ghost Value = { List PlaceData };

    ghost view = { λ p. unpacked p.hosts p.selectors p.rows.items };

    ghost invariant = { λ p. AreRows p.hosts p.selectors p.rows.items };
}

// The index of this host. If it isn't the last of the hosts, it is appended.
fn index_of(hosts: &mut ByteStrings, host: &[u8]) -> Result<u32, NoMemory>
    ensures there { IfOk result (λ index. slice_get hosts.new index ≡ Some host.now) }
    ensures more { (more : List (List ℕ)) × (hosts.new ≡ hosts.old ++ more) }
{
    let len = hosts.len();
    if len > MAX_PACKED {
        return Err(NoMemory);
    }
    if len > 0 && hosts.get(len - 1) == host {
        return Ok((len - 1) as u32);
    }
    hosts.push(host)?;
    Ok(len as u32)
}

impl Places {
    /// An empty list.
    pub fn new(alloc: Global) -> Places
        ensures { result ≡ [] }
    {
        Places {
            hosts: ByteStrings::new(alloc),
            selectors: ByteStrings::new(alloc),
            rows: Vec::new(alloc),
        }
    }

    /// Frees unused room.
    pub fn shrink_to_fit(&mut self)
        ensures { self.new ≡ self.old }
    {
        self.hosts.shrink_to_fit();
        self.selectors.shrink_to_fit();
        self.rows.shrink_to_fit();
    }

    /// Returns the number of places.
    pub fn len(&self) -> usize
        ensures { result ≡ length self.now }
    {
        self.rows.len()
    }

    /// Returns how many bytes the selectors and the hosts of the places have, if each place has its
    /// own; at most `usize::MAX`.
    pub fn names_len(&self) -> usize
        ensures { IsSum (names_len self.now) result }
    {
        let mut names = 0_usize;
        for place in self.iter() {
            let name = place.selector.len().saturating_add(place.host.len());
            names = names.saturating_add(name);
        }
        names
    }

    /// Returns the place at `index`, which is below `len`.
    pub fn get(&self, index: usize) -> PlaceParts<'_>
        requires { index < length self.now }
        ensures { slice_get self.now index ≡ Some result }
    {
        let row = self.rows[index];
        let host = self.hosts.get(row.host as usize);
        let selector = self.selectors.get(index);
        PlaceParts {
            host,
            port: row.port,
            selector,
            kind: row.kind,
        }
    }

    /// Returns an iterator over the places, in order.
    pub fn iter(&self) -> EachPlace<'_>
        ensures { result ≡ self.now }
    {
        EachPlace::of(Some(self))
    }

    /// Appends a place.
    ///
    /// # Errors
    ///
    /// `NoMemory` (90): out of memory, or all hosts or all selectors together would exceed
    /// 4,294,967,295 bytes (`MAX_PACKED`). The list stays unchanged.
    pub fn push(&mut self, place: &Place) -> Result<(), NoMemory>
        ensures added { OnOk result (self.new ≡ self.old ++ place.now ∷ []) }
        ensures refused { OnErr result (self.new ≡ self.old) }
    {
        self.rows.reserve(1)?;
        let host = index_of(&mut self.hosts, place.host())?;
        self.selectors.push(place.selector())?;
        let (port, kind) = (place.port(), place.kind());
        self.rows.push_reserved(Row { host, port, kind });
        Ok(())
    }
}

/// A place in a packed list, which lends its host and its selector.
#[derive(Debug, Drop)]
pub struct PlaceParts<'a> {
    pub(crate) host: &'a [u8],
    pub(crate) port: u16,
    pub(crate) selector: &'a [u8],
    pub(crate) kind: u8,
}

impl<'a> Model for PlaceParts<'a> {
    ghost use Rattle.gopher_item.specs.Place.{PlaceData};

    ghost Value = { PlaceData };

    ghost view = { λ p.
        record { host = p.host.now; port = p.port; selector = p.selector.now; kind = p.kind } };
}

impl<'a> PlaceParts<'a> {
    /// Returns the host in lower case.
    pub fn host(&self) -> &'a [u8]
        ensures { result.now ≡ self.now.host }
    {
        self.host
    }

    /// Returns the port, at least 1.
    pub fn port(&self) -> u16
        ensures { result ≡ self.now.port }
    {
        self.port
    }

    /// Returns the selector, which a client sends for this place.
    pub fn selector(&self) -> &'a [u8]
        ensures { result.now ≡ self.now.selector }
    {
        self.selector
    }

    /// Returns the type: `0` for a file, `1` for a directory (RFC 1436, section 3.8).
    pub fn kind(&self) -> u8
        ensures { result ≡ self.now.kind }
    {
        self.kind
    }

    /// Copies the parts into a `Place`.
    pub fn to_place(&self, alloc: Global) -> Result<Place, NoMemory>
        ensures { IfOk result (λ place. place ≡ self.now) }
    {
        Ok(Place {
            host: ByteString::from_slice(alloc, self.host)?,
            port: self.port,
            selector: ByteString::from_slice(alloc, self.selector)?,
            kind: self.kind,
        })
    }
}

/// An iterator over the places of a packed list, in order. It allocates nothing.
#[derive(Debug, Drop)]
pub struct EachPlace<'a> {
    // `None`: no list, so no places.
    places: Option<&'a Places>,
    next: usize,
}

impl<'a> Model for EachPlace<'a> {
    ghost use Rattle.std.specs.Prelude.{List, drop};
    ghost use Rattle.gopher_item.specs.Place.{PlaceData};
    ghost use Rattle.gopher_item.specs.Places.{places_lent};

    ghost Value = { List PlaceData };

    ghost view = { λ e. drop e.next (places_lent e.places) };
}

impl<'a> EachPlace<'a> {
    /// Starts before the first place of the list. Without a list, there are no places.
    pub fn of(places: Option<&'a Places>) -> EachPlace<'a>
        ensures { result ≡ places_lent places.entry }
    {
        EachPlace { places, next: 0 }
    }
}

impl<'a> Iterator for EachPlace<'a> {
    type Item = PlaceParts<'a>;

    ghost next_gives = { YieldsFirst (λ left. left) };

    ghost remaining = { item_count (λ left. left) };

    fn next(&mut self) -> Option<PlaceParts<'a>> {
        let places = self.places?;
        if self.next >= places.len() {
            return None;
        }
        let parts = places.get(self.next);
        self.next += 1;
        Some(parts)
    }

    fn size_hint(&self) -> (usize, Option<usize>) {
        let len = self.len();
        (len, Some(len))
    }
}

impl<'a> ExactSizeIterator for EachPlace<'a> {
    fn len(&self) -> usize {
        match self.places {
            Some(places) => places.len().saturating_sub(self.next),
            None => 0,
        }
    }
}
