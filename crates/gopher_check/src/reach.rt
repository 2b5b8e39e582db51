//! `Reach`: a crawl with sets of the places that it found, knows and links to; `Reason`, why it
//! doesn't reach a place.

ghost use Rattle.std.specs.Prelude.{◌≡◌, map, IfOk, OnOk, ◌∷◌, []};
ghost use Rattle.std.specs.Arc.{arc_value};
ghost use Rattle.gopher_item.specs.Place.{is_among};
ghost use Rattle.gopher_item.specs.Places.{places_lent};
ghost use Rattle.gopher_catalogue.specs.EventOf.{event_data};
ghost use Rattle.gopher_check.specs.Reach.{AddsPlaces, HasPlaces, places_found, places_linked, places_linked_by};
ghost use Rattle.gopher_check.specs.Coverage.{reason_for};

use gopher_catalogue::{Catalogue, Event};
use gopher_item::{NoMemory, Place, Places};
use std::alloc::Global;
use std::collections::HashSet;
use std::marker::Model;
use std::sync::Arc;

/// Why a crawl doesn't reach a text.
#[derive(Clone, Copy, Debug, PartialEq, Eq)]
pub enum Reason {
    /// The crawl's rules don't allow it.
    NotAllowed,
    /// The crawl asked for it, but its reply has over 1,048,576 bytes (`MAX_REPLY`), more than a
    /// fetch takes.
    TooLong,
    /// A menu that the crawl found links to it, or it is a seed, but the limit of places was
    /// reached before.
    LimitOfPlaces,
    /// No menu that the crawl found links to it, and it is no seed.
    NotLinked,
}

/// A crawl, with sets of the places that it found, knows and links to.
#[derive(Debug, Drop)]
pub(crate) struct Reach<'a> {
    crawl: &'a Catalogue,
    found: HashSet<Place>,
    known: HashSet<Place>,
    linked: HashSet<Place>,
}

impl<'a> Model for Reach<'a> {
    ghost use Rattle.std.specs.Prelude.{List};
    ghost use Rattle.gopher_catalogue.specs.declared.event.EventData.{EventData};
    ghost use Rattle.gopher_check.specs.Reach.{HasSets};

    ghost Value = { List EventData };

    ghost view = { λ r. r.crawl.now };

    ghost invariant = { λ r. HasSets r.crawl.now r.found r.known r.linked };
}

// Adds a copy of a place.
fn add_place(set: &mut HashSet<Place>, place: &Place) -> Result<(), NoMemory>
    ensures { OnOk result (AddsPlaces (place.now ∷ []) set.old set.new) }
{
    set.insert(place.clone()?)?;
    Ok(())
}

// Adds copies of places.
fn add_places(set: &mut HashSet<Place>, places: &[Place]) -> Result<(), NoMemory>
    ensures { OnOk result (AddsPlaces places.now set.old set.new) }
{
    for place in places {
        add_place(set, place)?;
    }
    Ok(())
}

// Adds the places of a packed list.
fn add_packed(alloc: Global, set: &mut HashSet<Place>, places: &Places) -> Result<(), NoMemory>
    ensures { OnOk result (AddsPlaces places.now set.old set.new) }
{
    for index in 0..places.len() {
        set.insert(places.get(index).to_place(alloc)?)?;
    }
    Ok(())
}

// Adds the place of the page that an event found, if it found one.
fn add_found(set: &mut HashSet<Place>, event: &Event) -> Result<(), NoMemory>
    ensures { OnOk result (AddsPlaces (places_found (event_data event.now ∷ [])) set.old set.new) }
{
    match event {
        Event::Found(_, page) => add_place(set, page.place()),
        _ => Ok(()),
    }
}

// Adds the places that an event leads to.
fn add_linked(alloc: Global, set: &mut HashSet<Place>, event: &Event) -> Result<(), NoMemory>
    ensures { OnOk result (AddsPlaces (places_linked_by (event_data event.now)) set.old set.new) }
{
    match event {
        Event::Opened(opening) => add_places(set, opening.seeds()),
        Event::Found(_, page) => match page.packed_links() {
            Some(links) => add_packed(alloc, set, links),
            None => Ok(()),
        },
        _ => Ok(()),
    }
}

// The places that a crawl found, by its record.
fn found_in(alloc: Global, events: &[Event]) -> Result<HashSet<Place>, NoMemory>
    ensures { IfOk result (HasPlaces (places_found (map event_data events.now))) }
{
    let mut set = HashSet::new(alloc);
    for event in events {
        add_found(&mut set, event)?;
    }
    Ok(set)
}

// The places that a crawl links to, by its record.
fn linked_in(alloc: Global, events: &[Event]) -> Result<HashSet<Place>, NoMemory>
    ensures { IfOk result (HasPlaces (places_linked (map event_data events.now))) }
{
    let mut set = HashSet::new(alloc);
    for event in events {
        add_linked(alloc, &mut set, event)?;
    }
    Ok(set)
}

// The set of shared places.
fn set_of(alloc: Global, places: &[Arc<Place>]) -> Result<HashSet<Place>, NoMemory>
    ensures { IfOk result (HasPlaces (map arc_value places.now)) }
{
    let mut set = HashSet::new(alloc);
    for place in places {
        add_place(&mut set, place)?;
    }
    Ok(set)
}

impl<'a> Reach<'a> {
    /// Collects the places of a crawl.
    pub fn of(alloc: Global, crawl: &'a Catalogue) -> Result<Reach<'a>, NoMemory>
        ensures { IfOk result (λ reach. reach ≡ crawl.now) }
    {
        let found = found_in(alloc, crawl.record())?;
        let known = set_of(alloc, crawl.places())?;
        let linked = linked_in(alloc, crawl.record())?;
        Ok(Reach {
            crawl,
            found,
            known,
            linked,
        })
    }

    /// Returns whether the crawl found the page of a place.
    pub fn finds(&self, place: &Place) -> bool
        ensures { result ≡ is_among (places_found self.now) place.now }
    {
        self.found.contains(place)
    }

    /// Returns why the crawl doesn't reach a place; `None` if it does.
    pub fn reason(&self, place: &Place) -> Option<Reason>
        ensures { result ≡ reason_for self.now place.now }
    {
        if self.finds(place) {
            None
        } else if !self.crawl.opening().scope().allows(place) {
            Some(Reason::NotAllowed)
        } else if self.known.contains(place) {
            Some(Reason::TooLong)
        } else if self.linked.contains(place) {
            Some(Reason::LimitOfPlaces)
        } else {
            Some(Reason::NotLinked)
        }
    }
}
