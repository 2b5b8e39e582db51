//! `most_dropped`: the host whose menus named most of the links that a crawl dropped.

ghost use Rattle.std.specs.Prelude.{◌≡◌, Some, count_by, OnOk, IfOk};
ghost use Rattle.indexmap.specs.IndexMap.{get, Updates};
ghost use Rattle.gopher_item.specs.Place.{same_place};
ghost use Rattle.gopher_catalogue.specs.Tables.{after_mention, after_mentions};
ghost use Rattle.gopher_hole.specs.Dropped.{IsMost, is_unknown, more_links};
ghost use Rattle.gopher_hole.specs.Silences.{host_of};

use crate::fetching::host_of;
use gopher_catalogue::Event;
use gopher_item::{NoMemory, Place, Places};
use indexmap::{IndexMap, IndexSet};
use std::alloc::Global;

/// A host, and how many links of its menus a crawl dropped.
#[derive(Debug, Drop)]
pub struct Dropped {
    /// The main menu of the host.
    pub host: Place,
    /// How many links were dropped, with repeats.
    pub links: u64,
}

// Adds a mention of a place to the known places, of which there are at most `limit`.
fn add_mention(known: &mut IndexSet<Place>, limit: usize, place: Place) -> Result<(), NoMemory>
    ensures { OnOk result (known.new.keys ≡ after_mention limit known.old.keys place) }
{
    if known.len() < limit {
        known.insert(place)?;
    }
    Ok(())
}

// Adds the seeds of a crawl to the known places, of which there are at most `limit`.
fn add_seeds(known: &mut IndexSet<Place>, limit: usize, seeds: &[Place]) -> Result<(), NoMemory>
    ensures { OnOk result (known.new.keys ≡ after_mentions limit known.old.keys seeds.now) }
{
    for seed in seeds {
        add_mention(known, limit, seed.clone()?)?;
    }
    Ok(())
}

// Adds the links of a page to the known places, of which there are at most `limit`.
fn add_links(
    alloc: Global,
    known: &mut IndexSet<Place>,
    limit: usize,
    links: &Places,
) -> Result<(), NoMemory>
    ensures { OnOk result (known.new.keys ≡ after_mentions limit known.old.keys links.now) }
{
    for index in 0..links.len() {
        add_mention(known, limit, links.get(index).to_place(alloc)?)?;
    }
    Ok(())
}

// The places that are known after these events, the first of which has the seeds and the limit.
fn known_places(alloc: Global, events: &[Event]) -> Result<IndexSet<Place>, NoMemory> {
    let mut known = IndexSet::new(alloc);
    let mut limit = 0;
    for event in events {
        match event {
            Event::Opened(opening) => {
                limit = opening.places() as usize;
                add_seeds(&mut known, limit, opening.seeds())?;
            }
            Event::Found(_, page) if known.len() < limit => {
                if let Some(links) = page.packed_links() {
                    add_links(alloc, &mut known, limit, links)?;
                }
            }
            _ => {}
        }
    }
    Ok(known)
}

// How many of the links of a page are not among the known places.
fn unknown_links(alloc: Global, known: &IndexSet<Place>, links: &Places) -> Result<u64, NoMemory>
    ensures { IfOk result (λ unknown. unknown ≡ count_by (is_unknown known.now.keys) links.now) }
{
    let mut unknown = 0;
    for index in 0..links.len() {
        if !known.contains(&links.get(index).to_place(alloc)?) {
            unknown += 1;
        }
    }
    Ok(unknown)
}

// Adds how many links of a menu were dropped to those of its host.
fn add_dropped(
    alloc: Global,
    hosts: &mut IndexMap<Place, u64>,
    menu: &Place,
    links: u64,
) -> Result<(), NoMemory>
    ensures { OnOk result (let host = host_of menu.now in
        Updates same_place hosts.old hosts.new host
        (Some (more_links (get same_place hosts.old host) links))) }
{
    let host = host_of(alloc, menu)?;
    let before = hosts.get(&host).copied().unwrap_or(0);
    hosts.insert(host, before.saturating_add(links))?;
    Ok(())
}

// How many links of each host's menus are not among the known places, in the order in which the
// first of those menus was found. Hosts without such links are left out.
fn dropped_links(
    alloc: Global,
    known: &IndexSet<Place>,
    events: &[Event],
) -> Result<IndexMap<Place, u64>, NoMemory> {
    let mut hosts = IndexMap::new(alloc);
    for event in events {
        if let Event::Found(_, page) = event
            && let Some(links) = page.packed_links()
        {
            let dropped = unknown_links(alloc, known, links)?;
            if dropped > 0 {
                add_dropped(alloc, &mut hosts, page.place(), dropped)?;
            }
        }
    }
    Ok(hosts)
}

// The index of the greatest of these numbers, the first of several; `None` if there are none.
fn most(numbers: &[u64]) -> Option<usize>
    ensures { IsMost numbers.now result }
{
    let mut best = None;
    for (index, number) in numbers.iter().enumerate() {
        match best {
            Some(before) if *number <= numbers[before] => {}
            _ => best = Some(index),
        }
    }
    best
}

/// Returns the host whose menus have the most links to places that aren't known, by the record of a
/// crawl that is over. `None` if all links are known.
///
/// # Errors
///
/// `NoMemory` (90).
pub fn most_dropped(alloc: Global, events: &[Event]) -> Result<Option<Dropped>, NoMemory> {
    let known = known_places(alloc, events)?;
    let hosts = dropped_links(alloc, &known, events)?;
    let numbers: Vec<u64> = hosts.values().copied().collect(alloc)?;
    let Some(index) = most(&numbers) else {
        return Ok(None);
    };
    match hosts.get_index(index) {
        Some((host, links)) => Ok(Some(Dropped {
            host: host.clone()?,
            links: *links,
        })),
        None => Ok(None),
    }
}
