//! The links of a menu: `links_of_menu`.

ghost use Rattle.std.specs.Prelude.{◌≡◌, IfOk, OnOk};
ghost use Rattle.gopher_item.specs.EntryParts.{entry_lent};
ghost use Rattle.gopher_page.specs.Page.{menu_links, place_of_entry, with_entry, with_menu};

use gopher_item::{EntryParts, ItemFault, NoMemory, Place, Places, Scope, first_entry};
use indexmap::IndexSet;
use indexmap::set::IntoIter;
use std::alloc::Global;

// The place that an entry names, or `None` if it is an odd line or names no valid place.
fn place_of_entry(alloc: Global, entry: &EntryParts<'_>) -> Result<Option<Place>, NoMemory>
    ensures { IfOk result (λ named. named ≡ place_of_entry (entry_lent entry.now)) }
{
    let EntryParts::Item(item) = entry else {
        return Ok(None);
    };
    match item.place(alloc) {
        Ok(place) => Ok(Some(place)),
        Err(ItemFault::NoMemory) => Err(NoMemory),
        Err(_) => Ok(None),
    }
}

// Adds the place that an entry names, if it is allowed and isn't there yet.
fn add_link(
    alloc: Global,
    scope: &Scope,
    entry: &EntryParts<'_>,
    links: &mut IndexSet<Place>,
) -> Result<(), NoMemory>
    ensures { OnOk result (links.new.keys ≡ with_entry scope.now links.old.keys entry.now) }
{
    if let Some(place) = place_of_entry(alloc, entry)?
        && scope.allows(&place)
    {
        links.insert(place)?;
    }
    Ok(())
}

// Adds the links of a menu to those that are there.
fn add_links(
    alloc: Global,
    scope: &Scope,
    menu: &[u8],
    links: &mut IndexSet<Place>,
) -> Result<(), NoMemory>
    ensures { OnOk result (links.new.keys ≡ with_menu scope.now links.old.keys menu.now) }
{
    let mut rest = menu;
    while let Some((entry, after)) = first_entry(rest) {
        add_link(alloc, scope, &entry, links)?;
        rest = after;
    }
    Ok(())
}

// Takes the places that are left, and returns them packed.
fn packed(alloc: Global, places: &mut IntoIter<Place>) -> Result<Places, NoMemory>
    ensures { IfOk result (λ links. links ≡ places.old) }
{
    let mut links = Places::new(alloc);
    while let Some(place) = places.next() {
        links.push(&place)?;
    }
    links.shrink_to_fit();
    Ok(links)
}

/// Returns the allowed places that a menu names, each once, in the order of first mention.
pub fn links_of_menu(alloc: Global, scope: &Scope, menu: &[u8]) -> Result<Places, NoMemory>
    ensures { IfOk result (λ links. links ≡ menu_links scope.now menu.now) }
{
    let mut places = IndexSet::new(alloc);
    add_links(alloc, scope, menu, &mut places)?;
    packed(alloc, &mut places.into_iter())
}
