//! The ranks of pages in place order, by which searches compare the places of a segment's pages.

ghost use Rattle.std.specs.Prelude.{◌≡◌, IfOk};
ghost use Rattle.gopher_page.specs.Page.{held};
ghost use Rattle.gopher_segment.specs.Ranks.{AreNumbered, AreRanks, AreScattered, HaveIndices};

use gopher_bytes::NoMemory;
use gopher_item::Place;
use gopher_page::Page;
use std::alloc::Global;
use std::marker::Model;
use std::sync::Arc;

// The place of a page, and the page's index.
#[derive(Drop)]
struct Placed<'a> {
    place: &'a Place,
    index: usize,
}

impl<'a> Model for Placed<'a> {
    ghost use Rattle.std.specs.Prelude.{ℕ};
    ghost use Rattle.gopher_item.specs.Place.{PlaceData};

    ghost Value = { PlaceData × ℕ };

    ghost view = { λ p. (p.place.now, p.index) };
}

// The places of pages, with the index of each page.
fn placed_of<'a>(alloc: Global, pages: &'a [Arc<Page>]) -> Result<Vec<Placed<'a>>, NoMemory>
    ensures { IfOk result (λ placed. AreNumbered (held pages.now) placed.items) }
{
    let mut placed = Vec::with_capacity(alloc, pages.len())?;
    for (index, page) in pages.iter().enumerate() {
        placed.push(Placed {
            place: page.place(),
            index,
        })?;
    }
    Ok(placed)
}

// The position of each index in a list of places. Positions from 65,535 on count as that.
fn positions(alloc: Global, sorted: &[Placed<'_>]) -> Result<Vec<u16>, NoMemory>
    requires { HaveIndices sorted.now }
    ensures { IfOk result (λ ranks. AreScattered sorted.now ranks.items) }
{
    let mut ranks = vec![in alloc; 0; sorted.len()]?;
    for (position, placed) in sorted.iter().enumerate() {
        ranks[placed.index] = position.min(65_535) as u16;
    }
    Ok(ranks)
}

/// Returns the rank of each page in place order: of two pages, the one with the higher rank doesn't
/// come first.
pub(crate) fn ranks_of(alloc: Global, pages: &[Arc<Page>]) -> Result<Vec<u16>, NoMemory>
    ensures { IfOk result (λ ranks. AreRanks (held pages.now) ranks.items) }
{
    let mut sorted = placed_of(alloc, pages)?;
    sorted.sort_by(|placed, other| placed.place.cmp(other.place))?;
    positions(alloc, &sorted)
}
