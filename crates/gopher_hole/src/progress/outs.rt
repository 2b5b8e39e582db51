//! `Outs`: the places that workers are fetching, of which slow ones are printed.

ghost use Rattle.std.specs.Prelude.{◌≡◌, filter, not, OnOk, OnErr};
ghost use Rattle.std.specs.List.{position};
ghost use Rattle.gopher_item.specs.Place.{same_place};
ghost use Rattle.gopher_hole.specs.Outs.{is_slow};

use gopher_item::Place;
use std::alloc::Global;
use std::sync::{Mutex, Wait};
use std::time::{Clock, Duration, Instant};

// A place is slow if it has been out for longer than this many seconds.
const SLOW: u64 = 10;

/// A place that a worker is fetching.
#[derive(Debug, Drop)]
pub struct Out {
    /// The place.
    pub place: Place,
    /// When its fetch began.
    pub began: Instant,
    /// Whether it was printed.
    pub is_told: bool,
}

// Whether a place is slow and hasn't been printed.
fn is_slow(out: &Out, now: Instant) -> bool
    ensures { result ≡ is_slow out.now now }
{
    !out.is_told && now.duration_since(out.began) > Duration::from_secs(SLOW)
}

// The index of the first place that is slow and hasn't been printed.
fn first_slow(outs: &[Out], now: Instant) -> Option<usize>
    ensures { result ≡ position (λ out. is_slow out now) outs.now }
{
    outs.iter().position(|out| is_slow(out, now))
}

// Takes a place that isn't fetched any more from the list.
fn forget(outs: &mut Vec<Out>, place: &Place)
    ensures { outs.new.items ≡ filter (λ out. not (same_place out.place place.now)) outs.old.items }
{
    outs.retain(|out| out.place != *place);
}

/// The places that workers are fetching. The workers share it.
#[derive(Drop)]
pub struct Outs {
    // Whether places are kept at all.
    are_told: bool,
    outs: Mutex<Vec<Out>>,
}

impl Outs {
    /// No places yet. Unless `are_told`, none is kept.
    pub fn new(alloc: Global, are_told: bool) -> Outs {
        Outs {
            are_told,
            outs: Mutex::new(Vec::new(alloc)),
        }
    }

    /// Adds a place whose fetch begins now. If memory runs out or the clock can't be read, it is
    /// never slow.
    pub fn begin<R: Clock + Wait>(&self, rt: &R, place: &Place) {
        if !self.are_told {
            return;
        }
        if let (Ok(place), Ok(began)) = (place.clone(), Instant::now(rt)) {
            let _added = self.outs.lock(rt).push(Out {
                place,
                began,
                is_told: false,
            });
        }
    }

    /// Removes a place whose fetch has ended.
    pub fn end(&self, rt: &impl Wait, place: &Place) {
        if self.are_told {
            forget(&mut self.outs.lock(rt), place);
        }
    }

    /// Returns a place that has been out for longer than 10 seconds, and for how many, unless it
    /// was returned before. `None` if there is none, or if memory runs out.
    pub fn take_slow(&self, rt: &impl Wait, now: Instant) -> Option<(Place, u64)> {
        let mut outs = self.outs.lock(rt);
        let index = first_slow(&outs, now)?;
        let out = &mut outs[index];
        let place = out.place.clone().ok()?;
        out.is_told = true;
        Some((place, now.duration_since(out.began).as_secs()))
    }
}
