//! `Frontier`: the known places of a crawl, the queue of waiting ones, and their numbers.

ghost use Rattle.std.specs.Prelude.{◌≡◌, ◌<◌, ◌^◌, true, [], length, map, slice_get, Some, MatchOption, IfOk, OnOk, OnErr};
ghost use Rattle.std.specs.Arc.{arc_value};
ghost use Rattle.gopher_catalogue.specs.Step.{is_place_at};
ghost use Rattle.gopher_catalogue.specs.Tables.{is_out_at};
ghost use Rattle.gopher_catalogue.specs.FrontierTables.{AreLimits, Begins, IsFirst, Learns, sizes_of, without_fresh, after_claim, after_find, after_failure};

mod known;
mod queue;
mod sizes;

use gopher_item::{NoMemory, Place, Places, Scope};
use gopher_page::Page;
use known::{KnownPlaces, Standing};
use queue::Queue;
pub use sizes::{Added, Status};
use std::alloc::Global;
use std::marker::Model;
use std::sync::Arc;

/// The known places with their states, the queue of waiting places, and counts that each call
/// updates. A number identifies a place: its index, from 0, among the known places.
///
/// The tables of every frontier agree with each other. Each place waits once, is out or is done,
/// unless `learn` made it known after the last page was found. A place that waits has tries left.
#[derive(Debug, Drop)]
pub(crate) struct Frontier {
    // The limit of known places.
    limit: u32,
    // The limit of claims of a place.
    tries: u32,
    // The known places, each at the index that is its number.
    known: KnownPlaces,
    // How many of the known places, the last ones, don't wait yet.
    fresh: u32,
    // The numbers that wait.
    queue: Queue,
    // The number of places that are out: claimed and without an outcome.
    out: u32,
    // The number of places that are done.
    done: u32,
    // The number of dropped mentions.
    dropped: u64,
}

impl Model for Frontier {
    ghost use Rattle.gopher_catalogue.specs.FrontierTables.{FrontierData, IsConsistent, frontier_with};

    ghost Value = { FrontierData };

    ghost view = { λ f.
        frontier_with f.limit f.tries f.known f.fresh f.queue.waiting f.out f.done f.dropped };

    ghost invariant = { λ f. IsConsistent
        (frontier_with f.limit f.tries f.known f.fresh f.queue.waiting f.out f.done f.dropped)
        f.queue.room };
}

impl Frontier {
    /// The frontier of a new crawl: the distinct seeds, at most `limit` of them, wait. Each can be
    /// claimed at most `tries` times.
    pub fn open(
        alloc: Global,
        limit: u32,
        tries: u32,
        seeds: &[Place],
    ) -> Result<Frontier, NoMemory>
        requires limits { AreLimits limit tries }
        requires few_seeds { length seeds.now < 2 ^ 63 }
        ensures { IfOk result (Begins limit tries seeds.now) }
    {
        let mut known = KnownPlaces::new(alloc);
        let dropped = known.mention_seeds(alloc, limit as usize, seeds)?;
        let mut queue = Queue::new(alloc);
        queue.reserve(known.len())?;
        queue.push_range(0, known.len() as u32);
        Ok(Frontier {
            limit,
            tries,
            known,
            fresh: 0,
            queue,
            out: 0,
            done: 0,
            dropped,
        })
    }

    /// Returns the number of places in each state, and of dropped mentions.
    pub fn status(&self) -> Status
        ensures { result ≡ sizes_of self.now }
    {
        Status {
            known: self.known.len() as u32,
            waiting: self.queue.len() as u32,
            out: self.out,
            done: self.done,
            dropped: self.dropped,
        }
    }

    /// Returns the known places, each at the index that is its number.
    pub fn places(&self) -> &[Arc<Place>]
        ensures { map arc_value result.now ≡ self.now.known.places }
    {
        self.known.as_slice()
    }

    /// Returns the first waiting number, with its place.
    pub fn first(&self) -> Option<(u32, &Arc<Place>)>
        ensures { MatchOption result (self.now.waiting ≡ []) (λ r. IsFirst self.now r.0 r.1.now) }
    {
        let number = self.queue.first()?;
        Some((number, &self.known.as_slice()[number as usize]))
    }

    /// Returns whether the place with this number is out.
    pub fn is_out(&self, number: u32) -> bool
        ensures { result ≡ is_out_at self.now.known.standings number }
    {
        match self.known.standing(number as usize) {
            Some(standing) => standing.is_out,
            None => false,
        }
    }

    /// Returns whether this is the place with this number.
    pub fn has_place(&self, number: u32, place: &Place) -> bool
        ensures { result ≡ is_place_at self.now.known.places number place.now }
    {
        match self.known.as_slice().get(number as usize) {
            Some(other) => **other == *place,
            None => false,
        }
    }

    /// Makes the links of a page known that the scope allows, up to the limit of places, and
    /// returns how many became known and how many mentions were dropped.
    ///
    /// The new places don't wait before `found`, for which it reserves room.
    pub fn learn(&mut self, alloc: Global, scope: &Scope, page: &Page) -> Result<Added, NoMemory>
        ensures ok { IfOk result (Learns scope.now page.now.links self.old self.new) }
        ensures err { OnErr result (self.new ≡ self.old) }
    {
        let before = self.known.len();
        let mentioned = {
            let none = Places::new(alloc);
            let links = page.packed_links().unwrap_or(&none);
            self.known
                .mention_links(alloc, scope, self.limit as usize, links)
        };
        let Ok(dropped) = mentioned else {
            self.known.truncate(before);
            return Err(NoMemory);
        };
        let added = self.known.len() - before;
        let fresh = self.fresh as usize + added;
        if self.queue.reserve(fresh + self.out as usize).is_err() {
            self.known.truncate(before);
            return Err(NoMemory);
        }
        self.fresh = fresh as u32;
        Ok(Added {
            fresh: added as u32,
            dropped,
        })
    }

    /// Forgets the places that were learned and don't wait yet.
    pub fn forget(&mut self)
        ensures { self.new ≡ without_fresh self.old }
    {
        self.known.truncate(self.known.len() - self.fresh as usize);
        self.fresh = 0;
    }

    /// Claims the first waiting number, which is out from now on. Reserves room for its outcome.
    pub fn claim(&mut self, number: u32) -> Result<(), NoMemory>
        requires first { slice_get self.old.waiting 0 ≡ Some number }
        ensures ok { OnOk result (self.new ≡ after_claim self.old number) }
        ensures err { OnErr result (self.new ≡ self.old) }
    {
        self.queue.reserve((self.fresh + self.out) as usize + 1)?;
        let standing = self.known.standing(number as usize).unwrap();
        self.known.set_standing(
            number as usize,
            Standing {
                claims: standing.claims + 1,
                is_out: true,
            },
        );
        self.queue.take_first();
        self.out += 1;
        Ok(())
    }

    /// Records that a place that is out was found, and that its page dropped `dropped` mentions.
    /// The places that were learned now wait.
    pub fn found(&mut self, number: u32, dropped: u32)
        requires out { is_out_at self.old.known.standings number ≡ true }
        ensures { self.new ≡ after_find self.old number dropped }
    {
        self.known.settle(number as usize);
        let before = self.known.len() as u32 - self.fresh;
        self.queue.push_range(before, self.known.len() as u32);
        self.fresh = 0;
        self.out -= 1;
        self.done += 1;
        self.dropped += u64::from(dropped);
    }

    /// Records that a place that is out could not be fetched. It waits again if it has tries left.
    pub fn fail(&mut self, number: u32)
        requires out { is_out_at self.old.known.standings number ≡ true }
        ensures { self.new ≡ after_failure self.old number }
    {
        let claims = self.known.settle(number as usize);
        self.out -= 1;
        if claims < self.tries {
            self.queue.push(number);
        } else {
            self.done += 1;
        }
    }
}
