//! `Pauses`: when the next fetch of a host may begin.

ghost use Rattle.std.specs.Prelude.{◌≡◌, Some, OnErr, IfOk};
ghost use Rattle.indexmap.specs.IndexMap.{get, Updates, IsUnchanged};
ghost use Rattle.gopher_item.specs.Place.{same_place};
ghost use Rattle.gopher_hole.specs.Pauses.{IsNextBegin};

use gopher_item::{NoMemory, Place};
use indexmap::IndexMap;
use std::alloc::Global;
use std::time::{Duration, Instant};

// The most hosts whose fetches are kept apart.
const MAX_HOSTS: usize = 1_024;

/// When the last fetch of each host begins. A host is the place of its main menu.
#[derive(Drop)]
pub struct Pauses {
    hosts: IndexMap<Place, Instant>,
}

// When the next fetch of a host may begin, if the last one begins then.
fn next_begin(last: Option<Instant>, pause: Duration, now: Instant) -> Instant
    ensures { IsNextBegin last pause now result }
{
    match last {
        Some(last) => match last.checked_add(pause) {
            Some(next) if next.checked_duration_since(now).is_some() => next,
            _ => now,
        },
        None => now,
    }
}

impl Pauses {
    /// No fetch of any host has begun.
    pub fn new(alloc: Global) -> Pauses {
        Pauses {
            hosts: IndexMap::new(alloc),
        }
    }

    /// Reserves the next beginning of a fetch of a host: now, or `pause` after the last one if that
    /// is later.
    ///
    /// # Errors
    ///
    /// `NoMemory` (90): out of memory, or there are 1,024 other hosts already. Nothing changes.
    pub fn reserve(
        &mut self,
        host: &Place,
        pause: Duration,
        now: Instant,
    ) -> Result<Instant, NoMemory>
        ensures next { IfOk result (
            IsNextBegin (get same_place self.old.hosts host.now) pause now) }
        ensures noted { IfOk result (λ next.
            Updates same_place self.old.hosts self.new.hosts host.now (Some next)) }
        ensures err { OnErr result (IsUnchanged self.old.hosts self.new.hosts) }
    {
        let last = self.hosts.get(host).copied();
        let next = next_begin(last, pause, now);
        if last.is_none() && self.hosts.len() >= MAX_HOSTS {
            return Err(NoMemory);
        }
        let _last = self.hosts.insert(host.clone()?, next)?;
        Ok(next)
    }
}
