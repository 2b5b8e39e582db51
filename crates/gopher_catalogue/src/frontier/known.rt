//! `KnownPlaces`, `Standing`: the known places of a crawl, the state of each, and mentions of
//! places.

ghost use Rattle.std.specs.Prelude.{◌≡◌, ◌<◌, [], ◌∷◌, ◌++◌, ◌≤◌, false, length, map, take, slice_get, IfOk, OnOk, OnErr};
ghost use Rattle.std.specs.Arc.{arc_value};
ghost use Rattle.gopher_item.specs.Place.{is_among};
ghost use Rattle.gopher_catalogue.specs.Tables.{Extends, Mentions, allowed, claims_at, ended, unclaimed, with_standing};

use gopher_item::{NoMemory, Place, Places, Scope};
use gopher_text::MAX_REPLY;
use indexmap::IndexMap;
use std::alloc::Global;
use std::marker::Model;
use std::sync::Arc;

/// The state of a known place.
#[derive(Clone, Copy, Debug)]
pub(crate) struct Standing {
    /// How often the place was claimed.
    pub claims: u32,
    /// Whether the place was claimed and has no outcome yet.
    pub is_out: bool,
}

impl Standing {
    /// The state of a place that was never claimed.
    const UNCLAIMED: Standing = Standing {
        claims: 0,
        is_out: false,
    };
}

/// The known places in the order of first mention. The index of a place is its number.
#[derive(Debug, Drop)]
pub(crate) struct KnownPlaces {
    standings: IndexMap<Arc<Place>, Standing>,
    // The keys of `standings` again, because callers get them as one slice.
    places: Vec<Arc<Place>>,
}

impl Model for KnownPlaces {
    ghost use Rattle.std.specs.Prelude.{◌≡◌, map};
    ghost use Rattle.std.specs.Arc.{arc_value};
    ghost use Rattle.indexmap.specs.IndexMap.{keys, values};
    ghost use Rattle.gopher_catalogue.specs.Tables.{KnownData, known_with};

    ghost Value = { KnownData };

    ghost view = { λ k. known_with (map arc_value k.places.items) (values k.standings) };

    ghost invariant = { λ k. map arc_value (keys k.standings) ≡ map arc_value k.places.items };
}

impl KnownPlaces {
    /// An empty list.
    pub fn new(alloc: Global) -> KnownPlaces
        ensures places { result.places ≡ [] }
        ensures standings { result.standings ≡ [] }
    {
        KnownPlaces {
            standings: IndexMap::new(alloc),
            places: Vec::new(alloc),
        }
    }

    /// Returns the number of places.
    pub fn len(&self) -> usize
        ensures places { result ≡ length self.now.places }
        ensures standings { result ≡ length self.now.standings }
    {
        self.places.len()
    }

    /// Returns the places, each at the index that is its number.
    pub fn as_slice(&self) -> &[Arc<Place>]
        ensures { map arc_value result.now ≡ self.now.places }
    {
        &self.places
    }

    /// Returns whether the place is known.
    pub fn contains(&self, place: &Arc<Place>) -> bool
        ensures { result ≡ is_among self.now.places (arc_value place.now) }
    {
        self.standings.contains_key(place)
    }

    /// Returns the state of the place with this number.
    pub fn standing(&self, number: usize) -> Option<Standing>
        ensures { result ≡ slice_get self.now.standings number }
    {
        let (_, standing) = self.standings.get_index(number)?;
        Some(*standing)
    }

    /// Replaces the state of the place with this number.
    pub fn set_standing(&mut self, number: usize, standing: Standing)
        requires { number < length self.old.standings }
        ensures { self.new ≡ with_standing self.old number standing }
    {
        self.standings[number] = standing;
    }

    /// Ends the claim of the place with this number, and returns how often it was claimed.
    pub fn settle(&mut self, number: usize) -> u32
        requires { number < length self.old.standings }
        ensures claims { result ≡ claims_at self.old.standings number }
        ensures ended { self.new ≡ with_standing self.old number (ended result) }
    {
        let claims = self.standing(number).unwrap().claims;
        self.set_standing(
            number,
            Standing {
                claims,
                is_out: false,
            },
        );
        claims
    }

    /// Appends a place that was never claimed.
    pub fn add(&mut self, place: &Arc<Place>) -> Result<(), NoMemory>
        requires { is_among self.old.places (arc_value place.now) ≡ false }
        ensures keys { OnOk result (self.new.places ≡ self.old.places ++ arc_value place.now ∷ []) }
        ensures states { OnOk result (self.new.standings ≡ self.old.standings ++ unclaimed ∷ []) }
        ensures err { OnErr result (self.new ≡ self.old) }
    {
        self.places.reserve(1)?;
        let listed = place.clone()?;
        self.standings.insert(place.clone()?, Standing::UNCLAIMED)?;
        self.places.push_reserved(listed);
        Ok(())
    }

    /// Forgets all places after the first `len`.
    pub fn truncate(&mut self, len: usize)
        ensures places { self.new.places ≡ take len self.old.places }
        ensures standings { self.new.standings ≡ take len self.old.standings }
    {
        self.standings.truncate(len);
        self.places.truncate(len);
    }

    /// Makes a place known unless it is known already, or `limit` places are. Returns 1 if the
    /// mention was dropped, else 0.
    pub fn mention(&mut self, limit: usize, place: &Arc<Place>) -> Result<u32, NoMemory>
        ensures ok { IfOk result (Mentions limit (arc_value place.now ∷ []) self.old self.new) }
        ensures grows { OnOk result (Extends self.old self.new) }
        ensures err { OnErr result (self.new ≡ self.old) }
    {
        if self.contains(place) {
            return Ok(0);
        }
        if self.len() >= limit {
            return Ok(1);
        }
        self.add(place)?;
        Ok(0)
    }

    /// Mentions the links that the scope allows. Returns the number of dropped mentions. When out
    /// of memory it can leave new places known.
    pub fn mention_links(
        &mut self,
        alloc: Global,
        scope: &Scope,
        limit: usize,
        links: &Places,
    ) -> Result<u32, NoMemory>
        requires { length links.now ≤ MAX_REPLY }
        ensures ok { IfOk result (Mentions limit (allowed scope.now links.now) self.old self.new) }
        ensures few { IfOk result (λ dropped. dropped ≤ length links.now) }
        ensures grows { Extends self.old self.new }
    {
        let mut dropped = 0;
        for index in 0..links.len() {
            let link = links.get(index).to_place(alloc)?;
            if scope.allows(&link) {
                let link = Arc::new(alloc, link)?;
                dropped += self.mention(limit, &link)?;
            }
        }
        Ok(dropped)
    }

    /// Mentions the seeds of a crawl. Returns the number of dropped mentions. When out of memory it
    /// can leave new places known.
    pub fn mention_seeds(
        &mut self,
        alloc: Global,
        limit: usize,
        seeds: &[Place],
    ) -> Result<u64, NoMemory>
        ensures ok { IfOk result (Mentions limit seeds.now self.old self.new) }
        ensures few { IfOk result (λ dropped. dropped ≤ length seeds.now) }
        ensures grows { Extends self.old self.new }
    {
        let mut dropped = 0;
        for seed in seeds {
            let place = Arc::new(alloc, seed.clone()?)?;
            dropped += u64::from(self.mention(limit, &place)?);
        }
        Ok(dropped)
    }
}
