//! `Opening`: the scope, the seeds and the limits with which a crawl begins.

ghost use Rattle.std.specs.Prelude.{◌≡◌};
ghost use Rattle.gopher_catalogue.specs.Opening.{opening_of};

use gopher_item::{Place, Scope};
use std::marker::Model;

/// The arguments with which a crawl begins: its scope, its seeds and its limits.
#[derive(Debug)]
pub struct Opening {
    scope: Scope,
    seeds: Vec<Place>,
    places: u32,
    tries: u32,
}

// Written out: a derived one, and that of each part, is proved again in every crate above.
impl Drop for Opening {
    fn drop(self) {
        let _parts = self.into_parts();
    }
}

impl Model for Opening {
    ghost use Rattle.gopher_catalogue.specs.Opening.{OpeningData, opening_of};

    ghost Value = { OpeningData };

    ghost view = { λ o. opening_of o.scope o.seeds.items o.places o.tries };
}

impl Opening {
    pub(crate) fn new(scope: Scope, seeds: Vec<Place>, places: u32, tries: u32) -> Opening
        ensures { result ≡ opening_of scope seeds.items places tries }
    {
        Opening {
            scope,
            seeds,
            places,
            tries,
        }
    }

    pub(crate) fn into_parts(self) -> (Scope, Vec<Place>)
        ensures scope { result.0 ≡ self.scope }
        ensures seeds { result.1.items ≡ self.seeds }
    {
        let Self {
            scope,
            seeds,
            places: _places,
            tries: _tries,
        } = self;
        (scope, seeds)
    }

    /// Returns the scope: the places that the crawl may visit.
    pub fn scope(&self) -> &Scope
        ensures { result.now ≡ self.now.scope }
    {
        &self.scope
    }

    /// Returns the places from which the crawl starts.
    pub fn seeds(&self) -> &[Place]
        ensures { result.now ≡ self.now.seeds }
    {
        &self.seeds
    }

    /// Returns the limit of known places, 1 to 65,536.
    pub fn places(&self) -> u32
        ensures { result ≡ self.now.limit }
    {
        self.places
    }

    /// Returns the limit of claims of a place, 1 to 5.
    pub fn tries(&self) -> u32
        ensures { result ≡ self.now.tries }
    {
        self.tries
    }
}
