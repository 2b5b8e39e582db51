//! `Catalogue`: the steps of a crawl, open, claim, found and fail, and its searches.

ghost use Rattle.std.specs.Prelude.{◌≡◌, ◌≤◌, ℕ, true, false, None, Some, [], ◌∷◌, ◌++◌, length, map, slice_get, IfOk, IfErr, OnOk, OnErr};
ghost use Rattle.std.specs.Arc.{arc_value};
ghost use Rattle.gopher_item.specs.Scope.{first_outside};
ghost use Rattle.gopher_index.specs.Index.{IsSliceOf};
ghost use Rattle.gopher_catalogue.specs.Event.{EventData, Opened, Claimed, Found, Failed};
ghost use Rattle.gopher_catalogue.specs.EventOf.{event_data};
ghost use Rattle.gopher_catalogue.specs.Fault.{HasOpenFault, HasFoundFault};
ghost use Rattle.gopher_catalogue.specs.Legal.{IsLegal};
ghost use Rattle.gopher_catalogue.specs.Step.{open_fault, opened_record, turn_of, after_turn, is_out_in, found_fault, added_by, status_of, is_finished, places_of};
ghost use Rattle.gopher_catalogue.specs.Closure.{AreFinalOnceComplete, HoldsReach, IsFinalOnceComplete, OnceComplete};
ghost use Rattle.gopher_catalogue.specs.Pages.{pages_found, IsDueAmong, AreHitsIn, AreOccurrencesIn};
ghost use Rattle.gopher_catalogue.specs.Turn.{turn_data, IsTake};

use crate::answer::{Claim, Turn};
use crate::archive::Archive;
use crate::event::{Event, Why};
use crate::fault::{FailRefused, FoundFault, FoundRefused, OpenFault, OpenRefused};
use crate::frontier::{Added, Frontier, Status};
use crate::opening::Opening;
use gopher_index::{Due, Hit, Index};
use gopher_item::{MAX_PLACES, MAX_TRIES, NoMemory, Place, Scope};
use gopher_page::{Page, Query};
use std::alloc::Global;
use std::marker::Model;
use std::sync::Arc;

/// The catalogue of a crawl.
///
/// Contracts see a catalogue as its record, which is always legal. The frontier and the index
/// beside the record let a step or a search run without reading the record again.
#[derive(Debug)]
pub struct Catalogue {
    alloc: Global,
    archive: Archive,
    frontier: Frontier,
}

// Written out: a derived one, and that of each part, is proved again in every crate above.
impl Drop for Catalogue {
    fn drop(self) {
        let Self {
            alloc: _alloc,
            archive: _archive,
            frontier: _frontier,
        } = self;
    }
}

impl Model for Catalogue {
    ghost use Rattle.std.specs.Prelude.{List};
    ghost use Rattle.gopher_catalogue.specs.Event.{EventData};
    ghost use Rattle.gopher_catalogue.specs.Indexed.{IsIndexed};

    ghost Value = { List EventData };

    ghost view = { λ c. c.archive.events };

    ghost invariant = { λ c. IsIndexed c.archive c.frontier };
}

// The index of the first seed that the scope doesn't allow.
fn first_outside(scope: &Scope, seeds: &[Place]) -> Option<usize>
    ensures { result ≡ first_outside scope.now seeds.now }
{
    seeds.iter().position(|seed| !scope.allows(seed))
}

fn open_fault(scope: &Scope, seeds: &[Place], places: u32, tries: u32) -> Option<OpenFault>
    ensures { result ≡ open_fault scope.now seeds.now places tries }
{
    if let Some(index) = first_outside(scope, seeds) {
        Some(OpenFault::SeedOutOfScope(index))
    } else if places < 1 || MAX_PLACES < places {
        Some(OpenFault::BadPlaces)
    } else if tries < 1 || MAX_TRIES < tries {
        Some(OpenFault::BadTries)
    } else {
        None
    }
}

fn refused(fault: OpenFault, scope: Scope, seeds: Vec<Place>) -> OpenRefused
    ensures fault { result.fault ≡ fault }
    ensures scope { result.scope ≡ scope }
    ensures seeds { result.seeds.items ≡ seeds.items }
{
    OpenRefused {
        fault,
        scope,
        seeds,
    }
}

impl Catalogue {
    /// Opens the catalogue of a new crawl.
    ///
    /// At most `places` places become known, and each can be claimed at most `tries` times.
    ///
    /// # Errors
    ///
    /// The first fault in this order; the error contains the scope and the seeds:
    /// - `SeedOutOfScope` (50): the scope doesn't allow a seed; contains the index of the first
    ///   such seed
    /// - `BadPlaces` (51): `places` isn't 1 to 65,536
    /// - `BadTries` (54): `tries` isn't 1 to 5
    /// - `NoMemory` (90)
    pub fn open(
        alloc: Global,
        scope: Scope,
        seeds: Vec<Place>,
        places: u32,
        tries: u32,
    ) -> Result<Catalogue, OpenRefused>
        ensures ok { OnOk result (open_fault scope seeds.items places tries ≡ None) }
        ensures opened { IfOk result (λ c. c ≡ opened_record scope seeds.items places tries) }
        ensures legal { IfOk result (λ catalogue. IsLegal catalogue) }
        ensures fault { IfErr result (HasOpenFault (open_fault scope seeds.items places tries)) }
        ensures scope_back { IfErr result (λ refused. refused.scope ≡ scope) }
        ensures seeds_back { IfErr result (λ refused. refused.seeds.items ≡ seeds.items) }
    {
        if let Some(fault) = open_fault(&scope, &seeds, places, tries) {
            return Err(refused(fault, scope, seeds));
        }
        let Ok(frontier) = Frontier::open(alloc, places, tries, &seeds) else {
            return Err(refused(OpenFault::NoMemory, scope, seeds));
        };
        match Archive::begin(alloc, Opening::new(scope, seeds, places, tries)) {
            Ok(archive) => Ok(Catalogue {
                alloc,
                archive,
                frontier,
            }),
            Err(opening) => {
                let (scope, seeds) = opening.into_parts();
                Err(refused(OpenFault::NoMemory, scope, seeds))
            }
        }
    }

    /// Claims the first waiting place, which is out until `found` or `fail` records its outcome.
    ///
    /// A claim reserves room for the outcome, so that `fail` never allocates. If no place waits,
    /// the call changes nothing and allocates nothing.
    pub fn claim(&mut self) -> Result<Turn, NoMemory>
        ensures turn { IfOk result (λ turn. turn_data turn ≡ turn_of self.old) }
        ensures after { OnOk result (self.new ≡ after_turn self.old (turn_of self.old)) }
        ensures due { OnErr result (IsTake (turn_of self.old)) }
        ensures err { OnErr result (self.new ≡ self.old) }
        ensures legal { IsLegal self.new }
    {
        let out = self.frontier.status().out;
        let Some((number, place)) = self.frontier.first() else {
            if out == 0 {
                return Ok(Turn::Finished);
            }
            return Ok(Turn::Idle);
        };
        let place = place.clone()?;
        self.archive.reserve(out as usize + 2)?;
        self.frontier.claim(number)?;
        self.archive.push(Event::Claimed(number));
        Ok(Turn::Take(Claim { number, place }))
    }

    /// Records the page of a place that is out.
    ///
    /// Links of the page that the scope allows and that aren't known yet become known, up to the
    /// limit of places, and wait.
    ///
    /// # Errors
    ///
    /// The first fault in this order; the record stays unchanged and the error contains the page:
    /// - `NotOut` (52): the number isn't out
    /// - `WrongPlace` (53): the page is of another place
    /// - `NoMemory` (90)
    pub fn found(&mut self, number: u32, page: Page) -> Result<Added, FoundRefused>
        ensures ok { OnOk result (found_fault self.old number page.place ≡ None) }
        ensures added { IfOk result (λ added. added ≡ added_by self.old number page) }
        ensures after { OnOk result (self.new ≡ self.old ++ Found number page ∷ []) }
        ensures fault { IfErr result (HasFoundFault (found_fault self.old number page.place)) }
        ensures page_back { IfErr result (λ refused. refused.page ≡ page) }
        ensures err { OnErr result (self.new ≡ self.old) }
        ensures legal { IsLegal self.new }
    {
        if !self.frontier.is_out(number) {
            let fault = FoundFault::NotOut;
            return Err(FoundRefused { fault, page });
        }
        if !self.frontier.has_place(number, page.place()) {
            let fault = FoundFault::WrongPlace;
            return Err(FoundRefused { fault, page });
        }
        let fault = FoundFault::NoMemory;
        let scope = self.archive.opening().scope();
        let Ok(added) = self.frontier.learn(self.alloc, scope, &page) else {
            return Err(FoundRefused { fault, page });
        };
        match self.archive.add_found(self.alloc, number, page) {
            Ok(()) => {
                self.frontier.found(number, added.dropped);
                Ok(added)
            }
            Err(page) => {
                self.frontier.forget();
                Err(FoundRefused { fault, page })
            }
        }
    }

    /// Records that a place that is out could not be fetched. If it has tries left, it waits again,
    /// behind all others. Allocates nothing.
    ///
    /// # Errors
    ///
    /// `FailRefused` (52): the number isn't out; the record stays unchanged.
    pub fn fail(&mut self, number: u32, why: Why) -> Result<(), FailRefused>
        ensures ok { OnOk result (is_out_in self.old number ≡ true) }
        ensures after { OnOk result (self.new ≡ self.old ++ Failed number why ∷ []) }
        ensures not_out { OnErr result (is_out_in self.old number ≡ false) }
        ensures err { OnErr result (self.new ≡ self.old) }
        ensures legal { IsLegal self.new }
    {
        if !self.frontier.is_out(number) {
            return Err(FailRefused);
        }
        self.frontier.fail(number);
        self.archive.push(Event::Failed(number, why));
        Ok(())
    }

    /// Takes a run of pages that is ready to be merged into one segment of the index, if there is
    /// one.
    ///
    /// `Due::merge` merges it while the catalogue goes on; `install` then puts the segment in its
    /// place.
    pub fn due(&mut self) -> Result<Option<Due>, NoMemory>
        ensures same { self.new ≡ self.old }
        ensures stands { IfOk result (IsDueAmong (pages_found self.old)) }
        ensures legal { IsLegal self.old }
    {
        self.archive.due()
    }

    /// Puts a merged run in its place in the index. A run that wasn't merged becomes ready again.
    ///
    /// Neither the record nor the result of any search changes. Runs may be installed in any order.
    pub fn install(&mut self, due: Due)
        requires { IsSliceOf due (pages_found self.old) }
        ensures { self.new ≡ self.old }
    {
        self.archive.install(due);
    }

    /// Merges all pages that are ready. Single-threaded callers call it after `found`.
    ///
    /// Neither the record nor the result of any search changes.
    pub fn settle(&mut self)
        ensures { self.new ≡ self.old }
    {
        self.archive.settle();
    }

    /// Returns the number of places in each state, and of dropped mentions.
    pub fn status(&self) -> Status
        ensures status { result ≡ status_of self.now }
        ensures legal { IsLegal self.now }
    {
        self.frontier.status()
    }

    /// Returns whether the crawl is finished: no place waits and none is out.
    ///
    /// If also no mention was dropped (`Status::dropped` is 0), the places known and the results of
    /// searches depend only on the scope, the seeds and what the servers reply: see `closure`.
    pub fn is_finished(&self) -> bool
        ensures finished { result ≡ is_finished self.now }
        ensures legal { IsLegal self.now }
    {
        let status = self.status();
        status.waiting == 0 && status.out == 0
    }

    /// Returns the record: every event of the crawl, oldest first.
    pub fn record(&self) -> &[Event]
        ensures events { map event_data result.now ≡ self.now }
        ensures legal { IsLegal self.now }
    {
        self.archive.as_slice()
    }

    /// Returns the known places, each at the index that is its number.
    ///
    /// If the crawl is finished and dropped no mention, these are exactly the places that can be
    /// reached from the seeds, for any table of server replies that the record agrees with
    /// (`closure`).
    pub fn places(&self) -> &[Arc<Place>]
        ensures places { map arc_value result.now ≡ places_of self.now }
        ensures reach { OnceComplete self.now HoldsReach }
        ensures legal { IsLegal self.now }
    {
        self.frontier.places()
    }

    /// Returns the opening of the crawl, which the first event contains.
    pub fn opening(&self) -> &Arc<Opening>
        ensures first { slice_get self.now 0 ≡ Some (Opened (arc_value result.now)) }
        ensures legal { IsLegal self.now }
    {
        self.archive.opening()
    }

    /// Returns the index of the pages found, in the order of their events.
    pub fn index(&self) -> &Index
        ensures pages { result.now ≡ pages_found self.now }
        ensures legal { IsLegal self.now }
    {
        self.archive.index()
    }

    /// Returns at most 50 hits for `query`: by score, highest first, and hits of equal score in
    /// place order.
    ///
    /// If the crawl is finished and dropped no mention, the search covers the pages of exactly the
    /// places that can be reached, as in `places`.
    pub fn search(&self, query: &Query) -> Result<Vec<Hit>, NoMemory>
        ensures hits { IfOk result (AreHitsIn self.now query.now) }
        ensures complete { IfOk result (λ hits. IsFinalOnceComplete self.now query.now hits.items) }
        ensures legal { IsLegal self.now }
    {
        self.index().search(self.alloc, query)
    }

    /// Returns each place whose page contains `word`, with the number of times, in place order.
    ///
    /// If the crawl is finished and dropped no mention, the list covers the pages of exactly the
    /// places that can be reached, as in `places`.
    pub fn occurrences(&self, word: &[u8]) -> Result<Vec<(Place, u32)>, NoMemory>
        ensures occurrences { IfOk result (AreOccurrencesIn self.now word.now) }
        ensures complete { IfOk result (λ list. AreFinalOnceComplete self.now word.now list.items) }
        ensures legal { IsLegal self.now }
    {
        self.index().occurrences(self.alloc, word)
    }
}
