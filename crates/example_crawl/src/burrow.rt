//! A host in memory, and a crawl of it.

ghost use Rattle.std.specs.Prelude.{◌≡◌, ◌≤◌, length, vec_len, option_copied, Some, IfOk, IfSome};
ghost use Rattle.gopher_crew.specs.Rounds.{outcome_of};
ghost use Rattle.gopher_catalogue.specs.Step.{opened_record};
ghost use Rattle.example_crawl.specs.Table.{burrow_reply, IsOutcomeOf};

use crate::failed::Failed;
use crate::table::Table;
use gopher_catalogue::{Catalogue, Why};
use gopher_crew::{Calls, Fetch};
use gopher_item::{Place, Rule, Scope};
use std::alloc::Global;
use std::marker::{Model, PhantomData};

/// The most places that become known. Further links are counted as dropped.
pub const PLACES: u32 = 100;

// A place whose fetch failed isn't claimed again.
const TRIES: u32 = 1;

const HOST: &[u8] = b"burrow.example";

const PORT: u16 = 70;

const MENU: &[u8] = b"iA burrow\t\tburrow.example\t70\r\n\
0The moon\t/moon.txt\tburrow.example\t70\r\n\
0The tide\t/tide.txt\tburrow.example\t70\r\n\
0The sun\t/sun.txt\tburrow.example\t70\r\n.\r\n";

const MOON: &[u8] = b"The moon\r\nThe moon pulls the sea.\r\n.\r\n";

const TIDE: &[u8] = b"The tide\r\nIt follows the moon.\r\n.\r\n";

const MOON_SELECTOR: &[u8] = b"/moon.txt";

const TIDE_SELECTOR: &[u8] = b"/tide.txt";

/// The host: three selectors, each with its reply, and no sun.
#[derive(Drop)]
pub struct Host {
    root: (&'static [u8], &'static [u8]),
    moon: (&'static [u8], &'static [u8]),
    tide: (&'static [u8], &'static [u8]),
}

impl Model for Host {
    ghost use Rattle.std.specs.Prelude.{ℕ, ◌≤◌, List, [], ◌∷◌, length};

    ghost Value = { List (List ℕ × List ℕ) };

    ghost view = { λ h. (h.root.0.now, h.root.1.now)
        ∷ (h.moon.0.now, h.moon.1.now)
        ∷ (h.tide.0.now, h.tide.1.now) ∷ [] };

    ghost invariant = { λ h. (length h.root.1.now ≤ 1048576) × (length h.moon.1.now ≤ 1048576)
        × (length h.tide.1.now ≤ 1048576) };
}

impl Host {
    /// The host.
    pub fn new() -> Host {
        Host {
            root: (b"", MENU),
            moon: (MOON_SELECTOR, MOON),
            tide: (TIDE_SELECTOR, TIDE),
        }
    }

    /// The same host.
    pub fn again(&self) -> Host
        ensures { result ≡ self.now }
    {
        Host {
            root: self.root,
            moon: self.moon,
            tide: self.tide,
        }
    }

    /// The host's reply to a selector.
    pub fn reply(&self, selector: &[u8]) -> Option<&'static [u8]>
        ensures few { IfSome result (λ reply. length reply.now ≤ 1048576) }
        ensures told { option_copied result ≡ burrow_reply self.now selector.now }
    {
        if self.root.0 == selector {
            return Some(self.root.1);
        }
        if self.moon.0 == selector {
            return Some(self.moon.1);
        }
        if self.tide.0 == selector {
            return Some(self.tide.1);
        }
        None
    }
}

/// Fetches the replies of the host, and counts how often it was asked. Contracts name the host's
/// replies by `T`.
#[derive(Drop)]
pub struct Burrow<T: Table> {
    host: Host,
    calls: u64,
    of: PhantomData<T>,
}

impl<T: Table> Model for Burrow<T> {
    ghost use Rattle.std.specs.Prelude.{◌≡◌, ℕ};

    ghost Value = { ℕ };

    ghost view = { λ b. b.calls };

    ghost invariant = { λ b. b.host ≡ T.replies };
}

impl<T: Table> Burrow<T> {
    /// A fetcher that was never called.
    pub fn of(host: &Host) -> Burrow<T>
        requires { host.now ≡ T.replies }
    {
        Burrow {
            host: host.again(),
            calls: 0,
            of: PhantomData,
        }
    }
}

// A copy of a reply, unless it is over the worker's limit.
fn copy(alloc: Global, reply: &[u8], limit: usize) -> Result<Vec<u8>, Why>
    ensures few { IfOk result (λ copy. vec_len copy ≤ limit) }
    ensures copied { IsOutcomeOf (Some reply.now) limit (outcome_of result) }
{
    if reply.len() > limit {
        return Err(Why::TooLong);
    }
    match Vec::from_slice(alloc, reply) {
        Ok(copy) => Ok(copy),
        Err(_refused) => Err(Why::NoMemory),
    }
}

impl<T: Table> Calls for Burrow<T> {
    ghost called = { λ calls. calls };

    ghost fetches = { λ old new place limit outcome.
        IsOutcomeOf (burrow_reply T.replies place.selector) limit outcome };

    fn calls(&self) -> u64 {
        self.calls
    }
}

// The runtime is what a fetch over a network would wait by. This one waits for nobody.
impl<R, T: Table> Fetch<R> for Burrow<T> {
    fn fetch(
        &mut self,
        _rt: &R,
        alloc: Global,
        place: &Place,
        limit: usize,
    ) -> Result<Vec<u8>, Why> {
        self.calls = self.calls.saturating_add(1);
        match self.host.reply(place.selector()) {
            Some(reply) => copy(alloc, reply, limit),
            None => Err(Why::Read),
        }
    }
}

/// The scope of a crawl of the whole host.
pub fn scope(alloc: Global) -> Result<Scope, Failed> {
    let rule = Rule::new(alloc, HOST, PORT, b"")?;
    let allow = vec![in alloc; rule]?;
    Ok(Scope::new(allow, Vec::new(alloc)))
}

/// The seeds of a crawl that begins in the root of the host.
pub fn seeds(alloc: Global) -> Result<Vec<Place>, Failed> {
    let root = Place::new(alloc, b'1', b"", HOST, PORT)?;
    let seeds = vec![in alloc; root]?;
    Ok(seeds)
}

/// A catalogue whose crawl has this scope and these seeds.
pub fn catalogue(alloc: Global, scope: Scope, seeds: Vec<Place>) -> Result<Catalogue, Failed>
    ensures { IfOk result (λ catalogue. catalogue ≡ opened_record scope seeds.items 100 1) }
{
    match Catalogue::open(alloc, scope, seeds, PLACES, TRIES) {
        Ok(catalogue) => Ok(catalogue),
        Err(_refused) => Err(Failed::Refused),
    }
}
