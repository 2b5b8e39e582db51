//! A fetcher over the replies of a host in memory.

ghost use Rattle.std.specs.Prelude.{◌≡◌};
ghost use Rattle.gopher_crew.specs.Rounds.{one_more_call};

use gopher_catalogue::Why;
use gopher_crew::{Calls, Fetch};
use gopher_item::Place;
use std::alloc::Global;
use std::sync::atomic::{AtomicU64, Ordering};

/// The reply of files.
pub const MOON: &[u8] = b"moon\r\n.\r\n";

/// A host in memory.
#[derive(Drop)]
pub struct Host<'a> {
    /// The menu of its root.
    pub root: &'a [u8],
    /// The reply of `/a`.
    pub first: &'a [u8],
    /// How many fetches of `/a` fail before others succeed.
    pub late: u64,
    /// The reply of all other places, if they can be read.
    pub rest: Option<&'a [u8]>,
    /// Whether a fetch of `/a` is held until another place was answered.
    pub is_held: bool,
    /// How often `/a` was fetched.
    pub fetched: AtomicU64,
    /// How often other places were.
    pub answered: AtomicU64,
}

// How often a fetch that is held looks whether it may go on.
const TURNS: u32 = 100_000_000;

// Waits until something was answered. Returns whether it was.
fn is_answered(answered: &AtomicU64) -> bool {
    for _turn in 0..TURNS {
        if answered.load(Ordering::SeqCst) > 0 {
            return true;
        }
    }
    false
}

impl<'a> Host<'a> {
    /// A host of files.
    pub fn new(root: &'a [u8]) -> Host<'a> {
        Host {
            root,
            first: MOON,
            late: 0,
            rest: Some(MOON),
            is_held: false,
            fetched: AtomicU64::new(0),
            answered: AtomicU64::new(0),
        }
    }

    // The reply of `/a`, or why there is none.
    fn first_reply(&self) -> Result<&'a [u8], Why> {
        let is_late = self.fetched.fetch_add(1, Ordering::SeqCst) < self.late;
        if is_late || self.is_held && !is_answered(&self.answered) {
            return Err(Why::Read);
        }
        Ok(self.first)
    }

    // The reply of a selector, or why there is none.
    fn reply(&self, selector: &[u8]) -> Result<&'a [u8], Why> {
        match selector {
            b"" => Ok(self.root),
            b"/a" => self.first_reply(),
            _ => {
                let _before = self.answered.fetch_add(1, Ordering::SeqCst);
                self.rest.ok_or(Why::Read)
            }
        }
    }
}

/// Fetches the replies of a host.
#[derive(Drop)]
pub struct Fetcher<'a> {
    host: &'a Host<'a>,
    calls: u64,
}

impl<'a> Fetcher<'a> {
    /// One that was called so often already.
    pub fn new(host: &'a Host<'a>, calls: u64) -> Fetcher<'a> {
        Fetcher { host, calls }
    }
}

impl<'a> Calls for Fetcher<'a> {
    ghost called = { λ fetcher. fetcher.calls };

    ghost fetches = { λ old new place limit outcome. new.calls ≡ one_more_call old.calls };

    fn calls(&self) -> u64 {
        self.calls
    }
}

impl<'a, W> Fetch<W> for Fetcher<'a> {
    fn fetch(
        &mut self,
        _rt: &W,
        alloc: Global,
        place: &Place,
        limit: usize,
    ) -> Result<Vec<u8>, Why> {
        self.calls = self.calls.saturating_add(1);
        let reply = self.host.reply(place.selector())?;
        match Vec::from_slice(alloc, &reply[..reply.len().min(limit)]) {
            Ok(copy) => Ok(copy),
            Err(_refused) => Err(Why::NoMemory),
        }
    }
}
