//! The places that fail in a crawl, printed as they fail.

ghost use Rattle.std.specs.Prelude.{◌≡◌};
ghost use Rattle.gopher_hole.specs.Fault.{is_last_try, reason_name};

use crate::fetching::Cause;
use crate::progress::urls::PlaceUrl;
use gopher_catalogue::Why;
use gopher_item::{NoMemory, Place};
use std::alloc::Global;
use std::io::{self, Eprint};
use std::sync::atomic::{AtomicU64, Ordering};
use std::sync::{Mutex, Wait};

// The most failed places that are printed.
const MAX_PRINTED: u64 = 1_000;

/// How many places of a crawl failed. Its workers share it.
#[derive(Drop)]
pub struct Failures {
    /// Whether they are printed.
    pub are_told: bool,
    // How often a place is tried.
    tries: u32,
    // How often the place with each number failed, if places are tried again.
    tried: Mutex<Vec<u8>>,
    failed: AtomicU64,
}

// Returns whether a place isn't tried again, by how often it failed before and how often it is
// tried.
fn is_last_try(failed: u32, tries: u32) -> bool
    ensures { result ≡ is_last_try failed tries }
{
    tries <= failed.saturating_add(1)
}

// Counts one more failed try of the place with this number, and returns how many there were before.
fn add_try(tried: &mut Vec<u8>, number: u32) -> Result<u8, NoMemory> {
    let number = number as usize;
    if tried.len() <= number {
        tried.resize(number + 1, 0)?;
    }
    let failed = tried[number];
    tried[number] = failed.saturating_add(1);
    Ok(failed)
}

// The name of a reason.
fn reason_name(why: Why) -> &'static str
    ensures { result.now ≡ reason_name why }
{
    match why {
        Why::Connect => "connect",
        Why::Read => "read",
        Why::Write => "write",
        Why::TooLong => "too long",
        Why::NoMemory => "memory",
    }
}

/// Prints the line of a place that failed: its URL, the reason, and what stopped the fetch in
/// words, if there are some. No byte of the place reaches a terminal unless it is printable.
pub fn print_failure(rt: &impl Eprint, place: &Place, why: Why, cause: Cause) {
    let (url, reason, words) = (PlaceUrl::of(place), reason_name(why), cause.words());
    let _ = match cause {
        Cause::Unknown => eprintln!(rt; "hole: failed: {url}: {reason}"),
        Cause::System(number) => {
            let error = io::Error::from_raw_os_error(number);
            eprintln!(rt; "hole: failed: {url}: {reason}: {error}")
        }
        _ => eprintln!(rt; "hole: failed: {url}: {reason}: {words}"),
    };
}

impl Failures {
    /// No failures yet, of a crawl that tries each place `tries` times. Unless `are_told`, none is
    /// counted or printed.
    pub fn new(alloc: Global, tries: u32, are_told: bool) -> Failures {
        Failures {
            are_told,
            tries,
            tried: Mutex::new(Vec::new(alloc)),
            failed: AtomicU64::new(0),
        }
    }

    /// Returns how many places failed for good.
    pub fn count(&self) -> u64 {
        self.failed.load(Ordering::SeqCst)
    }

    // Counts a failed try of the place with this number. Returns whether it was the last one, or
    // false if memory runs out.
    fn count_try(&self, rt: &impl Wait, number: u32) -> bool {
        let mut tried = self.tried.lock(rt);
        match add_try(&mut tried, number) {
            Ok(failed) => is_last_try(u32::from(failed), self.tries),
            Err(_full) => false,
        }
    }

    /// Adds a failure of the place with this number, if failures are printed. If the place isn't
    /// tried again, counts it. Returns whether it is to be printed: it was counted, and at most
    /// 1,000 places with it.
    pub fn add(&self, rt: &impl Wait, number: u32) -> bool {
        if !self.are_told {
            return false;
        }
        let is_last = is_last_try(0, self.tries) || self.count_try(rt, number);
        is_last && self.failed.fetch_add(1, Ordering::SeqCst) < MAX_PRINTED
    }

    /// Prints on the error stream how many places failed without being printed, if any did.
    pub fn tell_unprinted(&self, rt: &impl Eprint) {
        let unprinted = self.count().saturating_sub(MAX_PRINTED);
        if unprinted > 0 {
            let _ = eprintln!(rt; "hole: failed places that aren't printed: {unprinted}");
        }
    }
}
