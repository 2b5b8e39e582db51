//! `Silences`: the hosts whose fetches timed out. One that times out three times in a row is given
//! up: its places fail at once, but for one a minute, until three of these in a row are answered.

ghost use Rattle.std.specs.Prelude.{◌≡◌, ◌⊎◌, Some, OnOk, OnErr, IfOk};
ghost use Rattle.std.specs.Option.{option_map};
ghost use Rattle.indexmap.specs.IndexMap.{get, Updates, IsUnchanged};
ghost use Rattle.gopher_item.specs.Place.{same_place};
ghost use Rattle.gopher_hole.specs.declared.fetching.silences.Permit.TheVariants as permit;
ghost use Rattle.gopher_hole.specs.Silences.{after_answer, after_fetch, after_retry, after_timeout, becomes_given_up, came_by, host_of, is_given_up, is_host_given_up, is_retried_on, may_retry, permit_of, retried, row_before, IsNote};

use gopher_catalogue::Why;
use gopher_item::{NoMemory, Place};
use indexmap::IndexMap;
use std::alloc::Global;
use std::time::{Duration, Instant};

/// How many time-outs in a row a host is given up after.
pub const MAX_TIMEOUTS: u32 = 3;

// After how many seconds one of its places is fetched again.
const REST: u64 = 60;

// After how many answers in a row a host that is given up is as any other.
const ENOUGH_ANSWERS: u32 = 3;

// The most hosts that are noted.
const MAX_HOSTS: usize = 1_024;

/// What is noted of a host whose fetches timed out.
#[derive(Clone, Copy, Debug)]
pub struct Silence {
    // How many timed out in a row.
    timeouts: u32,
    // When the last of them ended.
    ended: Instant,
    // At which step the last of them failed.
    why: Why,
    // When the first answer after that came, as long as the host isn't given up.
    answered: Option<Instant>,
    // How many places in a row were answered since the host was given up.
    answers: u32,
    // Whether a place is being fetched although the host is given up.
    is_retried: bool,
}

/// Whether a place of a host may be fetched.
#[derive(Clone, Copy, Debug, PartialEq, Eq)]
pub enum Permit {
    /// It may, because the host isn't given up.
    Free,
    /// It may, although the host is given up, and no other of its places meanwhile.
    Retry,
    /// It fails for this reason, without a connection.
    GivenUp(Why),
}

/// A fetch that has ended.
#[derive(Clone, Copy, Debug)]
pub struct FetchEnd {
    /// When it began.
    pub began: Instant,
    /// When it ended.
    pub ended: Instant,
    /// Whether it was made by the permit `Retry`.
    pub is_retry: bool,
}

/// What is known of a host once a fetch of it has ended.
#[derive(Clone, Copy, Debug)]
pub struct EndNote {
    /// Whether it is given up, and wasn't before.
    pub becomes_given_up: bool,
    /// Whether it is given up.
    pub is_given_up: bool,
}

/// The host of a place, as `Silences` and `Pauses` know it: the place of its main menu.
///
/// # Errors
///
/// `NoMemory` (90).
pub fn host_of(alloc: Global, place: &Place) -> Result<Place, NoMemory>
    ensures { IfOk result (λ host. host ≡ host_of place.now) }
{
    match Place::new(alloc, b'1', b"", place.host(), place.port()) {
        Ok(host) => Ok(host),
        Err(_fault) => Err(NoMemory),
    }
}

// Whether a host is given up.
fn is_given_up(silence: Silence) -> bool
    ensures { result ≡ is_given_up silence }
{
    MAX_TIMEOUTS <= silence.timeouts
}

// Whether one of the places of a host that is given up may be fetched.
fn may_retry(silence: Silence, now: Instant) -> bool
    ensures { result ≡ may_retry silence now }
{
    let rest = Duration::from_secs(REST);
    let has_rested = rest.as_nanos() <= now.duration_since(silence.ended).as_nanos();
    !silence.is_retried && (silence.answers > 0 || has_rested)
}

// Whether a place of a host may be fetched, by what is noted of the host.
fn permit_of(silence: Option<Silence>, now: Instant) -> Permit
    ensures { result ≡ permit_of silence now }
{
    match silence {
        Some(silence) if is_given_up(silence) => {
            if may_retry(silence, now) {
                Permit::Retry
            } else {
                Permit::GivenUp(silence.why)
            }
        }
        _ => Permit::Free,
    }
}

// Whether an answer came by a time.
fn came_by(answered: Option<Instant>, time: Instant) -> bool
    ensures { result ≡ came_by answered time }
{
    match answered {
        Some(answered) => time.checked_duration_since(answered).is_some(),
        None => false,
    }
}

// How many fetches of a host timed out in a row before one that began then.
fn row_before(before: Option<Silence>, began: Instant) -> u32
    ensures { result ≡ row_before before began }
{
    match before {
        Some(silence) => {
            if !is_given_up(silence) && came_by(silence.answered, began) {
                0
            } else {
                silence.timeouts
            }
        }
        None => 0,
    }
}

// Whether another place of a host that is given up is being fetched, once this fetch has ended.
fn is_retried_on(before: Option<Silence>, is_retry: bool) -> bool
    ensures { result ≡ is_retried_on before is_retry }
{
    match before {
        Some(silence) => silence.is_retried && !is_retry,
        None => false,
    }
}

// What is noted of a host after a fetch that timed out.
fn after_timeout(before: Option<Silence>, end: FetchEnd, why: Why) -> Silence
    ensures { result ≡ after_timeout before end why }
{
    Silence {
        timeouts: row_before(before, end.began).saturating_add(1),
        ended: end.ended,
        why,
        answered: None,
        answers: 0,
        is_retried: is_retried_on(before, end.is_retry),
    }
}

// What is noted of a host that is given up after an answer to a retry.
fn after_retry(silence: Silence) -> Option<Silence>
    ensures { result ≡ after_retry silence }
{
    if silence.answers >= ENOUGH_ANSWERS - 1 {
        return None;
    }
    Some(Silence {
        answers: silence.answers + 1,
        is_retried: false,
        ..silence
    })
}

// What is noted of a host after an answer.
fn after_answer(before: Option<Silence>, end: FetchEnd) -> Option<Silence>
    ensures { result ≡ after_answer before end }
{
    let silence = before?;
    if !is_given_up(silence) {
        return Some(Silence {
            answered: silence.answered.or(Some(end.ended)),
            ..silence
        });
    }
    if end.is_retry {
        after_retry(silence)
    } else {
        Some(silence)
    }
}

// What is noted of a host after a fetch of it, which timed out for a reason or was answered.
fn after_fetch(before: Option<Silence>, end: FetchEnd, why: Option<Why>) -> Option<Silence>
    ensures { result ≡ after_fetch before end why }
{
    match why {
        Some(why) => Some(after_timeout(before, end, why)),
        None => after_answer(before, end),
    }
}

// Whether a host is given up, by what is noted of it.
fn is_host_given_up(silence: Option<Silence>) -> bool
    ensures { result ≡ is_host_given_up silence }
{
    match silence {
        Some(silence) => is_given_up(silence),
        None => false,
    }
}

// Whether a host becomes given up.
fn becomes_given_up(before: Option<Silence>, after: Option<Silence>) -> bool
    ensures { result ≡ becomes_given_up before after }
{
    !is_host_given_up(before) && is_host_given_up(after)
}

/// The hosts whose fetches timed out. A host is the place of its main menu.
#[derive(Drop)]
pub struct Silences {
    hosts: IndexMap<Place, Silence>,
}

impl Silences {
    /// No fetch of any host has timed out.
    pub fn new(alloc: Global) -> Silences {
        Silences {
            hosts: IndexMap::new(alloc),
        }
    }

    /// Returns whether a place of a host may be fetched now.
    pub fn permit(&self, host: &Place, now: Instant) -> Permit
        ensures { result ≡ permit_of (get same_place self.now.hosts host.now) now }
    {
        permit_of(self.hosts.get(host).copied(), now)
    }

    /// Returns whether a place of a host may be fetched now, and if it is a retry notes that it is
    /// fetched.
    pub fn begin(&mut self, host: &Place, now: Instant) -> Permit
        ensures permit { result ≡ permit_of (get same_place self.old.hosts host.now) now }
        ensures retry { result ≡ permit.Retry → (
            let before = get same_place self.old.hosts host.now in
            Updates same_place self.old.hosts self.new.hosts host.now (option_map retried before)) }
        ensures other { (result ≡ permit.Retry) ⊎ IsUnchanged self.old.hosts self.new.hosts }
    {
        let permit = self.permit(host, now);
        if permit == Permit::Retry {
            if let Some(silence) = self.hosts.get_mut(host) {
                silence.is_retried = true;
            }
        }
        permit
    }

    /// Notes that a fetch of a host has ended: that it timed out at the step `why`, or was answered
    /// if that is `None`. Returns what is known of the host then.
    ///
    /// # Errors
    ///
    /// `NoMemory` (90): nothing was noted of this host before, and memory ran out, or 1,024 other
    /// hosts are noted. Nothing changes.
    pub fn end(&mut self, host: Place, end: FetchEnd, why: Option<Why>) -> Result<EndNote, NoMemory>
        ensures noted { OnOk result (
            let before = get same_place self.old.hosts host in
            Updates same_place self.old.hosts self.new.hosts host (after_fetch before end why)) }
        ensures told { IfOk result (λ note.
            let before = get same_place self.old.hosts host in
            IsNote before (after_fetch before end why) note) }
        ensures err { OnErr result (IsUnchanged self.old.hosts self.new.hosts) }
    {
        let before = self.hosts.get(&host).copied();
        let after = after_fetch(before, end, why);
        let note = EndNote {
            becomes_given_up: becomes_given_up(before, after),
            is_given_up: is_host_given_up(after),
        };
        match after {
            Some(silence) => {
                if before.is_none() && self.hosts.len() >= MAX_HOSTS {
                    return Err(NoMemory);
                }
                let _before = self.hosts.insert(host, silence)?;
            }
            None => {
                let _before = self.hosts.swap_remove(&host);
            }
        }
        Ok(note)
    }
}
