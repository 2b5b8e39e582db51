//! `Event`, `EventData`, `Why`: the events of a crawl.

ghost use Rattle.std.specs.Prelude.{◌≡◌, IfOk};
ghost use Rattle.gopher_catalogue.specs.Event.{why_code};
ghost use Rattle.gopher_catalogue.specs.EventOf.{event_data};

use crate::opening::Opening;
use gopher_item::NoMemory;
use gopher_page::Page;
use std::sync::Arc;

/// Why a place could not be fetched.
#[derive(Clone, Copy, Debug, PartialEq, Eq)]
pub enum Why {
    /// 1: no connection was made.
    Connect,
    /// 2: a read failed.
    Read,
    /// 3: a write failed.
    Write,
    /// 4: the reply is over its limit.
    TooLong,
    /// 5: out of memory.
    NoMemory,
}

impl Why {
    /// The number of the reason, 1 to 5.
    pub fn code(self) -> u8
        ensures { result ≡ why_code self }
    {
        match self {
            Why::Connect => 1,
            Why::Read => 2,
            Why::Write => 3,
            Why::TooLong => 4,
            Why::NoMemory => 5,
        }
    }
}

/// An event of a crawl. A number identifies a place: its index, from 0, among the known places.
#[derive(Debug, Drop)]
pub enum Event {
    /// The crawl began. This is the first event of a record and occurs nowhere else.
    Opened(Arc<Opening>),
    /// The place of this number was claimed.
    Claimed(u32),
    /// The place of this number was fetched; contains its page.
    Found(u32, Arc<Page>),
    /// The place of this number could not be fetched; contains the reason.
    Failed(u32, Why),
}

impl Event {
    /// Copies the event, which shares its opening or its page with `self`.
    pub fn clone(&self) -> Result<Event, NoMemory>
        ensures { IfOk result (λ event. event_data event ≡ event_data self.now) }
    {
        match self {
            Event::Opened(opening) => Ok(Event::Opened(opening.clone()?)),
            Event::Claimed(number) => Ok(Event::Claimed(*number)),
            Event::Found(number, page) => Ok(Event::Found(*number, page.clone()?)),
            Event::Failed(number, why) => Ok(Event::Failed(*number, *why)),
        }
    }
}

/// An event as data, with the contents of its opening or page instead of shared memory.
///
/// Contracts, also those between threads, see a record as a list of these. No code makes a value of
/// this type.
#[derive(Debug, Drop)]
pub enum EventData {
    /// The crawl began.
    Opened(Opening),
    /// The place of this number was claimed.
    Claimed(u32),
    /// The place of this number was fetched; contains its page.
    Found(u32, Page),
    /// The place of this number could not be fetched; contains the reason.
    Failed(u32, Why),
}
