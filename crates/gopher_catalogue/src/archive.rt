//! `Archive`: the record of a crawl with the index of its pages.

ghost use Rattle.std.specs.Prelude.{◌≡◌, ◌+◌, ◌<◌, ◌≤◌, [], ◌∷◌, ◌++◌, length, map, IfOk, IfErr, OnOk, OnErr};
ghost use Rattle.std.specs.Arc.{arc_value};
ghost use Rattle.gopher_index.specs.Index.{IsSliceOf};
ghost use Rattle.gopher_catalogue.specs.Event.{Opened, Found};
ghost use Rattle.gopher_catalogue.specs.EventOf.{event_data};
ghost use Rattle.gopher_catalogue.specs.Pages.{page_of_event, pages_indexed, with_page_of, IsDueAmong};
ghost use Rattle.gopher_catalogue.specs.History.{Grown, IsOpened, opening_in};

use crate::event::Event;
use crate::opening::Opening;
use gopher_index::{Due, Index};
use gopher_item::{MAX_PLACES, NoMemory};
use gopher_page::Page;
use std::alloc::Global;
use std::marker::Model;
use std::sync::Arc;

// The most pages that the index contains. No legal record finds more.
const MAX_PAGES: usize = MAX_PLACES as usize;

/// A record of events, with an index of the first 65,536 pages that they found.
#[derive(Debug, Drop)]
pub(crate) struct Archive {
    events: Vec<Event>,
    index: Index,
}

impl Model for Archive {
    ghost use Rattle.std.specs.Prelude.{◌≡◌, ◌-◌, map, vec_len, vec_capacity};
    ghost use Rattle.gopher_catalogue.specs.EventOf.{event_data};
    ghost use Rattle.gopher_catalogue.specs.History.{RecordData};
    ghost use Rattle.gopher_catalogue.specs.Pages.{pages_indexed};

    ghost Value = { RecordData };

    ghost view = { λ a. record {
      events = map event_data a.events.items;
      room = vec_capacity a.events - vec_len a.events;
    } };

    ghost invariant = { λ a. a.index ≡ pages_indexed (map event_data a.events.items) };
}

// Adds the page of an event to the index, unless the event has no page or the index is full.
fn index_page(index: &mut Index, event: &Event) -> Result<(), NoMemory>
    requires { length index.old ≤ MAX_PAGES }
    ensures ok { OnOk result (index.new ≡ with_page_of index.old (event_data event.now)) }
    ensures err { OnErr result (index.new ≡ index.old) }
{
    let Event::Found(_, page) = event else {
        return Ok(());
    };
    if index.len() == MAX_PAGES {
        return Ok(());
    }
    index.add(page.clone()?)?;
    Ok(())
}

impl Archive {
    /// An archive without events.
    pub fn empty(alloc: Global) -> Archive
        ensures { result.events ≡ [] }
    {
        Archive {
            events: Vec::new(alloc),
            index: Index::new(alloc),
        }
    }

    /// Starts the record of a crawl with its opening, which the error returns.
    pub fn begin(alloc: Global, opening: Opening) -> Result<Archive, Opening>
        ensures begun { IfOk result (λ archive. archive.events ≡ Opened opening ∷ []) }
        ensures opening_back { IfErr result (λ refused. refused ≡ opening) }
    {
        let mut archive = Archive::empty(alloc);
        let Ok(()) = archive.reserve(1) else {
            return Err(opening);
        };
        match Arc::new(alloc, opening) {
            Ok(opening) => {
                archive.push(Event::Opened(opening));
                Ok(archive)
            }
            Err(refused) => Err(refused.value),
        }
    }

    /// Copies the events and the index, which share their pages with `self`.
    pub fn share(&self, alloc: Global) -> Result<Archive, NoMemory>
        ensures { IfOk result (λ archive. archive.events ≡ self.now.events) }
    {
        let mut events = Vec::with_capacity(alloc, self.events.len())?;
        for event in &self.events {
            events.push(event.clone()?)?;
        }
        let index = self.index.share(alloc)?;
        Ok(Archive { events, index })
    }

    /// Returns the number of events.
    pub fn len(&self) -> usize
        ensures { result ≡ length self.now.events }
    {
        self.events.len()
    }

    /// Returns the opening, which the first event contains.
    pub fn opening(&self) -> &Arc<Opening>
        requires { IsOpened self.now.events }
        ensures { arc_value result.now ≡ opening_in self.now.events }
    {
        match self.events.first() {
            Some(Event::Opened(opening)) => opening,
            _ => unreachable!(),
        }
    }

    /// Returns the events, oldest first.
    pub fn as_slice(&self) -> &[Event]
        ensures { map event_data result.now ≡ self.now.events }
    {
        &self.events
    }

    /// Returns the index of the pages found.
    pub fn index(&self) -> &Index
        ensures { result.now ≡ pages_indexed self.now.events }
    {
        &self.index
    }

    /// Takes a run of pages to be merged, as `Index::due` does.
    pub fn due(&mut self) -> Result<Option<Due>, NoMemory>
        ensures same { self.new ≡ self.old }
        ensures stands { IfOk result (IsDueAmong (pages_indexed self.old.events)) }
    {
        self.index.due()
    }

    /// Puts a merged run in its place in the index, as `Index::install` does.
    pub fn install(&mut self, due: Due)
        requires { IsSliceOf due (pages_indexed self.old.events) }
        ensures { self.new ≡ self.old }
    {
        self.index.install(due);
    }

    /// Merges all runs that are ready, as `Index::settle` does.
    pub fn settle(&mut self)
        ensures { self.new ≡ self.old }
    {
        self.index.settle();
    }

    /// Reserves room for at least `additional` more events. Even a failed call never reduces the
    /// room.
    pub fn reserve(&mut self, additional: usize) -> Result<(), NoMemory>
        ensures events { self.new.events ≡ self.old.events }
        ensures room { self.old.room ≤ self.new.room }
        ensures ok { OnOk result (additional ≤ self.new.room) }
    {
        self.events.reserve(additional)?;
        Ok(())
    }

    /// Appends an event without a page. There must be room for it.
    pub fn push(&mut self, event: Event)
        requires room { 0 < self.old.room }
        requires no_page { page_of_event (event_data event) ≡ [] }
        ensures events { self.new.events ≡ self.old.events ++ event_data event ∷ [] }
        ensures room { self.new.room + 1 ≡ self.old.room }
    {
        self.events.push_reserved(event);
    }

    /// Appends an event and adds its page, if it has one, to the index. There must be room for the
    /// event.
    pub fn add(&mut self, event: Event) -> Result<(), NoMemory>
        requires { 0 < self.old.room }
        ensures ok { OnOk result (Grown self.old (event_data event) self.new) }
        ensures err { OnErr result (self.new ≡ self.old) }
    {
        index_page(&mut self.index, &event)?;
        self.events.push_reserved(event);
        Ok(())
    }

    /// Appends the event that `page` was found for `number`. There must be room for it.
    ///
    /// The error returns the page.
    pub fn add_found(&mut self, alloc: Global, number: u32, page: Page) -> Result<(), Page>
        requires { 0 < self.old.room }
        ensures ok { OnOk result (Grown self.old (Found number page) self.new) }
        ensures err { OnErr result (self.new ≡ self.old) }
        ensures page_back { IfErr result (λ back. back ≡ page) }
    {
        let Ok(back) = page.share() else {
            return Err(page);
        };
        let Ok(page) = Arc::new(alloc, page) else {
            return Err(back);
        };
        let Ok(()) = self.add(Event::Found(number, page)) else {
            return Err(back);
        };
        Ok(())
    }
}
