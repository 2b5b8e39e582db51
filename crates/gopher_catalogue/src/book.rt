//! `Book`: a record of events that any caller can build, and searches of it.

ghost use Rattle.std.specs.Prelude.{◌≡◌, [], ◌∷◌, ◌++◌, length, IfOk, OnOk, OnErr};
ghost use Rattle.gopher_catalogue.specs.Legal.{IsLegal};
ghost use Rattle.gopher_catalogue.specs.EventOf.{event_data};
ghost use Rattle.gopher_catalogue.specs.Pages.{AreHitsIn, AreOccurrencesIn};

use crate::archive::Archive;
use crate::event::Event;
use gopher_index::Hit;
use gopher_item::{NoMemory, Place};
use gopher_page::Query;
use std::alloc::Global;
use std::marker::Model;

/// A record of events that is built one event at a time and can be searched.
///
/// Contracts see a book as the list of its events. The book doesn't check that its record is legal,
/// and its contracts promise search results only for a legal record.
#[derive(Debug, Drop)]
pub struct Book {
    alloc: Global,
    archive: Archive,
}

impl Model for Book {
    ghost use Rattle.std.specs.Prelude.{List};
    ghost use Rattle.gopher_catalogue.specs.Event.{EventData};

    ghost Value = { List EventData };

    ghost view = { λ b. b.archive.events };
}

impl Book {
    /// An empty book.
    pub fn empty(alloc: Global) -> Book
        ensures { result ≡ [] }
    {
        Book {
            alloc,
            archive: Archive::empty(alloc),
        }
    }

    /// Appends an event.
    ///
    /// Searches cover the first 65,536 pages found. A legal record contains no more.
    pub fn take_in(&mut self, event: &Event) -> Result<(), NoMemory>
        ensures ok { OnOk result (self.new ≡ self.old ++ event_data event.now ∷ []) }
        ensures err { OnErr result (self.new ≡ self.old) }
    {
        self.archive.reserve(1)?;
        self.archive.add(event.clone()?)?;
        self.archive.settle();
        Ok(())
    }

    /// Copies the book.
    pub fn clone(&self) -> Result<Book, NoMemory>
        ensures { IfOk result (λ book. book ≡ self.now) }
    {
        Ok(Book {
            alloc: self.alloc,
            archive: self.archive.share(self.alloc)?,
        })
    }

    /// Returns the number of events.
    pub fn len(&self) -> usize
        ensures { result ≡ length self.now }
    {
        self.archive.len()
    }

    /// Returns at most 50 hits for `query`: by score, highest first, and hits of equal score in
    /// place order.
    pub fn search(&self, query: &Query) -> Result<Vec<Hit>, NoMemory>
        ensures { IsLegal self.now → IfOk result (AreHitsIn self.now query.now) }
    {
        self.archive.index().search(self.alloc, query)
    }

    /// Returns each place whose page contains `word`, with the number of times, in place order.
    pub fn occurrences(&self, word: &[u8]) -> Result<Vec<(Place, u32)>, NoMemory>
        ensures { IsLegal self.now → IfOk result (AreOccurrencesIn self.now word.now) }
    {
        self.archive.index().occurrences(self.alloc, word)
    }
}
