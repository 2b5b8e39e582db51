//! `Update` and `Change`: what makes the next version of a published one.

ghost use Rattle.std.specs.Arc.{arc_value};
ghost use Rattle.gopher_index.specs.Index.{AppendsPage};
ghost use Rattle.std.specs.Prelude.{◌≡◌, ◌++◌, IfOk, map};
ghost use Rattle.gopher_catalogue.specs.EventOf.{event_data};
ghost use Rattle.gopher_catalogue.specs.Pages.{pages_found};
ghost use Rattle.gopher_crew.specs.Version.{pages_after, Applies};

use crate::publication::record_prefix::RecordPrefix;
use gopher_catalogue::Event;
use gopher_index::Index;
use gopher_item::NoMemory;
use gopher_page::Page;
use std::alloc::Global;
use std::sync::Arc;

// The most pages of an index: as many as a crawl has places (`MAX_PLACES` of gopher_item).
const MAX_PAGES: usize = 65_536;

/// What changes of a version's pages.
#[derive(Debug, Drop)]
pub enum Change {
    /// Nothing.
    Nothing,
    /// One page is added at the end.
    Page(Arc<Page>),
    /// They are replaced by those of this index.
    All(Arc<Index>),
}

/// What makes the next version: the change of its pages, and its record.
#[derive(Drop)]
pub struct Update {
    /// The allocator for a copy of an index.
    pub(crate) alloc: Global,
    pub(crate) change: Change,
    pub(crate) prefix: RecordPrefix,
}

// Adds a page to an index. If a search shares the index, a copy with the page takes its place.
fn add(alloc: Global, index: &mut Arc<Index>, page: Arc<Page>) -> Result<(), NoMemory>
    ensures { AppendsPage (arc_value page) (arc_value index.old) (arc_value index.new) result }
{
    if index.len() >= MAX_PAGES {
        return Err(NoMemory);
    }
    if let Some(own) = Arc::get_mut(index) {
        return own.add(page);
    }
    let mut own = index.share(alloc)?;
    own.add(page)?;
    *index = Arc::new(alloc, own)?;
    Ok(())
}

impl Change {
    /// The change of an index's pages to those of another, which has the pages of these events too.
    /// If `renews`, it replaces all of them, which may be in smaller segments.
    pub fn since(
        alloc: Global,
        before: &Index,
        events: &[Event],
        index: &Index,
        renews: bool,
    ) -> Result<Change, NoMemory>
        requires { index.now ≡ before.now ++ pages_found (map event_data events.now) }
        ensures { IfOk result (λ change. pages_after change before.now ≡ index.now) }
    {
        if !renews {
            if index.len() == before.len() {
                return Ok(Change::Nothing);
            }
            if let [event] = events {
                if let Event::Found(_, page) = event {
                    return Ok(Change::Page(page.clone()?));
                }
            }
        }
        Ok(Change::All(Arc::new(alloc, index.share(alloc)?)?))
    }

    /// Changes the pages of an index. If a search shares the index, another index takes its place.
    ///
    /// # Errors
    /// `NoMemory` (90): out of memory, or the index would have more than 65,536 pages. The pages
    /// are then as before.
    pub fn apply(&self, alloc: Global, index: &mut Arc<Index>) -> Result<(), NoMemory>
        ensures { Applies self.now index.old index.new result }
    {
        match self {
            Change::Nothing => Ok(()),
            Change::Page(page) => add(alloc, index, page.clone()?),
            Change::All(all) => {
                *index = all.clone()?;
                Ok(())
            }
        }
    }
}
