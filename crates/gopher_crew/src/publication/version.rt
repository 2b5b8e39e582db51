//! `Version`: a published snapshot of the catalogue, and the rule of what is published.

ghost use Rattle.std.specs.Prelude.{◌≡◌, IfOk};
ghost use Rattle.gopher_crew.specs.Version.{version_data};

use crate::crew::Crew;
use crate::publication::record_prefix::RecordPrefix;
use crate::publication::update::Update;
use crossbeam_utils::rule::{Outcome, Protocol};
use gopher_catalogue::EventData;
use gopher_index::Index;
use gopher_item::NoMemory;
use left_right::Absorb;
use std::alloc::{AllocError, Global};
use std::marker::{Model, PhantomData};
use std::sync::Arc;

/// An index, and the token of a record. A published version has the pages that its record found
/// (`Shows`). Contracts see the pages and the record.
#[derive(Drop)]
pub struct Version {
    index: Arc<Index>,
    prefix: RecordPrefix,
}

impl Model for Version {
    ghost use Rattle.std.specs.Arc.{arc_value};
    ghost use Rattle.gopher_crew.specs.Version.{VersionData, version_data};

    ghost Value = { VersionData };

    ghost view = { λ v. version_data (arc_value v.index) v.prefix };
}

impl Version {
    /// Makes the version of a record, which has these pages. The version shares the index's
    /// segments and pages.
    pub fn of(alloc: Global, index: &Index, prefix: &RecordPrefix) -> Result<Version, NoMemory>
        ensures { IfOk result (λ version. version ≡ version_data index.now prefix.now) }
    {
        Ok(Version {
            index: Arc::new(alloc, index.share(alloc)?)?,
            prefix: prefix.copy(),
        })
    }

    /// Returns the same version, which shares its index.
    pub fn share(&self) -> Result<Version, NoMemory>
        ensures { IfOk result (λ version. version ≡ self.now) }
    {
        Ok(Version {
            index: self.index.clone()?,
            prefix: self.prefix.copy(),
        })
    }

    /// Returns the index.
    pub fn index(&self) -> &Index
        ensures { result.now ≡ self.now.pages }
    {
        &self.index
    }

    /// Returns the token of its record.
    pub fn prefix(&self) -> &RecordPrefix
        ensures { result.now ≡ self.now.prefix }
    {
        &self.prefix
    }
}

impl Absorb<Update> for Version {
    ghost use Rattle.gopher_crew.specs.Version.{after_update};

    type State = Version;

    ghost state = { λ version. version };

    ghost applied = { after_update };

    fn absorb_first(&mut self, update: &Update, _other: &Version) -> Result<(), AllocError> {
        let Ok(()) = update.change.apply(update.alloc, &mut self.index) else {
            return Err(AllocError);
        };
        self.prefix = update.prefix.copy();
        Ok(())
    }
}

/// The rule of what is published. A version's record is legal and a prefix of the crew's history.
/// It begins with each record that a reader has seen. The version's pages are those that it found.
pub struct Shows<C> {
    of: PhantomData<C>,
}

impl<C: Crew> Protocol<Version, [EventData; 0]> for Shows<C> {
    ghost use Rattle.std.specs.Prelude.{[]};
    ghost use Rattle.gopher_crew.specs.Version.{IsPublished};

    ghost holds = { λ version views. IsPublished C.history version views };

    ghost first = { [] };
}

/// What is known after a publication or an entry: the version's record is the one seen.
pub struct Sees<C> {
    of: PhantomData<C>,
}

impl<C: Crew> Outcome<Version, [EventData; 0]> for Sees<C> {
    ghost use Rattle.gopher_crew.specs.Version.{Sees};

    ghost then = { λ seen before after now. Sees C.history seen before after now };
}
