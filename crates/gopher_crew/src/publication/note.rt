//! `Note`: a token that a record was published.

ghost use Rattle.std.specs.Prelude.{◌≡◌, length};
ghost use Rattle.gopher_catalogue.specs.Legal.{IsLegal};

use crate::crew::Crew;
use crate::publication::record_prefix::RecordPrefix;
use std::fmt;
use std::marker::{Model, PhantomData};

/// A token that a record was published, for `Pass::hear`. Contracts see that record.
#[derive(Drop)]
pub struct Note<C: Crew> {
    prefix: RecordPrefix,
    of: PhantomData<C>,
}

impl<C: Crew> Model for Note<C> {
    ghost use Rattle.std.specs.Prelude.{◌≡◌, List};
    ghost use Rattle.gopher_catalogue.specs.declared.event.EventData.{EventData};
    ghost use Rattle.gopher_catalogue.specs.Legal.{IsLegal};

    ghost Value = { List EventData };

    ghost view = { λ n. n.prefix.events };

    ghost invariant = { λ n. (n.prefix.history ≡ C.history) × IsLegal n.prefix.events };
}

impl<C: Crew> fmt::Debug for Note<C> {
    fn fmt<W: fmt::Write>(&self, f: &mut fmt::Formatter<W>) -> fmt::Result {
        f.debug_struct("Note")
            .field("at", &self.prefix.len())
            .finish()
    }
}

impl<C: Crew> Note<C> {
    /// The note of a published record.
    pub(crate) fn of(prefix: &RecordPrefix) -> Note<C>
        requires history { prefix.now.history ≡ C.history }
        requires legal { IsLegal prefix.now.events }
        ensures { result ≡ prefix.now.events }
    {
        Note {
            prefix: prefix.copy(),
            of: PhantomData,
        }
    }

    /// Returns the record's token.
    pub(crate) fn prefix(&self) -> &RecordPrefix
        ensures history { result.now.history ≡ C.history }
        ensures events { result.now.events ≡ self.now }
    {
        &self.prefix
    }

    /// Returns the length of the record.
    pub fn at(&self) -> u32
        ensures at { result ≡ length self.now }
        ensures legal { IsLegal self.now }
    {
        self.prefix.len()
    }
}
