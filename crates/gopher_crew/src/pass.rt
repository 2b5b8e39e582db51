//! `Pass`: searches over the published version, without a lock.

ghost use Rattle.std.specs.Prelude.{◌≡◌, ◌⊎◌, false, length, IfOk, IfSome, IsTrue, OnOk};
ghost use mathlib.Core.List.{IsPrefix};
ghost use Rattle.left_right.specs.Sides.{view};
ghost use Rattle.gopher_catalogue.specs.Legal.{IsLegal};
ghost use Rattle.gopher_catalogue.specs.Pages.{pages_found};
ghost use Rattle.gopher_index.specs.Searching.{begun_hits};
ghost use Rattle.gopher_crew.specs.Desk.{has_seen};
ghost use Rattle.gopher_crew.specs.Pass.{CountsEntry, SeesOn, hits_of};
ghost use Rattle.gopher_crew.specs.Share.{Rises};
ghost use Rattle.gopher_crew.specs.Version.{IsSeenVersion};

use crate::crew::Crew;
use crate::desk::share::Share;
use crate::fault::SearchFault;
use crate::publication::note::Note;
use crate::publication::record_prefix::RecordPrefix;
use crate::publication::version::{Sees, Version};
use crate::publication::{VersionReader, VersionWriter};
use core::mem::replace_with;
use gopher_index::{Begun, Hit};
use gopher_page::Query;
use std::alloc::Global;
use std::marker::Model;

/// What a search finds.
#[derive(Debug, Drop)]
pub struct Answer {
    /// The first 50 of the pages that match, by descending score, then in place order.
    pub hits: Vec<Hit>,
    /// The length of the record that was searched.
    pub at: u32,
}

/// Searches the published version of a desk's catalogue. It can be moved into another thread.
///
/// Contracts see two records. A pass has *seen* the record that it took last. It was *told* the
/// longest of the records that it searched and of the notes that it heard. What was told may be
/// shorter than what was seen after a search that failed.
#[derive(Drop)]
pub struct Pass<C: Crew> {
    alloc: Global,
    reader: VersionReader<C>,
    told: RecordPrefix,
    failed_entries: u64,
}

impl<C: Crew> Model for Pass<C> {
    ghost use Rattle.std.specs.Prelude.{◌≡◌};
    ghost use Rattle.left_right.specs.Sides.{view as view_of};
    ghost use Rattle.gopher_crew.specs.Pass.{PassData};

    ghost Value = { PassData };

    ghost view = { λ p. record {
      seen = view_of p.reader.place;
      told = p.told.events;
      failed_entries = p.failed_entries;
    } };

    ghost invariant = { λ p. p.told.history ≡ C.history };
}

// Enters the published version, shares it, and leaves.
#[tactic(auto, using(crate::proofs::Publishing::looks))]
fn take_version<C: Crew>(
    reader: VersionReader<C>,
    _nothing: (),
) -> (VersionReader<C>, Result<Version, SearchFault>)
    ensures seen { IsPrefix (view reader.place) (view result.0.place) }
    ensures version { IfOk result.1 (IsSeenVersion C.history (view result.0.place)) }
{
    match reader.enter_as::<Sees<C>>() {
        Ok(reading) => {
            let version = reading.get().share();
            (reading.leave(), version.map_err(|_| SearchFault::NoMemory))
        }
        Err(reader) => (reader, Err(SearchFault::NoEntry)),
    }
}

impl<C: Crew> Pass<C> {
    /// Makes a pass that has seen the published record. Returns `None` if it can't enter the
    /// version, or if another record is published.
    pub(crate) fn open(
        alloc: Global,
        writer: &VersionWriter<C>,
        published: &RecordPrefix,
    ) -> Option<Pass<C>>
        requires { published.now.history ≡ C.history }
        ensures { IfSome result (λ pass. pass ≡ has_seen published.now.events) }
    {
        let reader = writer.factory().reader().ok()?;
        let (reader, version) = take_version(reader, ());
        let Ok(version) = version else {
            return None;
        };
        if !version.prefix().is_same(published) {
            return None;
        }
        Some(Pass {
            alloc,
            reader,
            told: published.copy(),
            failed_entries: 0,
        })
    }

    /// Hears a note of the same desk. Each later search answers from a record that begins with the
    /// note's.
    pub fn hear(&mut self, note: Note<C>)
        ensures seen { self.new.seen ≡ self.old.seen }
        ensures told { IsPrefix self.old.told self.new.told }
        ensures heard { IsPrefix note self.new.told }
        ensures one { (self.new.told ≡ self.old.told) ⊎ (self.new.told ≡ note) }
        ensures entries { self.new.failed_entries ≡ self.old.failed_entries }
    {
        self.told = self.told.longer(note.prefix());
    }

    /// Returns whether what another pass of the same desk was told begins with what this pass was
    /// told. If not, it is the other way round, because all passes of a desk see one crawl.
    pub fn begins(&self, other: &Pass<C>) -> bool
        ensures begins { IsTrue result → IsPrefix self.now.told other.now.told }
        ensures or_else { (result ≡ false) → IsPrefix other.now.told self.now.told }
    {
        self.told.begins(&other.told)
    }

    /// Returns whether what a share of the same desk saw begins with what this pass was told. If
    /// not, it is the other way round.
    pub fn begins_share(&self, share: &Share<C>) -> bool
        ensures begins { IsTrue result → IsPrefix self.now.told share.now.seen }
        ensures or_else { (result ≡ false) → IsPrefix share.now.seen self.now.told }
    {
        self.told.begins(share.seen())
    }

    /// Tells a share of the same desk what this pass was told. If the desk is closed with that
    /// share, the record of its catalogue begins with it.
    pub fn tell(&self, share: &mut Share<C>)
        ensures told { IsPrefix self.now.told share.new.seen }
        ensures share { Rises 0 share.old share.new }
        ensures missed { share.new.missed ≡ share.old.missed }
    {
        share.hear(&self.told);
    }

    // Takes the published version. Its record begins with what this pass was told.
    fn take(&mut self) -> Result<Version, SearchFault>
        ensures legal { OnOk result (IsLegal self.new.seen) }
        ensures pages { IfOk result (λ version. version.pages ≡ pages_found self.new.seen) }
        ensures prefix { IfOk result (λ version. version.prefix.events ≡ self.new.seen) }
        ensures none_told { OnOk result (self.new.told ≡ self.new.seen) }
        ensures sees_on { SeesOn self.old self.new }
        ensures entries { CountsEntry self.old.failed_entries self.new.failed_entries result }
    {
        match replace_with(&mut self.reader, (), take_version) {
            Ok(version) if self.told.begins(version.prefix()) => {
                self.told = version.prefix().copy();
                Ok(version)
            }
            Err(SearchFault::NoMemory) => Err(SearchFault::NoMemory),
            _ => {
                self.failed_entries = self.failed_entries.saturating_add(1);
                Err(SearchFault::NoEntry)
            }
        }
    }

    /// Begins a search over the pages of the published record. Returns its hits if the search is
    /// short, and otherwise a `Search` that finds them in steps.
    ///
    /// The hits are those of one legal record, even if another is published meanwhile. That record
    /// begins with what this pass saw before and was told. It is then what the pass has seen and
    /// was told.
    ///
    /// # Errors
    /// - `NoEntry` (61): the published version can't be entered.
    /// - `NoMemory` (90).
    ///
    /// After an error the pass may have seen a longer record.
    pub fn begin(&mut self, query: &Query) -> Result<Begun, SearchFault>
        ensures legal { OnOk result (IsLegal self.new.seen) }
        ensures hits { IfOk result (λ begun. begun_hits begun ≡ hits_of self.new.seen query.now) }
        ensures none_told { OnOk result (self.new.told ≡ self.new.seen) }
        ensures sees_on { SeesOn self.old self.new }
        ensures entries { CountsEntry self.old.failed_entries self.new.failed_entries result }
    {
        let version = self.take()?;
        let Ok(begun) = version.index().begin(self.alloc, query) else {
            return Err(SearchFault::NoMemory);
        };
        Ok(begun)
    }

    /// Searches the pages of the published record to the end. See `begin` for the record and the
    /// errors.
    ///
    /// It takes no lock. It delays a publication only while it shares the version.
    pub fn search(&mut self, query: &Query) -> Result<Answer, SearchFault>
        ensures legal { OnOk result (IsLegal self.new.seen) }
        ensures at { IfOk result (λ answer. answer.at ≡ length self.new.seen) }
        ensures hits { IfOk result (λ answer. answer.hits.items ≡ hits_of self.new.seen query.now) }
        ensures none_told { OnOk result (self.new.told ≡ self.new.seen) }
        ensures sees_on { SeesOn self.old self.new }
        ensures entries { CountsEntry self.old.failed_entries self.new.failed_entries result }
    {
        let version = self.take()?;
        let Ok(hits) = version.index().search(self.alloc, query) else {
            return Err(SearchFault::NoMemory);
        };
        Ok(Answer {
            hits,
            at: version.prefix().len(),
        })
    }
}
