//! What answers lines (`Answers`), and with what (`Answer`): a reply, or a search that makes one.

ghost use Rattle.std.specs.Prelude.{◌≡◌, IfOk, OnErr, OnOk};
ghost use Rattle.std.specs.Option.{option_map};
ghost use Rattle.gopher_serve.specs.Answer.{IfAnswered, Nears, answer_bytes, ready_bytes, steps_to_reply, hits_bytes};

use crate::hits::hits_menu;
use gopher_index::Search;
use gopher_item::NoMemory;
use std::alloc::Global;

/// Answers request lines, one after another.
///
/// The reply to a line may depend on the state, and may change it. `gives` relates the state
/// before, the state after, the line and the bytes of the reply. `leads_to` relates the state
/// before and the state after, also if the call fails.
pub trait Answers<'a> {
    ghost use Rattle.std.specs.Prelude.{ℕ, List};
    ghost use Rattle.gopher_serve.specs.Answer.{IfAnswered};

    ghost gives: { Self → Self → List ℕ → List ℕ → Type 0 };

    ghost leads_to: { Self → Self → Type 0 };

    /// Returns the reply to a line, or the search that makes it. `line` is without its end.
    ///
    /// # Errors
    ///
    /// Out of memory (90).
    fn answer(&mut self, alloc: Global, line: &[u8]) -> Result<Answer<'a>, NoMemory>
        ensures gives { IfAnswered result (gives self.old self.new line.now) }
        ensures leads { leads_to self.old self.new };
}

/// What a line is answered with: a reply, or a search that makes one by steps.
#[derive(Debug, Drop)]
pub enum Answer<'a> {
    /// A reply: bytes of a tree, or of its kept replies.
    Kept(&'a [u8]),
    /// A reply that was made for the request.
    Made(Vec<u8>),
    /// A search that has begun. The reply is the menu of what it finds.
    Searching(Search),
}

// Takes all steps of a search that are left, and returns the menu of its hits.
fn menu_of(alloc: Global, search: Search) -> Result<Vec<u8>, NoMemory>
    ensures { IfOk result (λ bytes. bytes.items ≡ hits_bytes search.hits) }
{
    let mut search = search;
    loop {
        if let Some(found) = search.step()? {
            return hits_menu(alloc, &found);
        }
    }
}

impl<'a> Answer<'a> {
    /// Returns the bytes; `None` until the search is at its end.
    pub fn as_slice(&self) -> Option<&[u8]>
        ensures { option_map (λ bytes. bytes.now) result ≡ ready_bytes self.now }
    {
        match self {
            Answer::Kept(bytes) => Some(bytes),
            Answer::Made(bytes) => Some(bytes),
            Answer::Searching(_) => None,
        }
    }

    /// Takes the next step of the search, if there is one. Its bytes stay the same. Then the reply
    /// is there, or fewer steps are left.
    ///
    /// # Errors
    ///
    /// Out of memory (90). As many steps are left as before.
    pub fn step(&mut self, alloc: Global) -> Result<(), NoMemory>
        ensures same { answer_bytes self.new ≡ answer_bytes self.old }
        ensures nears { OnOk result (Nears (steps_to_reply self.old) (steps_to_reply self.new)) }
        ensures refused { OnErr result (steps_to_reply self.new ≡ steps_to_reply self.old) }
    {
        let Answer::Searching(search) = self else {
            return Ok(());
        };
        if let Some(hits) = search.step()? {
            *self = Answer::Made(hits_menu(alloc, &hits)?);
        }
        Ok(())
    }

    /// Takes all steps that are left, and returns the bytes.
    pub fn finish(self, alloc: Global) -> Result<Vec<u8>, NoMemory>
        ensures { IfOk result (λ bytes. bytes.items ≡ answer_bytes self.entry) }
    {
        match self {
            Answer::Kept(bytes) => Ok(Vec::from_slice(alloc, bytes)?),
            Answer::Made(bytes) => Ok(bytes),
            Answer::Searching(search) => menu_of(alloc, search),
        }
    }
}
