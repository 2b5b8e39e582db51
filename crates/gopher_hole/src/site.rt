//! A tree's replies, aliases and a pass, which answer request lines (`Site`).
//!
//! `answer` and `answer_kept` return `reply_of` for the tree's files, the server's address, the
//! line, and the hits of its search (`specs/Answer.antt`). `answer_aliased` returns `reply_with`,
//! which first replaces an old selector by its alias. The last two may return a search that goes on
//! in steps; its bytes are decided when it begins. No socket appears here.

ghost use Rattle.std.specs.Prelude.{◌≡◌};

mod answering;
mod searching;
mod serving;

use crate::aliases::Aliases;
pub use answering::{answer, answer_aliased, answer_kept};
use gopher_crew::{Crew, Pass};
use gopher_item::NoMemory;
use gopher_serve::{Answer, Answers, Replies};
pub use serving::serve_one;
use std::alloc::Global;
use std::marker::Model;

/// What the sites of all server threads share.
#[derive(Debug, Drop)]
pub struct Content {
    /// The replies of a tree.
    pub replies: Replies,
    /// Old selectors that go on working.
    pub aliases: Aliases,
}

/// A tree's replies, aliases and a pass. It answers as `answer_aliased` does.
#[derive(Drop)]
pub struct Site<'a, C: Crew> {
    replies: &'a Replies,
    aliases: &'a Aliases,
    pass: Pass<C>,
}

impl<'a, C: Crew> Model for Site<'a, C> {
    ghost use Rattle.gopher_hole.specs.Answer.{SiteData};

    ghost Value = { SiteData };

    ghost view = { λ s. record
        { replies = s.replies.now; aliases = s.aliases.now; pass = s.pass } };
}

impl<'a, C: Crew> Site<'a, C> {
    /// Makes a site of replies and aliases, with the pass for its searches.
    pub fn new(replies: &'a Replies, aliases: &'a Aliases, pass: Pass<C>) -> Site<'a, C>
        ensures { result ≡ record { replies = replies.now; aliases = aliases.now; pass = pass } }
    {
        Site {
            replies,
            aliases,
            pass,
        }
    }

    /// Returns the pass, with what it has seen.
    pub fn into_pass(self) -> Pass<C>
        ensures { result ≡ self.entry.pass }
    {
        self.pass
    }
}

impl<'a, C: Crew> Answers<'a> for Site<'a, C> {
    ghost use Rattle.gopher_hole.specs.Answer.{GivesReply, LeadsOn};

    ghost gives = { GivesReply };

    ghost leads_to = { LeadsOn };

    fn answer(&mut self, alloc: Global, line: &[u8]) -> Result<Answer<'a>, NoMemory> {
        answer_aliased(alloc, self.replies, self.aliases, &mut self.pass, line)
    }
}
