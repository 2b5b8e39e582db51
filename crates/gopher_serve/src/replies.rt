//! The replies of a tree, by selector (`Replies`).

ghost use Rattle.std.specs.Prelude.{◌≡◌, IfOk, MatchResult};
ghost use Rattle.gopher_serve.specs.Kept.{AreRepliesOf, GivesBack, HaveSameReply, IsReplyOf};

use crate::answer::Answer;
use crate::kept::{KeptReply, kept_replies, kept_reply};
use gopher_item::{ByteString, Home, NoMemory};
use gopher_tree::{Node, Tree, not_found};
use std::alloc::Global;
use std::marker::Model;
use thiserror::Error;

/// A tree and the replies of one server for it, most of which are made once instead of on each
/// request.
///
/// It keeps the texts of files, the menus of folders, and the reply to a selector that names
/// nothing. Files of other types are sent from the tree. So each reply is there once, however many
/// clients it is sent to.
///
/// A text has at most twice as many bytes as its file and 6 more. A line of a menu file grows by at
/// most the host's length and 11 bytes.
///
/// Contracts see it as the list of the tree's files, and the server's address.
#[derive(Debug, Drop)]
pub struct Replies {
    tree: Tree,
    home: Home,
    not_found: ByteString,
    kept: Vec<KeptReply>,
}

impl Model for Replies {
    ghost use Rattle.gopher_serve.specs.Kept.{RepliesData, AreReplies};

    ghost Value = { RepliesData };

    ghost view = { λ r. record { files = r.tree; home = r.home } };

    ghost invariant = { λ r. AreReplies r.tree r.home r.kept r.not_found };
}

/// The error of `Replies::new`, with the arguments that it took.
#[derive(Debug, Drop, Error)]
#[error("{fault}")]
pub struct RepliesRefused {
    /// Why the call failed.
    pub fault: NoMemory,
    /// The tree that was passed in.
    pub tree: Tree,
    /// The address that was passed in.
    pub home: Home,
}

// The selector, or `/` for the empty one, which also names the root.
fn full_selector(selector: &[u8]) -> &[u8]
    ensures { HaveSameReply selector.now result.now }
{
    match selector {
        [] => b"/",
        _ => selector,
    }
}

impl Replies {
    /// Makes the replies of a tree for a server with the address `home`.
    pub fn new(alloc: Global, tree: Tree, home: Home) -> Result<Replies, RepliesRefused>
        ensures { MatchResult result (AreRepliesOf tree home) (GivesBack tree home) }
    {
        let Ok(not_found) = not_found(alloc, &home) else {
            return Err(RepliesRefused {
                fault: NoMemory,
                tree,
                home,
            });
        };
        let Ok(kept) = kept_replies(alloc, &tree, &home) else {
            return Err(RepliesRefused {
                fault: NoMemory,
                tree,
                home,
            });
        };
        Ok(Replies {
            tree,
            home,
            not_found: ByteString::from(not_found),
            kept,
        })
    }

    /// Returns the reply to a selector. It is the reply of `Tree::reply`, and only replies that
    /// aren't kept need memory.
    pub fn reply(&self, alloc: Global, selector: &[u8]) -> Result<Answer<'_>, NoMemory>
        ensures { IfOk result (IsReplyOf self.now selector.now) }
    {
        if let Some(bytes) = kept_reply(&self.kept, full_selector(selector)) {
            return Ok(Answer::Kept(bytes));
        }
        match self.tree.find(selector) {
            None => Ok(Answer::Kept(self.not_found.as_slice())),
            Some(Node::File(kind, bytes)) if kind != b'0' => Ok(Answer::Kept(bytes)),
            Some(_) => {
                let bytes = self.tree.reply(alloc, selector, &self.home)?;
                Ok(Answer::Made(bytes))
            }
        }
    }

    /// Returns the tree.
    pub fn tree(&self) -> &Tree
        ensures { result.now ≡ self.now.files }
    {
        &self.tree
    }

    /// Returns the server's address.
    pub fn home(&self) -> &Home
        ensures { result.now ≡ self.now.home }
    {
        &self.home
    }
}
