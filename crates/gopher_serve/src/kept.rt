//! The replies that are made once and kept: texts and menus.

ghost use Rattle.std.specs.Prelude.{◌≡◌, IfOk, OnOk};
ghost use Rattle.std.specs.List.{All};
ghost use Rattle.gopher_serve.specs.Kept.{FindsReply, IsReply};

use gopher_item::{ByteString, Home, NoMemory};
use gopher_tree::{Node, Tree};
use std::alloc::Global;

#[derive(Debug, Drop)]
pub(crate) struct KeptReply {
    selector: ByteString,
    bytes: ByteString,
}

// The kept replies of a tree that a server with the address `home` sends, in byte order of their
// selectors.
pub(crate) fn kept_replies(
    alloc: Global,
    tree: &Tree,
    home: &Home,
) -> Result<Vec<KeptReply>, NoMemory>
    ensures { IfOk result (λ kept. All (IsReply tree.now home.now) kept.items) }
{
    let mut kept = Vec::new(alloc);
    for path in tree.paths(alloc)? {
        keep(alloc, tree, home, path, &mut kept)?;
    }
    Ok(kept)
}

// Keeps the reply of a node if it is a text or a folder.
fn keep(
    alloc: Global,
    tree: &Tree,
    home: &Home,
    path: &[u8],
    kept: &mut Vec<KeptReply>,
) -> Result<(), NoMemory>
    requires { All (IsReply tree.now home.now) kept.old.items }
    ensures { OnOk result (All (IsReply tree.now home.now) kept.new.items) }
{
    let mut selector = Vec::from_slice(alloc, b"/")?;
    selector.extend_from_slice(path)?;
    let Some(Node::File(b'0', _) | Node::Folder) = tree.find(&selector) else {
        return Ok(());
    };
    let mut bytes = tree.reply(alloc, &selector, home)?;
    bytes.shrink_to_fit();
    kept.push(KeptReply {
        selector: ByteString::from(selector),
        bytes: ByteString::from(bytes),
    })?;
    Ok(())
}

// The kept reply to a selector.
pub(crate) fn kept_reply<'a>(kept: &'a [KeptReply], selector: &[u8]) -> Option<&'a [u8]>
    ensures { FindsReply kept.now selector.now result }
{
    let place = kept.partition_point(|kept| kept.selector.as_slice() < selector);
    let found = kept.get(place)?;
    if found.selector.as_slice() == selector {
        Some(found.bytes.as_slice())
    } else {
        None
    }
}
