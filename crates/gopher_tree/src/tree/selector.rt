//! `Tree::find` and `Tree::reply`: the node and the reply at a selector.

ghost use Rattle.std.specs.Prelude.{◌≡◌, IfOk, OnOk};
ghost use Rattle.std.specs.Option.{option_copied};
ghost use Rattle.gopher_tree.specs.Path.{rest_after};
ghost use Rattle.gopher_tree.specs.Files.{file_at, child_of_rest, with_child, children};
ghost use Rattle.gopher_tree.specs.Reply.{named_by, named, menu_file, folder_reply, tree_reply};
ghost use Rattle.gopher_tree.specs.Found.{Shows, child_data, listed};

use crate::reply::{Children, file_reply, listing_reply, not_found, written_reply};
use crate::tree::file::File;
use crate::tree::path::{is_menu_name, is_menu_path, menu_path, path_of, prefix_of};
use crate::tree::{Node, Tree};
use gopher_item::{Home, NoMemory, split_once};
use std::alloc::Global;
use std::collections::BTreeMap;

// The child that leads to a file, and its type; the paths in the folder begin with `prefix`.
fn child_after<'a>(prefix: &[u8], file: &'a File) -> Option<(&'a [u8], u8)>
    ensures { child_data result ≡ child_of_rest file.now (rest_after prefix.now file.now.0) }
{
    let rest = file.path().strip_prefix(prefix)?;
    match split_once(b'/', rest) {
        Some((name, _)) => Some((name, b'1')),
        None if is_menu_name(rest) => None,
        None => Some((rest, file.kind())),
    }
}

// Adds a child, if there is one.
fn add_child<'a>(child: Option<(&'a [u8], u8)>, out: &mut Children<'a>) -> Result<(), NoMemory>
    ensures { OnOk result (listed out.new ≡ with_child (listed out.old) (child_data child.entry)) }
{
    if let Some((name, kind)) = child {
        out.insert(name, kind)?;
    }
    Ok(())
}

impl Tree {
    // The names in a folder.
    fn children(&self, alloc: Global, folder: &[u8]) -> Result<Children<'_>, NoMemory>
        ensures { IfOk result (λ names. listed names ≡ children self.now folder.now) }
    {
        let prefix = prefix_of(alloc, folder)?;
        let mut children = BTreeMap::new(alloc);
        for file in &self.files {
            add_child(child_after(&prefix, file), &mut children)?;
        }
        Ok(children)
    }

    /// Returns the bytes of the menu file in the folder with this path, if it has one.
    pub fn menu_file(&self, alloc: Global, folder: &[u8]) -> Result<Option<&[u8]>, NoMemory>
        ensures { IfOk result (λ menu. option_copied menu ≡ menu_file self.now folder.now) }
    {
        let path = menu_path(alloc, folder)?;
        Ok(self.file_at(&path).map(File::bytes))
    }

    fn folder_reply(&self, alloc: Global, folder: &[u8], home: &Home) -> Result<Vec<u8>, NoMemory>
        ensures { IfOk result (λ menu. menu.items ≡ folder_reply self.now home.now folder.now) }
    {
        match self.menu_file(alloc, folder)? {
            Some(bytes) => written_reply(alloc, bytes, home),
            None => listing_reply(alloc, folder, &self.children(alloc, folder)?, home),
        }
    }

    // The node at a path, unless it is a menu file.
    fn node_at(&self, path: &[u8]) -> Option<Node<'_>>
        ensures { Shows (named_by self.now path.now (file_at self.now path.now)) result }
    {
        match self.file_at(path) {
            Some(_) if is_menu_path(path) => None,
            Some(file) => Some(Node::File(file.kind(), file.bytes())),
            None if self.has_node(path) => Some(Node::Folder),
            None => None,
        }
    }

    /// Returns the file or folder that a selector names. It is `None` if a nonempty selector
    /// doesn't begin with a slash, if no node has its path, or if the path is a `.menu` file.
    pub fn find(&self, selector: &[u8]) -> Option<Node<'_>>
        ensures { Shows (named self.now selector.now) result }
    {
        self.node_at(path_of(selector)?)
    }

    /// Makes the reply to a selector from a server with the address `home` (RFC 1436, section 2,
    /// and appendix: Menu Transaction and Textfile Transaction).
    ///
    /// For a folder it is a menu: the lines of its `.menu` file or, without one, its names in byte
    /// order; the root's names follow a search line. For a file of type `0` it is a text, for other
    /// files their bytes. If the selector names nothing, it is the error reply `Not found`.
    pub fn reply(&self, alloc: Global, selector: &[u8], home: &Home) -> Result<Vec<u8>, NoMemory>
        ensures { IfOk result (λ sent. sent.items ≡ tree_reply self.now home.now selector.now) }
    {
        let Some(path) = path_of(selector) else {
            return not_found(alloc, home);
        };
        match self.node_at(path) {
            Some(Node::File(kind, bytes)) => file_reply(alloc, kind, bytes),
            Some(Node::Folder) => self.folder_reply(alloc, path, home),
            None => not_found(alloc, home),
        }
    }
}
