//! The nodes of a tree below its root: the file or folder at each path.

ghost use Rattle.std.specs.Prelude.{◌≡◌, ◌<◌, ◌∷◌, [], length, map, IfOk, OnOk};
ghost use Rattle.gopher_tree.specs.Path.{folders_of};
ghost use Rattle.gopher_tree.specs.Tree.{AddsFolders, ArePathsOf, SetsEntry};

use gopher_item::NoMemory;
use std::alloc::Global;
use std::collections::BTreeMap;

// The number of the file at each path; `None` for a folder. The root isn't among them.
pub(crate) type Nodes = BTreeMap<Vec<u8>, Option<usize>>;

pub(crate) fn put(
    alloc: Global,
    path: &[u8],
    entry: Option<usize>,
    nodes: &mut Nodes,
) -> Result<(), NoMemory>
    ensures { OnOk result (SetsEntry nodes.old nodes.new path.now entry) }
{
    nodes.insert(Vec::from_slice(alloc, path)?, entry)?;
    Ok(())
}

// Adds the folder unless it exists.
fn add_folder(alloc: Global, folder: &[u8], nodes: &mut Nodes) -> Result<(), NoMemory>
    requires { 0 < length folder.now }
    ensures { OnOk result (AddsFolders nodes.old nodes.new (folder.now ∷ [])) }
{
    if nodes.contains_key(folder) {
        return Ok(());
    }
    put(alloc, folder, None, nodes)?;
    Ok(())
}

// Adds the folders that a path leads through.
pub(crate) fn add_folders(alloc: Global, path: &[u8], nodes: &mut Nodes) -> Result<(), NoMemory>
    requires { 0 < length path.now }
    ensures { OnOk result (AddsFolders nodes.old nodes.new (folders_of path.now)) }
{
    for place in 1..path.len() {
        if path[place] == b'/' {
            add_folder(alloc, &path[..place], nodes)?;
        }
    }
    Ok(())
}

// The paths of the root and of all entries in byte order.
pub(crate) fn paths_in(alloc: Global, nodes: &Nodes) -> Result<Vec<&[u8]>, NoMemory>
    ensures { IfOk result (λ paths. ArePathsOf nodes.now (map (λ path. path.now) paths.items)) }
{
    let mut paths = Vec::new(alloc);
    push_paths(nodes, &mut paths)?;
    Ok(paths)
}

// Appends the paths of the root and of all entries to no paths.
fn push_paths<'a>(nodes: &'a Nodes, paths: &mut Vec<&'a [u8]>) -> Result<(), NoMemory>
    requires { paths.old.items ≡ [] }
    ensures { OnOk result (ArePathsOf nodes.now (map (λ path. path.now) paths.new.items)) }
{
    paths.push(b"".as_slice())?;
    for path in nodes.keys() {
        paths.push(path.as_slice())?;
    }
    Ok(())
}
