//! Programs in a site, whose source a server sends.

ghost use Rattle.std.specs.Prelude.{◌≡◌, IfOk};
ghost use Rattle.gopher_check.specs.Script.{AreScripts, is_script, lent_paths, scripts_in};

use crate::text_warning::set_selector;
use gopher_item::NoMemory;
use gopher_tree::{Node, Tree};
use std::alloc::Global;
use std::fs::{self, Files};
use std::os::unix::fs::PermissionsExt;
use std::path::Path;
use std::str;

// Whether the selector of a path, a slash and the path, names a script.
fn is_script(tree: &Tree, selector: &[u8]) -> bool
    ensures { result ≡ is_script tree.now selector.now }
{
    match tree.find(selector) {
        Some(Node::File(b'0', bytes)) => bytes.starts_with(b"#!"),
        _ => false,
    }
}

// Those of these paths that are scripts.
fn scripts_in<'a>(alloc: Global, tree: &Tree, paths: &[&'a [u8]]) -> Result<Vec<&'a [u8]>, NoMemory>
    ensures { IfOk result (λ f. lent_paths f.items ≡ scripts_in tree.now (lent_paths paths.now)) }
{
    let mut selector = Vec::new(alloc);
    let mut found = Vec::new(alloc);
    for path in paths {
        set_selector(path, &mut selector)?;
        if is_script(tree, &selector) {
            found.push(*path)?;
        }
    }
    Ok(found)
}

/// Returns the paths of the site's scripts, the texts that begin with `#!`, in byte order.
pub fn scripts<'a>(alloc: Global, tree: &'a Tree) -> Result<Vec<&'a [u8]>, NoMemory>
    ensures { IfOk result (λ found. AreScripts tree.now (lent_paths found.items)) }
{
    let paths = tree.paths(alloc)?;
    scripts_in(alloc, tree, &paths)
}

// Whether someone may execute the file at a path.
fn may_run<R: Files>(rt: &R, path: &[u8]) -> bool {
    let Ok(path) = str::from_utf8(path) else {
        return false;
    };
    match fs::metadata(rt, Path::new(path)) {
        Ok(found) => found.permissions().mode() & 0o111 != 0,
        Err(_) => false,
    }
}

// Makes the path of a file below the root.
fn set_path(root: &str, path: &[u8], full: &mut Vec<u8>) -> Result<(), NoMemory> {
    full.clear();
    full.extend_from_slice(root.as_bytes())?;
    full.push(b'/')?;
    full.extend_from_slice(path)?;
    Ok(())
}

/// Returns those of these scripts, paths below `root`, that someone may execute. Each is a program
/// whose source the server sends. A file that can't be examined isn't among them.
pub fn programs<'a, R: Files>(
    rt: &R,
    alloc: Global,
    root: &str,
    scripts: &[&'a [u8]],
) -> Result<Vec<&'a [u8]>, NoMemory> {
    let mut full = Vec::new(alloc);
    let mut found = Vec::new(alloc);
    for path in scripts {
        set_path(root, path, &mut full)?;
        if may_run(rt, &full) {
            found.push(*path)?;
        }
    }
    Ok(found)
}
