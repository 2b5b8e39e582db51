//! Paths: which are bad, the path of a selector, and the path of a folder's `.menu` file.

ghost use Rattle.std.specs.Prelude.{◌≡◌, ◌<◌, ◌++◌, length, IfOk, OnOk};
ghost use Rattle.std.specs.Option.{option_map};
ghost use Rattle.gopher_tree.specs.Fault.{path_fault};
ghost use Rattle.gopher_tree.specs.Leaving.{folder_fault};
ghost use Rattle.gopher_tree.specs.Path.{names_of, first_name, last_name, is_menu_name, is_bad_name, has_bad_name, is_menu_path, path_of, prefix_of, path_in, menu_path};

use crate::fault::TreeFault;
use gopher_item::{NoMemory, has_special, split_once};
use std::alloc::Global;

// The longest path, in bytes: its selector has one slash more, and at most 255 bytes.
pub(crate) const MAX_PATH: usize = 254;

const MENU: &[u8] = b".menu";

const SEARCH: &[u8] = b"search";

// Whether the name is `.menu`.
pub(crate) fn is_menu_name(name: &[u8]) -> bool
    ensures { result ≡ is_menu_name name.now }
{
    name == MENU
}

fn is_bad_name(name: &[u8]) -> bool
    ensures { result ≡ is_bad_name name.now }
{
    match name {
        [] | [b'.', ..] => true,
        _ => has_special(name),
    }
}

fn first_name(path: &[u8]) -> &[u8]
    ensures { result.now ≡ first_name (names_of path.now) }
{
    match split_once(b'/', path) {
        Some((name, _)) => name,
        None => path,
    }
}

fn last_name(path: &[u8]) -> &[u8]
    ensures { result.now ≡ last_name (names_of path.now) }
{
    let mut rest = path;
    while let Some((_, after)) = split_once(b'/', rest) {
        rest = after;
    }
    rest
}

// Whether a name of the path is invalid; `.menu` is valid as the last one.
fn has_bad_name(path: &[u8]) -> bool
    ensures { result ≡ has_bad_name (names_of path.now) }
{
    let mut rest = path;
    while let Some((name, after)) = split_once(b'/', rest) {
        if is_bad_name(name) {
            return true;
        }
        rest = after;
    }
    !is_menu_name(rest) && is_bad_name(rest)
}

// The first fault of a path alone; `number` is the index of its file in the list.
pub(crate) fn path_fault(number: usize, path: &[u8]) -> Option<TreeFault>
    ensures { result ≡ path_fault number path.now }
{
    if has_bad_name(path) {
        Some(TreeFault::BadName { file: number })
    } else if first_name(path) == SEARCH {
        Some(TreeFault::Reserved { file: number })
    } else if path.len() > MAX_PATH {
        Some(TreeFault::LongSelector { file: number })
    } else {
        None
    }
}

// The first fault of a folder alone; `number` files are before it. A walk that leaves nothing out
// meets a bad name at the first file below.
pub(crate) fn folder_fault(number: usize, leaves_out: bool, path: &[u8]) -> Option<TreeFault>
    ensures { result ≡ folder_fault number leaves_out path.now }
{
    if path.len() > MAX_PATH {
        Some(TreeFault::LongSelector { file: number })
    } else if leaves_out && (has_bad_name(path) || is_menu_path(path)) {
        Some(TreeFault::BadName { file: number })
    } else {
        None
    }
}

pub(crate) fn is_menu_path(path: &[u8]) -> bool
    ensures { result ≡ is_menu_path path.now }
{
    is_menu_name(last_name(path))
}

// Appends what the paths in a folder begin with: its path and a slash; nothing for the root.
pub(crate) fn push_prefix(folder: &[u8], out: &mut Vec<u8>) -> Result<(), NoMemory>
    ensures { OnOk result (out.new.items ≡ out.old.items ++ prefix_of folder.now) }
{
    if !folder.is_empty() {
        out.extend_from_slice(folder)?;
        out.push(b'/')?;
    }
    Ok(())
}

pub(crate) fn prefix_of(alloc: Global, folder: &[u8]) -> Result<Vec<u8>, NoMemory>
    ensures { IfOk result (λ prefix. prefix.items ≡ prefix_of folder.now) }
{
    let mut prefix = Vec::new(alloc);
    push_prefix(folder, &mut prefix)?;
    Ok(prefix)
}

// The path of a name in a folder.
pub(crate) fn path_in(alloc: Global, folder: &[u8], name: &[u8]) -> Result<Vec<u8>, NoMemory>
    requires { 0 < length name.now }
    ensures path { IfOk result (λ path. path.items ≡ path_in folder.now name.now) }
    ensures longer { IfOk result (λ path. length folder.now < length path.items) }
{
    let mut path = prefix_of(alloc, folder)?;
    path.extend_from_slice(name)?;
    Ok(path)
}

pub(crate) fn menu_path(alloc: Global, folder: &[u8]) -> Result<Vec<u8>, NoMemory>
    ensures { IfOk result (λ path. path.items ≡ menu_path folder.now) }
{
    path_in(alloc, folder, MENU)
}

// The path that a selector names.
pub(crate) fn path_of(selector: &[u8]) -> Option<&[u8]>
    ensures { option_map (λ path. path.now) result ≡ path_of selector.now }
{
    match selector {
        [] => Some(selector),
        [b'/', path @ ..] => Some(path),
        _ => None,
    }
}
