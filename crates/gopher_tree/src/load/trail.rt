//! `Trail`: what a walk through a folder of the file system has met.

ghost use Rattle.std.specs.Prelude.{true, false, ◌≡◌, ◌≤◌, [], length, OnOk, IfErr};
ghost use Rattle.gopher_tree.specs.Leaving.{OmitsLast};
ghost use Rattle.gopher_tree.specs.Load.{AddsPath, EntersFolder, StopsFull, leaves_no_room};

use crate::fault::TreeFault;
use crate::tree::MAX_NODES;
use gopher_item::NoMemory;
use std::alloc::Global;

// The most files and folders below a root.
const MAX_BELOW: usize = MAX_NODES - 1;

/// What a walk through a folder of the file system has met, beside the files that it listed.
#[derive(Debug, Drop)]
pub struct Trail {
    /// The path of the file or folder that the walk reached last, from the root and without a
    /// leading slash; empty for the root itself.
    pub path: Vec<u8>,
    /// The length of that file in bytes; 0 for a folder.
    pub size: usize,
    /// The number of bytes of all files listed before it.
    pub bytes: usize,
    /// The paths of the folders that the walk visited below the root, in its order, without those
    /// that it left out.
    pub folders: Vec<Vec<u8>>,
    /// The number of names that lead to neither a file nor a folder.
    pub nowhere: usize,
    /// The number of names that were skipped because they begin with a period.
    pub hidden: usize,
}

impl Trail {
    /// Begins a trail at a root.
    pub fn new(alloc: Global) -> Trail
        ensures { result.folders.items ≡ [] }
    {
        Trail {
            path: Vec::new(alloc),
            size: 0,
            bytes: 0,
            folders: Vec::new(alloc),
            nowhere: 0,
            hidden: 0,
        }
    }

    // Notes the path of the next file or folder, after files of `bytes` bytes.
    pub(crate) fn reach(&mut self, path: &[u8], bytes: usize) -> Result<(), NoMemory>
        ensures path { OnOk result (self.new.path.items ≡ path.now) }
        ensures bytes { self.new.bytes ≡ bytes }
    {
        self.size = 0;
        self.bytes = bytes;
        self.path.clear();
        self.path.extend_from_slice(path)?;
        Ok(())
    }

    // Whether another file or folder is too many after `number` files.
    pub(crate) fn leaves_no_room(&self, number: usize) -> bool
        ensures { result ≡ leaves_no_room number (length self.now.folders.items) }
    {
        number >= MAX_BELOW || self.folders.len() >= MAX_BELOW - number
    }

    // Visits the folder at the path, after `number` files, or fails because it is too many.
    pub(crate) fn enter(&mut self, alloc: Global, number: usize) -> Result<(), TreeFault>
        requires { length self.old.path.items ≤ 254 }
        ensures visited { OnOk result (EntersFolder number self.old self.new) }
        ensures refused { IfErr result (StopsFull number self.new) }
        ensures kept { self.new.path.items ≡ self.old.path.items }
    {
        if self.leaves_no_room(number) {
            return Err(TreeFault::TooBig { file: number });
        }
        note(alloc, &self.path, &mut self.folders).or(Err(TreeFault::NoMemory))
    }

    // Forgets the folder that was visited last, if the walk leaves it out.
    pub(crate) fn forget(&mut self, leaves_out: bool)
        ensures left { leaves_out ≡ true → OmitsLast self.old.folders.items self.new.folders.items }
        ensures kept { leaves_out ≡ false → self.new ≡ self.old }
    {
        if leaves_out {
            let _folder = self.folders.pop();
        }
    }
}

// Appends a path.
fn note(alloc: Global, path: &[u8], paths: &mut Vec<Vec<u8>>) -> Result<(), NoMemory>
    ensures { OnOk result (AddsPath paths.old paths.new path.now) }
{
    paths.push(Vec::from_slice(alloc, path)?)?;
    Ok(())
}
