//! `LeftOut`: a file or folder that a walk left out, and why.

ghost use Rattle.std.specs.Prelude.{◌≡◌, ◌+◌, length, OnOk, IfErr};
ghost use Rattle.gopher_tree.specs.Leaving.{AddsLeftOut, MayLeaveOut, AddsUnreadable, RefusesToLeaveOut};

use crate::fault::TreeFault;
use gopher_item::NoMemory;
use std::alloc::Global;

/// A file or folder that a walk left out.
#[derive(Debug, Drop)]
pub struct LeftOut {
    /// The path of the file or folder, from the root and without a leading slash. For a name that
    /// isn't UTF-8, the path of its folder, which is empty for the root.
    pub path: Vec<u8>,
    /// The fault with which `Tree::load` fails there, or at the first file below a folder with a
    /// bad name. Its `file` is the number of files listed before.
    pub fault: TreeFault,
}

// Notes that a file or folder is left out.
fn note(
    alloc: Global,
    path: &[u8],
    fault: TreeFault,
    left: &mut Vec<LeftOut>,
) -> Result<(), NoMemory>
    ensures noted { OnOk result (AddsLeftOut left.old.items left.new.items path.now fault) }
    ensures kept { IfErr result (λ error. left.new.items ≡ left.old.items) }
{
    let path = Vec::from_slice(alloc, path)?;
    left.push(LeftOut { path, fault })?;
    Ok(())
}

// Notes that a file or folder with this fault is left out. Fails with the fault if it is out of
// memory, or if the walk leaves nothing out.
pub(crate) fn leave_out(
    alloc: Global,
    leaves_out: bool,
    path: &[u8],
    fault: TreeFault,
    left: &mut Vec<LeftOut>,
) -> Result<(), TreeFault>
    ensures noted { OnOk result (AddsLeftOut left.old.items left.new.items path.now fault) }
    ensures allowed { OnOk result (MayLeaveOut leaves_out fault) }
    ensures kept { IfErr result (λ error. left.new.items ≡ left.old.items) }
    ensures refused { IfErr result (RefusesToLeaveOut leaves_out fault) }
{
    if !leaves_out || fault == TreeFault::NoMemory {
        return Err(fault);
    }
    note(alloc, path, fault, left).or(Err(TreeFault::NoMemory))
}

// Notes a folder once for each of its names that aren't UTF-8, after `number` files.
pub(crate) fn leave_out_nameless(
    alloc: Global,
    path: &[u8],
    number: usize,
    nameless: usize,
    left: &mut Vec<LeftOut>,
) -> Result<(), NoMemory>
    ensures noted { AddsUnreadable left.old.items left.new.items path.now number }
    ensures each { OnOk result (length left.new.items ≡ length left.old.items + nameless) }
{
    let fault = TreeFault::Unreadable { file: number };
    for _index in 0..nameless {
        note(alloc, path, fault, left)?;
    }
    Ok(())
}
