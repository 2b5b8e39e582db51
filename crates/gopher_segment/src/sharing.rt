//! Shared values in several lists.

ghost use Rattle.std.specs.Prelude.{◌≡◌, ◌++◌, OnOk, OnErr};
ghost use Rattle.gopher_page.specs.Page.{held};

use gopher_bytes::NoMemory;
use std::sync::Arc;

/// Appends the items to a list, which then shares them.
///
/// If out of memory, the list stays unchanged.
pub fn share<T: Drop>(items: &[Arc<T>], list: &mut Vec<Arc<T>>) -> Result<(), NoMemory>
    ensures shared { OnOk result (held list.new.items ≡ held list.old.items ++ held items.now) }
    ensures refused { OnErr result (list.new.items ≡ list.old.items) }
{
    list.extend_from_slice(items)?;
    Ok(())
}
