//! The menu of hits.

ghost use Rattle.std.specs.Prelude.{◌≡◌, ◌++◌, IfOk, OnOk};
ghost use Rattle.gopher_item.specs.MenuLine.{menu_line_bytes};
ghost use Rattle.gopher_serve.specs.Answer.{hit_line, hits_bytes};

use gopher_index::Hit;
use gopher_item::{NoMemory, push_last_line, push_menu_line};
use std::alloc::Global;

/// Returns the menu of hits: a line for each, in their order, and the last line.
pub fn hits_menu(alloc: Global, hits: &[Hit]) -> Result<Vec<u8>, NoMemory>
    ensures { IfOk result (λ bytes. bytes.items ≡ hits_bytes hits.now) }
{
    let mut out = Vec::new(alloc);
    for hit in hits {
        push_hit(hit, &mut out)?;
    }
    push_last_line(&mut out)?;
    Ok(out)
}

// Appends the line of a hit.
fn push_hit(hit: &Hit, out: &mut Vec<u8>) -> Result<(), NoMemory>
    ensures { OnOk result (out.new.items ≡ out.old.items ++ menu_line_bytes (hit_line hit.now)) }
{
    let place = &hit.place;
    push_menu_line(
        place.kind(),
        hit.title.as_slice(),
        place.selector(),
        place.host(),
        place.port(),
        out,
    )
}
