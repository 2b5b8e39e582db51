//! The answers of `search` and `occurs`, as bytes.

ghost use Rattle.std.specs.Prelude.{◌≡◌, ◌++◌, IfOk, OnOk};
ghost use Rattle.std.specs.List.{flat_map};
ghost use Rattle.gopher_script.specs.Answer.{hit_row, hits_lines, at_line, places_lines};

use crate::lines::push_place;
use gopher_catalogue::Hit;
use gopher_item::{NoMemory, Place};
use std::alloc::Global;

fn push_hit(alloc: Global, hit: &Hit, lines: &mut Vec<u8>) -> Result<(), NoMemory>
    ensures { OnOk result (lines.new.items ≡ lines.old.items ++ hit_row hit.now) }
{
    let score = hit.score;
    lines.extend_from_slice(format!(in alloc; "hit\t{score}\t")?.as_bytes())?;
    push_place(alloc, &hit.place, lines)?;
    lines.push(b'\t')?;
    lines.extend_from_slice(hit.title.as_slice())?;
    lines.push(b'\n')?;
    Ok(())
}

/// Makes a line with the number of hits, and one line for each hit.
pub fn hits_lines(alloc: Global, hits: &[Hit]) -> Result<Vec<u8>, NoMemory>
    ensures { IfOk result (λ lines. lines.items ≡ hits_lines hits.now) }
{
    let count = hits.len();
    let mut lines = format!(in alloc; "hits {count}\n")?.into_bytes();
    for hit in hits {
        push_hit(alloc, hit, &mut lines)?;
    }
    Ok(lines)
}

fn push_occurrence(
    alloc: Global,
    occurrence: &(Place, u32),
    lines: &mut Vec<u8>,
) -> Result<(), NoMemory>
    ensures { OnOk result (lines.new.items ≡ lines.old.items ++ at_line occurrence.now) }
{
    let (place, count) = occurrence;
    lines.extend_from_slice(format!(in alloc; "at\t{count}\t")?.as_bytes())?;
    push_place(alloc, place, lines)?;
    lines.push(b'\n')?;
    Ok(())
}

/// Makes a line with the number of places that contain a word, and one line for each place.
pub fn places_lines(alloc: Global, list: &[(Place, u32)]) -> Result<Vec<u8>, NoMemory>
    ensures { IfOk result (λ lines. lines.items ≡ places_lines list.now) }
{
    let count = list.len();
    let mut lines = format!(in alloc; "places {count}\n")?.into_bytes();
    for occurrence in list {
        push_occurrence(alloc, occurrence, &mut lines)?;
    }
    Ok(lines)
}
