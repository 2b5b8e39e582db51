//! The answers of commands that are one line, as bytes.

ghost use Rattle.std.specs.Prelude.{◌≡◌, ◌≢◌, ◌++◌, codes, IfOk, OnOk};
ghost use Rattle.gopher_script.specs.Answer.{refused_line, place_fields, take_line, added_line, status_line};

use gopher_catalogue::{Added, Status};
use gopher_item::{NoMemory, Place};
use std::alloc::Global;

/// Makes the answer to a command that did something.
pub fn ok_line(alloc: Global) -> Result<Vec<u8>, NoMemory>
    ensures { IfOk result (λ line. line.items ≡ codes "ok\n") }
{
    Ok(Vec::from_slice(alloc, b"ok\n")?)
}

/// Makes the answer to what is refused with this number. It fails if that is 90, out of memory.
pub fn refused_line(alloc: Global, code: u8) -> Result<Vec<u8>, NoMemory>
    ensures cause { OnOk result (code ≢ 90) }
    ensures line { IfOk result (λ line. line.items ≡ refused_line code) }
{
    if code == 90 {
        return Err(NoMemory);
    }
    Ok(format!(in alloc; "refused {code}\n")?.into_bytes())
}

/// Appends a place's type, host, port and selector.
pub fn push_place(alloc: Global, place: &Place, line: &mut Vec<u8>) -> Result<(), NoMemory>
    ensures { OnOk result (line.new.items ≡ line.old.items ++ place_fields place.now) }
{
    let port = place.port();
    line.push(place.kind())?;
    line.push(b'\t')?;
    line.extend_from_slice(place.host())?;
    line.extend_from_slice(format!(in alloc; "\t{port}\t")?.as_bytes())?;
    line.extend_from_slice(place.selector())?;
    Ok(())
}

pub fn take_line(alloc: Global, number: u32, place: &Place) -> Result<Vec<u8>, NoMemory>
    ensures { IfOk result (λ line. line.items ≡ take_line number place.now) }
{
    let mut line = format!(in alloc; "take\t{number}\t")?.into_bytes();
    push_place(alloc, place, &mut line)?;
    line.push(b'\n')?;
    Ok(line)
}

pub fn added_line(alloc: Global, added: Added) -> Result<Vec<u8>, NoMemory>
    ensures { IfOk result (λ line. line.items ≡ added_line added) }
{
    let Added { fresh, dropped } = added;
    Ok(format!(in alloc; "added {fresh} {dropped}\n")?.into_bytes())
}

/// Makes the line of a crawl's numbers: known, waiting, out and done places, and dropped mentions.
pub fn status_line(alloc: Global, status: Status) -> Result<Vec<u8>, NoMemory>
    ensures { IfOk result (λ line. line.items ≡ status_line status) }
{
    let Status {
        known,
        waiting,
        out,
        done,
        dropped,
    } = status;
    let mut line = format!(in alloc; "known {known} waiting {waiting} out {out}")?.into_bytes();
    line.extend_from_slice(format!(in alloc; " done {done} dropped {dropped}\n")?.as_bytes())?;
    Ok(line)
}
