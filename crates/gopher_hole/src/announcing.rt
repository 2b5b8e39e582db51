//! What the program writes: its texts, the line after it listens, and the line of a fault, with the
//! setting or seed that it names.

ghost use Rattle.std.specs.Prelude.{◌≡◌, ◌≤◌, ◌+◌, ◌++◌, length, IfErr, IfOk, OnOk};
ghost use Rattle.std.specs.Fmt.{decimal};
ghost use Rattle.arrayvec.specs.ArrayString.{array_string_len};
ghost use Rattle.gopher_script.specs.Answer.{status_line};
ghost use Rattle.gopher_script.specs.Replay.{SendsAnswer};
ghost use Rattle.gopher_text.specs.Watched.{HasSent};
ghost use Rattle.gopher_hole.specs.Ending.{listening_line};
ghost use Rattle.gopher_hole.specs.ServerFault.{IsServingFault};
ghost use Rattle.gopher_hole.specs.Fault.{detail_bytes, fault_line};

use crate::fault::{Detail, ProgramFault};
use arrayvec::ArrayString;
use gopher_catalogue::Status;
use gopher_item::{Home, NoMemory};
use gopher_script::{ReplayFault, send_all, status_line};
use gopher_text::{Watched, send};
use itoa::Buffer;
use std::alloc::Global;
use std::io::Write;

// The most bytes of a fault's line: its number and two details, each a text of at most six bytes
// and a number of at most 20 digits, and the end of the line.
const MAX_FAULT_LINE: usize = 79;

/// Sends a text to the output stream and flushes it.
///
/// # Errors
///
/// `WriteFailed` (13): a write or the flush failed.
#[tactic(auto, using(crate::proofs::Ends::sends_kept))]
pub fn send_text<W: Write>(output: &mut Watched<W>, text: &[u8]) -> Result<(), ProgramFault>
    ensures sent { OnOk result (HasSent W.contents output.old output.new text.now) }
    ensures fault { IfErr result IsServingFault }
{
    let Ok(()) = send(output, text) else {
        return Err(ProgramFault::WriteFailed);
    };
    match output.flush() {
        Ok(()) => Ok(()),
        Err(_) => Err(ProgramFault::WriteFailed),
    }
}

// The line with the host and the port of a server that listens.
fn listening_line(alloc: Global, home: &Home) -> Result<Vec<u8>, NoMemory>
    ensures { IfOk result (λ line. line.items ≡ listening_line home.now) }
{
    let port = home.port();
    let mut line = Vec::from_slice(alloc, b"listening ")?;
    line.extend_from_slice(home.host())?;
    line.extend_from_slice(format!(in alloc; " {port}\n")?.as_bytes())?;
    Ok(line)
}

/// Writes the line with the server's host and port, once it listens.
///
/// # Errors
///
/// `WriteFailed` (13) as in `send_text`; `NoMemory` (90).
pub fn tell_listening<W: Write>(
    alloc: Global,
    home: &Home,
    output: &mut Watched<W>,
) -> Result<(), ProgramFault>
    ensures line { OnOk result (HasSent W.contents output.old output.new
        (listening_line home.now)) }
    ensures fault { IfErr result IsServingFault }
{
    let line = listening_line(alloc, home)?;
    send_text(output, &line)
}

/// Writes the line with the number of places in each state after the crawl.
///
/// # Errors
///
/// `WriteFailed` (13) as in `send_text`; `NoMemory` (90).
pub fn tell_status<W: Write>(
    alloc: Global,
    status: Status,
    output: &mut Watched<W>,
) -> Result<(), ProgramFault>
    ensures line { OnOk result (HasSent W.contents output.old output.new (status_line status)) }
    ensures fault { IfErr result IsServingFault }
{
    let line = status_line(alloc, status)?;
    send_text(output, &line)
}

// Appends a text of at most six bytes and a number.
fn push_number(line: &mut ArrayString<MAX_FAULT_LINE>, front: &str, number: usize)
    requires short { length front.now ≤ 6 }
    requires room { array_string_len line.old + 26 ≤ 79 }
    ensures pushed { line.new.bytes ≡ line.old.bytes ++ (front.now ++ decimal number) }
    ensures few { array_string_len line.new ≤ array_string_len line.old + 26 }
{
    line.push_str(front);
    line.push_str(Buffer::new().format(number));
}

// Appends a detail of a fault.
fn push_detail(line: &mut ArrayString<MAX_FAULT_LINE>, detail: Detail)
    requires { array_string_len line.old + 26 ≤ 79 }
    ensures pushed { line.new.bytes ≡ line.old.bytes ++ detail_bytes detail }
    ensures few { array_string_len line.new ≤ array_string_len line.old + 26 }
{
    match detail {
        Detail::Nothing => {}
        Detail::Key(key) => {
            line.push_str(" ");
            line.push_str(key.name());
        }
        Detail::File(file) => push_number(line, " file ", file),
        Detail::Seed(seed) => push_number(line, " seed ", seed),
        Detail::Line(number) => push_number(line, " line ", number),
    }
}

// The line of a fault. It takes no memory, because the fault may be that there is none.
fn fault_line(fault: ProgramFault) -> ArrayString<MAX_FAULT_LINE>
    ensures { result.bytes ≡ fault_line fault }
{
    let (first, second) = fault.details();
    let mut line = ArrayString::new();
    push_number(&mut line, "hole: ", usize::from(fault.code()));
    push_detail(&mut line, first);
    push_detail(&mut line, second);
    line.push_str("\n");
    line
}

/// Writes the line of a fault: its number, and what it says after the number. All of it is passed
/// to the stream at once, so that lines of several programs don't mix.
///
/// # Errors
///
/// `WriteFailed` (13): a prefix of the line was written.
pub fn write_fault<E: Write>(error: &mut Watched<E>, fault: ProgramFault) -> Result<(), ReplayFault>
    ensures { SendsAnswer E.contents (fault_line fault) error.old error.new result }
{
    send_all(error, fault_line(fault).as_str().as_bytes())
}
