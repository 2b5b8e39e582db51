//! `run`: the whole program, from its arguments to its exit status.

ghost use Rattle.std.specs.Prelude.{◌≡◌, ◌≢◌, ◌≤◌, map, string_bytes, IfErr, OnOk};
ghost use Rattle.std.specs.Bool.{OnTrue};
ghost use Rattle.std.specs.Io.KnownBytes.{Keeps};
ghost use Rattle.gopher_hole.specs.Ending.{FoundSound, HasServed};
ghost use Rattle.gopher_hole.specs.Fault.{fault_line};
ghost use Rattle.gopher_script.specs.Replay.{Replays};
ghost use Rattle.gopher_hole.specs.Program.{asks_replay, exit_status, DidAsAsked, DidWhatIsAsked, HasReplayed, HasShown, IsAnyFault, IsReplayFault, MayEndWith, ReplaysAndExits, SaysOneOf, SaysOnError, SaysWhyAsked};
ghost use Rattle.gopher_hole.specs.ServerFault.{IsServerFault, IsServingFault};

use crate::announcing::{send_text, write_fault};
use crate::arguments::{Asked, Checking, Serving, Text, read_arguments};
use crate::checking::check_site;
use crate::crewing::{System, serve};
use crate::fault::ProgramFault;
use gopher_crew::Blank;
use gopher_script::{ReplayFault, replay, send_all};
use gopher_text::Watched;
use std::alloc::Global;
use std::fs::{File, Files};
use std::io::{Read, Write};
use std::marker::Brand;
use std::net::{Net, TcpListener, TcpStream};

fn asks_replay(words: &[String]) -> bool
    ensures { result ≡ asks_replay (map (λ word. string_bytes word) words.now) }
{
    match words {
        [word] => word.as_str() == "replay",
        _ => false,
    }
}

/// Replays the script and flushes what was written.
fn replay_all<R: Read, W: Write>(
    alloc: Global,
    input: &mut Watched<R>,
    output: &mut Watched<W>,
) -> Result<(), ReplayFault>
    ensures { Replays R.remaining W.contents input.old input.new output.old output.new result }
{
    if let Err(fault) = replay(alloc, input, output) {
        let _ = output.flush();
        return Err(fault);
    }
    match output.flush() {
        Ok(()) => Ok(()),
        Err(_) => Err(ReplayFault::WriteFailed),
    }
}

// Replays the script, and writes the line of the fault if that fails. Returns the exit status.
fn run_replay<R: Read, W: Write, E: Write>(
    alloc: Global,
    input: &mut Watched<R>,
    output: &mut Watched<W>,
    error: &mut Watched<E>,
) -> u8
    ensures replays { ReplaysAndExits R.remaining W.contents E.contents
        input.old input.new output.old output.new error.old error.new result }
    ensures done { result ≡ 0 → HasReplayed R.remaining W.contents
        input.old input.new output.old output.new }
    ensures well { result ≡ 0 → error.new ≡ error.old }
    ensures told { result ≢ 0 → SaysOneOf IsReplayFault E.contents error.old error.new }
    ensures status { result ≤ 1 }
{
    match replay_all(alloc, input, output) {
        Ok(()) => 0,
        Err(fault) => tell_fault(error, ProgramFault::Replay(fault)),
    }
}

// Writes the line of a fault. Returns the exit status, 1.
fn tell_fault<E: Write>(error: &mut Watched<E>, fault: ProgramFault) -> u8
    ensures status { result ≡ 1 }
    ensures said { SaysOnError E.contents error.old error.new (fault_line fault) }
{
    let _ = write_fault(error, fault);
    1
}

// Writes the line of the fault, if there is one. Returns the exit status.
fn tell_end<E: Write>(error: &mut Watched<E>, end: Result<(), ProgramFault>) -> u8
    ensures exit { result ≡ exit_status end }
    ensures well { OnOk end (error.new ≡ error.old) }
    ensures told { IfErr end (λ why. SaysOnError E.contents error.old error.new (fault_line why)) }
{
    match end {
        Ok(()) => 0,
        Err(fault) => tell_fault(error, fault),
    }
}

// Writes a text to the stream where it belongs. Returns the exit status.
fn tell_text<W: Write, E: Write>(text: &Text, output: &mut Watched<W>, error: &mut Watched<E>) -> u8
    ensures done { result ≡ 0 → HasShown W.contents output.old output.new text.now }
    ensures well { result ≡ 0 → error.new ≡ error.old }
    ensures told { result ≡ 1 → SaysOneOf IsServingFault E.contents error.old error.new }
    ensures refused { result ≡ 2 → output.new ≡ output.old }
    ensures status { result ≤ 2 }
{
    match text {
        Text::Shown(shown) => {
            let end = send_text(output, shown.as_bytes());
            tell_end(error, end)
        }
        Text::Refusal(refusal) => {
            let _ = send_all(error, refusal.as_bytes());
            2
        }
    }
}

// Serves, and writes the line of the fault, if there is one. Returns the exit status.
fn run_serve<
    H: System + Files<File = File> + Net<Listener = TcpListener, Stream = TcpStream>,
    W: Write,
    E: Write,
>(rt: &H, serving: &Serving<'_>, output: &mut Watched<W>, error: &mut Watched<E>) -> u8
    ensures served { result ≡ 0 → HasServed W.contents output.old output.new }
    ensures well { result ≡ 0 → error.new ≡ error.old }
    ensures told { result ≢ 0 → SaysOneOf IsServerFault E.contents error.old error.new }
    ensures status { result ≤ 1 }
{
    let end = serve::<Brand, H, W>(rt, serving, Blank::new(), output);
    tell_end(error, end)
}

// Checks a site, and writes the line of the fault, if there is one. Returns the exit status.
fn run_check<H: Files + Net + AllocGlobal, W: Write, E: Write>(
    rt: &H,
    checking: &Checking<'_>,
    output: &mut Watched<W>,
    error: &mut Watched<E>,
) -> u8
    ensures sound { result ≡ 0 → FoundSound W.contents output.old output.new }
    ensures well { result ≡ 0 → error.new ≡ error.old }
    ensures told { result ≢ 0 → SaysOneOf IsAnyFault E.contents error.old error.new }
    ensures status { result ≤ 1 }
{
    let end = check_site(rt, rt.alloc(), checking, output);
    tell_end(error, end)
}

// Does what the arguments ask for. Returns the exit status.
fn run_asked<
    H: System + Files<File = File> + Net<Listener = TcpListener, Stream = TcpStream>,
    R: Read,
    W: Write,
    E: Write,
>(
    rt: &H,
    asked: &Asked<'_>,
    input: &mut Watched<R>,
    output: &mut Watched<W>,
    error: &mut Watched<E>,
) -> u8
    ensures done { result ≡ 0 → DidAsAsked R.remaining W.contents
        input.old input.new output.old output.new asked.now }
    ensures well { result ≡ 0 → Keeps (E.contents error.old.device) (E.contents error.new.device) }
    ensures told { result ≡ 1 → SaysOneOf (MayEndWith asked.now) E.contents error.old error.new }
    ensures refused { result ≡ 2 → (input.new ≡ input.old) × (output.new ≡ output.old) }
    ensures status { result ≤ 2 }
{
    match asked {
        Asked::Replay => run_replay(rt.alloc(), input, output, error),
        Asked::Serve(serving) => run_serve(rt, serving, output, error),
        Asked::Check(checking) => run_check(rt, checking, output, error),
        Asked::Told(text) => tell_text(text, output, error),
    }
}

/// Runs the program `hole` with the arguments `words`, without its own name. Returns the exit
/// status.
///
/// - `replay` replays the script in `input` and writes its output to `output`.
/// - `serve SETTINGS` serves the folder of the settings, crawls, and answers searches. It writes
///   the line `listening HOST PORT` to `output` once it listens, and the number of places in each
///   state at the end. Messages while it serves go to the error stream of `rt`, not to `error`.
/// - `check SETTINGS` writes a report on the settings and their folder to `output`.
/// - `--help` and `--version` write their text to `output`.
///
/// docs/SPECIFICATION.md describes the options.
///
/// # Exit status
///
/// - 0: the command succeeded, and `output` was flushed
/// - 1: it failed; the line of the fault was written to `error`, for example `hole: 33 port`
/// - 2: bad arguments; a text about them was written to `error`, and nothing else was read or
///   written
///
/// If `error` can't be written, the exit status is the same.
#[tactic(auto, using(crate::proofs::AskedLemmas::replay_did, crate::proofs::AskedLemmas::replay_says))]
pub fn run<
    H: System + Files<File = File> + Net<Listener = TcpListener, Stream = TcpStream>,
    R: Read,
    W: Write,
    E: Write,
>(
    rt: &H,
    words: &[String],
    input: &mut Watched<R>,
    output: &mut Watched<W>,
    error: &mut Watched<E>,
) -> u8
    ensures replays { OnTrue (asks_replay (map (λ word. string_bytes word) words.now))
        (ReplaysAndExits R.remaining W.contents E.contents
        input.old input.new output.old output.new error.old error.new result) }
    ensures done { result ≡ 0
        → DidWhatIsAsked R.remaining W.contents input.old input.new output.old output.new }
    ensures well { result ≡ 0 → Keeps (E.contents error.old.device) (E.contents error.new.device) }
    ensures told { result ≡ 1 → SaysWhyAsked E.contents error.old error.new }
    ensures refused { result ≡ 2 → (input.new ≡ input.old) × (output.new ≡ output.old) }
    ensures status { result ≤ 2 }
{
    if asks_replay(words) {
        return run_replay(rt.alloc(), input, output, error);
    }
    match read_arguments(rt.alloc(), words) {
        Ok(asked) => run_asked(rt, &asked, input, output, error),
        Err(_refused) => tell_fault(error, ProgramFault::NoMemory),
    }
}
