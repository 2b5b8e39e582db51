//! Replaying scripts: running their statements, and sending the answers (`replay`).

ghost use Rattle.gopher_script.specs.Replay.{SendsAnswer, RunsStatement, RunsScript, Replays};

use crate::draft::Draft;
use crate::fault::ReplayFault;
use crate::script::{Script, Statement};
use crate::stage::{Performed, Stage, perform};
use gopher_text::{MAX_REPLY, Watched, read_reply, send};
use std::alloc::Global;
use std::io::{Read, Write};

/// Sends all bytes with `gopher_text::send`.
///
/// # Errors
///
/// `WriteFailed` (13): a write failed or took no bytes, or 4,096 writes were interrupted. A prefix
/// of the bytes was sent.
pub fn send_all<W: Write>(output: &mut Watched<W>, answer: &[u8]) -> Result<(), ReplayFault>
    ensures { SendsAnswer W.contents answer.now output.old output.new result }
{
    match send(output, answer) {
        Ok(()) => Ok(()),
        Err(_) => Err(ReplayFault::WriteFailed),
    }
}

/// Performs the command of a statement and sends its answer. Returns the next stage of the script.
fn run_statement<W: Write>(
    alloc: Global,
    stage: Stage,
    statement: Statement<'_>,
    output: &mut Watched<W>,
) -> Result<Stage, ReplayFault>
    ensures { RunsStatement W.contents stage statement.entry output.old output.new result }
{
    let Statement {
        number,
        command,
        reply,
    } = statement;
    let Some(command) = command else {
        return Err(ReplayFault::BadScript(number));
    };
    let Some(Performed { stage, answer }) = perform(alloc, stage, command, &reply)? else {
        return Err(ReplayFault::BadScript(number));
    };
    send_all(output, &answer)?;
    Ok(stage)
}

/// Runs all statements of a script.
fn run_script<W: Write>(
    alloc: Global,
    bytes: &[u8],
    output: &mut Watched<W>,
) -> Result<(), ReplayFault>
    ensures { RunsScript W.contents bytes.now output.old output.new result }
{
    let mut stage = Stage::Gathering(Draft::new(alloc));
    let mut script = Script::of(bytes);
    while let Some(statement) = script.next(alloc)? {
        match run_statement(alloc, stage, statement, output) {
            Ok(next) => stage = next,
            Err(fault) => return Err(fault),
        }
    }
    Ok(())
}

/// Replays the script that `input` contains, and writes the answers of its commands to `output`.
///
/// It reads the whole script first. It sends the answer of each command before it runs the next
/// one.
///
/// # Errors
///
/// - `ReadFailed` (10): a read failed for another reason than an interruption; nothing was written
/// - `TooManyTurns` (11): 2,097,152 reads, including interrupted ones, didn't reach the end;
///   nothing was written
/// - `ReplyTooLong` (12): the script has more than 1,048,576 bytes (`MAX_REPLY`); nothing was
///   written
/// - `WriteFailed` (13): a write of an answer failed; a prefix of the script's output was written
/// - `BadScript` (70): a line isn't a command, or not at this stage; exactly the answers of all
///   commands before it were written
/// - `NoMemory` (90): a prefix of the script's output was written
pub fn replay<R: Read, W: Write>(
    alloc: Global,
    input: &mut Watched<R>,
    output: &mut Watched<W>,
) -> Result<(), ReplayFault>
    ensures { Replays R.remaining W.contents input.old input.new output.old output.new result }
{
    match read_reply(alloc, input, MAX_REPLY) {
        Ok(script) => run_script(alloc, &script, output),
        Err(why) => Err(ReplayFault::from(why)),
    }
}
