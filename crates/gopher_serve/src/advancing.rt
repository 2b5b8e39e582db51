//! One step of a conversation (`advance`), with at most one call of a stream.

ghost use Rattle.std.specs.Prelude.{◌≡◌, ◌<◌, ◌≤◌, ◌+◌, ◌^◌, length, IfOk, OnErr};
ghost use Rattle.gopher_serve.specs.Advance.{AsksOnce, HearsOnce, HearsOutcome, IsAsked, IsProgressAfter, Listens, Records, Says, SaysOnce, progress_after};
ghost use Rattle.gopher_item.specs.Leads.{Leads};
ghost use Rattle.gopher_serve.specs.Talk.{sent_of, unsent_of};
ghost use Rattle.gopher_serve.specs.declared.fault.ServeFault.TheVariants.{ReadFailed, WriteFailed};

use crate::answer::Answers;
use crate::conversation::{Conversation, Phase};
use crate::fault::ServeFault;
use gopher_text::Watched;
use std::alloc::Global;
use std::io::{self, ErrorKind, Read, Write};

/// The state of a conversation after a step.
#[derive(Clone, Copy, Debug, PartialEq, Eq)]
pub enum Progress {
    /// The whole reply was written.
    Done,
    /// It can go on at once.
    Paused,
    /// A search makes its reply. It can go on at once, but others should be served first.
    Works,
    /// A call of a stream would have blocked. It can go on when the stream is ready.
    Waits,
    /// It failed.
    Failed(ServeFault),
}

/// Takes the next step of a conversation. It makes at most one call of a stream:
///
/// - Until the line is at its end, it reads once from `reader` into `buffer`, which isn't empty.
/// - Then it asks for the reply. If a search makes the reply, the progress is `Works`.
/// - It takes one step of that search, after which fewer steps are left. The progress is `Works`.
/// - Once the reply is there, it writes once.
///
/// If a call of a stream fails with `ErrorKind::WouldBlock`, the progress is `Waits`. If it is
/// interrupted, the progress is `Paused`.
///
/// # Errors
///
/// `Progress::Failed` with
///
/// - `LineTooLong` (7): nothing was asked, and nothing is ever written
/// - `ReadFailed` (10): a read failed otherwise
/// - `WriteFailed` (13): a write failed otherwise, or took nothing
/// - `NoMemory` (90): out of memory
#[tactic(auto, using(crate::proofs::LeadsLemmas::leads_one, crate::proofs::LeadsLemmas::leads_stays))]
pub fn advance<'a, A: Answers<'a>, R: Read, W: Write>(
    alloc: Global,
    talk: &mut Conversation<'a>,
    answers: &mut A,
    reader: &mut Watched<R>,
    writer: &mut Watched<W>,
    buffer: &mut [u8],
) -> Progress
    requires { 0 < length buffer.old }
    ensures hears { HearsOnce R.remaining talk.old talk.new reader.old reader.new result }
    ensures asks { AsksOnce A.gives talk.old talk.new answers.old answers.new result }
    ensures says { SaysOnce W.contents talk.old talk.new writer.old writer.new result }
    ensures leads { Leads A.leads_to answers.old answers.new }
{
    match &talk.phase {
        Phase::Gathering => listen(talk, reader, buffer),
        Phase::Asked => ask(alloc, talk, answers),
        Phase::TooLong => Progress::Failed(ServeFault::LineTooLong),
        Phase::LacksMemory => Progress::Failed(ServeFault::NoMemory),
        Phase::Answering(_) => say(alloc, talk, writer),
    }
}

// Reads once.
fn listen<R: Read>(
    talk: &mut Conversation<'_>,
    reader: &mut Watched<R>,
    buffer: &mut [u8],
) -> Progress
    requires { 0 < length buffer.old }
    ensures { Listens R.remaining talk.old talk.new reader.old reader.new result }
{
    let outcome = reader.read(buffer);
    take_in(talk, buffer, outcome)
}

// Takes in the outcome of a read into `buffer`: its first bytes, the end of the input, or an error.
fn take_in(
    conversation: &mut Conversation<'_>,
    buffer: &[u8],
    outcome: io::Result<usize>,
) -> Progress
    requires { IfOk outcome (λ count. count ≤ length buffer.now) }
    ensures heard { HearsOutcome conversation.old conversation.new buffer.now outcome result }
    ensures allowed { OnErr outcome (IsProgressAfter ReadFailed result) }
{
    match outcome {
        Ok(0) => {
            conversation.hear_end();
            Progress::Paused
        }
        Ok(count) => {
            conversation.hear(&buffer[..count]);
            Progress::Paused
        }
        Err(error) => progress_after(error.kind(), ServeFault::ReadFailed),
    }
}

// Asks for the reply to the line.
fn ask<'a, A: Answers<'a>>(
    alloc: Global,
    conversation: &mut Conversation<'a>,
    answers: &mut A,
) -> Progress
    ensures ask { IsAsked A.gives conversation.old conversation.new answers.old answers.new result }
    ensures leads { A.leads_to answers.old answers.new }
{
    match answers.answer(alloc, conversation.line()) {
        Ok(answer) => {
            let is_ready = answer.as_slice().is_some();
            conversation.respond(answer);
            if is_ready {
                Progress::Paused
            } else {
                Progress::Works
            }
        }
        Err(_refused) => Progress::Failed(ServeFault::NoMemory),
    }
}

// Writes once, if the reply is there.
fn say<W: Write>(alloc: Global, talk: &mut Conversation<'_>, writer: &mut Watched<W>) -> Progress
    ensures { Says W.contents talk.old talk.new writer.old writer.new result }
{
    let Some(unsent) = talk.unsent() else {
        return talk.search(alloc);
    };
    if unsent.is_empty() {
        return Progress::Done;
    }
    let outcome = writer.write(unsent);
    record(talk, outcome)
}

// Records the outcome of a write of the rest of the reply.
fn record(conversation: &mut Conversation<'_>, outcome: io::Result<usize>) -> Progress
    requires fits { IfOk outcome (λ count. count ≤ length (unsent_of conversation.old)) }
    requires few { IfOk outcome (λ count. sent_of conversation.old + count < 2 ^ 64) }
    ensures recorded { Records conversation.old conversation.new outcome result }
    ensures allowed { OnErr outcome (IsProgressAfter WriteFailed result) }
{
    match outcome {
        Ok(0) => Progress::Failed(ServeFault::WriteFailed),
        Ok(count) => {
            conversation.say(count);
            match conversation.unsent() {
                Some([]) => Progress::Done,
                _ => Progress::Paused,
            }
        }
        Err(error) => progress_after(error.kind(), ServeFault::WriteFailed),
    }
}

// The progress after a call that failed.
fn progress_after(kind: ErrorKind, fault: ServeFault) -> Progress
    ensures progress { result ≡ progress_after kind fault }
    ensures allowed { IsProgressAfter fault result }
{
    match kind {
        ErrorKind::Interrupted => Progress::Paused,
        ErrorKind::WouldBlock => Progress::Waits,
        _ => Progress::Failed(fault),
    }
}
