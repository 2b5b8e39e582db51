//! A conversation with one client, as a value without streams (`Conversation`).

ghost use Rattle.std.specs.Prelude.{◌≡◌, ◌<◌, ◌≤◌, ◌+◌, ◌^◌, ◌⊎◌, ℕ, [], length, false, true, IfSome};
ghost use Rattle.std.specs.Option.{option_map};
ghost use Rattle.std.specs.Io.BufRead.{first_line, strip_last};
ghost use Rattle.gopher_text.specs.Line.{has_feed};
ghost use Rattle.gopher_serve.specs.Answer.{Nears};
ghost use Rattle.gopher_serve.specs.Talk.{Gathers, Hears, IsAnswered, OnlySearches, asked_of, heard, is_known, known_line, put_back, reply_in, said, sendable_of, sent_of, steps_of, talk_in, unsent_of};
ghost use Rattle.gopher_serve.specs.Advance.{Upholds};
ghost use Rattle.gopher_serve.specs.declared.advancing.Progress.TheVariants.{Failed, Works};
ghost use Rattle.gopher_serve.specs.declared.fault.ServeFault.TheVariants.{NoMemory};

use crate::advancing::Progress;
use crate::answer::Answer;
use crate::fault::ServeFault;
use gopher_item::MAX_LINE;
use memchr::memchr;
use std::alloc::Global;
use std::marker::Model;

// The most bytes of a line with its end, CR LF.
const MAX_WITH_END: usize = MAX_LINE + 2;

/// The state of a conversation.
#[derive(Debug, Drop)]
pub(crate) enum Phase<'a> {
    /// The line isn't at its end: more is read.
    Gathering,
    /// The reply to its line isn't asked for yet.
    Asked,
    /// The line is too long.
    TooLong,
    /// Out of memory for the line.
    LacksMemory,
    /// The rest of the reply is sent, or the search that makes it takes a step.
    Answering(Answer<'a>),
}

/// A conversation with one client. It takes bytes in pieces of any size, finds the end of the line,
/// holds the reply or the search that makes it, and counts the bytes that were sent.
///
/// Whatever the sizes of the pieces, what goes out is a prefix of the reply to the first line.
#[derive(Debug, Drop)]
pub struct Conversation<'a> {
    gathered: Vec<u8>,
    pub(crate) phase: Phase<'a>,
    sent: usize,
}

impl<'a> Model for Conversation<'a> {
    ghost use Rattle.std.specs.Prelude.{◌≤◌, length};
    ghost use Rattle.gopher_serve.specs.Talk.{Talk, reply_in, talk_in};

    ghost Value = { Talk };

    ghost view = { λ c. talk_in c.gathered.items c.phase c.sent };

    ghost invariant = { λ c. c.sent ≤ length (reply_in c.phase) };
}

// Whether an LF is among the bytes.
fn has_feed(bytes: &[u8]) -> bool
    ensures { result ≡ has_feed bytes.now }
{
    memchr(b'\n', bytes).is_some()
}

// Whether the first line of the bytes is at its end, or too long.
fn is_known(bytes: &[u8]) -> bool
    ensures { result ≡ is_known false bytes.now }
{
    has_feed(bytes) || bytes.len() >= MAX_WITH_END
}

// The first line of the bytes, without its end.
fn first_line(bytes: &[u8]) -> &[u8]
    ensures { result.now ≡ first_line bytes.now }
{
    match memchr(b'\n', bytes) {
        Some(end) => without_return(&bytes[..end]),
        None => bytes,
    }
}

// The bytes without the CR at their end, if they have one.
fn without_return(bytes: &[u8]) -> &[u8]
    ensures { result.now ≡ strip_last 13 bytes.now }
{
    match bytes {
        [front @ .., b'\r'] => front,
        _ => bytes,
    }
}

// The state of a conversation whose line is at its end, or too long.
fn phase_of<'a>(gathered: &[u8]) -> Phase<'a>
    ensures talk { (n : ℕ) → talk_in gathered.now result n ≡ known_line (first_line gathered.now) }
    ensures silent { reply_in result ≡ [] }
{
    if first_line(gathered).len() > MAX_LINE {
        Phase::TooLong
    } else {
        Phase::Asked
    }
}

impl<'a> Conversation<'a> {
    /// Makes a conversation that has read nothing yet.
    pub fn new(alloc: Global) -> Conversation<'a>
        ensures { result ≡ Gathers [] }
    {
        Conversation {
            gathered: Vec::new(alloc),
            phase: Phase::Gathering,
            sent: 0,
        }
    }

    /// Returns the line that the client sent, without its end. `None` until it is at its end, and
    /// if it is too long.
    pub fn asked_line(&self) -> Option<&[u8]>
        ensures { option_map (λ line. line.now) result ≡ asked_of self.now }
    {
        match &self.phase {
            Phase::Asked | Phase::Answering(_) => Some(first_line(&self.gathered)),
            _ => None,
        }
    }

    /// Returns the number of bytes of its reply that were sent, 0 if there is no reply yet.
    pub fn sent_len(&self) -> usize
        ensures { result ≡ sent_of self.now }
    {
        match &self.phase {
            Phase::Answering(_) => self.sent,
            _ => 0,
        }
    }

    // Adds a piece, if the line isn't at its end yet.
    pub(crate) fn hear(&mut self, piece: &[u8])
        ensures { Hears self.old piece.now self.new }
    {
        let Phase::Gathering = self.phase else {
            return;
        };
        let room = MAX_WITH_END.saturating_sub(self.gathered.len());
        let front = &piece[..piece.len().min(room)];
        if self.gathered.extend_from_slice(front).is_err() {
            self.phase = Phase::LacksMemory;
            return;
        }
        if is_known(&self.gathered) {
            self.phase = phase_of(&self.gathered);
        }
    }

    // Records that the input is at its end.
    pub(crate) fn hear_end(&mut self)
        ensures { self.new ≡ heard true self.old [] }
    {
        let Phase::Gathering = self.phase else {
            return;
        };
        self.phase = phase_of(&self.gathered);
    }

    // The line that is asked, without its end.
    pub(crate) fn line(&self) -> &[u8]
        ensures { IfSome (asked_of self.now) (λ line. result.now ≡ line) }
    {
        first_line(&self.gathered)
    }

    // Takes the answer to its line.
    pub(crate) fn respond(&mut self, answer: Answer<'a>)
        ensures { IsAnswered self.old self.new answer.entry }
    {
        self.phase = Phase::Answering(answer);
        self.sent = 0;
    }

    // Takes the next step of the search that makes its reply, if there is one. Then the reply is
    // there, or fewer steps are left. If it fails, as many are left as before.
    pub(crate) fn search(&mut self, alloc: Global) -> Progress
        ensures same { OnlySearches self.old self.new }
        ensures nears { result ≡ Works → Nears (steps_of self.old) (steps_of self.new) }
        ensures refused { result ≡ Failed NoMemory → steps_of self.new ≡ steps_of self.old }
        ensures ends { (result ≡ Works) ⊎ (result ≡ Failed NoMemory) }
    {
        let Phase::Answering(answer) = &mut self.phase else {
            return Progress::Works;
        };
        match answer.step(alloc) {
            Ok(()) => Progress::Works,
            Err(_refused) => Progress::Failed(ServeFault::NoMemory),
        }
    }

    /// Drops the search that makes its reply, unless some of the reply was sent. Its line stays,
    /// and `advance` asks for the reply again. So a conversation whose turn to search hasn't come
    /// holds only its line.
    #[tactic(auto, using(crate::proofs::PutBack::upholds))]
    pub fn put_back(&mut self)
        ensures state { self.new ≡ put_back self.old }
        ensures upholds { Upholds self.old self.new }
    {
        let Phase::Answering(Answer::Searching(_search)) = &self.phase else {
            return;
        };
        if self.sent == 0 {
            self.phase = Phase::Asked;
        }
    }

    // The rest of its reply; `None` until the search that makes it is at its end.
    pub(crate) fn unsent(&self) -> Option<&[u8]>
        ensures bytes { option_map (λ bytes. bytes.now) result ≡ sendable_of self.now }
        ensures few { IfSome result (λ bytes. sent_of self.now + length bytes.now < 2 ^ 64) }
    {
        match &self.phase {
            Phase::Answering(answer) => {
                let bytes = answer.as_slice()?;
                Some(&bytes[self.sent.min(bytes.len())..])
            }
            _ => Some(&[]),
        }
    }

    // Records that `count` more bytes were sent.
    pub(crate) fn say(&mut self, count: usize)
        requires fits { count ≤ length (unsent_of self.old) }
        requires few { sent_of self.old + count < 2 ^ 64 }
        ensures { self.new ≡ said self.old count }
    {
        self.sent += count;
    }
}
