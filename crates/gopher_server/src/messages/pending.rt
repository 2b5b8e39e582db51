//! The messages that wait to be printed, as far as there is room for them.

ghost use Rattle.std.specs.Prelude.{◌≡◌, [], string_bytes, string_capacity, IfOk};
ghost use Rattle.gopher_text.specs.Watched.{CountsFailure};
ghost use Rattle.gopher_server.specs.Messages.{AppendsOrCounts, AddsMessage};

use gopher_item::NoMemory;
use std::alloc::Global;
use std::fmt::{Display, Write};
use std::mem;

/// The most bytes of messages that wait. A crawl names at most a thousand failed places.
pub(crate) const MAX_PENDING: usize = 262_144;

// Most messages are shorter than this. A longer one takes memory.
const BYTES_OF_A_MESSAGE: usize = 4_096;

/// The messages that wait, a line for each, and how many more had no room.
#[derive(Drop)]
pub(crate) struct PendingMessages {
    text: String,
    // The last message.
    line: String,
    dropped: u64,
}

/// Returns an empty text with room for all messages that may wait.
///
/// # Errors
///
/// `NoMemory` (90).
pub(crate) fn room(alloc: Global) -> Result<String, NoMemory>
    ensures empty { IfOk result (λ text. string_bytes text ≡ []) }
    ensures room { IfOk result (λ text. string_capacity text ≡ MAX_PENDING) }
{
    Ok(String::with_capacity(alloc, MAX_PENDING)?)
}

impl PendingMessages {
    /// No messages.
    ///
    /// # Errors
    ///
    /// `NoMemory` (90).
    pub(crate) fn new(alloc: Global) -> Result<PendingMessages, NoMemory>
        ensures text { IfOk result (λ made. string_bytes made.text ≡ []) }
        ensures room { IfOk result (λ made. string_capacity made.text ≡ MAX_PENDING) }
        ensures dropped { IfOk result (λ made. made.dropped ≡ 0) }
    {
        let line = String::with_capacity(alloc, BYTES_OF_A_MESSAGE)?;
        Ok(PendingMessages {
            text: room(alloc)?,
            line,
            dropped: 0,
        })
    }

    // Counts a message that had no room.
    fn drop_one(&mut self)
        ensures text { self.new.text ≡ self.old.text }
        ensures line { self.new.line ≡ self.old.line }
        ensures dropped { CountsFailure self.old.dropped self.new.dropped }
    {
        self.dropped = self.dropped.saturating_add(1);
    }

    // Adds the last message, or counts it if there is no room for it.
    fn add_line(&mut self)
        ensures { AppendsOrCounts (string_bytes self.old.line) self.old self.new }
    {
        let room = self.text.capacity() - self.text.len();
        if room < self.line.len() || self.text.push_str(self.line.as_str()).is_err() {
            self.drop_one();
        }
    }

    /// Adds the line of a message, or counts it if there is no room for it. A message of at most
    /// 4,095 bytes takes no memory, so it can say that there is none.
    pub(crate) fn add<D: Display + Drop>(&mut self, value: D)
        ensures { AddsMessage self.old self.new }
    {
        self.line.clear();
        if self.line.write(value).is_ok() && self.line.push('\n').is_ok() {
            self.add_line();
        } else {
            self.drop_one();
        }
    }

    /// Moves the messages that wait into `text`, whose room they leave. Returns how many had no
    /// room.
    pub(crate) fn take(&mut self, text: &mut String) -> u64
        ensures taken { text.new ≡ self.old.text }
        ensures left { self.new.text ≡ text.old }
        ensures count { result ≡ self.old.dropped }
        ensures dropped { self.new.dropped ≡ 0 }
    {
        mem::swap(&mut self.text, text);
        mem::replace(&mut self.dropped, 0)
    }
}
