//! Lines of the log, gathered before they are written, and what a write leaves of them (`Batch`).

ghost use Rattle.std.specs.Prelude.{◌≡◌, length, not, IfOk, OnOk, OnErr};
ghost use Rattle.gopher_server.specs.Batch.{WritesFirst, is_empty, is_full, no_lines, with_dropped, with_request, with_told};

use crate::logging::request_line::{RequestLine, push_number, push_request};
use gopher_item::NoMemory;
use std::alloc::Global;
use std::io::{self, Write};
use std::marker::Model;
use std::mem::replace;

// A batch of this many bytes takes no further line.
const MAX_BYTES: usize = 65_536;

/// Lines of requests, and the number of requests that were dropped since the last of them. A line
/// is added only while there are fewer than 65,536 bytes (`MAX_BYTES`).
#[derive(Debug, Drop)]
pub struct Batch {
    written: Vec<u8>,
    line: Vec<u8>,
    dropped: u64,
}

impl Model for Batch {
    ghost use Rattle.gopher_server.specs.Batch.{BatchData};

    ghost Value = { BatchData };

    ghost view = { λ b. record { written = b.written.items; dropped = b.dropped } };
}

impl Batch {
    /// Makes a batch without lines.
    pub fn new(alloc: Global) -> Batch
        ensures { result ≡ no_lines }
    {
        Batch {
            written: Vec::new(alloc),
            line: Vec::new(alloc),
            dropped: 0,
        }
    }

    /// Returns whether it takes no further line, because it has 65,536 bytes (`MAX_BYTES`) or more.
    pub fn is_full(&self) -> bool
        ensures { result ≡ is_full self.now }
    {
        self.written.len() >= MAX_BYTES
    }

    /// Returns whether it has no line and no dropped request.
    pub fn is_empty(&self) -> bool
        ensures { result ≡ is_empty self.now }
    {
        self.written.is_empty() && self.dropped == 0
    }

    /// Returns the number of bytes of its lines.
    pub fn number_of_bytes(&self) -> usize
        ensures { result ≡ length self.now.written }
    {
        self.written.len()
    }

    /// Returns the number of requests that were dropped since the last of its lines.
    pub fn number_of_dropped(&self) -> u64
        ensures { result ≡ self.now.dropped }
    {
        self.dropped
    }

    /// Appends the line of a request, unless it is full. Returns whether it did.
    ///
    /// # Errors
    ///
    /// `NoMemory` (90).
    pub fn add(&mut self, request: &RequestLine<'_>) -> Result<bool, NoMemory>
        ensures added { OnOk result (self.new ≡ with_request self.old request.now) }
        ensures room { IfOk result (λ added. added ≡ not (is_full self.old)) }
        ensures refused { OnErr result (self.new ≡ self.old) }
    {
        if self.is_full() {
            return Ok(false);
        }
        self.line.clear();
        push_request(&mut self.line, request)?;
        self.written.extend_from_slice(&self.line)?;
        Ok(true)
    }

    /// Counts a request that was dropped.
    pub fn drop_one(&mut self)
        ensures { self.new ≡ with_dropped self.old }
    {
        self.dropped = self.dropped.saturating_add(1);
    }

    /// Appends a line with the number of dropped requests, if there are any, and sets the number to
    /// 0.
    ///
    /// # Errors
    ///
    /// `NoMemory` (90).
    pub fn tell_dropped(&mut self) -> Result<(), NoMemory>
        ensures told { OnOk result (self.new ≡ with_told self.old) }
        ensures refused { OnErr result (self.new ≡ self.old) }
    {
        if self.dropped == 0 {
            return Ok(());
        }
        self.line.clear();
        self.line.extend_from_slice(b"# dropped ")?;
        push_number(&mut self.line, self.dropped)?;
        self.line.push(b'\n')?;
        self.written.extend_from_slice(&self.line)?;
        self.dropped = 0;
        Ok(())
    }

    /// Writes its lines in one call of `writer`, and drops the bytes that this took. Returns their
    /// number.
    ///
    /// # Errors
    ///
    /// That of `writer`: nothing was written.
    pub fn write_to<W: Write>(&mut self, writer: &mut W) -> io::Result<usize>
        ensures { WritesFirst W.contents writer.old writer.new self.old self.new result }
    {
        let count = writer.write(&self.written)?;
        let left = self.written.len() - count;
        self.written.rotate_left(count);
        self.written.truncate(left);
        Ok(count)
    }

    /// Returns its lines and its number of dropped requests as a batch, and leaves it empty.
    pub fn take(&mut self, alloc: Global) -> Batch
        ensures taken { result ≡ self.old }
        ensures emptied { self.new ≡ no_lines }
    {
        replace(self, Batch::new(alloc))
    }
}
