//! The statements of a script.

ghost use Rattle.std.specs.Prelude.{◌≡◌, ◌+◌, ◌^◌, ◌<◌, true, length, IfOk, IfSome};
ghost use Rattle.gopher_bytes.specs.Lines.{lines_of};
ghost use Rattle.gopher_script.specs.Script.{block_of, block_reply, reply_after, takes_block, statements_in};
ghost use Rattle.gopher_script.specs.Reading.{TakesBlockLine, HasReply, LeavesStatements, HasFewLines, TakesStatement};

use crate::command::Command;
use crate::reading::read_command;
use gopher_item::{NoMemory, first_line};
use std::alloc::Global;
use std::marker::Model;

/// A line of a script outside blocks, with the reply of its own block.
#[derive(Debug, Drop)]
pub struct Statement<'a> {
    /// The number of the line, from 1.
    pub number: usize,
    /// The command of the line, or `None` if the line is bad.
    pub command: Option<Command<'a>>,
    /// The reply in the block after a `found`; empty for other commands.
    pub reply: Vec<u8>,
}

impl<'a> Model for Statement<'a> {
    ghost use Rattle.gopher_script.specs.Command.{StatementData};

    ghost Value = { StatementData };

    ghost view = { λ s. record { number = s.number; command = s.command; reply = s.reply.items } };
}

/// The statements of a script that haven't been read yet.
#[derive(Debug, Drop)]
pub struct Script<'a> {
    // The number of lines read.
    lines_read: usize,
    // The bytes after these lines. They don't begin inside a block.
    rest: &'a [u8],
}

impl<'a> Model for Script<'a> {
    ghost use Rattle.std.specs.Prelude.{◌+◌, ◌^◌, ◌<◌, List, length};
    ghost use Rattle.gopher_script.specs.Command.{StatementData};
    ghost use Rattle.gopher_script.specs.Script.{statements_after};

    ghost Value = { List StatementData };

    ghost view = { λ s. statements_after s.lines_read s.rest.now };

    ghost invariant = { λ s. s.lines_read + length s.rest.now < 2 ^ 64 };
}

/// The block at the start of bytes.
#[derive(Drop)]
struct Block<'a> {
    reply: Vec<u8>,
    // The number of lines read up to the end of the block.
    lines: usize,
    rest: &'a [u8],
}

/// Returns the text of the block line at the start of the bytes, and the bytes after that line.
fn block_line(bytes: &[u8]) -> Option<(&[u8], &[u8])>
    ensures line { TakesBlockLine (lines_of bytes.now) result }
    ensures shorter { IfSome result (λ parts. length parts.1.now < length bytes.now) }
{
    let (line, rest) = first_line(bytes)?;
    match line {
        [b'|', text @ ..] => Some((text, rest)),
        _ => None,
    }
}

/// Reads the block at the start of the bytes, which follow the first `before` lines.
fn take_block<'a>(alloc: Global, before: usize, bytes: &'a [u8]) -> Result<Block<'a>, NoMemory>
    requires { before + length bytes.now < 2 ^ 64 }
    ensures reply { IfOk result (HasReply (block_reply (block_of (lines_of bytes.now)))) }
    ensures rest { IfOk result (LeavesStatements before true bytes.now) }
    ensures size { IfOk result (HasFewLines before bytes.now) }
{
    let mut reply = Vec::new(alloc);
    let mut lines = before;
    let mut rest = bytes;
    while let Some((text, after)) = block_line(rest) {
        reply.extend_from_slice(text)?;
        reply.extend_from_slice(b"\r\n")?;
        lines += 1;
        rest = after;
    }
    Ok(Block { reply, lines, rest })
}

/// Reads the block at the start of the bytes if the command takes one.
fn block_after<'a>(
    alloc: Global,
    command: &Option<Command<'_>>,
    before: usize,
    bytes: &'a [u8],
) -> Result<Block<'a>, NoMemory>
    requires { before + length bytes.now < 2 ^ 64 }
    ensures reply { IfOk result (HasReply (reply_after command.now (lines_of bytes.now))) }
    ensures rest { IfOk result (LeavesStatements before (takes_block command.now) bytes.now) }
    ensures size { IfOk result (HasFewLines before bytes.now) }
{
    if let Some(Command::Found(..)) = command {
        return take_block(alloc, before, bytes);
    }
    Ok(Block {
        reply: Vec::new(alloc),
        lines: before,
        rest: bytes,
    })
}

impl<'a> Script<'a> {
    /// Starts before the first statement of a script.
    pub fn of(bytes: &'a [u8]) -> Self
        ensures { result ≡ statements_in bytes.now }
    {
        Script {
            lines_read: 0,
            rest: bytes,
        }
    }

    /// Returns the next statement, or `None` after the last one.
    pub fn next(&mut self, alloc: Global) -> Result<Option<Statement<'a>>, NoMemory>
        ensures { IfOk result (TakesStatement self.old self.new) }
    {
        let Some((line, rest)) = first_line(self.rest) else {
            return Ok(None);
        };
        let number = self.lines_read + 1;
        let command = read_command(alloc, line)?;
        let block = block_after(alloc, &command, number, rest)?;
        self.lines_read = block.lines;
        self.rest = block.rest;
        Ok(Some(Statement {
            number,
            command,
            reply: block.reply,
        }))
    }
}
