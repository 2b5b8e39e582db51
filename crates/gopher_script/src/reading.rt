//! Reading the command of a line (`read_command`).

ghost use Rattle.std.specs.Prelude.{◌≡◌, IfOk};
ghost use Rattle.gopher_item.specs.Menu.{fields_of};
ghost use Rattle.gopher_script.specs.Command.{is_name, short_number, port_in, number_in, kind_in, why_in, rule_in, place_in, start_in, found_in, fail_in, search_in, occurs_in, alone, bytes_of, command_in, is_idle_line, command_of};

use crate::command::{Command, PlaceParts, QueryText, RuleParts, WordText};
use gopher_catalogue::Why;
use gopher_item::{MAX_LINE, NoMemory, read_number, split_once};
use std::alloc::Global;

fn short_number(width: usize, limit: u32, digits: &[u8]) -> Option<u32>
    ensures { result ≡ short_number width limit digits.now }
{
    if digits.len() <= width {
        read_number(limit, digits)
    } else {
        None
    }
}

fn port(digits: &[u8]) -> Option<u16>
    ensures { result ≡ port_in digits.now }
{
    let number = short_number(5, u32::from(u16::MAX), digits)?;
    u16::try_from(number).ok()
}

fn number(digits: &[u8]) -> Option<u32>
    ensures { result ≡ number_in digits.now }
{
    short_number(10, u32::MAX, digits)
}

fn kind(field: &[u8]) -> Option<u8>
    ensures { result ≡ kind_in field.now }
{
    match field {
        [kind] => Some(*kind),
        _ => None,
    }
}

fn why(field: &[u8]) -> Option<Why>
    ensures { result ≡ why_in field.now }
{
    match field {
        b"1" => Some(Why::Connect),
        b"2" => Some(Why::Read),
        b"3" => Some(Why::Write),
        b"4" => Some(Why::TooLong),
        b"5" => Some(Why::NoMemory),
        _ => None,
    }
}

fn rule_parts<'a>(fields: &[&'a [u8]]) -> Option<RuleParts<'a>>
    ensures { result ≡ rule_in (bytes_of fields.now) }
{
    let [host, digits, prefix] = fields else {
        return None;
    };
    let port = port(digits)?;
    Some(RuleParts { host, port, prefix })
}

fn place_parts<'a>(fields: &[&'a [u8]]) -> Option<PlaceParts<'a>>
    ensures { result ≡ place_in (bytes_of fields.now) }
{
    let [kind_field, host, digits, selector] = fields else {
        return None;
    };
    let kind = kind(kind_field)?;
    let port = port(digits)?;
    Some(PlaceParts {
        kind,
        host,
        port,
        selector,
    })
}

fn start<'a>(fields: &[&'a [u8]]) -> Option<Command<'a>>
    ensures { result ≡ start_in (bytes_of fields.now) }
{
    match fields {
        [places] => Some(Command::Start(number(places)?, 1)),
        [places, tries] => Some(Command::Start(number(places)?, number(tries)?)),
        _ => None,
    }
}

fn found<'a>(fields: &[&'a [u8]]) -> Option<Command<'a>>
    ensures { result ≡ found_in (bytes_of fields.now) }
{
    let [digits, place @ ..] = fields else {
        return None;
    };
    Some(Command::Found(number(digits)?, place_parts(place)?))
}

fn fail<'a>(fields: &[&'a [u8]]) -> Option<Command<'a>>
    ensures { result ≡ fail_in (bytes_of fields.now) }
{
    let [digits, reason] = fields else {
        return None;
    };
    Some(Command::Fail(number(digits)?, why(reason)?))
}

fn search<'a>(fields: &[&'a [u8]]) -> Option<Command<'a>>
    ensures { result ≡ search_in (bytes_of fields.now) }
{
    match fields {
        [bytes] if bytes.len() <= MAX_LINE => Some(Command::Search(QueryText { bytes })),
        _ => None,
    }
}

fn occurs<'a>(fields: &[&'a [u8]]) -> Option<Command<'a>>
    ensures { result ≡ occurs_in (bytes_of fields.now) }
{
    match fields {
        [bytes] => Some(Command::Occurs(WordText { bytes })),
        _ => None,
    }
}

fn alone<'a>(command: Command<'a>, fields: &[&'a [u8]]) -> Option<Command<'a>>
    ensures { result ≡ alone command.entry (bytes_of fields.now) }
{
    match fields {
        [] => Some(command),
        _ => None,
    }
}

fn is_name(field: &[u8], name: &[u8]) -> bool
    ensures { result ≡ is_name field.now name.now }
{
    field == name
}

fn command_in<'a>(fields: &[&'a [u8]]) -> Option<Command<'a>>
    ensures { result ≡ command_in (bytes_of fields.now) }
{
    let [name, fields @ ..] = fields else {
        return None;
    };
    if is_name(name, b"allow") {
        rule_parts(fields).map(Command::Allow)
    } else if is_name(name, b"deny") {
        rule_parts(fields).map(Command::Deny)
    } else if is_name(name, b"seed") {
        place_parts(fields).map(Command::Seed)
    } else if is_name(name, b"start") {
        start(fields)
    } else if is_name(name, b"claim") {
        alone(Command::Claim, fields)
    } else if is_name(name, b"found") {
        found(fields)
    } else if is_name(name, b"fail") {
        fail(fields)
    } else if is_name(name, b"search") {
        search(fields)
    } else if is_name(name, b"occurs") {
        occurs(fields)
    } else if is_name(name, b"status") {
        alone(Command::Status, fields)
    } else {
        None
    }
}

fn is_idle_line(line: &[u8]) -> bool
    ensures { result ≡ is_idle_line line.now }
{
    matches!(line, [] | [b'#', ..])
}

// The fields of a line, which TABs separate.
fn fields_of(alloc: Global, line: &[u8]) -> Result<Vec<&[u8]>, NoMemory>
    ensures { IfOk result (λ fields. bytes_of fields.items ≡ fields_of line.now) }
{
    let mut fields = Vec::new(alloc);
    let mut rest = line;
    while let Some((field, after)) = split_once(b'\t', rest) {
        fields.push(field)?;
        rest = after;
    }
    fields.push(rest)?;
    Ok(fields)
}

/// Returns the command of a line, or `None` if the line is bad.
pub fn read_command(alloc: Global, line: &[u8]) -> Result<Option<Command<'_>>, NoMemory>
    ensures { IfOk result (λ command. command ≡ command_of line.now) }
{
    if is_idle_line(line) {
        return Ok(Some(Command::Nothing));
    }
    let fields = fields_of(alloc, line)?;
    Ok(command_in(&fields))
}
