//! Reading one line of a menu: an item, or an odd line (`entry_of`).

ghost use Rattle.std.specs.Prelude.{◌≡◌, false, IfOk};
ghost use Rattle.std.specs.Arc.{arc_value};
ghost use Rattle.gopher_item.specs.Special.{has_special};
ghost use Rattle.gopher_bytes.specs.Lines.{has_feed};
ghost use Rattle.gopher_item.specs.Menu.{FindsFirstField, FindsFourFields, SplitsField, SplitsPlainField, entry_of, has_return_or_nul, item_of, item_of_fields};
ghost use Rattle.gopher_item.specs.MenuLine.{StandsAt, tabbed};

use crate::limits::MAX_PORT;
use crate::menu::Entry;
use crate::menu_line::MenuLine;
use gopher_bytes::{ByteString, NoMemory, read_number, split_once, trim_spaces};
use memchr::{memchr2, memchr3};
use std::alloc::Global;
use std::sync::Arc;

const TAB: u8 = b'\t';

fn has_return_or_nul(line: &[u8]) -> bool
    ensures { result ≡ has_return_or_nul line.now }
{
    memchr2(b'\r', 0, line).is_some()
}

// The bytes before the first TAB, or all bytes without a TAB, and the bytes after it.
pub(crate) fn field(bytes: &[u8]) -> (&[u8], Option<&[u8]>)
    ensures { SplitsField bytes.now result }
{
    match split_once(TAB, bytes) {
        Some((first, rest)) => (first, Some(rest)),
        None => (bytes, None),
    }
}

// The bytes before the first TAB, or all bytes without a TAB, and the bytes after it; `None` if a
// CR or a NUL comes before it.
fn plain_field(bytes: &[u8]) -> Option<(&[u8], Option<&[u8]>)>
    ensures { SplitsPlainField bytes.now result }
{
    let Some(end) = memchr3(TAB, b'\r', 0, bytes) else {
        return Some((bytes, None));
    };
    if bytes[end] == TAB {
        Some((&bytes[..end], Some(&bytes[end + 1..])))
    } else {
        None
    }
}

// The first four fields, if there are four and the line contains no CR and no NUL.
pub(crate) fn four_fields(line: &[u8]) -> Option<(&[u8], &[u8], &[u8], &[u8])>
    ensures { FindsFourFields line.now result }
{
    let (first, Some(rest)) = plain_field(line)? else {
        return None;
    };
    let (second, Some(rest)) = plain_field(rest)? else {
        return None;
    };
    let (third, Some(rest)) = plain_field(rest)? else {
        return None;
    };
    Some((first, second, third, last_field(rest)?))
}

// The first field, if the bytes contain no CR and no NUL.
fn last_field(bytes: &[u8]) -> Option<&[u8]>
    ensures { FindsFirstField bytes.now result }
{
    let (first, rest) = plain_field(bytes)?;
    match rest {
        Some(rest) if has_return_or_nul(rest) => None,
        _ => Some(first),
    }
}

// The item with these four fields, which contain no special byte. From `start` on the text contains
// the first three fields, with a TAB between them.
fn item_of_fields(
    alloc: Global,
    text: &Arc<ByteString>,
    start: usize,
    first: &[u8],
    selector: &[u8],
    host: &[u8],
    port: &[u8],
) -> Result<Option<MenuLine>, NoMemory>
    requires stands { StandsAt (arc_value text.now) start (tabbed first.now selector.now host.now) }
    requires first { has_special first.now ≡ false }
    requires selector { has_special selector.now ≡ false }
    requires host { has_special host.now ≡ false }
    ensures { IfOk result (λ item. item ≡ item_of_fields first.now selector.now host.now port.now) }
{
    let [kind, display @ ..] = first else {
        return Ok(None);
    };
    let Some(port) = read_number(MAX_PORT, trim_spaces(port)) else {
        return Ok(None);
    };
    let trimmed = trim_spaces(host);
    if trimmed.len() == host.len() {
        let line = MenuLine::in_text(text, start, *kind, display, selector, host, port as u16)?;
        Ok(Some(line))
    } else {
        let line = MenuLine::of_fields(alloc, *kind, display, selector, trimmed, port as u16)?;
        Ok(Some(line))
    }
}

// The item of a line of the text, if the line is one.
fn item_of(
    alloc: Global,
    text: &Arc<ByteString>,
    start: usize,
    line: &[u8],
) -> Result<Option<MenuLine>, NoMemory>
    requires stands { StandsAt (arc_value text.now) start line.now }
    requires one { has_feed line.now ≡ false }
    ensures { IfOk result (λ item. item ≡ item_of line.now) }
{
    let Some((first, selector, host, port)) = four_fields(line) else {
        return Ok(None);
    };
    item_of_fields(alloc, text, start, first, selector, host, port)
}

// The entry of a line that begins at `start` in the text.
pub(crate) fn entry_of(
    alloc: Global,
    text: &Arc<ByteString>,
    start: usize,
    line: &[u8],
) -> Result<Entry, NoMemory>
    requires stands { StandsAt (arc_value text.now) start line.now }
    requires one { has_feed line.now ≡ false }
    ensures { IfOk result (λ entry. entry ≡ entry_of line.now) }
{
    match item_of(alloc, text, start, line)? {
        Some(item) => Ok(Entry::Item(item)),
        None => Ok(Entry::Odd(ByteString::from_slice(alloc, field(line).0)?)),
    }
}
