//! `Menu`, `Entry`: reading a whole menu (`read_menu`).

ghost use Rattle.std.specs.Prelude.{◌≡◌, [], IfOk};
ghost use Rattle.std.specs.Arc.{arc_value};
ghost use Rattle.gopher_item.specs.Menu.{ReadsMenu};

use crate::item::entry_of;
use crate::menu_line::MenuLine;
use gopher_bytes::{ByteString, NoMemory, first_line, is_last_line};
use std::alloc::Global;
use std::sync::Arc;

// Most menu lines are at least this long: room for all entries is reserved at once.
const BYTES_OF_A_LINE: usize = 64;

/// A line of a menu that was read.
#[derive(Debug, Drop, PartialEq, Eq)]
pub enum Entry {
    /// A line with the form of an item.
    Item(MenuLine),
    /// Any other line that isn't empty: its bytes before its first TAB.
    Odd(ByteString),
}

/// A menu that was read.
#[derive(Debug, Drop, PartialEq, Eq)]
pub struct Menu {
    /// The items and the odd lines, in order.
    pub entries: Vec<Entry>,
    /// Whether a line with a single period ended the menu.
    pub ended: bool,
}

// Appends the entries of a menu to no entries. Returns whether a single period ends the menu.
fn push_entries(
    alloc: Global,
    text: &Arc<ByteString>,
    entries: &mut Vec<Entry>,
) -> Result<bool, NoMemory>
    requires { entries.old.items ≡ [] }
    ensures { IfOk result (λ ended. ReadsMenu (arc_value text.now) entries.new.items ended) }
{
    let bytes = text.as_slice();
    let mut rest = bytes;
    while let Some((line, after)) = first_line(rest) {
        if is_last_line(line) {
            return Ok(true);
        }
        if !line.is_empty() {
            let start = bytes.len() - rest.len();
            entries.push(entry_of(alloc, text, start, line)?)?;
        }
        rest = after;
    }
    Ok(false)
}

/// Reads a menu from any bytes (RFC 1436, section 2, and appendix: Menu).
///
/// The menu ends at the first line that is a single period; bytes after it are ignored. Empty lines
/// are skipped. A line is an item if it has at least four fields between TABs, its first field
/// isn't empty, it contains no CR and no NUL, and its fourth field, without the spaces at its ends,
/// is one or more digits of value at most 65535. Any other line is odd, which is this profile's.
pub fn read_menu(alloc: Global, bytes: &[u8]) -> Result<Menu, NoMemory>
    ensures { IfOk result (λ menu. ReadsMenu bytes.now menu.entries.items menu.ended) }
{
    let text = Arc::new(alloc, ByteString::from_slice(alloc, bytes)?)?;
    let mut entries = Vec::with_capacity(alloc, bytes.len() / BYTES_OF_A_LINE)?;
    let ended = push_entries(alloc, &text, &mut entries)?;
    Ok(Menu { entries, ended })
}
