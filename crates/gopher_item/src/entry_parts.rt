//! `EntryParts`: reading a menu one entry at a time (`first_entry`).

ghost use Rattle.std.specs.Prelude.{◌≡◌, ◌<◌, false, length, IfSome};
ghost use Rattle.gopher_bytes.specs.Lines.{has_feed};
ghost use Rattle.gopher_item.specs.Special.{has_special};
ghost use Rattle.gopher_item.specs.Menu.{entry_of, item_of, item_of_fields};
ghost use Rattle.gopher_item.specs.EntryParts.{FindsFirstEntry, entry_lent};

use crate::item::{field, four_fields};
use crate::limits::MAX_PORT;
use crate::menu_line_parts::MenuLineParts;
use gopher_bytes::{first_line, is_last_line, read_number, trim_spaces};

/// A line of a menu that was read, which lends its bytes.
#[derive(Debug, Drop)]
pub enum EntryParts<'a> {
    /// A line with the form of an item.
    Item(MenuLineParts<'a>),
    /// Any other line that isn't empty: its bytes before its first TAB.
    Odd(&'a [u8]),
}

// The item with these four fields, which contain no special byte.
fn item_of_fields<'a>(
    first: &'a [u8],
    selector: &'a [u8],
    host: &'a [u8],
    port: &'a [u8],
) -> Option<MenuLineParts<'a>>
    requires first { has_special first.now ≡ false }
    requires selector { has_special selector.now ≡ false }
    requires host { has_special host.now ≡ false }
    ensures { result ≡ item_of_fields first.now selector.now host.now port.now }
{
    let [kind, display @ ..] = first else {
        return None;
    };
    let Some(port) = read_number(MAX_PORT, trim_spaces(port)) else {
        return None;
    };
    let (host, port) = (trim_spaces(host), port as u16);
    Some(MenuLineParts::of_fields(*kind, display, selector, host, port))
}

// The item of a line, if the line is one.
fn item_of(line: &[u8]) -> Option<MenuLineParts<'_>>
    requires { has_feed line.now ≡ false }
    ensures { result ≡ item_of line.now }
{
    let Some((first, selector, host, port)) = four_fields(line) else {
        return None;
    };
    item_of_fields(first, selector, host, port)
}

// The entry of a line.
fn entry_of(line: &[u8]) -> EntryParts<'_>
    requires { has_feed line.now ≡ false }
    ensures { entry_lent result ≡ entry_of line.now }
{
    match item_of(line) {
        Some(item) => EntryParts::Item(item),
        None => EntryParts::Odd(field(line).0),
    }
}

/// Returns the first entry of a menu and the bytes after its line; `None` if the menu has no
/// entries.
///
/// The entries are those of `read_menu`: the menu ends at the first line that is a single period,
/// and empty lines are skipped.
pub fn first_entry(menu: &[u8]) -> Option<(EntryParts<'_>, &[u8])>
    ensures entry { FindsFirstEntry menu.now result }
    ensures shorter { IfSome result (λ found. length found.1.now < length menu.now) }
{
    let mut rest = menu;
    while let Some((line, after)) = first_line(rest) {
        if is_last_line(line) {
            return None;
        }
        if !line.is_empty() {
            return Some((entry_of(line), after));
        }
        rest = after;
    }
    None
}
