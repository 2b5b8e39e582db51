//! The lines of a reply whose words count: `PageLines`.

ghost use Rattle.std.specs.Prelude.{◌≡◌, ◌<◌, true, length, IfSome};
ghost use Rattle.std.specs.Iterator.{YieldsFirstBy, item_count};
ghost use Rattle.gopher_item.specs.EntryParts.{entry_lent};
ghost use Rattle.gopher_text.specs.Text.{text_lines};
ghost use Rattle.gopher_page.specs.Page.{CutsPageLine, line_of_entry, menu_page_lines};

use gopher_item::{EntryParts, first_entry};
use gopher_text::first_text_line;
use std::marker::Model;

// The line of an entry: an item's display string or an odd line's bytes.
fn line_of_entry<'a>(entry: &EntryParts<'a>) -> &'a [u8]
    ensures { result.now ≡ line_of_entry (entry_lent entry.now) }
{
    match entry {
        EntryParts::Item(item) => item.display(),
        EntryParts::Odd(bytes) => bytes,
    }
}

// The first line of a menu's page, and the bytes after it.
fn first_menu_line(menu: &[u8]) -> Option<(&[u8], &[u8])>
    ensures line { CutsPageLine true menu.now result }
    ensures shorter { IfSome result (λ cut. length cut.1.now < length menu.now) }
{
    let Some((entry, rest)) = first_entry(menu) else {
        return None;
    };
    Some((line_of_entry(&entry), rest))
}

// The first line of the page of a menu or of a text, and the bytes after it.
fn first_page_line(is_menu: bool, bytes: &[u8]) -> Option<(&[u8], &[u8])>
    ensures line { CutsPageLine is_menu bytes.now result }
    ensures shorter { IfSome result (λ cut. length cut.1.now < length bytes.now) }
{
    if is_menu {
        first_menu_line(bytes)
    } else {
        first_text_line(bytes)
    }
}

/// An iterator over the lines of a reply whose words count. It allocates nothing.
///
/// A text has its decoded lines; a menu has one for each entry: an item's display string or an odd
/// line's bytes.
#[derive(Debug, Drop)]
pub struct PageLines<'a> {
    is_menu: bool,
    rest: &'a [u8],
}

impl<'a> Model for PageLines<'a> {
    ghost use Rattle.std.specs.Prelude.{ℕ, List};
    ghost use Rattle.gopher_page.specs.Page.{page_lines};

    ghost Value = { List (List ℕ) };

    ghost view = { λ l. page_lines l.is_menu l.rest.now };
}

impl<'a> PageLines<'a> {
    /// Starts before the first line of a menu.
    pub fn of_menu(menu: &'a [u8]) -> PageLines<'a>
        ensures { result ≡ menu_page_lines menu.now }
    {
        PageLines {
            is_menu: true,
            rest: menu,
        }
    }

    /// Starts before the first line of a text.
    pub fn of_text(text: &'a [u8]) -> PageLines<'a>
        ensures { result ≡ text_lines text.now }
    {
        PageLines {
            is_menu: false,
            rest: text,
        }
    }

    /// Copies the iterator, which starts before the same line.
    pub fn clone(&self) -> PageLines<'a>
        ensures { result ≡ self.now }
    {
        PageLines {
            is_menu: self.is_menu,
            rest: self.rest,
        }
    }

    /// Returns at least as many bytes as the lines have with a byte more for each.
    pub fn room(&self) -> usize {
        self.rest.len().saturating_add(1)
    }
}

impl<'a> Iterator for PageLines<'a> {
    type Item = &'a [u8];

    ghost next_gives = { YieldsFirstBy (λ line. line.now) (λ left. left) };

    ghost remaining = { item_count (λ left. left) };

    fn next(&mut self) -> Option<&'a [u8]> {
        let Some((line, rest)) = first_page_line(self.is_menu, self.rest) else {
            return None;
        };
        self.rest = rest;
        Some(line)
    }
}
