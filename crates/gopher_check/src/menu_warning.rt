//! Mistakes in menu files: lines that were meant as links, wrong types, files without a link.

ghost use Rattle.std.specs.Prelude.{◌≡◌, [], map, IfOk};
ghost use Rattle.std.specs.Io.BufRead.{drop_through};
ghost use Rattle.gopher_tree.specs.Found.{lent_file};
ghost use Rattle.gopher_tree.specs.MenuFile.{written_line, line_data};
ghost use Rattle.gopher_tree.specs.Reply.{NamedFile, NamedFolder};
ghost use Rattle.gopher_scope.specs.Lines.{Puts};
ghost use Rattle.gopher_check.specs.MenuWarning.{has_part, begins_link, ends_selector, has_blanks, lacks_tab, is_raw_kind, is_text_kind, misreads, type_mistake, own_mistake, has_own_type, typed_mistake, plain_mistake, line_mistake, numbered_mistakes, leads, has_link, file_mistakes, menu_mistakes, warned_in, all_menu_mistakes};

use gopher_item::{Home, NoMemory, first_line, split_once};
use gopher_scope::{is_asked, is_own};
use gopher_tree::{Node, Tree, WrittenLine, written_line};
use memchr::memmem;
use std::alloc::Global;
use std::marker::Model;

// The selector of the search.
const SEARCH: &[u8] = b"/search";

const ORDER_MARK: &[u8] = b"\xEF\xBB\xBF";

/// What is wrong with a line of a menu file, or with the whole file.
#[derive(Clone, Copy, Debug, PartialEq, Eq)]
pub enum MenuMistake {
    /// No line of the file leads anywhere.
    NoLink,
    /// The file begins with a byte order mark, which becomes part of its first line.
    ByteOrderMark,
    /// The line has blanks where a link has a TAB, so clients show it as a text.
    BlanksForTab,
    /// Clients misread what the line leads to; with the type that the line should have.
    WrongType(u8),
    /// The line offers a search, but leads to a file or folder.
    NotSearch,
}

/// A mistake in a menu file of a site.
#[derive(Debug, Drop)]
pub struct MenuWarning<'a> {
    /// The path of the menu file.
    pub path: &'a [u8],
    /// The number of the line, from 1; 0 if the mistake is one of the whole file.
    pub line: usize,
    /// The selector of a line whose type is wrong; otherwise empty.
    pub selector: &'a [u8],
    /// What is wrong.
    pub mistake: MenuMistake,
}

impl<'a> Model for MenuWarning<'a> {
    ghost use Rattle.gopher_check.specs.MenuWarning.{MenuWarningData};

    ghost Value = { MenuWarningData };

    ghost view = { λ w. record {
      path = w.path.now;
      line = w.line;
      selector = w.selector.now;
      mistake = w.mistake;
    } };
}

impl<'a> MenuWarning<'a> {
    // A mistake that isn't a line's type.
    fn plain(path: &'a [u8], line: usize, mistake: MenuMistake) -> MenuWarning<'a>
        ensures { result ≡ plain_mistake path.now line mistake }
    {
        MenuWarning {
            path,
            line,
            selector: &[],
            mistake,
        }
    }
}

// Whether the bytes contain these bytes, one after another.
fn has_part(part: &[u8], bytes: &[u8]) -> bool
    ensures { result ≡ has_part part.now bytes.now }
{
    memmem::find(bytes, part).is_some()
}

// Whether a link can begin with this byte.
fn begins_link(byte: u8) -> bool
    ensures { result ≡ begins_link byte }
{
    matches!(
        byte,
        b'0'..=b'9' | b'g' | b'I' | b'h' | b's' | b'd' | b'p' | b';'
    )
}

// The bytes behind the first slash; none without one.
fn after_slash(bytes: &[u8]) -> &[u8]
    ensures { result.now ≡ drop_through 47 bytes.now }
{
    match split_once(b'/', bytes) {
        Some((_before, after)) => after,
        None => &[],
    }
}

// Whether these bytes, behind a slash, can end a selector: they are neither a drawing nor prose.
fn ends_selector(bytes: &[u8]) -> bool
    ensures { result ≡ ends_selector bytes.now }
{
    match bytes {
        [] | [b'/' | b'\\', ..] => false,
        _ => !bytes.contains(&b' '),
    }
}

// Whether two blanks are before a selector, which the bytes end with, or before an address.
fn has_blanks(bytes: &[u8]) -> bool
    ensures { result ≡ has_blanks bytes.now }
{
    (has_part(b"  /", bytes) && ends_selector(after_slash(bytes))) || has_part(b"  URL:", bytes)
}

// Whether the line was meant as a link, and has blanks in place of the TAB.
fn lacks_tab(line: &[u8]) -> bool
    ensures { result ≡ lacks_tab line.now }
{
    match line {
        [] => false,
        [byte, rest @ ..] => begins_link(*byte) && has_blanks(rest) && !line.contains(&b'\t'),
    }
}

// Whether clients read items of this type as bytes that they keep or play.
fn is_raw_kind(kind: u8) -> bool
    ensures { result ≡ is_raw_kind kind }
{
    matches!(kind, b'5' | b'g' | b'I' | b'p' | b':' | b's' | b'<' | b';')
}

// Whether clients read items of this type as text.
fn is_text_kind(kind: u8) -> bool
    ensures { result ≡ is_text_kind kind }
{
    matches!(kind, b'0' | b'4' | b'6' | b'h')
}

// Whether a client that asks for the first type misreads a file of the second.
fn misreads(kind: u8, of_file: u8) -> bool
    ensures { result ≡ misreads kind of_file }
{
    match (kind, of_file) {
        (b'1', _) => true,
        (_, b'0') => is_raw_kind(kind),
        _ => is_text_kind(kind),
    }
}

// The mistake in a line of this type that leads to a folder.
fn folder_mistake(kind: u8) -> Option<MenuMistake>
    ensures { result ≡ type_mistake kind (NamedFolder []) }
{
    match kind {
        b'1' => None,
        b'7' => Some(MenuMistake::NotSearch),
        _ => Some(MenuMistake::WrongType(b'1')),
    }
}

// The mistake in a line of this type that leads to a file of another type.
fn file_mistake(kind: u8, of_file: u8) -> Option<MenuMistake>
    ensures { result ≡ type_mistake kind (NamedFile of_file []) }
{
    if kind == b'7' {
        return Some(MenuMistake::NotSearch);
    }
    misreads(kind, of_file).then_some(MenuMistake::WrongType(of_file))
}

// The mistake in a line with this type and selector that is of this server.
fn own_mistake(tree: &Tree, kind: u8, selector: &[u8]) -> Option<MenuMistake>
    ensures { result ≡ own_mistake tree.now kind selector.now }
{
    if selector == SEARCH {
        return (kind != b'7').then_some(MenuMistake::WrongType(b'7'));
    }
    match tree.find(selector)? {
        Node::Folder => folder_mistake(kind),
        Node::File(of_file, _) => file_mistake(kind, of_file),
    }
}

// Whether a client uses the line's type for what it gets from this server.
fn has_own_type(home: &Home, line: &WrittenLine<'_>) -> bool
    ensures { result ≡ has_own_type home.now (line_data line.now) }
{
    is_asked(line.kind) && line.kind != b'+' && is_own(home, line.server)
}

// The mistake in the type of a line, if it has one.
fn typed_mistake(tree: &Tree, home: &Home, line: &WrittenLine<'_>) -> Option<MenuMistake>
    ensures { result ≡ typed_mistake tree.now home.now (line_data line.now) }
{
    if !has_own_type(home, line) {
        return None;
    }
    own_mistake(tree, line.kind, line.selector)
}

// The mistake in the line with this number of the menu file at a path, if it has one.
fn line_mistake<'a>(
    tree: &Tree,
    home: &Home,
    path: &'a [u8],
    number: usize,
    line: &'a [u8],
) -> Option<MenuWarning<'a>>
    ensures { result ≡ line_mistake tree.now home.now path.now number line.now }
{
    if lacks_tab(line) {
        return Some(MenuWarning::plain(path, number, MenuMistake::BlanksForTab));
    }
    let line = written_line(line)?;
    let mistake = typed_mistake(tree, home, &line)?;
    Some(MenuWarning {
        path,
        line: number,
        selector: line.selector,
        mistake,
    })
}

// Whether a line leads somewhere: it is neither a text nor an error.
fn leads(line: &[u8]) -> bool
    ensures { result ≡ leads (written_line line.now) }
{
    match written_line(line) {
        None => false,
        Some(line) => !matches!(line.kind, b'i' | b'3'),
    }
}

// Whether a line of a menu file leads somewhere.
fn has_link(menu: &[u8]) -> bool
    ensures { result ≡ has_link menu.now }
{
    let mut rest = menu;
    while let Some((line, after)) = first_line(rest) {
        if leads(line) {
            return true;
        }
        rest = after;
    }
    false
}

// Appends the mistakes of a menu file that aren't those of one line.
fn push_file<'a>(
    path: &'a [u8],
    menu: &[u8],
    out: &mut Vec<MenuWarning<'a>>,
) -> Result<(), NoMemory>
    ensures { Puts (file_mistakes path.now menu.now) out.old out.new result }
{
    if !has_link(menu) {
        out.push(MenuWarning::plain(path, 0, MenuMistake::NoLink))?;
    }
    if menu.starts_with(ORDER_MARK) {
        out.push(MenuWarning::plain(path, 1, MenuMistake::ByteOrderMark))?;
    }
    Ok(())
}

// Appends the mistakes in the lines of a menu file.
fn push_lines<'a>(
    tree: &Tree,
    home: &Home,
    path: &'a [u8],
    menu: &'a [u8],
    out: &mut Vec<MenuWarning<'a>>,
) -> Result<(), NoMemory>
    ensures { Puts (numbered_mistakes tree.now home.now path.now menu.now) out.old out.new result }
{
    let mut number = 0;
    let mut rest = menu;
    while let Some((line, after)) = first_line(rest) {
        number += 1;
        if let Some(warning) = line_mistake(tree, home, path, number, line) {
            out.push(warning)?;
        }
        rest = after;
    }
    Ok(())
}

// Appends the mistakes in a menu file.
fn push_menu<'a>(
    tree: &Tree,
    home: &Home,
    path: &'a [u8],
    menu: &'a [u8],
    out: &mut Vec<MenuWarning<'a>>,
) -> Result<(), NoMemory>
    ensures { Puts (menu_mistakes tree.now home.now (path.now, menu.now)) out.old out.new result }
{
    push_file(path, menu, out)?;
    push_lines(tree, home, path, menu, out)
}

// Appends the mistakes in these menu files.
fn push_menus<'a>(
    tree: &Tree,
    home: &Home,
    menus: &[(&'a [u8], &'a [u8])],
    out: &mut Vec<MenuWarning<'a>>,
) -> Result<(), NoMemory>
    ensures { Puts (warned_in tree.now home.now (map lent_file menus.now)) out.old out.new result }
{
    for menu in menus {
        push_menu(tree, home, menu.0, menu.1, out)?;
    }
    Ok(())
}

/// Returns the mistakes in the site's menu files, in the order of the files and their lines; `home`
/// is the server's address.
///
/// They don't include lines that lead nowhere, which gopher_scope's `check` reports.
pub fn menu_warnings<'a>(
    alloc: Global,
    tree: &'a Tree,
    home: &Home,
) -> Result<Vec<MenuWarning<'a>>, NoMemory>
    ensures { IfOk result (λ found. found.items ≡ all_menu_mistakes tree.now home.now) }
{
    let menus = tree.menu_files(alloc)?;
    let mut found = Vec::new(alloc);
    push_menus(tree, home, &menus, &mut found)?;
    Ok(found)
}
