//! Reading `.menu` files, whose lines are the menu of their folder. The format is this profile's.

ghost use Rattle.std.specs.Prelude.{◌≡◌, ◌∷◌};
ghost use Rattle.gopher_item.specs.Menu.{fields_of};
ghost use Rattle.gopher_tree.specs.Fault.{menu_fault};
ghost use Rattle.gopher_tree.specs.MenuFile.{is_item, line_of_fields, server_of, written_item, written_line, bad_line, written_menu, sent_line, line_data, server_data, Gives};
ghost use Rattle.gopher_tree.specs.Reply.{PutsLine, PutsLines};

use crate::fault::TreeFault;
use crate::tree::path::is_menu_path;
use gopher_item::{
    Home, NoMemory, first_line, has_special, is_bad_type, is_host, is_selector, push_menu_line,
    read_number, split_once, trim_spaces,
};

const TAB: u8 = b'\t';

/// A line of a menu file.
#[derive(Clone, Copy, Debug)]
pub struct WrittenLine<'a> {
    /// The type of the item (RFC 1436, section 3.8); `i` for a text alone.
    pub kind: u8,
    /// The display string.
    pub display: &'a [u8],
    /// The selector.
    pub selector: &'a [u8],
    /// The host and the port; `None` for the server that sends the file.
    pub server: Option<(&'a [u8], u16)>,
}

#[tactic(auto, using(crate::proofs::ItemLemmas::item_is))]
fn is_item(kind: u8, display: &[u8], selector: &[u8]) -> bool
    ensures { result ≡ is_item kind display.now selector.now }
{
    is_selector(selector) && !has_special(display) && !is_bad_type(kind)
}

// A line of these parts, if they are valid.
fn written_item<'a>(
    kind: u8,
    display: &'a [u8],
    selector: &'a [u8],
    server: Option<(&'a [u8], u16)>,
) -> Option<WrittenLine<'a>>
    ensures { Gives (written_item kind display.now selector.now (server_data server.entry)) result }
{
    if !is_item(kind, display, selector) {
        return None;
    }
    Some(WrittenLine {
        kind,
        display,
        selector,
        server,
    })
}

// The server of a host and a port, after spaces at their ends are dropped.
fn server_of<'a>(host: &'a [u8], port: &[u8]) -> Option<(&'a [u8], u16)>
    ensures { server_data result ≡ server_of host.now port.now }
{
    let host = trim_spaces(host);
    let port = read_number(65535, trim_spaces(port))?;
    is_host(host).then_some((host, port as u16))
}

// The line of a first field and the bytes after its TAB.
fn line_of_fields<'a>(first: &'a [u8], rest: &'a [u8]) -> Option<WrittenLine<'a>>
    ensures { Gives (line_of_fields (first.now ∷ fields_of rest.now)) result }
{
    let [kind, display @ ..] = first else {
        return None;
    };
    let Some((selector, rest)) = split_once(TAB, rest) else {
        return written_item(*kind, display, rest, None);
    };
    let (host, port) = split_once(TAB, rest)?;
    if let Some(_) = split_once(TAB, port) {
        return None;
    }
    let server = server_of(host, port)?;
    written_item(*kind, display, selector, Some(server))
}

/// Reads a line of a menu file, without its end; `None` if it has none of the valid forms.
pub fn written_line(line: &[u8]) -> Option<WrittenLine<'_>>
    ensures { Gives (written_line line.now) result }
{
    match split_once(TAB, line) {
        Some((first, rest)) => line_of_fields(first, rest),
        None => written_item(b'i', line, &[], None),
    }
}

// The number of the first line, from 1, with none of the valid forms.
fn bad_line(bytes: &[u8]) -> Option<usize>
    ensures { result ≡ bad_line bytes.now }
{
    let mut number = 0;
    let mut rest = bytes;
    while let Some((line, after)) = first_line(rest) {
        number += 1;
        if written_line(line).is_none() {
            return Some(number);
        }
        rest = after;
    }
    None
}

// The fault of a file as a menu file, if it is one.
pub(crate) fn menu_fault(number: usize, path: &[u8], bytes: &[u8]) -> Option<TreeFault>
    ensures { result ≡ menu_fault number (path.now, bytes.now) }
{
    if !is_menu_path(path) {
        return None;
    }
    let line = bad_line(bytes)?;
    Some(TreeFault::BadMenuLine { file: number, line })
}

// Appends the line as a server with the address `home` sends it.
fn push_written(line: WrittenLine, home: &Home, out: &mut Vec<u8>) -> Result<(), NoMemory>
    ensures written { PutsLine (sent_line home.now (line_data line.entry)) out.old out.new result }
{
    let (host, port) = line.server.unwrap_or((home.host(), home.port()));
    push_menu_line(line.kind, line.display, line.selector, host, port, out)
}

// Appends the lines of a menu file as a server with the address `home` sends them.
pub(crate) fn push_written_lines(
    bytes: &[u8],
    home: &Home,
    out: &mut Vec<u8>,
) -> Result<(), NoMemory>
    ensures { PutsLines (written_menu home.now bytes.now) out.old out.new result }
{
    let mut rest = bytes;
    while let Some((line, after)) = first_line(rest) {
        if let Some(line) = written_line(line) {
            push_written(line, home, out)?;
        }
        rest = after;
    }
    Ok(())
}
