//! Making replies: menus of folders, menus of `.menu` files, texts, raw files and errors.

ghost use Rattle.std.specs.Prelude.{◌≡◌, false, IfOk};
ghost use Rattle.gopher_item.specs.Special.{has_special};
ghost use Rattle.gopher_tree.specs.Found.{listed};
ghost use Rattle.gopher_tree.specs.MenuFile.{written_menu};
ghost use Rattle.gopher_tree.specs.Reply.{MakesMenu, PutsLine, PutsLines, child_line, child_lines, head_lines, listing_of, file_reply, error_bytes, not_found_bytes};

use crate::menu_file::push_written_lines;
use crate::tree::path::push_prefix;
use gopher_item::{Home, NoMemory, push_front, push_last_line, push_menu_line, push_server};
use gopher_text::write_text_of;
use std::alloc::Global;
use std::collections::BTreeMap;

// The distinct names in a folder in byte order, with their types.
pub(crate) type Children<'a> = BTreeMap<&'a [u8], u8>;

/// Makes an error reply: a menu with one line of type `3` (RFC 1436, section 3.8) that displays
/// `text`.
///
/// The text contains no TAB, CR, LF or NUL.
pub fn error_reply(alloc: Global, text: &[u8], home: &Home) -> Result<Vec<u8>, NoMemory>
    requires { has_special text.now ≡ false }
    ensures { IfOk result (λ bytes. bytes.items ≡ error_bytes text.now home.now) }
{
    let mut out = Vec::new(alloc);
    push_menu_line(b'3', text, b"", home.host(), home.port(), &mut out)?;
    push_last_line(&mut out)?;
    Ok(out)
}

/// Makes the reply to a selector that names nothing: the error reply `Not found`.
pub fn not_found(alloc: Global, home: &Home) -> Result<Vec<u8>, NoMemory>
    ensures { IfOk result (λ bytes. bytes.items ≡ not_found_bytes home.now) }
{
    error_reply(alloc, b"Not found", home)
}

// The reply to a file's selector: type `0` is sent as a text, any other type byte for byte.
pub(crate) fn file_reply(alloc: Global, kind: u8, bytes: &[u8]) -> Result<Vec<u8>, NoMemory>
    ensures { IfOk result (λ sent. sent.items ≡ file_reply kind bytes.now) }
{
    if kind != b'0' {
        return Ok(Vec::from_slice(alloc, bytes)?);
    }
    let mut out = Vec::new(alloc);
    write_text_of(bytes, &mut out)?;
    Ok(out)
}

// Appends the search line if the folder is the root.
fn push_head(folder: &[u8], home: &Home, out: &mut Vec<u8>) -> Result<(), NoMemory>
    ensures { PutsLines (head_lines home.now folder.now) out.old out.new result }
{
    if folder.is_empty() {
        push_menu_line(b'7', b"Search", b"/search", home.host(), home.port(), out)?;
    }
    Ok(())
}

// Appends the line of a name in a folder; `front` comes before the name in its selector.
fn push_child_line(
    kind: u8,
    name: &[u8],
    front: &[u8],
    home: &Home,
    out: &mut Vec<u8>,
) -> Result<(), NoMemory>
    ensures { PutsLine (child_line home.now front.now (name.now, kind)) out.old out.new result }
{
    push_front(kind, name, out)?;
    out.extend_from_slice(front)?;
    out.extend_from_slice(name)?;
    push_server(home.host(), home.port(), out)
}

// Appends a line for each name.
fn push_names(
    names: &Children<'_>,
    front: &[u8],
    home: &Home,
    out: &mut Vec<u8>,
) -> Result<(), NoMemory>
    ensures { PutsLines (child_lines home.now front.now (listed names.now)) out.old out.new result }
{
    for (name, kind) in names {
        push_child_line(*kind, name, front, home, out)?;
    }
    Ok(())
}

// The menu of a folder's names.
pub(crate) fn listing_reply(
    alloc: Global,
    folder: &[u8],
    children: &Children<'_>,
    home: &Home,
) -> Result<Vec<u8>, NoMemory>
    ensures { MakesMenu (listing_of home.now folder.now (listed children.now)) result }
{
    let mut front = Vec::from_slice(alloc, b"/")?;
    push_prefix(folder, &mut front)?;
    let mut out = Vec::new(alloc);
    push_head(folder, home, &mut out)?;
    push_names(children, &front, home, &mut out)?;
    push_last_line(&mut out)?;
    Ok(out)
}

// The menu of a menu file.
pub(crate) fn written_reply(alloc: Global, bytes: &[u8], home: &Home) -> Result<Vec<u8>, NoMemory>
    ensures { MakesMenu (written_menu home.now bytes.now) result }
{
    let mut out = Vec::new(alloc);
    push_written_lines(bytes, home, &mut out)?;
    push_last_line(&mut out)?;
    Ok(out)
}
