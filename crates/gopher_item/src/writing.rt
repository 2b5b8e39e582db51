//! Writing menus: `write_menu`, and the parts of a menu line.

ghost use Rattle.std.specs.Prelude.{◌≡◌, ◌++◌, [], ◌∷◌, true, codes, map, All, OnOk, OnErr};
ghost use Rattle.std.specs.Io.{StartsWith};
ghost use Rattle.gopher_item.specs.MenuLine.{IsMenuLine, PutsItem, in_sequence, menu_bytes, server_bytes};
ghost use Rattle.gopher_item.specs.Menu.{ReadsMenu};
ghost use Rattle.gopher_item.specs.declared.menu.Entry.TheVariants.{Item};

use crate::menu_line::MenuLine;
use gopher_bytes::NoMemory;
use itoa::Buffer;

// At least as many bytes as the parts have.
fn room_for(parts: &[&[u8]]) -> usize {
    let mut room = 0_usize;
    for part in parts {
        room = room.saturating_add(part.len());
    }
    room
}

// Appends these parts in sequence. If out of memory, `out` stays unchanged.
pub(crate) fn push_parts(parts: &[&[u8]], out: &mut Vec<u8>) -> Result<(), NoMemory>
    ensures written { OnOk result (out.new.items ≡ out.old.items ++ in_sequence parts.now) }
    ensures refused { OnErr result (out.new.items ≡ out.old.items) }
{
    let length = out.len();
    out.reserve(room_for(parts))?;
    for part in parts {
        if out.extend_from_slice(part).is_err() {
            out.truncate(length);
            return Err(NoMemory);
        }
    }
    Ok(())
}

/// Appends the start of a menu line: the type, the display string and a TAB.
///
/// If out of memory, `out` stays unchanged.
pub fn push_front(kind: u8, display: &[u8], out: &mut Vec<u8>) -> Result<(), NoMemory>
    ensures written { OnOk result (out.new.items ≡ out.old.items ++ kind ∷ display.now ++ 9 ∷ []) }
    ensures refused { OnErr result (out.new.items ≡ out.old.items) }
{
    push_parts(&[&[kind], display, b"\t"], out)
}

/// Appends the end of a menu line: a TAB, the host, a TAB, the port and CR LF.
///
/// If out of memory, `out` stays unchanged.
pub fn push_server(host: &[u8], port: u16, out: &mut Vec<u8>) -> Result<(), NoMemory>
    ensures written { OnOk result (out.new.items ≡ out.old.items ++ server_bytes host.now port) }
    ensures refused { OnErr result (out.new.items ≡ out.old.items) }
{
    let mut digits = Buffer::new();
    let port = digits.format(port).as_bytes();
    push_parts(&[b"\t", host, b"\t", port, b"\r\n"], out)
}

/// Appends a menu line (RFC 1436, appendix: DirEntity). The caller ensures that no part contains a
/// TAB, CR, LF or NUL.
///
/// If out of memory, `out` stays unchanged.
pub fn push_menu_line<'a>(
    kind: u8,
    display: &'a [u8],
    selector: &'a [u8],
    host: &'a [u8],
    port: u16,
    out: &mut Vec<u8>,
) -> Result<(), NoMemory>
    ensures written { PutsItem kind display.now selector.now host.now port out.old out.new result }
    ensures refused { OnErr result (out.new.items ≡ out.old.items) }
{
    let mut digits = Buffer::new();
    let port = digits.format(port).as_bytes();
    push_parts(
        &[
            &[kind],
            display,
            b"\t",
            selector,
            b"\t",
            host,
            b"\t",
            port,
            b"\r\n",
        ],
        out,
    )
}

/// Appends the line that ends a menu: a single period and CR LF (RFC 1436, appendix: Lastline).
///
/// If out of memory, `out` stays unchanged.
pub fn push_last_line(out: &mut Vec<u8>) -> Result<(), NoMemory>
    ensures written { OnOk result (out.new.items ≡ out.old.items ++ codes ".\r\n") }
    ensures refused { OnErr result (out.new.items ≡ out.old.items) }
{
    out.extend_from_slice(b".\r\n")?;
    Ok(())
}

// Appends the lines and the last line.
fn push_lines(lines: &[MenuLine], out: &mut Vec<u8>) -> Result<(), NoMemory>
    ensures plain { OnOk result (All IsMenuLine lines.now) }
    ensures written { OnOk result (out.new.items ≡ out.old.items ++ menu_bytes lines.now) }
    ensures kept { StartsWith out.new.items out.old.items }
{
    for line in lines {
        let (display, selector, host) = (line.display(), line.selector(), line.host());
        push_menu_line(line.kind(), display, selector, host, line.port(), out)?;
    }
    push_last_line(out)
}

/// Appends the menu of these lines, which a single period ends (RFC 1436, appendix: Menu).
///
/// `read_menu` reads the bytes back as these lines, ended. If out of memory, `out` stays unchanged.
pub fn write_menu(lines: &[MenuLine], out: &mut Vec<u8>) -> Result<(), NoMemory>
    ensures written { OnOk result (out.new.items ≡ out.old.items ++ menu_bytes lines.now) }
    ensures read_back { OnOk result (ReadsMenu (menu_bytes lines.now) (map Item lines.now) true) }
    ensures refused { OnErr result (out.new.items ≡ out.old.items) }
{
    let length = out.len();
    if push_lines(lines, out).is_err() {
        out.truncate(length);
        return Err(NoMemory);
    }
    Ok(())
}
