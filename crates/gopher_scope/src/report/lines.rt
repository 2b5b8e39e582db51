//! Appending one line to a report: texts in their shown form, numbers, addresses.

ghost use Rattle.gopher_scope.specs.Lines.{Puts, shown_byte, shown};

use crate::fault::Pushed;
use gopher_item::is_control;
use itoa::Buffer;

// Appends one byte in its shown form.
fn push_byte(byte: u8, out: &mut Vec<u8>) -> Pushed
    ensures { Puts (shown_byte byte) out.old out.new result }
{
    match byte {
        b'\t' => out.extend_from_slice(b"\\t"),
        b'\n' => out.extend_from_slice(b"\\n"),
        b'\r' => out.extend_from_slice(b"\\r"),
        b'\\' => out.extend_from_slice(b"\\\\"),
        _ if is_control(byte) => out.extend_from_slice(b"\\?"),
        _ => out.extend_from_slice(&[byte]),
    }
}

/// Appends bytes in their shown form: a TAB, LF, CR and backslash as `\t`, `\n`, `\r` and `\\`, any
/// other control byte as `\?`.
pub fn push_shown(bytes: &[u8], out: &mut Vec<u8>) -> Pushed
    ensures { Puts (shown bytes.now) out.old out.new result }
{
    for byte in bytes {
        push_byte(*byte, out)?;
    }
    Ok(())
}

/// Appends a line: the name of a value, and its text.
pub fn push_words(front: &[u8], words: &[u8], out: &mut Vec<u8>) -> Pushed {
    out.extend_from_slice(front)?;
    push_shown(words, out)?;
    out.extend_from_slice(b"\n")
}

/// Appends a text and a number.
pub fn push_count(front: &[u8], number: usize, out: &mut Vec<u8>) -> Pushed {
    let mut digits = Buffer::new();
    out.extend_from_slice(front)?;
    out.extend_from_slice(digits.format(number).as_bytes())
}

/// Appends a line: the name of a value, and its number.
pub fn push_number(front: &[u8], number: usize, out: &mut Vec<u8>) -> Pushed {
    push_count(front, number, out)?;
    out.extend_from_slice(b"\n")
}

/// Appends a host and a port.
pub fn push_server(host: &[u8], port: u16, out: &mut Vec<u8>) -> Pushed {
    push_shown(host, out)?;
    push_count(b" ", usize::from(port), out)?;
    Ok(())
}

/// Appends the rest of a line: a host, a port, and a selector or a prefix of selectors.
pub fn push_address(host: &[u8], port: u16, selector: &[u8], out: &mut Vec<u8>) -> Pushed {
    push_server(host, port, out)?;
    push_words(b" ", selector, out)
}
