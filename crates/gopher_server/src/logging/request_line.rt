//! The log's line of a request, in which the bytes that a client sent are escaped.

ghost use Rattle.std.specs.Prelude.{◌≡◌, ◌++◌, ◌<◌, OnOk};
ghost use Rattle.std.specs.Fmt.{decimal};
ghost use Rattle.gopher_server.specs.RequestLine.{asked_bytes, escaped, hex_digit, is_plain, logged_bytes, moment_bytes, numbers_bytes, search_of, selector_of};

use gopher_item::split_once;
use itoa::Buffer;
use jiff_core::civil::DateTime;
use jiff_fmt::temporal::DateTimePrinter;
use std::alloc::AllocError;
use std::marker::Model;

/// What a line of the log says of a request.
#[derive(Debug, Drop)]
pub struct RequestLine<'a> {
    /// When it ended.
    pub ended: DateTime,
    /// The IP address of the client.
    pub peer: &'a [u8],
    /// The line that the client sent, without its end.
    pub asked: &'a [u8],
    /// The number of bytes of the reply that were sent.
    pub sent: u64,
    /// The microseconds from accepting the connection to its end.
    pub micros: u64,
}

impl<'a> Model for RequestLine<'a> {
    ghost use Rattle.gopher_server.specs.RequestLine.{RequestData, request_with};

    ghost Value = { RequestData };

    ghost view = { λ r. request_with r.ended r.peer.now r.asked.now r.sent r.micros };
}

// The selector of a line.
fn selector_of(asked: &[u8]) -> &[u8]
    ensures { result.now ≡ selector_of asked.now }
{
    split_once(b'\t', asked).map_or(asked, |parts| parts.0)
}

/// Returns the search string of a line; empty if it has none.
pub fn search_of(asked: &[u8]) -> &[u8]
    ensures { result.now ≡ search_of asked.now }
{
    split_once(b'\t', asked).map_or(&[], |parts| selector_of(parts.1))
}

/// Appends a number.
pub fn push_number(out: &mut Vec<u8>, number: u64) -> Result<(), AllocError>
    ensures { OnOk result (out.new.items ≡ out.old.items ++ decimal number) }
{
    let mut digits = Buffer::new();
    out.extend_from_slice(digits.format(number).as_bytes())
}

// Whether a byte is written as it is.
fn is_plain(byte: u8) -> bool
    ensures { result ≡ is_plain byte }
{
    byte >= 32 && byte <= 126 && byte != b'\\'
}

// The digit of a number below 16.
fn hex_digit(number: u8) -> u8
    requires { number < 16 }
    ensures { result ≡ hex_digit number }
{
    if number < 10 {
        b'0' + number
    } else {
        b'a' - 10 + number
    }
}

// Appends bytes, escaped: those from 32 to 126 except the backslash as they are, any other as a
// backslash, `x` and its two hexadecimal digits.
fn push_escaped(out: &mut Vec<u8>, bytes: &[u8]) -> Result<(), AllocError>
    ensures { OnOk result (out.new.items ≡ out.old.items ++ escaped bytes.now) }
{
    for byte in bytes {
        if is_plain(*byte) {
            out.push(*byte)?;
        } else {
            out.extend_from_slice(&[b'\\', b'x', hex_digit(byte / 16), hex_digit(byte % 16)])?;
        }
    }
    Ok(())
}

// Appends a moment, for example `2001-02-03T04:05:06.000789Z` (RFC 3339, section 5.6).
fn push_moment(out: &mut Vec<u8>, moment: DateTime) -> Result<(), AllocError>
    ensures { OnOk result (out.new.items ≡ out.old.items ++ moment_bytes moment) }
{
    let printer = DateTimePrinter::new().precision(Some(6));
    out.extend_from_slice(printer.datetime_text(moment).as_str().as_bytes())?;
    out.push(b'Z')?;
    Ok(())
}

// Appends the selector and the search string of a line.
fn push_asked(out: &mut Vec<u8>, asked: &[u8]) -> Result<(), AllocError>
    ensures { OnOk result (out.new.items ≡ out.old.items ++ asked_bytes asked.now) }
{
    push_escaped(out, selector_of(asked))?;
    out.push(b'\t')?;
    push_escaped(out, search_of(asked))
}

// Appends two numbers, each after a TAB.
fn push_numbers(out: &mut Vec<u8>, sent: u64, micros: u64) -> Result<(), AllocError>
    ensures { OnOk result (out.new.items ≡ out.old.items ++ numbers_bytes sent micros) }
{
    out.push(b'\t')?;
    push_number(out, sent)?;
    out.push(b'\t')?;
    push_number(out, micros)
}

/// Appends the line of a request.
///
/// # Errors
///
/// Out of memory: a prefix of the line was appended.
pub fn push_request(out: &mut Vec<u8>, request: &RequestLine<'_>) -> Result<(), AllocError>
    ensures { OnOk result (out.new.items ≡ out.old.items ++ logged_bytes request.now) }
{
    push_moment(out, request.ended)?;
    out.push(b'\t')?;
    push_escaped(out, request.peer)?;
    out.push(b'\t')?;
    push_asked(out, request.asked)?;
    push_numbers(out, request.sent, request.micros)?;
    out.push(b'\n')?;
    Ok(())
}
