//! The bytes that RFC 1436 keeps out of fields; valid fields: `is_selector`, `is_host`,
//! `address_fault`; and hosts in lower case.

ghost use Rattle.std.specs.Prelude.{◌≡◌, ◌==◌, ◌||◌, map};
ghost use Rattle.std.specs.List.{list_any};
ghost use Rattle.gopher_item.specs.Special.{has_special, is_control};
ghost use Rattle.gopher_item.specs.Fault.{Makes};
ghost use Rattle.gopher_bytes.specs.Case.{lower_case};
ghost use Rattle.gopher_item.specs.Place.{address_fault, is_host, is_selector};

use crate::fault::ItemFault;
use crate::limits::{MAX_HOST, MAX_SELECTOR};
use gopher_bytes::ByteString;
use std::alloc::Global;

/// Returns whether the byte is an ASCII control byte: 0 to 31, or 127.
pub fn is_control(byte: u8) -> bool
    ensures { result ≡ is_control byte }
{
    byte < 32 || byte == 127
}

/// Returns whether the bytes contain a TAB, LF, CR or NUL, which no field may contain (RFC 1436,
/// appendix: UNASCII).
pub fn has_special(bytes: &[u8]) -> bool
    ensures { result ≡ has_special bytes.now }
{
    bytes
        .iter()
        .any(|byte| matches!(*byte, b'\t' | b'\n' | b'\r' | 0))
}

/// Returns whether the bytes are a valid selector: at most 255 bytes (`MAX_SELECTOR`) without TAB,
/// CR, LF and NUL (RFC 1436, appendix: Selector).
pub fn is_selector(selector: &[u8]) -> bool
    ensures { result ≡ is_selector selector.now }
{
    selector.len() <= MAX_SELECTOR && !has_special(selector)
}

fn has_space_or_control(bytes: &[u8]) -> bool
    ensures { result ≡ list_any (λ byte. (byte == 32) || is_control byte) bytes.now }
{
    bytes.iter().any(|byte| *byte == b' ' || is_control(*byte))
}

/// Returns whether the bytes are a valid host: 1 to 255 bytes (`MAX_HOST`) without spaces and
/// control bytes.
/// This profile is stricter than RFC 1436, appendix: Host.
pub fn is_host(host: &[u8]) -> bool
    ensures { result ≡ is_host host.now }
{
    !host.is_empty() && host.len() <= MAX_HOST && !has_space_or_control(host)
}

/// Returns the first fault of a server's address: `BadHost` (3) or `BadPort` (4).
pub fn address_fault(host: &[u8], port: u16) -> Option<ItemFault>
    ensures { result ≡ address_fault host.now port }
{
    if !is_host(host) {
        Some(ItemFault::BadHost)
    } else if port == 0 {
        Some(ItemFault::BadPort)
    } else {
        None
    }
}

/// Returns the host of a server's address in lower case.
///
/// # Errors
///
/// The first fault in this order:
/// - `BadHost` (3): the host is empty, has over 255 bytes, or contains a space or a control byte
/// - `BadPort` (4): the port is 0
/// - `NoMemory` (90)
pub fn lowered_host(alloc: Global, host: &[u8], port: u16) -> Result<ByteString, ItemFault>
    ensures { Makes (address_fault host.now port) (map lower_case host.now) result }
{
    if let Some(fault) = address_fault(host, port) {
        return Err(fault);
    }
    Ok(ByteString::lower_cased(alloc, host)?)
}
