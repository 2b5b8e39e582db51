//! The title of a page: `title_of`.

ghost use Rattle.std.specs.Prelude.{◌≡◌, take, IfOk};
ghost use Rattle.std.specs.List.{find};
ghost use Rattle.std.specs.Option.{option_map};
ghost use Rattle.gopher_page.specs.Page.{plain_byte, title_text, has_word, place_title, title_of};

use crate::line::PageLines;
use crate::word::next_token;
use gopher_bytes::trim_spaces;
use gopher_item::{ByteString, NoMemory, Place, is_control};
use std::alloc::Global;

/// The most bytes of a title.
pub const MAX_TITLE: usize = 69;

fn plain_byte(byte: u8) -> u8
    ensures { result ≡ plain_byte byte }
{
    if is_control(byte) { b' ' } else { byte }
}

fn first_bytes(bytes: &[u8]) -> &[u8]
    ensures { result.now ≡ take MAX_TITLE bytes.now }
{
    &bytes[..bytes.len().min(MAX_TITLE)]
}

fn title_text(alloc: Global, bytes: &[u8]) -> Result<ByteString, NoMemory>
    ensures { IfOk result (λ title. title ≡ title_text bytes.now) }
{
    let text: Vec<u8> = bytes.iter().map(|byte| plain_byte(*byte)).collect(alloc)?;
    ByteString::from_slice(alloc, first_bytes(trim_spaces(&text)))
}

fn has_word(line: &[u8]) -> bool
    ensures { result ≡ has_word line.now }
{
    next_token(line).is_some()
}

fn first_with_word<'a>(lines: &PageLines<'a>) -> Option<&'a [u8]>
    ensures { option_map (λ line. line.now) result ≡ find has_word lines.now }
{
    for line in lines.clone() {
        if has_word(line) {
            return Some(line);
        }
    }
    None
}

fn place_title(alloc: Global, place: &Place) -> Result<ByteString, NoMemory>
    ensures { IfOk result (λ title. title ≡ place_title place.now) }
{
    let title = title_text(alloc, place.selector())?;
    if title.as_slice().is_empty() {
        ByteString::from_slice(alloc, first_bytes(place.host()))
    } else {
        Ok(title)
    }
}

/// Returns the title of the page of a place with these lines.
pub fn title_of(alloc: Global, place: &Place, lines: &PageLines<'_>) -> Result<ByteString, NoMemory>
    ensures { IfOk result (λ title. title ≡ title_of place.now lines.now) }
{
    match first_with_word(lines) {
        Some(line) => title_text(alloc, line),
        None => place_title(alloc, place),
    }
}
