//! `write_list`: the list of the places that a crawl has found.

ghost use Rattle.std.specs.Prelude.{◌≡◌, ◌++◌, map, IfOk, OnOk};
ghost use Rattle.gopher_hole.specs.Listing.{IsFoundLine, title_byte};

use crate::progress::urls::PlaceUrl;
use gopher_catalogue::Event;
use gopher_item::{NoMemory, is_control};
use gopher_page::Page;
use std::alloc::Global;
use std::fs::{self, Files};
use std::io::{self, BufWriter, ErrorKind, Write};

// A byte of a title as the list shows it: `?` for a control byte.
fn title_byte(byte: u8) -> u8
    ensures { result ≡ title_byte byte }
{
    if is_control(byte) { b'?' } else { byte }
}

// Appends a title to a line.
fn push_title(line: &mut Vec<u8>, title: &[u8]) -> Result<(), NoMemory>
    ensures { OnOk result (line.new.items ≡ line.old.items ++ map title_byte title.now) }
{
    for byte in title {
        line.push(title_byte(*byte))?;
    }
    Ok(())
}

// The line of a page: the URL of its place, its size and its title, separated by TAB.
fn list_line(alloc: Global, page: &Page) -> Result<Vec<u8>, NoMemory>
    ensures { IfOk result (λ line. IsFoundLine page.now line.items) }
{
    let (url, size) = (PlaceUrl::of(page.place()), page.size());
    let mut line = format!(in alloc; "{url}\t{size}\t")?.into_bytes();
    push_title(&mut line, page.title())?;
    line.push(b'\n')?;
    Ok(line)
}

// Writes the line of each page that the events have, in order.
fn write_lines<W: Write>(alloc: Global, events: &[Event], writer: &mut W) -> io::Result<()> {
    for event in events {
        if let Event::Found(_, page) = event {
            match list_line(alloc, page) {
                Ok(line) => writer.write_all(&line)?,
                Err(_refused) => return Err(io::Error::from(ErrorKind::OutOfMemory)),
            }
        }
    }
    writer.flush()
}

// Writes the lines to a new file.
fn write_file<R: Files>(rt: &R, alloc: Global, events: &[Event], path: &str) -> io::Result<()> {
    let file = fs::create(rt, path)?;
    write_lines(alloc, events, &mut BufWriter::new(alloc, file)?)
}

/// Writes the list of the places that were found by these events, a line for each, in the order in
/// which they were found: the URL, the bytes of memory that the page takes, and its title,
/// separated by TAB. Writes `PATH.new` first, and then renames it, so that `path` never has half a
/// list.
///
/// # Errors
///
/// The system's error, or one of the kind `OutOfMemory`.
pub fn write_list<R: Files>(rt: &R, alloc: Global, events: &[Event], path: &str) -> io::Result<()> {
    let new = format!(in alloc; "{path}.new")?;
    write_file(rt, alloc, events, new.as_str())?;
    fs::rename(rt, new.as_str(), path)
}
