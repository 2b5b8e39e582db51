//! The lines of the report on a fault: number, path, line, key, seed or size, cause and remedy.
//! tests/check.py compares them with the manual.

use super::fault_report::{FaultReport, Remark};
use super::finding::{Detail, Finding};
use super::lines::{push_count, push_number, push_words};
use super::whole_site::SiteSize;
use crate::fault::Pushed;
use crate::settings::{Field, Key, Spot};
use gopher_item::NoMemory;
use std::alloc::Global;

// Appends the line of a name, unless it is empty.
fn push_name(front: &[u8], name: &[u8], out: &mut Vec<u8>) -> Pushed {
    match name {
        [] => Ok(()),
        [_, ..] => push_words(front, name, out),
    }
}

// Appends a key in the text, after the key of its array if it is in one.
fn push_named_key(array: Option<Key>, name: &[u8], out: &mut Vec<u8>) -> Pushed {
    match array {
        None => push_name(b"key: ", name, out),
        Some(array) => {
            push_words(b"key: ", array.name().as_bytes(), out)?;
            push_name(b"unknown: ", name, out)
        }
    }
}

// Appends the key of a table in an array.
fn push_field(field: Option<Field>, out: &mut Vec<u8>) -> Pushed {
    match field {
        None => Ok(()),
        Some(field) => {
            out.extend_from_slice(b".")?;
            out.extend_from_slice(field.row().name.as_bytes())
        }
    }
}

// Appends the index of an element of an array, and the key of the table there.
fn push_spot(spot: Option<Spot>, out: &mut Vec<u8>) -> Pushed {
    match spot {
        None => Ok(()),
        Some(spot) => {
            push_count(b"[", spot.index, out)?;
            out.extend_from_slice(b"]")?;
            push_field(spot.field, out)
        }
    }
}

// Appends the line of a key, and of the spot in its array with the fault.
fn push_key(key: Key, spot: Option<Spot>, out: &mut Vec<u8>) -> Pushed {
    out.extend_from_slice(b"key: ")?;
    out.extend_from_slice(key.name().as_bytes())?;
    push_spot(spot, out)?;
    out.extend_from_slice(b"\n")
}

// Appends the key, the seed or the number that a finding names.
fn push_detail(detail: Detail, name: &[u8], out: &mut Vec<u8>) -> Pushed {
    match detail {
        Detail::Nothing => Ok(()),
        Detail::Value(key, spot) => push_key(key, spot, out),
        Detail::Name(array) => push_named_key(array, name, out),
        Detail::Seed(seed) => push_number(b"seed: ", seed, out),
        Detail::Size(size) => push_number(b"size: ", size, out),
    }
}

// Appends the number of a line, if there is one.
fn push_line(line: Option<usize>, out: &mut Vec<u8>) -> Pushed {
    match line {
        Some(line) => push_number(b"line: ", line, out),
        None => Ok(()),
    }
}

// Appends the lines of a finding in the file or folder at `path`.
fn push_finding(path: &[u8], finding: &Finding, out: &mut Vec<u8>) -> Pushed {
    let (cause, remedy) = finding.fault.explain();
    push_number(b"fault: ", usize::from(finding.fault.code()), out)?;
    push_words(b"path: ", path, out)?;
    push_line(finding.line, out)?;
    push_detail(finding.detail, &finding.name, out)?;
    push_words(b"cause: ", cause.as_bytes(), out)?;
    push_words(b"remedy: ", remedy.as_bytes(), out)
}

// Appends how much the whole site has: `whole site: files 2, folders 1, bytes 12`.
fn push_size(size: SiteSize, out: &mut Vec<u8>) -> Pushed {
    out.extend_from_slice(b"whole site: ")?;
    if !size.is_exact {
        out.extend_from_slice(b"at least ")?;
    }
    push_count(b"files ", size.files, out)?;
    push_count(b", folders ", size.folders, out)?;
    push_number(b", bytes ", size.bytes, out)
}

fn push_remark(remark: Remark, out: &mut Vec<u8>) -> Pushed {
    match remark {
        Remark::Nothing => Ok(()),
        Remark::Tilde => {
            out.extend_from_slice(b"hint: ~ isn't expanded in root; write the whole path\n")
        }
        Remark::WholeSite(size) => push_size(size, out),
    }
}

impl FaultReport {
    /// Returns the lines of the report. For each fault they have its number, the path, the line,
    /// the key, seed or number that it names, its cause and its remedy.
    pub fn words(&self, alloc: Global) -> Result<Vec<u8>, NoMemory> {
        let mut words = Vec::new(alloc);
        for finding in &self.findings {
            push_finding(&self.path, finding, &mut words)?;
        }
        push_remark(self.remark, &mut words)?;
        Ok(words)
    }
}
