//! Menus, request lines and places as they are read, made, written and ordered. What other bytes are
//! read as is in proofs/WorkedRows.antt.

use gopher_item::{
    Entry, EntryParts, Home, MenuLine, Place, first_entry, lines, read_menu, read_request,
    write_menu,
};
use std::alloc::Global;
use std::cmp::Ordering;
use std::slice;

// Whether a menu of this line is written so.
fn is_written(alloc: Global, line: &MenuLine, wanted: &[u8]) -> bool {
    let mut out = Vec::new(alloc);
    write_menu(slice::from_ref(line), &mut out).is_ok() && out.as_slice() == wanted
}

const ABOUT: &[u8] = b"0About internet Gopher\tStuff:About us\trawBits.micro.umn.edu\t70\r\n.\r\n";

// Whether a line is that of the worked menu. Its place has the host in lower case.
fn is_about(alloc: Global, line: &MenuLine) -> bool {
    (line.kind(), line.port()) == (b'0', 70)
        && line.display() == b"About internet Gopher".as_slice()
        && line.selector() == b"Stuff:About us".as_slice()
        && line.host() == b"rawBits.micro.umn.edu".as_slice()
        && matches!(
            line.place(alloc),
            Ok(place) if place.host() == b"rawbits.micro.umn.edu".as_slice()
        )
}

#[test]
fn a_menu_is_written_as_it_was_read(rt: HostRuntime) {
    for (bytes, is_ended) in [(&ABOUT[..ABOUT.len() - 3], false), (ABOUT, true)] {
        let menu = read_menu(rt.alloc(), bytes).expect(&rt, "a menu");
        assert!(rt; menu.ended == is_ended);
        let [Entry::Item(line)] = menu.entries.as_slice() else {
            panic!(rt; "it has one item");
        };
        assert!(rt; is_about(rt.alloc(), line) && is_written(rt.alloc(), line, ABOUT));
    }
}

#[test]
fn a_line_without_fields_is_odd(rt: HostRuntime) {
    let menu = read_menu(rt.alloc(), b"1Mo").expect(&rt, "a menu");
    let [Entry::Odd(odd)] = menu.entries.as_slice() else {
        panic!(rt; "it has one odd line");
    };
    assert!(rt; odd.as_slice() == b"1Mo".as_slice() && !menu.ended);
}

// Whether a place is that of the worked menu.
fn is_place_of_about(place: &Place) -> bool {
    (place.kind(), place.port()) == (b'0', 70)
        && place.selector() == b"Stuff:About us".as_slice()
        && place.host() == b"rawbits.micro.umn.edu".as_slice()
}

#[test]
fn the_entries_of_a_menu_are_read_one_at_a_time(rt: HostRuntime) {
    let mut menu = Vec::from_slice(rt.alloc(), b"\r\n1Mo\r\n\r\n").expect(&rt, "memory");
    menu.extend_from_slice(ABOUT).expect(&rt, "memory");
    menu.extend_from_slice(b"1Mo\r\n").expect(&rt, "memory");
    let Some((EntryParts::Odd(odd), rest)) = first_entry(&menu) else {
        panic!(rt; "its first entry is an odd line");
    };
    assert!(rt; odd == b"1Mo".as_slice());
    let Some((entry, rest)) = first_entry(rest) else {
        panic!(rt; "it has a second entry");
    };
    let EntryParts::Item(item) = &entry else {
        panic!(rt; "its second entry is an item");
    };
    let place = item.place(rt.alloc()).expect(&rt, "a place");
    assert!(rt; item.display() == b"About internet Gopher".as_slice() && is_place_of_about(&place));
    assert!(rt; first_entry(rest).is_none());
}

// Whether a line that begins with this byte is read as an item of this type, or as an odd line.
fn is_read_by_type(alloc: Global, kind: u8) -> bool {
    let mut bytes = *b"Bx\t/s\th\t70\r\n";
    bytes[0] = kind;
    let Ok(menu) = read_menu(alloc, &bytes) else {
        return false;
    };
    match (kind, menu.entries.as_slice()) {
        (b'\t', [Entry::Odd(odd)]) => odd.as_slice().is_empty(),
        (b'\r' | 0, [Entry::Odd(odd)]) => odd.as_slice() == [kind, b'x'].as_slice(),
        (b'\n', [Entry::Item(line)]) => line.kind() == b'x' && line.display().is_empty(),
        (_, [Entry::Item(line)]) => {
            (line.kind(), line.port()) == (kind, 70)
                && line.display() == b"x".as_slice()
                && line.selector() == b"/s".as_slice()
                && line.host() == b"h".as_slice()
        }
        _ => false,
    }
}

#[test]
fn each_of_256_type_bytes_is_read(rt: HostRuntime) {
    for kind in 0..=255u8 {
        assert!(rt; is_read_by_type(rt.alloc(), kind), "{kind}");
    }
}

#[test]
fn a_mebibyte_of_one_byte_is_read(rt: HostRuntime) {
    let feeds = vec![in rt.alloc(); b'\n'; 1_048_576].expect(&rt, "memory");
    let menu = read_menu(rt.alloc(), &feeds).expect(&rt, "a menu");
    assert!(rt; menu.entries.is_empty() && !menu.ended);
    let letters = vec![in rt.alloc(); b'a'; 1_048_576].expect(&rt, "memory");
    let menu = read_menu(rt.alloc(), &letters).expect(&rt, "a menu");
    let [Entry::Odd(odd)] = menu.entries.as_slice() else {
        panic!(rt; "it has one odd line");
    };
    assert!(rt; odd.as_slice() == letters.as_slice() && !menu.ended);
}

// The type, display, selector, host and port of a line that is made, and what it is written as, or
// the number of its fault.
type Made<'a> = (u8, &'a [u8], &'a [u8], &'a [u8], u16, Result<&'a [u8], u8>);

const MADE: &[Made] = &[
    (b'i', b"x", b"", b"h", 0, Ok(b"ix\t\th\t0\r\n.\r\n")),
    (b' ', b"x", b"", b"h", 0, Err(6)),
    (b'0', b"x\t", b"", b"h", 0, Err(5)),
    (
        b'+',
        b"",
        b"/about",
        b"G.Example",
        65_535,
        Ok(b"+\t/about\tG.Example\t65535\r\n.\r\n"),
    ),
    (b'.', b"x", b"", b"h", 0, Err(6)),
    (7, b"x", b"", b"h", 0, Err(6)),
    (b' ', b"x\t", b"", b"h", 0, Err(5)),
    (b' ', b"x\t", b"", b"", 0, Err(3)),
    (b' ', b"x\t", b"\t", b"", 0, Err(2)),
];

fn is_made(alloc: Global, made: Made) -> bool {
    let (kind, display, selector, host, port, wanted) = made;
    match (
        MenuLine::new(alloc, kind, display, selector, host, port),
        wanted,
    ) {
        (Ok(line), Ok(bytes)) => is_written(alloc, &line, bytes),
        (Err(fault), Err(code)) => fault.code() == code,
        _ => false,
    }
}

#[test]
fn lines_are_made_or_refused(rt: HostRuntime) {
    for made in MADE {
        assert!(rt; is_made(rt.alloc(), *made));
    }
}

// Request lines, each with its selector and its search string, or its fault.
type Asked = (
    &'static [u8],
    Result<(&'static [u8], Option<&'static [u8]>), u8>,
);

const ASKED: &[Asked] = &[
    (b"a\tb\tc", Ok((b"a", Some(b"b")))),
    (b"/search\t", Ok((b"/search", Some(b"")))),
    (b"", Ok((b"", None))),
    (&[b's'; 255], Ok((&[b's'; 255], None))),
    (&[b's'; 256], Err(2)),
    (b"a\0b", Err(2)),
    (&[b's'; 1_024], Err(2)),
    (&[b's'; 1_025], Err(7)),
];

fn is_asked(alloc: Global, line: &[u8], wanted: Result<(&[u8], Option<&[u8]>), u8>) -> bool {
    match read_request(alloc, line) {
        Ok(request) => {
            let search = match &request.search {
                Some(search) => Some(search.as_slice()),
                None => None,
            };
            wanted == Ok((request.selector.as_slice(), search))
        }
        Err(fault) => wanted == Err(fault.code()),
    }
}

// A line of `/search`, TAB and this number of bytes.
fn search_of(alloc: Global, count: usize) -> Option<Vec<u8>> {
    let mut line = Vec::from_slice(alloc, b"/search\t").ok()?;
    line.resize(count.saturating_add(8), b'x').ok()?;
    Some(line)
}

#[test]
fn request_lines_are_read(rt: HostRuntime) {
    for (line, wanted) in ASKED {
        assert!(rt; is_asked(rt.alloc(), line, *wanted));
    }
    let line = search_of(rt.alloc(), 1_016).expect(&rt, "memory");
    assert!(rt;
        is_asked(
            rt.alloc(),
            &line,
            Ok((b"/search", Some(&line[line.len().min(8)..])))
        )
    );
    let line = search_of(rt.alloc(), 1_017).expect(&rt, "memory");
    assert!(rt; is_asked(rt.alloc(), &line, Err(7)));
}

// The type, selector, host and port of a place, and its host, or the number of its fault.
type New<'a> = (u8, &'a [u8], &'a [u8], u16, Result<&'a [u8], u8>);

const PLACES: &[New] = &[
    (b'1', b"/x", b"Gopher.Example", 70, Ok(b"gopher.example")),
    (b'7', &[b's'; 256], b"h", 0, Err(1)),
    (b'0', b"", b"a b", 70, Err(3)),
    (b'0', b"", b"h", 0, Err(4)),
    (b'1', &[b's'; 256], b"a b", 0, Err(2)),
];

fn is_place(alloc: Global, new: New) -> bool {
    let (kind, selector, host, port, wanted) = new;
    match Place::new(alloc, kind, selector, host, port) {
        Ok(place) => wanted == Ok(place.host()),
        Err(fault) => wanted == Err(fault.code()),
    }
}

#[test]
fn places_are_made_or_refused(rt: HostRuntime) {
    for new in PLACES {
        assert!(rt; is_place(rt.alloc(), *new));
    }
    let home = Home::new(rt.alloc(), b"", 7070);
    assert!(rt; home.err().expect(&rt, "a home without a host").code() == 3);
}

// The type, selector, host and port of a place.
type Parts = (u8, &'static [u8], &'static [u8], u16);

// Places in their order.
const ORDER: &[Parts] = &[
    (b'1', b"/z", b"a", 70),
    (b'0', b"/a", b"h", 70),
    (b'1', b"/a", b"h", 70),
    (b'0', b"/b", b"h", 70),
    (b'0', b"", b"h", 7070),
];

fn place(alloc: Global, parts: Parts) -> Option<Place> {
    let (kind, selector, host, port) = parts;
    Place::new(alloc, kind, selector, host, port).ok()
}

fn compared(alloc: Global, first: Parts, second: Parts) -> Option<Ordering> {
    Some(place(alloc, first)?.cmp(&place(alloc, second)?))
}

#[test]
fn places_have_an_order(rt: HostRuntime) {
    for (index, first) in ORDER.iter().enumerate() {
        for (other, second) in ORDER.iter().enumerate() {
            assert!(rt; compared(rt.alloc(), *first, *second) == Some(index.cmp(&other)));
        }
    }
}

#[test]
fn bytes_are_cut_into_lines(rt: HostRuntime) {
    let lines = lines(rt.alloc(), b"a\r\n\nb\r\r\nc\r").expect(&rt, "lines");
    let [first, second, third, last] = lines.as_slice() else {
        panic!(rt; "there are four lines");
    };
    assert!(rt; *first == b"a".as_slice() && second.is_empty());
    assert!(rt; *third == b"b\r".as_slice() && *last == b"c\r".as_slice());
}
