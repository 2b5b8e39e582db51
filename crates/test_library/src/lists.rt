//! Packed lists past the numbers that 16 and 24 bits hold: what was pushed is read back.

use gopher_bytes::{ByteString, ByteStrings, lines};
use gopher_item::{Place, Places};
use std::process::Abort;

// Adds a place of a host with this name.
fn push_host<R: Abort + AllocGlobal>(rt: &R, places: &mut Places, number: u32) {
    let host = format!(in rt.alloc(); "{number}").expect(rt, "a name");
    let place = Place::new(rt.alloc(), b'1', b"/x", host.as_bytes(), 70).expect(rt, "a place");
    places.push(&place).expect(rt, "room for a place");
}

// Places, the last of the 65,600 hosts first.
const HOSTS: [(usize, &[u8]); 4] = [
    (65_599, b"65599"),
    (65_536, b"65536"),
    (65_535, b"65535"),
    (63, b"63"),
];

#[test]
fn places_of_65600_hosts_are_read_back(rt: HostRuntime) {
    let mut places = Places::new(rt.alloc());
    for number in 0..65_600u32 {
        push_host(&rt, &mut places, number);
    }
    assert!(rt; places.len() == 65_600);
    for (index, host) in HOSTS {
        let place = places.get(index);
        assert!(rt; place.host() == host && place.selector() == b"/x".as_slice());
        assert!(rt; (place.kind(), place.port()) == (b'1', 70));
    }
}

#[test]
fn a_string_of_16_mebibytes_is_read_back(rt: HostRuntime) {
    let string = vec![in rt.alloc(); b'a'; 16_777_216].expect(&rt, "a string");
    let mut list = ByteStrings::new(rt.alloc());
    assert!(rt; list.push(&string).is_ok() && list.push(b"bc").is_ok());
    assert!(rt; list.len() == 2 && list.get(0).len() == 16_777_216);
    assert!(rt; list.get(1) == b"bc".as_slice());
}

#[test]
fn a_byte_string_is_a_vector(rt: HostRuntime) {
    let lower = ByteString::lower_cased(rt.alloc(), b"Gopher.Example").expect(&rt, "a string");
    let bytes = lower.into_vec();
    let cut = lines(rt.alloc(), &bytes).expect(&rt, "lines");
    assert!(rt; cut.len() == 1 && cut[0] == b"gopher.example".as_slice());
}
