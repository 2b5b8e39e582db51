//! Fetches over streams in memory, which end and fail at each place. Hosts that send in pieces are
//! shown by tests/crawling.py.

use crate::opening::scope;
use crate::stream::{Ending, Stream, many_letters};
use gopher_catalogue::Why;
use gopher_crew::settle;
use gopher_hole::fetch_over;
use gopher_item::Place;
use gopher_text::Watched;
use std::process::Abort;

const REQUEST: &[u8] = b"/moon\r\n";

// Whether a fetch of `/moon` gives what the stream has, or why there is no reply; and how much of the
// request is unsent.
fn fetched<R: Abort + AllocGlobal>(rt: &R, stream: Stream) -> (Result<bool, Why>, usize) {
    let place = Place::new(rt.alloc(), b'1', b"/moon", b"h", 70).expect(rt, "a place");
    let given = stream.given;
    let mut stream = Watched::new(stream);
    let fetched = fetch_over(rt.alloc(), &mut stream, &place, 1_048_576);
    let is_given = fetched.map(|reply| reply.as_slice() == given);
    (is_given, stream.into_inner().left.len())
}

#[test]
fn fetches_end_with_a_reply_or_say_why(rt: HostRuntime) {
    for ending in [Ending::Ends, Ending::Waits, Ending::Fails] {
        for count in 0..4usize {
            let reply = if ending == Ending::Ends {
                Ok(true)
            } else {
                Err(Why::Read)
            };
            let stream = Stream::new(&b"1Mo"[..count], REQUEST, 7, ending);
            assert!(rt; fetched(&rt, stream) == (reply, 0));
        }
        for room in 0..7usize {
            let stream = Stream::new(b"1Mo", REQUEST, room, ending);
            assert!(rt; fetched(&rt, stream) == (Err(Why::Write), 7 - room));
        }
    }
}

#[test]
fn a_fetch_gives_at_most_a_mebibyte(rt: HostRuntime) {
    let bytes = many_letters(rt.alloc(), 1_048_577).expect(&rt, "memory");
    for (from, wanted) in [(1usize, Ok(true)), (0, Err(Why::TooLong))] {
        let stream = Stream::new(&bytes[from.min(bytes.len())..], REQUEST, 7, Ending::Ends);
        let whole = Stream {
            size: 65_536,
            ..stream
        };
        assert!(rt; fetched(&rt, whole) == (wanted, 0));
    }
}

#[test]
fn a_reply_becomes_a_page(rt: HostRuntime) {
    let place = Place::new(rt.alloc(), b'0', b"/moon", b"h", 70).expect(&rt, "a place");
    let scope = scope(rt.alloc(), b"h").expect(&rt, "a scope");
    let bytes = Vec::from_slice(rt.alloc(), b"moon\r\n.\r\n").expect(&rt, "a reply");
    let page = settle(rt.alloc(), &scope, &place, Ok(bytes)).ok();
    assert!(rt; page.expect(&rt, "a page").count(b"moon") == 1);
    let failed = settle(rt.alloc(), &scope, &place, Err(Why::Read));
    assert!(rt; matches!(failed, Err(Why::Read)));
}
