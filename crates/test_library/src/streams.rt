//! Lines and replies that are read from streams, and bytes that are sent: which calls are tried
//! again, where each ends, and with which fault.
ghost use Rattle.std.specs.Prelude.{◌≤◌};

use crate::stream::{Ending, Letters, Stream, many_letters};
use gopher_text::{Watched, read_line_from, read_reply, send};
use std::alloc::Global;
use std::io::Write;

// A reader that gives a byte a read, each after this number of interrupted reads.
fn slow(given: &[u8], interruptions: u32, ending: Ending) -> Stream<'_> {
    Stream {
        size: 1,
        interruptions,
        now: interruptions,
        ..Stream::giving(given, ending)
    }
}

// The length of a line, or the number of its fault; how many bytes are unread, and how many reads
// failed.
type LineEnd = (Result<usize, u8>, usize, u64);

fn line_of(alloc: Global, reader: Stream) -> LineEnd {
    let mut reader = Watched::new(reader);
    let end = match read_line_from(alloc, &mut reader) {
        Ok(line) => Ok(line.len()),
        Err(fault) => Err(fault.code()),
    };
    let failures = reader.failures();
    (end, reader.into_inner().given.len(), failures)
}

// How many times the byte `a` a line has, its end, and how many reads are interrupted before each
// byte. With three of them, 4,096 reads reach the LF after 1,023 bytes.
const LINES: &[(usize, &[u8], u32, LineEnd)] = &[
    (0, b"\n", 4_095, (Ok(0), 0, 4_095)),
    (0, b"\n", 4_096, (Err(11), 1, 4_096)),
    (1_023, b"\n", 3, (Ok(1_023), 0, 3_072)),
    (1_024, b"\n", 3, (Err(11), 1, 3_072)),
    (6, b"\r\nextra", 0, (Ok(6), 5, 0)),
    (1, b"\r\r\n\n", 0, (Ok(2), 1, 0)),
    (0, b"\n", 0, (Ok(0), 0, 0)),
    (0, b"", 0, (Ok(0), 0, 0)),
    (6, b"\r", 0, (Ok(7), 0, 0)),
    (1_024, b"\r\nb", 0, (Ok(1_024), 1, 0)),
    (1_024, b"", 0, (Ok(1_024), 0, 0)),
    (1_025, b"\nb", 0, (Err(7), 1, 0)),
    (1_024, b"\r", 0, (Err(7), 0, 0)),
    (1_026, b"", 0, (Err(7), 0, 0)),
    (1_030, b"\n", 0, (Err(7), 5, 0)),
];

fn line_of_letters(alloc: Global, count: usize, end: &[u8], interruptions: u32) -> Option<LineEnd> {
    let mut bytes = many_letters(alloc, count)?;
    bytes.extend_from_slice(end).ok()?;
    Some(line_of(alloc, slow(&bytes, interruptions, Ending::Ends)))
}

#[test]
fn lines_are_read_within_4096_reads(rt: HostRuntime) {
    for (count, end, interruptions, wanted) in LINES {
        let line = line_of_letters(rt.alloc(), *count, end, *interruptions);
        assert!(rt;
            line == Some(*wanted),
            "{count} letters and {interruptions} interruptions"
        );
    }
}

#[test]
fn a_read_that_fails_or_would_wait_ends_a_line(rt: HostRuntime) {
    let line: &[u8] = b"/a.txt\r\n";
    for count in 0..line.len() {
        let fails = slow(&line[..count], 0, Ending::Fails);
        let waits = slow(&line[..count], 0, Ending::Waits);
        assert!(rt; line_of(rt.alloc(), fails) == (Err(10), 0, 1));
        assert!(rt; line_of(rt.alloc(), waits) == (Err(10), 0, 1));
    }
    assert!(rt; line_of(rt.alloc(), slow(line, 0, Ending::Fails)) == (Ok(6), 0, 0));
}

// Whether a reply of at most `limit` bytes is what the reader has, or else the number of its fault
// (0 for other bytes); and how many bytes are unread.
fn reply_of(alloc: Global, reader: Stream, limit: usize) -> (Result<(), u8>, usize)
    requires { limit ≤ 1048576 }
{
    let given = reader.given;
    let mut reader = Watched::new(reader);
    let end = match read_reply(alloc, &mut reader, limit) {
        Ok(reply) if reply.as_slice() == given => Ok(()),
        Ok(_other) => Err(0),
        Err(fault) => Err(fault.code()),
    };
    (end, reader.into_inner().given.len())
}

// The length of the reply that has this number of letters, one a read after an interrupted read; or
// the number of its fault, 0 for other bytes.
fn slow_reply(alloc: Global, count: u32) -> Option<Result<usize, u8>> {
    let wanted = many_letters(alloc, count as usize)?;
    match read_reply(alloc, &mut Watched::new(Letters::new(count)), 1_048_576) {
        Ok(reply) if reply.as_slice() == wanted.as_slice() => Some(Ok(reply.len())),
        Ok(_other) => Some(Err(0)),
        Err(fault) => Some(Err(fault.code())),
    }
}

#[test]
fn a_reply_is_read_with_2097151_reads(rt: HostRuntime) {
    assert!(rt; slow_reply(rt.alloc(), 1_048_575) == Some(Ok(1_048_575)));
}

#[test]
fn a_reply_is_not_read_with_2097153_reads(rt: HostRuntime) {
    assert!(rt; slow_reply(rt.alloc(), 1_048_576) == Some(Err(11)));
}

#[test]
fn a_reply_has_at_most_a_mebibyte(rt: HostRuntime) {
    let bytes = many_letters(rt.alloc(), 1_048_580).expect(&rt, "memory");
    for (count, wanted) in [(1_048_576usize, (Ok(()), 0)), (1_048_580, (Err(12), 3))] {
        let reader = Stream {
            size: 65_536,
            ..slow(&bytes[..count.min(bytes.len())], 0, Ending::Ends)
        };
        assert!(rt; reply_of(rt.alloc(), reader, 1_048_576) == wanted);
    }
}

// What a reader gives, how many reads are interrupted before each byte, how it goes on, the limit, and
// how the reply ends.
const REPLIES: &[(&[u8], u32, Ending, usize, (Result<(), u8>, usize))] = &[
    (b"abc", 0, Ending::Ends, 3, (Ok(()), 0)),
    (b"abcd", 0, Ending::Ends, 3, (Err(12), 0)),
    (b"", 0, Ending::Ends, 0, (Ok(()), 0)),
    (b"a", 0, Ending::Ends, 0, (Err(12), 0)),
    (b"a", 4_095, Ending::Ends, 3, (Ok(()), 0)),
    (b"aa", 3, Ending::Fails, 3, (Err(10), 0)),
    (b"aa", 3, Ending::Waits, 3, (Err(10), 0)),
];

#[test]
fn replies_are_read_up_to_a_limit(rt: HostRuntime) {
    for (given, interruptions, ending, limit, wanted) in REPLIES {
        assert!(rt; *limit <= 1_048_576);
        let reader = slow(given, *interruptions, *ending);
        assert!(rt;
            reply_of(rt.alloc(), reader, *limit) == *wanted,
            "at most {limit}"
        );
    }
}

// How many bytes are sent before the fault, if there is one; how many are left, and how many calls
// failed, of which the last is a flush.
type SendEnd = (Option<(u8, usize)>, usize, u64);

fn sent(bytes: &[u8], writer: Stream) -> SendEnd {
    let flushes = writer.ending == Ending::Ends;
    let mut writer = Watched::new(writer);
    let fault = match send(&mut writer, bytes) {
        Ok(()) => None,
        Err(fault) => Some((fault.code(), fault.sent)),
    };
    let flushed = writer.flush();
    let failures = if flushed.is_ok() == flushes {
        writer.failures()
    } else {
        u64::MAX
    };
    (fault, writer.into_inner().left.len(), failures)
}

// What is sent; how many bytes the writer takes, and how many a call; how many writes are
// interrupted before the first and before each other.
const SENT: &[(&[u8], usize, usize, u32, u32, Ending, SendEnd)] = &[
    (b"abcdef", 4, 4, 0, 0, Ending::Fails, (Some((13, 4)), 2, 2)),
    (b"abcdef", 6, 3, 0, 0, Ending::Fails, (None, 0, 1)),
    (b"abcdef", 6, 3, 1, 1, Ending::Ends, (None, 0, 2)),
    (b"ab", 2, 2, 4_095, 0, Ending::Ends, (None, 0, 4_095)),
    (
        b"ab",
        2,
        1,
        0,
        4_096,
        Ending::Ends,
        (Some((13, 1)), 1, 4_096),
    ),
    (b"ab", 0, 2, 0, 0, Ending::Ends, (Some((13, 0)), 2, 1)),
    (b"ab", 1, 2, 0, 0, Ending::Waits, (Some((13, 1)), 1, 2)),
];

#[test]
fn bytes_are_sent_or_a_fault_says_how_many(rt: HostRuntime) {
    for (bytes, room, size, now, interruptions, ending, wanted) in SENT {
        let writer = Stream {
            size: *size,
            interruptions: *interruptions,
            now: *now,
            ..Stream::taking(bytes, *room, *ending)
        };
        assert!(rt;
            sent(bytes, writer) == *wanted,
            "at {room} of {size} after {now}"
        );
    }
}
