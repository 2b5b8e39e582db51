//! Conversations over streams in memory, which fail, end and would wait at each place. What lines
//! of each length are replied to is shown by tests/attack.py, and clients that send in pieces by
//! tests/requests.py.
ghost use Rattle.std.specs.Prelude.{◌<◌, length};

use crate::requests::HELLO;
use crate::stream::{Ending, Stream};
use gopher_item::NoMemory;
use gopher_serve::{Answer, Answers, Conversation, Progress, ServeFault, converse};
use gopher_text::Watched;
use std::alloc::Global;

const LINE: &[u8] = b"/a.txt\r\n";

/// Gives the text at `/a.txt`, and else nothing.
#[derive(Drop)]
pub struct Fixed;

impl<'a> Answers<'a> for Fixed {
    ghost use Rattle.std.specs.Prelude.{◌≡◌};

    ghost gives = { λ before after line reply. reply ≡ reply };

    ghost leads_to = { λ before after. before ≡ before };

    fn answer(&mut self, _alloc: Global, line: &[u8]) -> Result<Answer<'a>, NoMemory> {
        Ok(Answer::Kept(match line {
            b"/a.txt" => HELLO,
            _ => b"",
        }))
    }
}

// How a conversation goes on over these streams, how much of its reply is unsent, and how many reads
// and writes failed.
fn converses(
    alloc: Global,
    conversation: &mut Conversation<'static>,
    reader: Stream,
    writer: Stream,
) -> (Progress, usize, (u64, u64)) {
    let mut reader = Watched::new(reader);
    let mut writer = Watched::new(writer);
    let (from, to) = (&mut reader, &mut writer);
    let progress = converse(alloc, conversation, &mut Fixed, from, to, &mut [0; 8]);
    let failures = (reader.failures(), writer.failures());
    (progress, writer.into_inner().left.len(), failures)
}

// How a conversation ends that hears this and has this much room for its reply, and how much of the
// reply is unsent.
fn conversed(alloc: Global, heard: &[u8], room: usize, ending: Ending) -> (Progress, usize) {
    let mut conversation = Conversation::new(alloc);
    let reader = Stream::giving(heard, ending);
    let writer = Stream::taking(HELLO, room, ending);
    let (progress, unsent, _failures) = converses(alloc, &mut conversation, reader, writer);
    (progress, unsent)
}

// How a conversation goes on if a read of its line, or a write of its reply, ends so.
const ENDS: [(Ending, Progress, Progress); 2] = [
    (Ending::Waits, Progress::Waits, Progress::Waits),
    (
        Ending::Fails,
        Progress::Failed(ServeFault::ReadFailed),
        Progress::Failed(ServeFault::WriteFailed),
    ),
];

#[test]
fn a_conversation_waits_or_fails_at_each_place(rt: HostRuntime) {
    for (ending, of_line, of_reply) in ENDS {
        for count in 0..LINE.len() {
            assert!(rt; conversed(rt.alloc(), &LINE[..count], 10, ending) == (of_line, 10));
        }
        for room in 0..10usize {
            assert!(rt; conversed(rt.alloc(), LINE, room, ending) == (of_reply, 10 - room));
        }
    }
}

// What a conversation hears, how much room there is for its reply; how it ends, and how much of the
// reply to `/a.txt` is unsent. A line that ends early asks for nothing.
const ROWS: &[(&[u8], usize, Progress, usize)] = &[
    (LINE, 10, Progress::Done, 0),
    (b"/a.txt", 10, Progress::Done, 0),
    (b"/a.tx", 10, Progress::Done, 10),
    (LINE, 4, Progress::Failed(ServeFault::WriteFailed), 6),
    (&[b'a'; 1_024], 10, Progress::Done, 10),
    (
        &[b'a'; 1_026],
        10,
        Progress::Failed(ServeFault::LineTooLong),
        10,
    ),
];

#[test]
fn a_conversation_ends_with_its_reply_or_says_why(rt: HostRuntime) {
    for (heard, room, wanted, unsent) in ROWS {
        assert!(rt; conversed(rt.alloc(), heard, *room, Ending::Ends) == (*wanted, *unsent));
    }
}

// What a conversation hears, how much room there is for its reply, its progress then, and how many
// bytes it has sent in all. Each call that moves bytes is interrupted once.
const STEPS: &[(&[u8], usize, Progress, usize, (u64, u64))] = &[
    (b"/a.", 100, Progress::Waits, 0, (2, 0)),
    (b"", 100, Progress::Waits, 0, (1, 0)),
    (b"txt\r", 100, Progress::Waits, 0, (3, 0)),
    (b"\n", 4, Progress::Waits, 4, (1, 3)),
    (b"", 0, Progress::Waits, 4, (0, 1)),
    (b"", 5, Progress::Waits, 9, (0, 3)),
    (b"", 9, Progress::Done, 10, (0, 1)),
];

#[test]
fn a_conversation_waits_and_goes_on(rt: HostRuntime) {
    let mut conversation = Conversation::new(rt.alloc());
    for (heard, room, wanted, sent, failures) in STEPS {
        let left = &HELLO[conversation.sent_len().min(HELLO.len())..];
        let reader = Stream::giving(heard, Ending::Waits);
        let writer = Stream::taking(left, *room, Ending::Waits);
        let (progress, _unsent, failed) = converses(rt.alloc(), &mut conversation, reader, writer);
        assert!(rt; progress == *wanted && failed == *failures);
        assert!(rt; conversation.sent_len() == *sent);
    }
}
