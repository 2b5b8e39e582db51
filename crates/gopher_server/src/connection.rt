//! One connection with a client.

ghost use Rattle.std.specs.Prelude.{◌≡◌, ◌≢◌, ◌&&◌, false, length, nat_lt, true, None};
ghost use Rattle.std.specs.Option.{is_some, option_map_or};
ghost use Rattle.gopher_serve.specs.Talk.{asked_of};
ghost use Rattle.gopher_serve.specs.declared.advancing.Progress.TheVariants.{Done, Paused};
ghost use Rattle.gopher_server.specs.declared.decisions.next.Next.TheVariants.{Lingers};
ghost use Rattle.gopher_server.specs.RequestLine.{search_of};
ghost use Rattle.gopher_server.specs.ThreadLog.{LogsRequest};
ghost use Rattle.gopher_server.specs.Unread.{CutsVisibly, IsHandedOver, IsWhole, SaysAll};

use crate::decisions::Next;
use crate::logging::{Accepted, RequestEnd, ThreadLog, search_of};
use crate::request_reader::RequestReader;
use crate::send_buffer::ReplyWriter;
use gopher_serve::{Answers, Conversation, Progress, ServeFault, advance, converse};
use gopher_text::Watched;
use mio::net::TcpStream;
use mio::{Interest, Registry, Token};
use std::alloc::Global;
use std::io::{self, ErrorKind, Read};
use std::net::Shutdown;
use std::sync::Wait;
use std::time::Clock;

/// The bytes that are read at once. A request line has at most 1,026.
pub(crate) const BUFFER_BYTES: usize = 4_096;

// A connection lingers after a reply of more bytes.
const LINGER_ABOVE: usize = 65_536;

// A search string of more bytes is long: its search isn't begun while others wait. A shorter one
// has at most 64 terms; its search is begun, and dropped again if it then waits for its turn.
const LONG_SEARCH: usize = 128;

// The most steps up to the end of a line: a line has at most 1,026 bytes.
const MAX_LISTENS: u32 = 2_048;

// The most reads of a connection before other events are handled.
const MAX_READS: u32 = 16;

/// What a thread answers its clients with.
#[derive(Drop)]
pub(crate) struct Answering<A: Drop> {
    pub(crate) alloc: Global,
    pub(crate) answers: A,
    pub(crate) buffer: [u8; BUFFER_BYTES],
    /// Whether a client got no whole reply because memory ran out.
    pub(crate) is_short: bool,
}

/// A connection with a client, which never waits.
#[derive(Drop)]
pub(crate) struct Connection<'a> {
    stream: TcpStream,
    pub(crate) conversation: Conversation<'a>,
    /// The number of its client's network.
    pub(crate) network: u64,
    accepted: Option<Accepted>,
    // How many bytes of its request were read and are still in the system's queue. While there are
    // some, it is reset if it is closed or the process ends. They are taken once the system has the
    // whole reply.
    unread: usize,
    // What the poll reports of it; nothing so far if `None`.
    reported: Option<Interest>,
}

/// What came of going on with a connection.
#[derive(Clone, Copy)]
pub(crate) struct Step {
    /// What is done next with it.
    pub(crate) next: Next,
    /// Whether the system now queues more for its client than for others.
    pub(crate) is_enlarged: bool,
}

// Whether a line has a long search string.
fn has_long_search(asked: &[u8]) -> bool
    ensures { result ≡ nat_lt 128 (length (search_of asked.now)) }
{
    search_of(asked).len() > LONG_SEARCH
}

// Whether a connection lingers after `sent` bytes of a reply. `has_ended` says whether the sending
// side could be ended.
fn lingers_after(has_ended: bool, sent: usize) -> bool
    ensures { result ≡ (has_ended && nat_lt 65_536 sent) }
{
    has_ended && sent > LINGER_ABOVE
}

// Takes the steps of a conversation up to the end of its line. The progress is then `Paused`.
fn hear<'a, A: Answers<'a> + Drop>(
    conversation: &mut Conversation<'a>,
    answering: &mut Answering<A>,
    reader: &mut Watched<&mut RequestReader<'_>>,
) -> Progress
    ensures asked { result ≡ Paused → is_some (asked_of conversation.new) ≡ true }
    ensures ends { result ≢ Done }
{
    for _step in 0..MAX_LISTENS {
        if conversation.asked_line().is_some() {
            return Progress::Paused;
        }
        let progress = advance(
            answering.alloc,
            conversation,
            &mut answering.answers,
            reader,
            &mut Watched::new(io::sink()),
            &mut answering.buffer,
        );
        if progress != Progress::Paused {
            return progress;
        }
    }
    Progress::Failed(ServeFault::TooManyTurns)
}

// Reads the line of a conversation to the end; the progress is then `Paused`. Returns the progress,
// and how many bytes of the request the reader left in the system's queue.
fn listen<'a, A: Answers<'a> + Drop>(
    conversation: &mut Conversation<'a>,
    answering: &mut Answering<A>,
    reader: &mut RequestReader<'_>,
) -> (Progress, usize)
    ensures asked { result.0 ≡ Paused → is_some (asked_of conversation.new) ≡ true }
    ensures ends { result.0 ≢ Done }
    ensures unread { result.1 ≡ reader.new.unread }
{
    let heard = hear(conversation, answering, &mut Watched::new(&mut *reader));
    (heard, reader.unread)
}

// Takes what was read of a request out of the system's queue.
fn take_request(mut stream: &TcpStream, buffer: &mut [u8; BUFFER_BYTES]) {
    for _read in 0..MAX_READS {
        match stream.read(buffer) {
            Err(error) if error.kind() == ErrorKind::Interrupted => {}
            _ => return,
        }
    }
}

impl<'a> Connection<'a> {
    /// Makes a connection with a client of this network that has read nothing yet. `accepted` is
    /// there if its request is logged.
    pub(crate) fn new(
        alloc: Global,
        stream: TcpStream,
        network: u64,
        accepted: Option<Accepted>,
    ) -> Connection<'a> {
        Connection {
            stream,
            conversation: Conversation::new(alloc),
            network,
            accepted,
            unread: 0,
            reported: None,
        }
    }

    /// Returns whether it has asked something: its line is known.
    pub(crate) fn has_asked(&self) -> bool
        ensures { result ≡ is_some (asked_of self.now.conversation) }
    {
        self.conversation.asked_line().is_some()
    }

    // Whether its line is known and has a long search string.
    fn asks_long_search(&self) -> bool
        ensures { result ≡ option_map_or (λ asked. nat_lt 128 (length (search_of asked)))
            (asked_of self.now.conversation) false }
    {
        match self.conversation.asked_line() {
            Some(asked) => has_long_search(asked),
            None => false,
        }
    }

    // What it waits for. It waits for room to write only while it has a reply to send, and then for
    // nothing else, because a report that it doesn't need costs a round.
    fn interest(&self, lingers: bool) -> Interest {
        if lingers || self.conversation.asked_line().is_none() {
            Interest::READABLE
        } else {
            Interest::WRITABLE
        }
    }

    /// Has the poll report by `key` when its client is ready, even if it is ready already, unless
    /// the reports suffice for what is done next with it. `lingers` says whether it lingers.
    /// Returns false if the system refuses.
    pub(crate) fn watch(
        &mut self,
        registry: &Registry,
        key: usize,
        next: Next,
        lingers: bool,
    ) -> bool {
        let interest = self.interest(lingers);
        let suffice = match next {
            Next::GoesOn | Next::Lingers => false,
            Next::Waits => self.reported == Some(interest),
            _ => self.reported.is_some(),
        };
        if suffice {
            return true;
        }
        let watched = match self.reported {
            Some(_) => registry.reregister(&mut self.stream, Token(key), interest),
            None => registry.register(&mut self.stream, Token(key), interest),
        };
        self.reported = Some(interest);
        watched.is_ok()
    }

    /// Goes on while the client is ready, until its reply is sent. If a search makes the reply,
    /// takes one step of it. If it may enlarge its queue, the system then queues more of a long
    /// reply. If `is_held_back`, it doesn't begin a long search.
    pub(crate) fn go_on<A: Answers<'a> + Drop>(
        &mut self,
        answering: &mut Answering<A>,
        may_enlarge: bool,
        is_held_back: bool,
    ) -> Step
        ensures whole { IsHandedOver result.next → IsWhole self.new }
        ensures cut { CutsVisibly self.old self.new result.next }
    {
        let mut progress = Progress::Paused;
        let mut is_enlarged = false;
        if self.conversation.asked_line().is_none() {
            let mut reader = RequestReader::new(&self.stream, self.unread);
            let heard = listen(&mut self.conversation, answering, &mut reader);
            progress = heard.0;
            self.unread = heard.1;
            if is_held_back && self.asks_long_search() {
                return Step {
                    next: Next::Searches,
                    is_enlarged: false,
                };
            }
        }
        if progress == Progress::Paused {
            (progress, is_enlarged) = self.talk(answering, may_enlarge);
        }
        answering.is_short |= progress == Progress::Failed(ServeFault::NoMemory);
        let lingers = progress == Progress::Done && self.end_reply(&mut answering.buffer);
        Step {
            next: Next::after(progress, lingers),
            is_enlarged,
        }
    }

    /// Adds its request to the log, unless that was done or no line was asked. If a clock can't be
    /// read, counts it as dropped.
    pub(crate) fn log_request<R: Wait + Clock>(
        &mut self,
        rt: &R,
        alloc: Global,
        log: &mut ThreadLog,
    )
        ensures logged { LogsRequest self.old.accepted self.old.conversation log.old log.new }
        ensures once { self.new.accepted ≡ None }
    {
        let (asked, sent) = (self.conversation.asked_line(), self.conversation.sent_len());
        let (Some(accepted), Some(asked)) = (self.accepted.take(), asked) else {
            return;
        };
        match RequestEnd::now(rt) {
            Some(end) => log.add(rt, alloc, accepted, asked, sent as u64, end),
            None => log.drop_request(),
        }
    }

    // Sends its reply while the client is ready and no search makes the reply. It reads nothing.
    // Returns the progress, and whether the system now queues more for the client.
    fn talk<A: Answers<'a> + Drop>(
        &mut self,
        answering: &mut Answering<A>,
        may_enlarge: bool,
    ) -> (Progress, bool)
        ensures unread { self.new.unread ≡ self.old.unread }
        ensures ends { result.0 ≢ Paused }
        ensures whole { result.0 ≡ Done → SaysAll self.new.conversation }
    {
        let mut writer = Watched::new(ReplyWriter::new(&self.stream, may_enlarge));
        let progress = converse(
            answering.alloc,
            &mut self.conversation,
            &mut answering.answers,
            &mut Watched::new(io::empty()),
            &mut writer,
            &mut answering.buffer,
        );
        (progress, writer.into_inner().is_large)
    }

    // Takes its request out of the system's queue, now that the system has the whole reply, and
    // ends the sending side: the client sees the end of the reply. It may have sent more than its
    // line, and a connection that is closed over unread bytes is reset, which takes from the client
    // what it hasn't read of the reply. So after a large reply it lingers. Returns whether it does.
    fn end_reply(&mut self, buffer: &mut [u8; BUFFER_BYTES]) -> bool
        ensures unread { self.new.unread ≡ 0 }
        ensures conversation { self.new.conversation ≡ self.old.conversation }
    {
        take_request(&self.stream, buffer);
        self.unread = 0;
        let ended = self.stream.shutdown(Shutdown::Write);
        lingers_after(ended.is_ok(), self.conversation.sent_len())
    }

    /// Reads what the client still sends after its reply. Returns what is done next with it.
    pub(crate) fn read_on(&mut self, buffer: &mut [u8; BUFFER_BYTES]) -> Next
        ensures set { result ≢ Lingers }
    {
        for _read in 0..MAX_READS {
            match (&self.stream).read(buffer) {
                Ok(0) => return Next::Ends,
                Ok(_) => {}
                Err(error) => match error.kind() {
                    ErrorKind::Interrupted => {}
                    ErrorKind::WouldBlock => return Next::Waits,
                    _ => return Next::Breaks,
                },
            }
        }
        Next::GoesOn
    }
}
