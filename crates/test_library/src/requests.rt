//! Requests over streams, of which one growth may be refused.

use crate::stream::{Ending, Stream};
use crate::trees::tree_of;
use gopher_crew::{Crew, Pass};
use gopher_hole::serve_one;
use gopher_item::Home;
use gopher_serve::{Replies, ServeFault};
use gopher_text::Watched;
use std::alloc::Global;

type Bytes = &'static [u8];

/// What a reader gives and how it goes on then; the reply; and how the request ends: its fault, how
/// much is left unread, and how much of the reply unsent, since the writer has no more room.
pub type Row = (Bytes, Ending, Bytes, (u8, usize, usize));

/// The text that is served at `/a.txt`.
pub const HELLO: Bytes = b"hello\r\n.\r\n";

const SEARCH: Bytes = b"/search\tdocs\n";

/// Requests before the root's page is found.
pub const EARLY: [Row; 5] = [
    (b"/a.txt\r\nextra", Ending::Ends, HELLO, (0, 5, 0)),
    (SEARCH, Ending::Ends, b".\r\n", (0, 0, 0)),
    (&[b'a'; 1_026], Ending::Ends, HELLO, (7, 0, 10)),
    (b"/a.t", Ending::Fails, HELLO, (10, 0, 10)),
    (b"/a.txt\n", Ending::Ends, HELLO, (13, 0, 3)),
];

/// A request of a pass that sees the root's page.
pub const LATE: Row = (
    SEARCH,
    Ending::Ends,
    b"1Docs\t\tlocalhost\t70\r\n.\r\n",
    (0, 0, 0),
);

/// A request of a pass whose desk is closed.
pub const CLOSED: Row = (
    SEARCH,
    Ending::Ends,
    b"3No catalogue\t\tlocalhost\t7070\r\n.\r\n",
    (0, 0, 0),
);

/// The replies of a tree with a text, at home at localhost. They are made of what comes back if they
/// are refused.
pub fn replies(alloc: Global) -> Option<Replies> {
    let home = Home::new(alloc, b"localhost", 7070).ok()?;
    let tree = tree_of(alloc, &[(b"a.txt", b"hello\n")]).ok()?;
    match Replies::new(alloc, tree, home) {
        Ok(replies) => Some(replies),
        Err(refused) => Replies::new(alloc, refused.tree, refused.home).ok(),
    }
}

/// Serves a request. Returns `None` if it ends in another way than it should.
pub fn served<C: Crew>(
    alloc: Global,
    replies: &Replies,
    pass: &mut Pass<C>,
    row: &Row,
) -> Option<()> {
    let (given, ending, reply, end) = *row;
    let room = reply.len().saturating_sub(end.2);
    let mut reader = Watched::new(Stream::giving(given, ending));
    let mut writer = Watched::new(Stream::taking(reply, room, Ending::Fails));
    let (tree, home) = (replies.tree(), replies.home());
    let served = serve_one(alloc, tree, home, pass, &mut reader, &mut writer);
    let code = served.err().map_or(0, ServeFault::code);
    let (given, left) = (reader.into_inner().given, writer.into_inner().left);
    ((code, given.len(), left.len()) == end).then_some(())
}
