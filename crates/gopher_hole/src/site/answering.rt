//! The reply to a request line, made anew (`answer`) or from kept replies (`answer_kept`, and with
//! aliases `answer_aliased`).

ghost use Rattle.std.specs.Prelude.{◌≡◌, codes, IfOk, OnErr};
ghost use Rattle.gopher_tree.specs.Reply.{error_bytes};
ghost use Rattle.gopher_serve.specs.Answer.{IfAnswered};
ghost use Rattle.gopher_crew.specs.Pass.{SeesOn};
ghost use Rattle.gopher_hole.specs.Answer.{AnswersFrom, AnswersLine, AnswersRequest, AnswersWith, IfBytes, is_search};

use crate::aliases::Aliases;
use crate::site::searching::begin_search;
use gopher_crew::{Crew, Pass};
use gopher_item::{ByteString, Home, NoMemory, RequestFault, read_request};
use gopher_serve::{Answer, Replies};
use gopher_tree::{Tree, error_reply};
use std::alloc::Global;

/// Returns the reply of a server to a request line (RFC 1436, section 2). `line` is without its
/// end.
///
/// - The line is over 1,024 bytes (`MAX_LINE`), or its selector is over 255 bytes or contains a CR,
///   LF or NUL: the error reply `Bad request`.
/// - The selector is `/search`: the hits as a menu. If the line has no search string, or one
///   without words, the error reply `No words`. If the published catalogue can't be entered (61),
///   and only then, the error reply `No catalogue`.
/// - Any other selector: the reply of `Tree::reply`.
///
/// The pass searches only if there are words to search for. It answers from a record that begins
/// with the records that it had seen and was told.
///
/// # Errors
///
/// Out of memory (90). The pass may have seen more.
pub fn answer<C: Crew>(
    alloc: Global,
    tree: &Tree,
    home: &Home,
    pass: &mut Pass<C>,
    line: &[u8],
) -> Result<Vec<u8>, NoMemory>
    ensures reply { IfBytes result (AnswersLine tree.now home.now pass.old pass.new line.now) }
    ensures refused { OnErr result (SeesOn pass.old pass.new) }
{
    match read_request(alloc, line) {
        Ok(request) if is_search(request.selector.as_slice()) => {
            begin_search(alloc, home, pass, &request.search)?.finish(alloc)
        }
        Ok(request) => tree.reply(alloc, request.selector.as_slice(), home),
        Err(RequestFault::NoMemory) => Err(NoMemory),
        Err(_bad) => bad_request(alloc, home),
    }
}

/// Returns the reply that `answer` returns, from replies that are kept, or a search that makes it.
/// The search answers from the record that was published when it began.
///
/// # Errors
///
/// Out of memory (90). The pass may have seen more.
#[tactic(auto, using(crate::proofs::SiteLeads::no_aliases))]
pub fn answer_kept<'a, C: Crew>(
    alloc: Global,
    replies: &'a Replies,
    pass: &mut Pass<C>,
    line: &[u8],
) -> Result<Answer<'a>, NoMemory>
    ensures reply { IfAnswered result (AnswersFrom replies.now pass.old pass.new line.now) }
    ensures refused { OnErr result (SeesOn pass.old pass.new) }
{
    answer_aliased(alloc, replies, &Aliases::none(alloc), pass, line)
}

/// Returns the reply that `answer_kept` returns, except that a valid request whose selector has an
/// alias gets the reply of that selector, with the search string of the request. The selector that
/// the alias names isn't looked up again.
///
/// # Errors
///
/// Out of memory (90). The pass may have seen more.
pub fn answer_aliased<'a, C: Crew>(
    alloc: Global,
    replies: &'a Replies,
    aliases: &Aliases,
    pass: &mut Pass<C>,
    line: &[u8],
) -> Result<Answer<'a>, NoMemory>
    ensures reply { IfAnswered result
        (AnswersWith replies.now aliases.now pass.old pass.new line.now) }
    ensures refused { OnErr result (SeesOn pass.old pass.new) }
{
    match read_request(alloc, line) {
        Ok(request) => {
            let selector = aliases.answered_selector(request.selector.as_slice());
            answer_request(alloc, replies, pass, selector, &request.search)
        }
        Err(RequestFault::NoMemory) => Err(NoMemory),
        Err(_bad) => Ok(Answer::Made(bad_request(alloc, replies.home())?)),
    }
}

// The reply to a request with this selector and this search string, or a search that makes it.
fn answer_request<'a, C: Crew>(
    alloc: Global,
    replies: &'a Replies,
    pass: &mut Pass<C>,
    selector: &[u8],
    search: &Option<ByteString>,
) -> Result<Answer<'a>, NoMemory>
    ensures reply { IfAnswered result (AnswersRequest replies.now.files replies.now.home
        pass.old pass.new (record { selector = selector.now; search = search.now })) }
    ensures refused { OnErr result (SeesOn pass.old pass.new) }
{
    if is_search(selector) {
        begin_search(alloc, replies.home(), pass, search)
    } else {
        replies.reply(alloc, selector)
    }
}

// Whether the selector is that of the search line.
fn is_search(selector: &[u8]) -> bool
    ensures { result ≡ is_search selector.now }
{
    selector == b"/search".as_slice()
}

// The reply to an invalid line.
fn bad_request(alloc: Global, home: &Home) -> Result<Vec<u8>, NoMemory>
    ensures { IfOk result (λ reply. reply.items ≡ error_bytes (codes "Bad request") home.now) }
{
    error_reply(alloc, b"Bad request", home)
}
