//! The reply to a line that searches.

ghost use Rattle.std.specs.Prelude.{◌≡◌, ◌<◌, IfOk, OnErr, length};
ghost use Rattle.gopher_serve.specs.Answer.{IfAnswered};
ghost use Rattle.gopher_crew.specs.Pass.{SeesOn};
ghost use Rattle.gopher_hole.specs.Answer.{AnswersTerms, IsQueryFor, asked};

use gopher_crew::{Crew, Pass, SearchFault};
use gopher_index::Begun;
use gopher_item::{ByteString, Home, MAX_LINE, NoMemory};
use gopher_page::{Query, QueryFault};
use gopher_serve::{Answer, hits_menu};
use gopher_tree::error_reply;
use std::alloc::Global;

// The query of a search string; none if there are no words.
fn query_of(alloc: Global, search: &Option<ByteString>) -> Result<Option<Query>, NoMemory>
    ensures { IfOk result (IsQueryFor (asked search.now)) }
{
    let Some(text) = search else {
        return Ok(None);
    };
    // For the prover: a search string is no longer than its line.
    if text.as_slice().len() > MAX_LINE {
        return Err(NoMemory);
    }
    match Query::read(alloc, text.as_slice()) {
        Ok(query) => Ok(Some(query)),
        Err(QueryFault::NoWords) => Ok(None),
        Err(QueryFault::NoMemory) => Err(NoMemory),
    }
}

/// Returns the reply to a search, or a search that makes it. `search` is the search string, if the
/// line has one.
pub fn begin_search<'a, C: Crew>(
    alloc: Global,
    home: &Home,
    pass: &mut Pass<C>,
    search: &Option<ByteString>,
) -> Result<Answer<'a>, NoMemory>
    ensures reply { IfAnswered result (AnswersTerms home.now pass.old pass.new (asked search.now)) }
    ensures refused { OnErr result (SeesOn pass.old pass.new) }
{
    match query_of(alloc, search)? {
        Some(query) => look_up(alloc, home, pass, &query),
        None => Ok(Answer::Made(error_reply(alloc, b"No words", home)?)),
    }
}

// The reply to a query, or a search that makes it.
#[tactic(auto, using(crate::proofs::Searches::answers_hits, crate::proofs::Searches::answers_none))]
fn look_up<'a, C: Crew>(
    alloc: Global,
    home: &Home,
    pass: &mut Pass<C>,
    query: &Query,
) -> Result<Answer<'a>, NoMemory>
    requires { 0 < length query.now }
    ensures reply { IfAnswered result (AnswersTerms home.now pass.old pass.new query.now) }
    ensures refused { OnErr result (SeesOn pass.old pass.new) }
{
    match pass.begin(query) {
        Ok(Begun::Found(hits)) => Ok(Answer::Made(hits_menu(alloc, &hits)?)),
        Ok(Begun::Searching(search)) => Ok(Answer::Searching(search)),
        Err(SearchFault::NoEntry) => {
            Ok(Answer::Made(error_reply(alloc, b"No catalogue", home)?))
        }
        Err(SearchFault::NoMemory) => Err(NoMemory),
    }
}
