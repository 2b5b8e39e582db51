//! The commands of a script during its crawl. Each function returns the bytes of the answer.

ghost use Rattle.gopher_script.specs.Answer.{ReturnsBytes};
ghost use Rattle.gopher_script.specs.Stage.{claim_step, page_step, found_step, fail_step, search_lines, occurs_lines, TakesStep};

use crate::command::{PlaceParts, QueryText};
use crate::lines::{added_line, ok_line, refused_line, take_line};
use crate::listing::{hits_lines, places_lines};
use gopher_catalogue::{Catalogue, Turn, Why};
use gopher_item::{NoMemory, Place};
use gopher_page::{Page, Query};
use gopher_text::MAX_REPLY;
use std::alloc::Global;

/// Claims the next place.
pub fn claim(alloc: Global, crawl: &mut Catalogue) -> Result<Vec<u8>, NoMemory>
    ensures { TakesStep (claim_step crawl.old) crawl.new result }
{
    match crawl.claim()? {
        Turn::Take(claim) => take_line(alloc, claim.number, &claim.place),
        Turn::Idle => Ok(Vec::from_slice(alloc, b"idle\n")?),
        Turn::Finished => Ok(Vec::from_slice(alloc, b"finished\n")?),
    }
}

/// Records the page that `reply` makes for a number.
pub fn found(
    alloc: Global,
    crawl: &mut Catalogue,
    number: u32,
    parts: &PlaceParts<'_>,
    reply: &[u8],
) -> Result<Vec<u8>, NoMemory>
    ensures { TakesStep (found_step crawl.old number parts.now reply.now) crawl.new result }
{
    match parts.make(alloc) {
        Ok(place) => found_at(alloc, crawl, number, &place, reply),
        Err(fault) => refused_line(alloc, fault.code()),
    }
}

fn found_at(
    alloc: Global,
    crawl: &mut Catalogue,
    number: u32,
    place: &Place,
    reply: &[u8],
) -> Result<Vec<u8>, NoMemory>
    ensures { TakesStep (page_step crawl.old number place.now reply.now) crawl.new result }
{
    // For the prover: a block is no longer than its script.
    if reply.len() > MAX_REPLY {
        return Err(NoMemory);
    }
    let page = Page::of(alloc, crawl.opening().scope(), place, reply)?;
    match crawl.found(number, page) {
        Ok(added) => {
            crawl.settle();
            added_line(alloc, added)
        }
        Err(refused) => refused_line(alloc, refused.fault.code()),
    }
}

/// Records that the place of a number failed.
pub fn fail(
    alloc: Global,
    crawl: &mut Catalogue,
    number: u32,
    why: Why,
) -> Result<Vec<u8>, NoMemory>
    ensures { TakesStep (fail_step crawl.old number why) crawl.new result }
{
    match crawl.fail(number, why) {
        Ok(()) => ok_line(alloc),
        Err(refused) => refused_line(alloc, refused.code()),
    }
}

/// Searches the pages that were found.
pub fn search(alloc: Global, crawl: &Catalogue, text: &QueryText<'_>) -> Result<Vec<u8>, NoMemory>
    ensures { ReturnsBytes result (search_lines crawl.now text.now) }
{
    match Query::read(alloc, text.as_slice()) {
        Ok(query) => hits_lines(alloc, &crawl.search(&query)?),
        Err(why) => refused_line(alloc, why.code()),
    }
}

/// Looks up the places of the pages that contain a word.
pub fn occurs(alloc: Global, crawl: &Catalogue, word: &[u8]) -> Result<Vec<u8>, NoMemory>
    ensures { ReturnsBytes result (occurs_lines crawl.now word.now) }
{
    places_lines(alloc, &crawl.occurrences(word)?)
}
