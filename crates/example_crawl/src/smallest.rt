//! The smallest use of the library: one catalogue crawls the host, and is searched.

use crate::burrow::{Host, PLACES, catalogue, scope, seeds};
use crate::failed::Failed;
use gopher_catalogue::{Catalogue, Hit, Turn, Why};
use gopher_page::{Page, Query};
use std::alloc::Global;

// Claims one place after another, and records what the fetch of each gave.
fn crawl(alloc: Global, catalogue: &mut Catalogue) -> Option<()> {
    let host = Host::new();
    for _claim in 0..PLACES {
        let Turn::Take(claim) = catalogue.claim().ok()? else {
            break;
        };
        if let Some(reply) = host.reply(claim.place.selector()) {
            let scope = catalogue.opening().scope();
            let page = Page::of(alloc, scope, &claim.place, reply).ok()?;
            let _added = catalogue.found(claim.number, page).ok()?;
        } else {
            catalogue.fail(claim.number, Why::Read).ok()?;
        }
    }
    Some(())
}

/// Prints the scores and titles of hits.
pub fn print_hits<R: Print>(rt: &R, hits: &[Hit]) -> Result<(), Failed> {
    for hit in hits {
        let title = str::from_utf8(hit.title.as_slice()).unwrap_or("?");
        println!(rt; "{} {title}", hit.score)?;
    }
    Ok(())
}

/// Prints how far the crawl came.
pub fn print_status<R: Print>(rt: &R, catalogue: &Catalogue) -> Result<(), Failed> {
    let status = catalogue.status();
    println!(rt; "{} places known, {} done", status.known, status.done)?;
    Ok(())
}

/// Crawls, searches, and prints what was found.
pub fn searched<R: Print + AllocGlobal>(rt: &R, query: &Query) -> Option<()> {
    let scope = scope(rt.alloc()).ok()?;
    let seeds = seeds(rt.alloc()).ok()?;
    let mut catalogue = catalogue(rt.alloc(), scope, seeds).ok()?;
    crawl(rt.alloc(), &mut catalogue)?;
    print_hits(rt, &catalogue.search(query).ok()?).ok()?;
    print_status(rt, &catalogue).ok()
}
