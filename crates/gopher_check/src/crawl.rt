//! `crawl_site`: the site's own crawl over its own tree, in memory.

ghost use Rattle.std.specs.Prelude.{◌≡◌, ◌≤◌, length, vec_len, IfOk, IfErr, OnOk};
ghost use Rattle.std.specs.Arc.{arc_value};
ghost use Rattle.gopher_catalogue.specs.Closure.{Fetched};
ghost use Rattle.gopher_catalogue.specs.Legal.{IsLegal};
ghost use Rattle.gopher_catalogue.specs.Opening.{opening_of};
ghost use Rattle.gopher_catalogue.specs.Step.{open_fault, turn_of};
ghost use Rattle.gopher_check.specs.Crawl.{Finishes, IsCrawlFault, IsCrawlOf, after_visit, is_here, outcome_data, site_outcome, site_reply, link_table, taken_outcome, with_outcome};

use gopher_catalogue::{Catalogue, Claim, OpenFault, Turn, Why};
use gopher_item::{Home, MAX_PLACES, MAX_TRIES, NoMemory, Place, Scope};
use gopher_page::Page;
use gopher_text::MAX_REPLY;
use gopher_tree::{Tree, error_reply};
use std::alloc::Global;

// One turn more than a crawl can claim places.
const MAX_TURNS: u32 = MAX_PLACES * MAX_TRIES + 1;

// Whether a place is of the server with this address.
fn is_here(home: &Home, place: &Place) -> bool
    ensures { result ≡ is_here home.now place.now }
{
    place.port() == home.port() && place.host().eq_ignore_ascii_case(home.host())
}

// What the server sends to a crawler that asks for a selector.
fn site_reply(alloc: Global, tree: &Tree, home: &Home, selector: &[u8]) -> Result<Vec<u8>, NoMemory>
    ensures { IfOk result (λ reply. reply.items ≡ site_reply tree.now home.now selector.now) }
{
    if selector == b"/search".as_slice() {
        return error_reply(alloc, b"No words", home);
    }
    tree.reply(alloc, selector, home)
}

// What a crawl for links takes of the outcome of a place: of a menu the bytes that the server
// sends, of a text nothing, or why there are none. Counting the words of texts would take far
// longer than all else.
#[tactic(auto, unfolding(crate::specs::Crawl::taken_outcome))]
fn fetch(
    alloc: Global,
    tree: &Tree,
    home: &Home,
    place: &Place,
) -> Result<Result<Vec<u8>, Why>, NoMemory>
    ensures outcome { IfOk result
        (λ fetched. outcome_data fetched ≡ taken_outcome tree.now home.now place.now) }
    ensures short { IfOk result (λ fetched. IfOk fetched (λ reply. vec_len reply ≤ MAX_REPLY)) }
{
    if !is_here(home, place) {
        return Ok(Err(Why::Connect));
    }
    let reply = site_reply(alloc, tree, home, place.selector())?;
    if reply.len() > MAX_REPLY {
        return Ok(Err(Why::TooLong));
    }
    if place.kind() != b'1' {
        return Ok(Ok(Vec::new(alloc)));
    }
    Ok(Ok(reply))
}

// Records the page that a reply makes for a claimed place.
fn found(alloc: Global, crawl: &mut Catalogue, claim: &Claim, reply: &[u8]) -> Result<(), NoMemory>
    requires { length reply.now ≤ MAX_REPLY }
    ensures after { OnOk result (crawl.new ≡ with_outcome crawl.old claim.now.number
        (arc_value claim.now.place) (Fetched reply.now)) }
    ensures legal { IsLegal crawl.new }
{
    let page = Page::of_shared(alloc, crawl.opening().scope(), &claim.place, reply)?;
    match crawl.found(claim.number, page) {
        Ok(_added) => Ok(()),
        Err(_refused) => Err(NoMemory),
    }
}

// Records the outcome of a claimed place.
fn settle(
    alloc: Global,
    crawl: &mut Catalogue,
    claim: &Claim,
    fetched: Result<Vec<u8>, Why>,
) -> Result<(), NoMemory>
    requires { IfOk fetched (λ reply. vec_len reply ≤ MAX_REPLY) }
    ensures after { OnOk result (crawl.new ≡ with_outcome crawl.old claim.now.number
        (arc_value claim.now.place) (outcome_data fetched)) }
    ensures legal { IsLegal crawl.new }
{
    match fetched {
        Ok(reply) => found(alloc, crawl, claim, &reply),
        // For the prover: a claimed place is out.
        Err(why) => crawl.fail(claim.number, why).or(Err(NoMemory)),
    }
}

// Claims a place, if one waits, and records what is taken of its outcome.
fn visit(alloc: Global, tree: &Tree, home: &Home, crawl: &mut Catalogue) -> Result<(), NoMemory>
    ensures after { OnOk result (crawl.new
        ≡ after_visit (taken_outcome tree.now home.now) crawl.old (turn_of crawl.old)) }
    ensures legal { IsLegal crawl.new }
{
    let Turn::Take(claim) = crawl.claim()? else {
        return Ok(());
    };
    let fetched = fetch(alloc, tree, home, &claim.place)?;
    settle(alloc, crawl, &claim, fetched)
}

// Visits places until the crawl is finished.
fn finish(alloc: Global, tree: &Tree, home: &Home, crawl: &mut Catalogue) -> Result<(), NoMemory>
    ensures { OnOk result (Finishes (link_table tree.now home.now) crawl.old crawl.new) }
{
    for _turn in 0..MAX_TURNS {
        if crawl.is_finished() {
            return Ok(());
        }
        visit(alloc, tree, home, crawl)?;
    }
    // For the prover: no crawl claims as many places.
    Err(NoMemory)
}

/// Runs the crawl that a server runs over its own site, in memory, for its links: with the same
/// scope, seeds and limits, and with the replies that the server would send, but without the bytes
/// of texts, which have no links. Nothing is fetched: places of other servers fail with
/// `Why::Connect`.
///
/// At most `places` places become known, and each is claimed at most `tries` times.
///
/// # Errors
///
/// The first fault in this order:
/// - `SeedOutOfScope` (50): the scope doesn't allow a seed; contains the index of the first such
///   seed
/// - `BadPlaces` (51): `places` isn't 1 to 65,536
/// - `BadTries` (54): `tries` isn't 1 to 5
/// - `NoMemory` (90)
pub fn crawl_site(
    alloc: Global,
    tree: &Tree,
    home: &Home,
    scope: Scope,
    seeds: Vec<Place>,
    places: u32,
    tries: u32,
) -> Result<Catalogue, OpenFault>
    ensures crawl { IfOk result (IsCrawlOf (opening_of scope seeds.items places tries)
        (link_table tree.now home.now)) }
    ensures fault { IfErr result (IsCrawlFault (open_fault scope seeds.items places tries)) }
{
    let mut crawl = match Catalogue::open(alloc, scope, seeds, places, tries) {
        Ok(crawl) => crawl,
        Err(refused) => return Err(refused.fault),
    };
    match finish(alloc, tree, home, &mut crawl) {
        Ok(()) => Ok(crawl),
        Err(NoMemory) => Err(OpenFault::NoMemory),
    }
}
