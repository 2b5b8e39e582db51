//! What each command does before the crawl and during it (`perform`).

ghost use Rattle.std.specs.Prelude.{◌≡◌, [], IfOk};
ghost use Rattle.std.specs.Result.{result_map_both};
ghost use Rattle.gopher_script.specs.Stage.{start_step, step, TakesCrawlStep};

use crate::command::Command;
use crate::crawl::{claim, fail, found, occurs, search};
use crate::draft::{Draft, add_rule, add_seed};
use crate::lines::{ok_line, refused_line, status_line};
use gopher_catalogue::Catalogue;
use gopher_item::{NoMemory, Scope};
use std::alloc::Global;
use std::marker::Model;

/// The stage of a script.
#[derive(Debug, Drop)]
pub enum Stage {
    /// The crawl hasn't started: the script adds rules and seeds.
    Gathering(Draft),
    /// The crawl has started.
    Crawling(Catalogue),
}

/// The result of a command.
#[derive(Debug, Drop)]
pub struct Performed {
    /// The stage after the command.
    pub stage: Stage,
    /// The bytes of the command's answer.
    pub answer: Vec<u8>,
}

impl Model for Performed {
    ghost use Rattle.std.specs.Prelude.{ℕ, List};
    ghost use Rattle.gopher_script.specs.declared.stage.Stage.{Stage};

    ghost Value = { List ℕ × Stage };

    ghost view = { λ p. (p.answer.items, p.stage) };
}

// What a command made, if there was memory for its answer.
fn with_answer(stage: Stage, answer: Result<Vec<u8>, NoMemory>) -> Result<Performed, NoMemory>
    ensures { result ≡ result_map_both (λ bytes. (bytes.items, stage)) (λ fault. fault) answer }
{
    let answer = answer?;
    Ok(Performed { stage, answer })
}

/// Starts the crawl, unless its catalogue can't be opened.
fn start(alloc: Global, draft: Draft, places: u32, tries: u32) -> Result<Performed, NoMemory>
    ensures { IfOk result (λ performed. performed ≡ start_step draft places tries) }
{
    let Draft { allow, deny, seeds } = draft;
    match Catalogue::open(alloc, Scope::new(allow, deny), seeds, places, tries) {
        Ok(catalogue) => with_answer(Stage::Crawling(catalogue), ok_line(alloc)),
        Err(refused) => {
            let (allow, deny) = refused.scope.into_rules();
            let seeds = refused.seeds;
            let answer = refused_line(alloc, refused.fault.code());
            with_answer(Stage::Gathering(Draft { allow, deny, seeds }), answer)
        }
    }
}

/// Performs a command before the crawl. Returns `None` for a command that needs a crawl.
fn perform_before(
    alloc: Global,
    mut draft: Draft,
    command: Command<'_>,
) -> Result<Option<Performed>, NoMemory>
    ensures { IfOk result (λ next. next ≡ step (Stage.Gathering draft) command.entry []) }
{
    let answer = match command {
        Command::Nothing => Vec::new(alloc),
        Command::Allow(rule) => add_rule(alloc, &mut draft.allow, &rule)?,
        Command::Deny(rule) => add_rule(alloc, &mut draft.deny, &rule)?,
        Command::Seed(place) => add_seed(alloc, &mut draft.seeds, &place)?,
        Command::Start(places, tries) => return Ok(Some(start(alloc, draft, places, tries)?)),
        _ => return Ok(None),
    };
    let stage = Stage::Gathering(draft);
    Ok(Some(Performed { stage, answer }))
}

/// Performs a command in the crawl, with the reply of its block. Returns its answer, or `None` for
/// a command that has to come before the crawl.
fn answer_in(
    alloc: Global,
    catalogue: &mut Catalogue,
    command: Command<'_>,
    reply: &[u8],
) -> Result<Option<Vec<u8>>, NoMemory>
    ensures { IfOk result (TakesCrawlStep catalogue.old command.entry reply.now catalogue.new) }
{
    let answer = match command {
        Command::Nothing => Vec::new(alloc),
        Command::Claim => claim(alloc, catalogue)?,
        Command::Found(number, place) => found(alloc, catalogue, number, &place, reply)?,
        Command::Fail(number, why) => fail(alloc, catalogue, number, why)?,
        Command::Search(text) => search(alloc, catalogue, &text)?,
        Command::Occurs(word) => occurs(alloc, catalogue, word.bytes)?,
        Command::Status => status_line(alloc, catalogue.status())?,
        _ => return Ok(None),
    };
    Ok(Some(answer))
}

/// Performs a command, with the reply of its block. Returns `None` for a command that isn't valid
/// at this stage.
pub fn perform(
    alloc: Global,
    stage: Stage,
    command: Command<'_>,
    reply: &[u8],
) -> Result<Option<Performed>, NoMemory>
    ensures { IfOk result (λ next. next ≡ step stage command.entry reply.now) }
{
    match stage {
        Stage::Gathering(draft) => perform_before(alloc, draft, command),
        Stage::Crawling(mut catalogue) => {
            let Some(answer) = answer_in(alloc, &mut catalogue, command, reply)? else {
                return Ok(None);
            };
            let stage = Stage::Crawling(catalogue);
            Ok(Some(Performed { stage, answer }))
        }
    }
}
