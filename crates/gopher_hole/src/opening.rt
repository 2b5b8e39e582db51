//! Opening a server: its settings, its aliases, its folder and its desk.

ghost use Rattle.std.specs.Prelude.{◌≡◌, [], None, IfErr, IfOk, OnOk};
ghost use mathlib.Core.List.{IsPrefix};
ghost use Rattle.gopher_catalogue.specs.Step.{open_fault, opened_record};
ghost use Rattle.gopher_crew.specs.Desk.{IsBlankOf, AllHaveSeen, HasAll, shares_at};
ghost use Rattle.gopher_hole.specs.Aliases.{AreAliases, AreAliasesOf};
ghost use Rattle.gopher_hole.specs.Ending.{AreSettings, opening_record};
ghost use Rattle.gopher_hole.specs.ServerFault.{IsAliasesFault, IsCatalogueFault, IsFaultIn, IsFaultOfDesk, IsFolderFault, IsOpeningFault, IsSettingsFault, IsTextFault};
ghost use Rattle.gopher_scope.specs.Settings.{AreSettingsOf};

use crate::aliases::Aliases;
use crate::fault::ProgramFault;
use crate::progress::urls::ESCAPED;
use gopher_catalogue::Catalogue;
use gopher_crew::{Blank, Crew, Desk, Pass, Share};
use gopher_item::{Home, Place};
use gopher_scope::{Obstacle, Scope, Settings, SettingsFault, SettingsObstacle, SiteFault};
use gopher_serve::Replies;
use gopher_text::{ReplyFault, Watched, read_reply};
use gopher_tree::{LeftOut, Trail, Tree, TreeFault};
use percent_encoding::percent_encode;
use std::alloc::Global;
use std::fs::{self, Files};
use std::io::Eprint;
use std::sync::Wait;

// The most bytes of a settings file.
const MAX_SETTINGS: usize = 1_048_576;

// The most bytes of a file of aliases.
const MAX_ALIASES: usize = 1_048_576;

/// A server with its desk, before it listens.
#[derive(Drop)]
pub struct Opened<C: Crew, R: Wait + Drop> {
    /// The replies of its folder.
    pub replies: Replies,
    /// The desk of its crawl.
    pub desk: Desk<C, R>,
    /// A pass for each server thread.
    pub passes: Vec<Pass<C>>,
    /// A share for each worker.
    pub shares: Vec<Share<C>>,
}

/// Reads the text of a settings file.
///
/// # Errors
///
/// - `SettingsUnreadable` (80): the file can't be read, has over 1,048,576 bytes
///   (`MAX_SETTINGS`), or isn't UTF-8
/// - `Settings` (90): out of memory
pub fn settings_text<R: Files>(rt: &R, alloc: Global, path: &str) -> Result<String, SiteFault>
    ensures { IfErr result IsTextFault }
{
    let Ok(file) = fs::open(rt, path) else {
        return Err(SiteFault::SettingsUnreadable(SettingsObstacle::Other));
    };
    let bytes = match read_reply(alloc, &mut Watched::new(file), MAX_SETTINGS) {
        Ok(bytes) => bytes,
        Err(ReplyFault::NoMemory) => return Err(SiteFault::Settings(SettingsFault::NoMemory)),
        Err(_) => return Err(SiteFault::SettingsUnreadable(SettingsObstacle::Other)),
    };
    match String::from_utf8(bytes) {
        Ok(text) => Ok(text),
        Err(_) => Err(SiteFault::SettingsUnreadable(SettingsObstacle::Other)),
    }
}

// Reads the settings of a text.
fn settings_in(alloc: Global, text: &str) -> Result<Settings, SiteFault>
    ensures settings { IfOk result (AreSettingsOf text.now) }
    ensures fault { IfErr result (IsFaultIn text.now) }
{
    match Settings::read(alloc, text) {
        Ok(settings) => Ok(settings),
        Err(fault) => Err(SiteFault::Settings(fault)),
    }
}

/// Reads the settings of a file.
///
/// # Errors
///
/// - `SettingsUnreadable` (80): as `settings_text` fails
/// - `Settings` (30 to 34, 90): as `Settings::read` fails
pub fn read_settings<R: Files>(rt: &R, alloc: Global, path: &str) -> Result<Settings, SiteFault>
    ensures settings { IfOk result AreSettings }
    ensures fault { IfErr result IsSettingsFault }
{
    match settings_text(rt, alloc, path) {
        Ok(text) => settings_in(alloc, text.as_str()),
        Err(fault) => Err(fault),
    }
}

/// Reads the text of a file of aliases.
///
/// # Errors
///
/// - `AliasesUnreadable` (36): the file can't be read, or has over 1,048,576 bytes (`MAX_ALIASES`)
/// - `NoMemory` (90)
pub fn aliases_text<R: Files>(rt: &R, alloc: Global, path: &str) -> Result<Vec<u8>, ProgramFault>
    ensures { IfErr result IsAliasesFault }
{
    let Ok(file) = fs::open(rt, path) else {
        return Err(ProgramFault::AliasesUnreadable);
    };
    match read_reply(alloc, &mut Watched::new(file), MAX_ALIASES) {
        Ok(text) => Ok(text),
        Err(ReplyFault::NoMemory) => Err(ProgramFault::NoMemory),
        Err(_) => Err(ProgramFault::AliasesUnreadable),
    }
}

// Reads the aliases of a file.
fn aliases_in<R: Files>(rt: &R, alloc: Global, path: &str) -> Result<Aliases, ProgramFault>
    ensures aliases { IfOk result AreAliases }
    ensures fault { IfErr result IsAliasesFault }
{
    let text = aliases_text(rt, alloc, path)?;
    match Aliases::read(alloc, &text) {
        Ok(aliases) => Ok(aliases),
        Err(fault) => Err(ProgramFault::Aliases(fault)),
    }
}

/// Reads the aliases of a file, if one is named.
///
/// # Errors
///
/// - `AliasesUnreadable` (36), `NoMemory` (90): as `aliases_text` fails
/// - `Aliases` (35, 90): as `Aliases::read` fails
pub fn read_aliases<R: Files>(
    rt: &R,
    alloc: Global,
    path: Option<&str>,
) -> Result<Aliases, ProgramFault>
    ensures aliases { IfOk result (AreAliasesOf path.entry) }
    ensures fault { IfErr result IsAliasesFault }
{
    match path {
        Some(path) => aliases_in(rt, alloc, path),
        None => Ok(Aliases::none(alloc)),
    }
}

// Prints the line of a file or folder that is left out: the number of its fault and its path, with
// bytes escaped as in URLs.
fn tell_left_out<R: Eprint>(rt: &R, root: &str, left: &LeftOut) {
    let code = left.fault.code();
    let root = percent_encode(root.as_bytes(), ESCAPED);
    let path = percent_encode(&left.path, ESCAPED);
    let _ = if left.path.is_empty() {
        eprintln!(rt; "hole: left out: {code} {root}")
    } else {
        eprintln!(rt; "hole: left out: {code} {root}/{path}")
    };
}

// Whether a path is that of a menu file.
fn is_menu(path: &[u8]) -> bool {
    path == b".menu".as_slice() || path.ends_with(b"/.menu")
}

// Loads the folder. If `leave_out`, leaves out what can't be served, and prints it on the error
// stream, also if loading fails. Leaves out nothing if it would have to leave out a menu file: its
// folder would get a listing, which names what the menu may not name.
fn load<R: Files + Eprint>(
    rt: &R,
    alloc: Global,
    root: &str,
    leave_out: bool,
) -> Result<Tree, TreeFault> {
    if !leave_out {
        return Tree::load(rt, alloc, root);
    }
    let mut trail = Trail::new(alloc);
    let mut left = Vec::new(alloc);
    let loaded = Tree::load_leaving_out(rt, alloc, root, &mut trail, &mut left);
    if left.iter().any(|each| is_menu(&each.path)) {
        return Tree::load(rt, alloc, root);
    }
    for each in &left {
        tell_left_out(rt, root, each);
    }
    loaded
}

// Loads the folder as `load` does, and makes its replies.
fn open_replies<R: Files + Eprint>(
    rt: &R,
    alloc: Global,
    root: String,
    home: Home,
    leave_out: bool,
) -> Result<Replies, ProgramFault>
    ensures home { IfOk result (λ replies. replies.home ≡ home) }
    ensures fault { IfErr result IsFolderFault }
{
    let tree = match load(rt, alloc, root.as_str(), leave_out) {
        Ok(tree) => tree,
        Err(fault) => return Err(ProgramFault::Site(SiteFault::Tree(fault, Obstacle::Other))),
    };
    match Replies::new(alloc, tree, home) {
        Ok(replies) => Ok(replies),
        Err(_refused) => Err(ProgramFault::NoMemory),
    }
}

// Opens the catalogue of the crawl.
#[tactic(auto, using(crate::proofs::ServerFaults::open_fault_is))]
fn open_catalogue(
    alloc: Global,
    scope: Scope,
    seeds: Vec<Place>,
    places: u32,
    tries: u32,
) -> Result<Catalogue, ProgramFault>
    ensures opened { IfOk result (λ c. c ≡ opened_record scope seeds.items places tries) }
    ensures ok { OnOk result (open_fault scope seeds.items places tries ≡ None) }
    ensures fault { IfErr result (IsCatalogueFault (open_fault scope seeds.items places tries)) }
{
    match Catalogue::open(alloc, scope, seeds, places, tries) {
        Ok(catalogue) => Ok(catalogue),
        Err(refused) => Err(ProgramFault::Open(refused.fault)),
    }
}

// Opens the desk of a crawl, which is at its opening.
fn open_desk<'r, C: Crew, R: Wait>(
    rt: &'r R,
    alloc: Global,
    catalogue: Catalogue,
    threads: u32,
    workers: u32,
    blank: Blank,
) -> Result<(Desk<C, &'r R>, Vec<Pass<C>>, Vec<Share<C>>), ProgramFault>
    requires blank { IsBlankOf C.name C.parts C.history blank }
    requires begun { IsPrefix blank.begun catalogue }
    ensures desk { IfOk result (λ opened. opened.0 ≡ catalogue) }
    ensures passes { IfOk result (λ opened. AllHaveSeen opened.0 threads opened.1.items) }
    ensures shares { IfOk result (λ opened. opened.2.items ≡ shares_at opened.0 workers) }
    ensures whole { IfOk result (λ opened. HasAll C.parts opened.2.items) }
    ensures fault { IfErr result (IsFaultOfDesk threads workers) }
{
    match Desk::<C, &'r R>::open(rt, alloc, catalogue, threads, workers, blank) {
        Ok(opened) => Ok(opened),
        Err(refused) => Err(ProgramFault::Desk(refused.fault)),
    }
}

/// Loads the folder and opens the desk of the crawl, with one pass for each server thread and one
/// share for each worker. The desk is at the opening of the crawl, with the settings' scope, seeds,
/// `places` and `tries`, and all of them have seen it.
///
/// If `leave_out`, files and folders that can't be served are left out, and a line for each is
/// printed on the error stream of `rt`.
///
/// # Errors
///
/// The first of these, in this order:
///
/// - `Site` (20 to 26, 90): as `Tree::load` fails, or `Tree::load_leaving_out`
/// - `Open` (50, 51, 54, 90): as `Catalogue::open` fails
/// - `Desk` (60, 61, 90): as `Desk::open` fails
/// - `NoMemory` (90)
#[tactic(auto, using(crate::proofs::ServerFaults::folder_is_opening, crate::proofs::ServerFaults::catalogue_is_opening, crate::proofs::ServerFaults::desk_is_opening))]
pub fn open<'r, C: Crew, R: Files + Wait + Eprint>(
    rt: &'r R,
    alloc: Global,
    settings: Settings,
    leave_out: bool,
    blank: Blank,
) -> Result<Opened<C, &'r R>, ProgramFault>
    requires blank { IsBlankOf C.name C.parts C.history blank }
    requires begun { blank.begun ≡ [] }
    ensures home { IfOk result (λ o. o.replies.home ≡ settings.home) }
    ensures desk { IfOk result (λ o. o.desk ≡ opening_record settings) }
    ensures passes { IfOk result (λ o. AllHaveSeen o.desk settings.threads o.passes.items) }
    ensures shares { IfOk result (λ o. o.shares.items ≡ shares_at o.desk settings.workers) }
    ensures whole { IfOk result (λ o. HasAll C.parts o.shares.items) }
    ensures fault { IfErr result (IsOpeningFault settings) }
{
    let Settings {
        home,
        root,
        seeds,
        scope,
        places,
        workers,
        threads,
        tries,
    } = settings;
    let replies = open_replies(rt, alloc, root, home, leave_out)?;
    let catalogue = open_catalogue(alloc, scope, seeds, places, tries)?;
    let (desk, passes, shares) = open_desk(rt, alloc, catalogue, threads, workers, blank)?;
    Ok(Opened {
        replies,
        desk,
        passes,
        shares,
    })
}
