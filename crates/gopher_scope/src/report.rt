//! The report of `hole check`: on settings, their folder and their seeds; and which line or key it
//! names.

ghost use Rattle.std.specs.Prelude.{◌≡◌, [], ◌∷◌, ◌++◌, None, Some, Ok, IfOk, IfSome};
ghost use Rattle.toml.specs.View.{table_view};
ghost use Rattle.gopher_item.specs.Scope.{first_outside};
ghost use Rattle.gopher_scope.specs.Settings.{settings_data};
ghost use Rattle.gopher_scope.specs.Finding.{line_of_fault, table_findings};
ghost use Rattle.gopher_scope.specs.Report.{hint, LoadsAs, IsReport, IsRemark, IsReportOnUnread, IsReportOnFolder, IsReportOnBroken, IsReportOnLoaded, IsReportOnMemory, IsReportOnSite, IsReportOnTable, IsReportOnText, key_of, toml_fault_line, IsKeyOf, IsTomlFault};

mod fault_report;
mod fault_words;
mod finding;
mod lines;
mod links;
mod obstacle;
mod settings_obstacle;
mod site_warning;
mod site_words;
mod sound_site;
mod table_report;
mod whole_site;

use crate::fault::{SettingsFault, SiteFault};
use crate::settings::Settings;
pub use fault_report::FaultReport;
use fault_report::{Remark, report_fault, report_with};
use gopher_item::{NoMemory, Place, Scope, split_once, trim_spaces};
use gopher_tree::{LeftOut, Trail, Tree, TreeFault};
pub use lines::push_shown;
pub use links::{is_asked, is_own};
pub use obstacle::Obstacle;
use obstacle::reason;
pub use settings_obstacle::SettingsObstacle;
use settings_obstacle::settings_obstacle;
pub use site_warning::{SiteMistake, SiteWarning, Unserved};
pub use site_words::Summary;
pub use sound_site::SoundSite;
use sound_site::unserved_of;
use std::alloc::Global;
use std::fs::Files;
use table_report::table_findings;
use toml::Table;
use toml::de::Error as TomlFault;
use whole_site::whole_site;

/// The report of a check.
#[derive(Debug, Drop)]
pub enum Report {
    /// The site has a fault.
    Faulty(FaultReport),
    /// The site has none.
    Sound(SoundSite),
}

/// The report of a check, unless memory ran out.
pub(crate) type Reported = Result<Report, NoMemory>;

// The message of the TOML parser for a key that is given twice.
const DUPLICATE: &str = "duplicate key";

/// Reports that the settings file at `path` can't be read. Looks at it once more, and names the
/// reason.
pub fn unreadable<R: Files>(rt: &R, alloc: Global, path: &str) -> Result<Report, NoMemory>
    ensures { IfOk result (IsReportOnUnread path.now) }
{
    let how = settings_obstacle(rt, alloc, path);
    let fault = SiteFault::SettingsUnreadable(how);
    report_fault(alloc, fault, path.as_bytes(), None, b"")
}

// The index of the first seed that the scope doesn't allow.
fn first_outside(scope: &Scope, seeds: &[Place]) -> Option<usize>
    ensures { result ≡ first_outside scope.now seeds.now }
{
    seeds.iter().position(|seed| !scope.allows(seed))
}

// The line of a menu file that a fault names.
fn line_of_fault(fault: TreeFault) -> Option<usize>
    ensures { result ≡ line_of_fault fault }
{
    match fault {
        TreeFault::BadMenuLine { line, .. } => Some(line),
        _ => None,
    }
}

// The remark that the root, which begins with `~` and isn't there, was meant to be expanded.
fn hint(root: &str, how: Obstacle) -> Remark
    ensures { result ≡ hint root.now how }
{
    match (root.as_bytes(), how) {
        ([b'~', ..], Obstacle::Missing) => Remark::Tilde,
        _ => Remark::Nothing,
    }
}

// What a report adds to a fault of the folder `root`: how much the whole folder has, if that is
// over a limit of the whole site, or a hint.
fn remark<R: Files>(rt: &R, alloc: Global, root: &str, how: Obstacle) -> Result<Remark, NoMemory>
    ensures { IfOk result (IsRemark root.now how) }
{
    match how {
        Obstacle::LargeSite(_) | Obstacle::ManyNodes(_) => {
            Ok(Remark::WholeSite(whole_site(rt, alloc, root)?))
        }
        _ => Ok(hint(root, how)),
    }
}

// The path of the file or folder at the end of a trail.
fn place_of(alloc: Global, root: &str, trail: &Trail) -> Result<Vec<u8>, NoMemory>
    ensures { IfOk result (λ place. place.items ≡ root.now ++ 47 ∷ trail.now.path.items) }
{
    let mut place = Vec::from_slice(alloc, root.as_bytes())?;
    place.extend_from_slice(b"/")?;
    place.extend_from_slice(&trail.path)?;
    Ok(place)
}

// The report of a fault of the folder `root`, at the end of the trail that its walk left.
fn folder_report<R: Files>(
    rt: &R,
    alloc: Global,
    root: &str,
    fault: TreeFault,
    trail: &Trail,
) -> Reported
    ensures { IfOk result (IsReportOnFolder fault root.now trail.now) }
{
    let path = place_of(alloc, root, trail)?;
    let how = reason(rt, alloc, fault, trail, &path);
    let remark = remark(rt, alloc, root, how)?;
    let line = line_of_fault(fault);
    let fault = SiteFault::Tree(fault, how);
    report_with(alloc, fault, &path, line, b"", remark)
}

// Loads the folder `root`. If `leave_out` is set, `left` gets what can't be served.
fn load<R: Files>(
    rt: &R,
    alloc: Global,
    root: &str,
    leave_out: bool,
    trail: &mut Trail,
    left: &mut Vec<LeftOut>,
) -> Result<Tree, TreeFault>
    requires { left.old.items ≡ [] }
    ensures { LoadsAs leave_out trail.new left.new.items result }
{
    if leave_out {
        Tree::load_leaving_out(rt, alloc, root, trail, left)
    } else {
        Tree::load_along(rt, alloc, root, trail)
    }
}

// The report on settings whose folder has no fault: on the site, or on the first seed that the
// scope doesn't allow.
fn seeds_report(
    alloc: Global,
    path: &[u8],
    settings: Settings,
    tree: Tree,
    trail: &Trail,
    left_out: Vec<LeftOut>,
) -> Reported
    ensures { IfOk result (IsReportOnLoaded path.now (settings_data settings) trail.now
        left_out.items (Ok tree)) }
{
    match first_outside(&settings.scope, &settings.seeds) {
        Some(seed) => report_fault(alloc, SiteFault::SeedOutOfScope(seed), path, None, b""),
        None => Ok(Report::Sound(SoundSite {
            unserved: unserved_of(&tree, trail),
            settings,
            tree,
            left_out,
        })),
    }
}

// The report on settings and their folder, of which what can't be served may be left out.
fn settings_report<R: Files>(
    rt: &R,
    alloc: Global,
    path: &[u8],
    settings: Settings,
    leave_out: bool,
) -> Reported
    ensures { IfOk result (IsReportOnSite leave_out path.now (settings_data settings)) }
{
    let mut trail = Trail::new(alloc);
    let mut left = Vec::new(alloc);
    let root = settings.root.as_str();
    match load(rt, alloc, root, leave_out, &mut trail, &mut left) {
        Ok(tree) => seeds_report(alloc, path, settings, tree, &trail, left),
        Err(fault) => folder_report(rt, alloc, root, fault, &trail),
    }
}

// The line, from 1, at which a fault of the TOML parser begins.
fn broken_line(text: &str, fault: &TomlFault) -> Option<usize>
    requires { IsTomlFault text.now fault.now }
    ensures { result ≡ Some (toml_fault_line text.now fault.now) }
{
    let start = fault.span()?.start;
    let before = text.as_bytes()[..start].iter();
    Some(before.filter(|byte| **byte == b'\n').count() + 1)
}

// The key of a piece of TOML: a key with its value, or the line that begins a table.
fn key_of(piece: &[u8]) -> &[u8]
    ensures { result.now ≡ key_of piece.now }
{
    match split_once(b'=', piece) {
        Some((key, _value)) => trim_spaces(key),
        None => trim_spaces(piece),
    }
}

// The key that a text gives twice, if that is the fault of the TOML parser.
fn key_twice<'a>(text: &'a str, fault: &TomlFault) -> Option<&'a [u8]>
    requires { IsTomlFault text.now fault.now }
    ensures { IfSome result (λ key. IsKeyOf text.now fault.now key.now) }
{
    if fault.message() != DUPLICATE {
        return None;
    }
    let span = fault.span()?;
    match key_of(&text.as_bytes()[span.start..span.end]) {
        [] => None,
        key => Some(key),
    }
}

// The report of settings that aren't TOML, or give a key twice, with the line of the parser's
// fault.
fn broken_report(alloc: Global, path: &[u8], text: &str, broken: &TomlFault) -> Reported
    requires { IsTomlFault text.now broken.now }
    ensures { IfOk result (IsReportOnBroken path.now text.now broken.now) }
{
    let line = broken_line(text, broken);
    match key_twice(text, broken) {
        Some(key) => report_fault(alloc, SiteFault::KeyTwice, path, line, key),
        None => {
            let fault = SiteFault::Settings(SettingsFault::NotToml);
            report_fault(alloc, fault, path, line, b"")
        }
    }
}

// The report of settings whose check ran out of memory.
fn memory_report(alloc: Global, path: &[u8]) -> Reported
    ensures { IfOk result (IsReportOnMemory path.now) }
{
    let fault = SiteFault::Settings(SettingsFault::NoMemory);
    report_fault(alloc, fault, path, None, b"")
}

// The report on all faults of a table of settings, of which `refused` is the first.
fn faults_report(alloc: Global, path: &[u8], table: &Table, refused: SettingsFault) -> Reported
    ensures { IfOk result (IsReport (SiteFault.Settings refused) path.now
        (table_findings (table_view table.now)) Remark.Nothing) }
{
    Ok(Report::Faulty(FaultReport {
        fault: SiteFault::Settings(refused),
        path: Vec::from_slice(alloc, path)?,
        findings: table_findings(alloc, table)?,
        remark: Remark::Nothing,
    }))
}

// The report on a table of settings: on its site, or on all faults of the table.
fn checked_table<R: Files>(
    rt: &R,
    alloc: Global,
    path: &[u8],
    table: &Table,
    leave_out: bool,
) -> Reported
    ensures { IfOk result (IsReportOnTable leave_out path.now (table_view table.now)) }
{
    match Settings::of_table(alloc, table) {
        Ok(settings) => settings_report(rt, alloc, path, settings, leave_out),
        Err(SettingsFault::NoMemory) => memory_report(alloc, path),
        Err(refused) => faults_report(alloc, path, table, refused),
    }
}

/// Checks the settings in `text`, the folder that they name, and their seeds. `path` is the path of
/// the settings file, for the report.
///
/// The report has the first fault in this order: of the settings (30 to 34), of the folder (20 to
/// 26), of the seeds (50). For 30 it also names the line at which the TOML parser's fault begins,
/// and the key there if it is given twice. After the first of 31 to 34 it names the others, and for
/// 31 to 33 in an array the index of the table and its key. For 23 it names the limit and the
/// number that is over it and, for the limits of the whole site, how much the site has. For 26 it
/// reads the file or folder once more and names the system's reason.
///
/// If `leave_out` is set, what can't be served is left out of the tree, as by
/// `Tree::load_leaving_out`, and the report lists it.
pub fn check<R: Files>(
    rt: &R,
    alloc: Global,
    path: &str,
    text: &str,
    leave_out: bool,
) -> Result<Report, NoMemory>
    ensures { IfOk result (IsReportOnText leave_out path.now text.now) }
{
    let path = path.as_bytes();
    match toml::table_from_str(alloc, text) {
        Ok(table) => checked_table(rt, alloc, path, &table, leave_out),
        Err(broken) if broken.is_memory() => memory_report(alloc, path),
        Err(broken) => broken_report(alloc, path, text, &broken),
    }
}
