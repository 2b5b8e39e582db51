//! The command `check`: the report on a site.

ghost use Rattle.std.specs.Prelude.{codes, OnOk};
ghost use Rattle.gopher_text.specs.Watched.{HasSent};
ghost use Rattle.gopher_hole.specs.Ending.{FoundSound};

mod addresses;
mod aliases;
mod seeds;

use crate::announcing::send_text;
use crate::arguments::Checking;
use crate::fault::ProgramFault;
use crate::opening::settings_text;
use addresses::{Listening, addresses};
use aliases::{AliasReport, alias_report, push_aliases};
use gopher_check::survey_site;
use gopher_item::NoMemory;
use gopher_scope::{FaultReport, Report, SiteFault, SoundSite, Summary, check, unreadable};
use gopher_text::Watched;
use seeds::push_lost_seeds;
use std::alloc::Global;
use std::fs::Files;
use std::io::Write;
use std::net::Net;

// The last line of the report on a site without a fault.
const SOUND: &[u8] = b"sound\n";

// The report on a site that starts, up to its last line.
#[derive(Debug, Drop)]
struct SoundReport {
    words: Vec<u8>,
    warnings: usize,
    // Whether a server may be able to listen.
    can_listen: bool,
}

// Whether a report tells that a menu file is left out.
fn leaves_out_menu(report: &Report) -> bool {
    match report {
        Report::Faulty(_faults) => false,
        Report::Sound(site) => site.left_out.iter().any(|left| left.path.as_slice()
            == b".menu".as_slice()
            || left.path.ends_with(b"/.menu")),
    }
}

// The report on a text of settings. As in a server, nothing is left out if a menu file would be.
fn text_report<R: Files>(
    rt: &R,
    alloc: Global,
    checking: &Checking<'_>,
    text: &str,
) -> Result<Report, NoMemory> {
    let report = check(rt, alloc, checking.settings, text, checking.leave_out)?;
    if checking.leave_out && leaves_out_menu(&report) {
        return check(rt, alloc, checking.settings, text, false);
    }
    Ok(report)
}

// The report on the settings in a file.
fn file_report<R: Files>(
    rt: &R,
    alloc: Global,
    checking: &Checking<'_>,
) -> Result<Report, NoMemory> {
    match settings_text(rt, alloc, checking.settings) {
        Ok(text) => text_report(rt, alloc, checking, text.as_str()),
        Err(SiteFault::SettingsUnreadable(_)) => unreadable(rt, alloc, checking.settings),
        Err(_) => Err(NoMemory),
    }
}

// Whether a fault is one of the settings, which a server reads first.
fn is_of_settings(fault: SiteFault) -> bool {
    matches!(
        fault,
        SiteFault::SettingsUnreadable(_) | SiteFault::Settings(_) | SiteFault::KeyTwice
    )
}

// The report on a site that starts.
fn sound_report<R: Files + Net>(
    rt: &R,
    alloc: Global,
    checking: &Checking<'_>,
    site: SoundSite,
    aliases: &[u8],
) -> Result<SoundReport, NoMemory> {
    let Summary {
        mut words,
        warnings,
    } = site.summary(alloc, checking.settings)?;
    let SoundSite { settings, tree, .. } = site;
    let Listening {
        words: lines,
        is_fine,
    } = addresses(rt, alloc, &settings.home, checking)?;
    let lost = push_lost_seeds(rt, alloc, &settings, &mut words)?;
    let path = checking.aliases.unwrap_or("");
    let strange = push_aliases(alloc, &tree, path, aliases, &mut words)?;
    let surveyed = survey_site(rt, alloc, settings, &tree, checking.all)?;
    words.extend_from_slice(&surveyed.words)?;
    words.extend_from_slice(&lines)?;
    let told = lost
        .saturating_add(strange)
        .saturating_add(surveyed.warnings);
    Ok(SoundReport {
        words,
        warnings: warnings.saturating_add(told),
        can_listen: is_fine,
    })
}

// Writes the last line of the report on a site without a fault. Fails if `warns`.
fn end_report<W: Write>(output: &mut Watched<W>, warns: bool) -> Result<(), ProgramFault>
    ensures { OnOk result (HasSent W.contents output.old output.new (codes "sound\n")) }
{
    send_text(output, SOUND)?;
    if warns {
        return Err(ProgramFault::Warned);
    }
    Ok(())
}

// Writes the report on a site that starts. Fails if a server can't listen, or if `is_strict` and
// there is a warning.
fn tell_sound<W: Write>(
    output: &mut Watched<W>,
    report: &SoundReport,
    is_strict: bool,
) -> Result<(), ProgramFault>
    ensures { OnOk result (FoundSound W.contents output.old output.new) }
{
    send_text(output, &report.words)?;
    if !report.can_listen {
        return Err(ProgramFault::ListenFailed);
    }
    end_report(output, is_strict && report.warnings > 0)
}

// Writes lines that tell of a fault, as far as they can be written. Returns the fault.
fn tell<W: Write>(output: &mut Watched<W>, words: &[u8], fault: ProgramFault) -> ProgramFault {
    let _unsent = send_text(output, words);
    fault
}

// Writes the report on a site with a fault, as far as it can be written. Returns the fault.
fn tell_fault<W: Write>(
    alloc: Global,
    output: &mut Watched<W>,
    report: &FaultReport,
) -> Result<ProgramFault, NoMemory> {
    let words = report.words(alloc)?;
    Ok(tell(output, &words, ProgramFault::Site(report.fault)))
}

/// Checks the settings in a file, their folder and the file of aliases as a server would, and
/// writes a report. For a site without a fault it tells what the search reaches, warnings, and the
/// addresses at which the server will listen, before the last line.
///
/// # Errors
///
/// - those of `serve` for the same fault: 80, 30 to 34, 35, 36, 20 to 26, 50, 90
/// - `ListenFailed` (81): as `addresses` finds
/// - `Warned` (83): there is a warning, and `checking` is strict
/// - `WriteFailed` (13): the report on a site without a fault couldn't be written
pub fn check_site<R: Files + Net, W: Write>(
    rt: &R,
    alloc: Global,
    checking: &Checking<'_>,
    output: &mut Watched<W>,
) -> Result<(), ProgramFault>
    ensures { OnOk result (FoundSound W.contents output.old output.new) }
{
    let report = file_report(rt, alloc, checking)?;
    if let Report::Faulty(faults) = &report
        && is_of_settings(faults.fault)
    {
        return Err(tell_fault(alloc, output, faults)?);
    }
    let aliases = match alias_report(rt, alloc, checking.aliases)? {
        AliasReport::Sound(text) => text,
        AliasReport::Faulty(told, fault) => return Err(tell(output, &told, fault)),
    };
    match report {
        Report::Faulty(faults) => Err(tell_fault(alloc, output, &faults)?),
        Report::Sound(site) => {
            let sound = sound_report(rt, alloc, checking, site, &aliases)?;
            tell_sound(output, &sound, checking.strict)
        }
    }
}
