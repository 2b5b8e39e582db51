//! `survey_site`: what a check tells of a site that starts, in lines: what its search reaches, and
//! warnings.

use crate::coverage::{Coverage, Unreached, coverage_of};
use crate::crawl::crawl_site;
use crate::crawl_warning::crawl_warnings;
use crate::menu_warning::menu_warnings;
use crate::reach::Reason;
use crate::script::{programs, scripts};
use crate::text_warning::text_warnings;
use crate::words::{
    push_counted, push_crawl_warning, push_menu_warning, push_program_warning, push_text_warning,
};
use gopher_item::NoMemory;
use gopher_scope::{Settings, push_shown};
use gopher_tree::Tree;
use std::alloc::Global;
use std::fs::Files;

// The most warnings of menus, and of files, that are written unless all are asked for.
const MOST_SHOWN: usize = 20;

// The line of a root that was found with both of its selectors.
const TWICE: &[u8] =
    b"found twice: the root, as \"\" and \"/\": let menus link to it with an empty selector\n";

/// What a check tells of a site that starts.
#[derive(Debug, Drop)]
pub struct Survey {
    /// The lines.
    pub words: Vec<u8>,
    /// How many warnings they tell or count.
    pub warnings: usize,
}

impl Survey {
    // Counts warnings of one kind of which `shown` were written, and says how many more there are.
    fn count(&mut self, warnings: usize, shown: usize) -> Result<(), NoMemory> {
        self.warnings = self.warnings.saturating_add(warnings);
        if warnings > shown {
            let more = warnings - shown;
            push_counted(
                b"warning: and ",
                more,
                b" more like these: --all\n",
                &mut self.words,
            )?;
        }
        Ok(())
    }
}

// Appends the line of the texts that the crawl doesn't reach for a reason, which names the first of
// them, or a line for each. Returns how many they are.
fn push_unreached(
    front: &[u8],
    unreached: &[Unreached<'_>],
    reason: Reason,
    all: bool,
    out: &mut Vec<u8>,
) -> Result<usize, NoMemory> {
    let mut number = 0_usize;
    for text in unreached.iter().filter(|text| text.reason == reason) {
        if all || number == 0 {
            out.extend_from_slice(if number > 0 { b"\n" } else { b"" })?;
            out.extend_from_slice(front)?;
            push_shown(text.path, out)?;
        }
        number = number.saturating_add(1);
    }
    if number > 1 && !all {
        push_counted(b" (and ", number - 1, b" more: --all)", out)?;
    }
    if number > 0 {
        out.extend_from_slice(b"\n")?;
    }
    Ok(number)
}

// Appends what a crawl reaches of a site.
fn push_coverage(covered: &Coverage<'_>, all: bool, survey: &mut Survey) -> Result<(), NoMemory> {
    let unreached = &covered.unreached;
    let out = &mut survey.words;
    push_counted(b"search reaches ", covered.reached, b"", out)?;
    push_counted(b" of ", covered.texts, b" texts\n", out)?;
    let lost = push_unreached(b"not linked: /", unreached, Reason::NotLinked, all, out)?;
    let beyond = push_unreached(
        b"beyond places: /",
        unreached,
        Reason::LimitOfPlaces,
        all,
        out,
    )?;
    push_unreached(b"not allowed: /", unreached, Reason::NotAllowed, all, out)?;
    push_unreached(
        b"too long to search: /",
        unreached,
        Reason::TooLong,
        all,
        out,
    )?;
    if covered.root_twice {
        out.extend_from_slice(TWICE)?;
    }
    let told = lost
        .saturating_add(beyond)
        .saturating_add(usize::from(covered.root_twice));
    survey.warnings = survey.warnings.saturating_add(told);
    Ok(())
}

// Crawls the site and appends what the crawl reaches, if there is a seed.
fn push_crawl(
    alloc: Global,
    settings: Settings,
    tree: &Tree,
    all: bool,
    survey: &mut Survey,
) -> Result<(), NoMemory> {
    let Settings {
        home,
        seeds,
        scope,
        places,
        tries,
        ..
    } = settings;
    if seeds.is_empty() {
        return Ok(());
    }
    let Ok(crawl) = crawl_site(alloc, tree, &home, scope, seeds, places, tries) else {
        return Err(NoMemory);
    };
    let covered = coverage_of(alloc, tree, &home, &crawl)?;
    push_coverage(&covered, all, survey)
}

// How many of these warnings are written.
fn most_shown(warnings: usize, all: bool) -> usize {
    if all {
        warnings
    } else {
        warnings.min(MOST_SHOWN)
    }
}

// Appends the warnings of the settings, of menus and of files.
fn push_warnings<R: Files>(
    rt: &R,
    alloc: Global,
    settings: &Settings,
    tree: &Tree,
    all: bool,
    survey: &mut Survey,
) -> Result<(), NoMemory> {
    let root = settings.root.as_str();
    let crawl = crawl_warnings(alloc, tree, settings)?;
    for warning in &crawl {
        push_crawl_warning(settings, *warning, &mut survey.words)?;
    }
    survey.count(crawl.len(), crawl.len())?;
    let menus = menu_warnings(alloc, tree, &settings.home)?;
    let shown = most_shown(menus.len(), all);
    for warning in menus.iter().take(shown) {
        push_menu_warning(root, warning, &mut survey.words)?;
    }
    survey.count(menus.len(), shown)?;
    let texts = text_warnings(alloc, tree)?;
    let shown = most_shown(texts.len(), all);
    for warning in texts.iter().take(shown) {
        push_text_warning(root, warning, &mut survey.words)?;
    }
    survey.count(texts.len(), shown)?;
    let programs = programs(rt, alloc, root, &scripts(alloc, tree)?)?;
    let shown = most_shown(programs.len(), all);
    for path in programs.iter().take(shown) {
        push_program_warning(root, path, &mut survey.words)?;
    }
    survey.count(programs.len(), shown)
}

/// Surveys a site that starts: crawls it in memory as its server does (`crawl_site`), and tells
/// what the search reaches (`coverage_of`), and mistakes in settings, menus and files. `rt` is
/// asked which files may be executed. Unless `all`, long lists are cut.
///
/// Without a seed there is no crawl to tell of. Texts that the rules exclude, and those that are
/// too long, count as no warnings.
///
/// # Errors
///
/// `NoMemory` (90).
pub fn survey_site<R: Files>(
    rt: &R,
    alloc: Global,
    settings: Settings,
    tree: &Tree,
    all: bool,
) -> Result<Survey, NoMemory> {
    let mut survey = Survey {
        words: Vec::new(alloc),
        warnings: 0,
    };
    let mut warned = Survey {
        words: Vec::new(alloc),
        warnings: 0,
    };
    push_warnings(rt, alloc, &settings, tree, all, &mut warned)?;
    push_crawl(alloc, settings, tree, all, &mut survey)?;
    survey.words.extend_from_slice(&warned.words)?;
    survey.warnings = survey.warnings.saturating_add(warned.warnings);
    Ok(survey)
}
