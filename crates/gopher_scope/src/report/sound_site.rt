//! `SoundSite`: a site without a fault, and its warnings.

ghost use Rattle.std.specs.Prelude.{◌≡◌, IfOk};
ghost use Rattle.gopher_scope.specs.Lines.{Puts};
ghost use Rattle.gopher_scope.specs.Warnings.{seeds_warning, site_warnings, unserved_warning, warnings};
ghost use Rattle.gopher_scope.specs.Report.{IsUnserved};

use super::links::{Site, offers_search, push_dead_lines};
use super::site_warning::{SiteMistake, SiteWarning, Unserved};
use crate::fault::Pushed;
use crate::settings::Settings;
use gopher_item::{NoMemory, Place};
use gopher_tree::{LeftOut, Trail, Tree};
use std::alloc::Global;

/// A site without a fault.
#[derive(Debug, Drop)]
pub struct SoundSite {
    /// The settings.
    pub settings: Settings,
    /// The tree of the folder that they name.
    pub tree: Tree,
    /// What was left out of the tree.
    pub left_out: Vec<LeftOut>,
    /// What isn't served, though it has no fault.
    pub unserved: Unserved,
}

/// Returns what a walk met that isn't served.
pub(crate) fn unserved_of(tree: &Tree, trail: &Trail) -> Unserved
    ensures { IsUnserved tree.now trail.now result }
{
    Unserved {
        empty: tree.number_of_missing(&trail.folders),
        nowhere: trail.nowhere,
        hidden: trail.hidden,
    }
}

// Appends the warning of what isn't served, if there is something.
fn push_unserved<'a>(unserved: Unserved, out: &mut Vec<SiteWarning<'a>>) -> Pushed
    ensures { Puts (unserved_warning unserved) out.old out.new result }
{
    match (unserved.empty, unserved.nowhere, unserved.hidden) {
        (0, 0, 0) => {}
        _ => out.push(SiteWarning::whole(SiteMistake::NotServed(unserved)))?,
    }
    Ok(())
}

// Appends the warning that searches find nothing, if there are no seeds and a menu offers a search.
fn push_seeds_warning<'a>(seeds: &[Place], offered: bool, out: &mut Vec<SiteWarning<'a>>) -> Pushed
    ensures { Puts (seeds_warning seeds.now offered) out.old out.new result }
{
    if seeds.is_empty() && offered {
        out.push(SiteWarning::whole(SiteMistake::NoSeeds))?;
    }
    Ok(())
}

/// Returns the warnings of a site with these seeds: lines of menus that lead nowhere, what isn't
/// served, and a search without seeds.
pub(crate) fn warnings<'a>(
    alloc: Global,
    site: &Site<'a>,
    seeds: &[Place],
    unserved: Unserved,
) -> Result<Vec<SiteWarning<'a>>, NoMemory>
    ensures { IfOk result (λ found. found.items ≡ warnings site.now seeds.now unserved) }
{
    let mut found = Vec::new(alloc);
    let menus = site.tree.menu_files(alloc)?;
    let offered = offers_search(alloc, site, &menus)?;
    push_dead_lines(site, &menus, &mut found)?;
    push_unserved(unserved, &mut found)?;
    push_seeds_warning(seeds, offered, &mut found)?;
    Ok(found)
}

impl SoundSite {
    /// Returns the warnings of the site: lines of menus that lead nowhere, what isn't served, and a
    /// search without seeds.
    pub fn warnings(&self, alloc: Global) -> Result<Vec<SiteWarning<'_>>, NoMemory>
        ensures { IfOk result (λ found. found.items ≡ site_warnings self.now) }
    {
        let site = Site {
            home: &self.settings.home,
            tree: &self.tree,
        };
        warnings(alloc, &site, &self.settings.seeds, self.unserved)
    }
}
