//! The lines of the report on a site without a fault: address, sizes, seeds, rules and warnings.
//! tests/check.py compares them.

ghost use Rattle.std.specs.Prelude.{◌≡◌, ◌+◌, length, IfOk};
ghost use Rattle.gopher_scope.specs.Warnings.{site_warnings};

use super::lines::{push_address, push_count, push_number, push_server, push_shown, push_words};
use super::site_warning::{SiteMistake, SiteWarning, Unserved};
use super::sound_site::SoundSite;
use crate::fault::Pushed;
use gopher_item::{Home, NoMemory, Place, Rule};
use gopher_tree::{LeftOut, Tree};
use std::alloc::Global;

/// The lines on a site without a fault, and the number of its warnings.
#[derive(Debug, Drop)]
pub struct Summary {
    /// The lines: the settings file, the address, the root, the numbers of files, menu files and
    /// bytes, what was left out, the seeds and the rules of the crawl, and warnings.
    pub words: Vec<u8>,
    /// The number of warnings; what was left out counts too.
    pub warnings: usize,
}

// Appends the server's address and the folder.
fn push_home(home: &Home, root: &str, out: &mut Vec<u8>) -> Pushed {
    out.extend_from_slice(b"address: ")?;
    push_server(home.host(), home.port(), out)?;
    push_words(b"\nroot: ", root.as_bytes(), out)
}

// Appends the numbers of files, menu files and bytes.
fn push_sizes(tree: &Tree, out: &mut Vec<u8>) -> Pushed {
    push_number(b"files: ", tree.number_of_files(), out)?;
    push_number(b"menu files: ", tree.number_of_menus(), out)?;
    push_number(b"bytes: ", tree.number_of_bytes(), out)
}

// Appends the path of a file or folder below a root.
fn push_place(root: &str, path: &[u8], out: &mut Vec<u8>) -> Pushed {
    push_shown(root.as_bytes(), out)?;
    out.extend_from_slice(b"/")?;
    push_shown(path, out)
}

// Appends a line for each file or folder that was left out.
fn push_omitted(root: &str, left: &[LeftOut], out: &mut Vec<u8>) -> Pushed {
    for omitted in left {
        push_count(b"left out: ", usize::from(omitted.fault.code()), out)?;
        out.push(b' ')?;
        push_place(root, &omitted.path, out)?;
        out.push(b'\n')?;
    }
    Ok(())
}

fn push_seeds(seeds: &[Place], out: &mut Vec<u8>) -> Pushed {
    for seed in seeds {
        out.extend_from_slice(b"seed: ")?;
        out.push(seed.kind())?;
        out.push(b' ')?;
        push_address(seed.host(), seed.port(), seed.selector(), out)?;
    }
    Ok(())
}

fn push_rules(front: &[u8], rules: &[Rule], out: &mut Vec<u8>) -> Pushed {
    for rule in rules {
        out.extend_from_slice(front)?;
        push_address(rule.host(), rule.port(), rule.prefix(), out)?;
    }
    Ok(())
}

// Appends what isn't served.
fn push_unserved(unserved: Unserved, out: &mut Vec<u8>) -> Pushed {
    push_count(b"warning: not served: empty folders ", unserved.empty, out)?;
    push_count(b", links to nothing and devices ", unserved.nowhere, out)?;
    push_number(b", hidden names ", unserved.hidden, out)
}

// Appends the line of a warning; `root` is the folder of the site.
fn push_warning(root: &str, warning: &SiteWarning<'_>, out: &mut Vec<u8>) -> Pushed {
    match warning.mistake {
        SiteMistake::LeadsNowhere => {
            push_count(b"warning: line ", warning.line, out)?;
            out.extend_from_slice(b" of ")?;
            push_place(root, warning.path, out)?;
            push_words(b" leads nowhere: ", warning.selector, out)
        }
        SiteMistake::NotServed(unserved) => push_unserved(unserved, out),
        SiteMistake::NoSeeds => out.extend_from_slice(
            b"warning: searches find nothing, because the settings have no [[seeds]]\n",
        ),
    }
}

// Appends the lines of a site, up to its warnings.
fn push_site(path: &str, site: &SoundSite, out: &mut Vec<u8>) -> Pushed {
    let (allow, deny) = site.settings.scope.rules();
    let root = site.settings.root.as_str();
    push_words(b"settings: ", path.as_bytes(), out)?;
    push_home(&site.settings.home, root, out)?;
    push_sizes(&site.tree, out)?;
    push_omitted(root, &site.left_out, out)?;
    push_seeds(&site.settings.seeds, out)?;
    push_rules(b"may visit: ", allow, out)?;
    push_rules(b"may not visit: ", deny, out)
}

impl SoundSite {
    /// Returns the lines on the site, and the number of its warnings. `path` is the path of the
    /// settings file.
    pub fn summary(&self, alloc: Global, path: &str) -> Result<Summary, NoMemory>
        ensures { IfOk result (λ summary.
            summary.warnings ≡ length (site_warnings self.now) + length self.now.left_out.items) }
    {
        let warnings = self.warnings(alloc)?;
        let mut words = Vec::new(alloc);
        push_site(path, self, &mut words)?;
        for warning in &warnings {
            push_warning(self.settings.root.as_str(), warning, &mut words)?;
        }
        Ok(Summary {
            words,
            warnings: warnings.len() + self.left_out.len(),
        })
    }
}
