//! `SiteWarning`: a warning of a site without a fault.

use std::marker::Model;

/// What isn't served of a folder, though it has no fault.
#[derive(Clone, Copy, Debug)]
pub struct Unserved {
    /// The number of folders without a file.
    pub empty: usize,
    /// The number of links to nothing and of devices.
    pub nowhere: usize,
    /// The number of hidden names.
    pub hidden: usize,
}

/// What a warning of a site says.
#[derive(Clone, Copy, Debug)]
pub enum SiteMistake {
    /// The line leads to nothing on its own server.
    LeadsNowhere,
    /// Something isn't served.
    NotServed(Unserved),
    /// A menu offers a search, which finds nothing because the settings have no seeds.
    NoSeeds,
}

/// A warning of a site without a fault.
#[derive(Debug, Drop)]
pub struct SiteWarning<'a> {
    /// The path of a menu file; empty for a warning of the whole site.
    pub path: &'a [u8],
    /// The number of the line, from 1; 0 for a warning of the whole site.
    pub line: usize,
    /// The selector of the line; empty for a warning of the whole site.
    pub selector: &'a [u8],
    /// What the warning says.
    pub mistake: SiteMistake,
}

impl<'a> Model for SiteWarning<'a> {
    ghost use Rattle.gopher_scope.specs.Warnings.{SiteWarningData};

    ghost Value = { SiteWarningData };

    ghost view = { λ w. record {
      path = w.path.now;
      line = w.line;
      selector = w.selector.now;
      mistake = w.mistake;
    } };
}

impl<'a> SiteWarning<'a> {
    ghost use Rattle.std.specs.Prelude.{◌≡◌};
    ghost use Rattle.gopher_scope.specs.Warnings.{whole_warning};

    // A warning of the whole site.
    pub(crate) fn whole(mistake: SiteMistake) -> SiteWarning<'a>
        ensures { result ≡ whole_warning mistake }
    {
        SiteWarning {
            path: &[],
            line: 0,
            selector: &[],
            mistake,
        }
    }
}
