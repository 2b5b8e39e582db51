//! `SettingsFault`: why a text isn't valid settings. `SiteFault`: the faults of a site, with the
//! number, the cause and the remedy of each.

ghost use Rattle.std.specs.Prelude.{◌≡◌};
ghost use Rattle.gopher_scope.specs.Fault.{settings_fault_code, site_fault_code};

use crate::report::{Obstacle, SettingsObstacle};
use crate::settings::Key;
use gopher_item::NoMemory;
use gopher_tree::TreeFault;
use std::alloc::AllocError;
use thiserror::Error;

/// The result of appending to a list or a report.
pub(crate) type Pushed = Result<(), AllocError>;

/// Why a text isn't valid settings.
#[derive(Clone, Copy, Debug, PartialEq, Eq, Error)]
pub enum SettingsFault {
    /// 30: the text isn't TOML.
    #[error("the settings aren't valid TOML")]
    NotToml,
    /// 31: the key, or a key of a table in its array, is required and missing.
    #[error("{0}: the key, or a key in one of its tables, is missing")]
    Missing(Key),
    /// 32: the value of the key, or a value in its array, has the wrong type.
    #[error("{0}: the value, or one in its tables, has the wrong type")]
    WrongKind(Key),
    /// 33: the value of the key, or a value in its array, is out of range.
    #[error("{0}: the value, or one in its tables, is out of range")]
    OutOfRange(Key),
    /// 34: the settings, or a table in one of their arrays, have an unknown key.
    #[error("a key is unknown")]
    UnknownKey,
    /// 90: out of memory.
    #[error("out of memory")]
    NoMemory,
}

impl SettingsFault {
    /// The number of the fault: 30 to 34, or 90.
    pub fn code(self) -> u8
        ensures { result ≡ settings_fault_code self }
    {
        match self {
            SettingsFault::NotToml => 30,
            SettingsFault::Missing(_) => 31,
            SettingsFault::WrongKind(_) => 32,
            SettingsFault::OutOfRange(_) => 33,
            SettingsFault::UnknownKey => 34,
            SettingsFault::NoMemory => 90,
        }
    }
}

impl From<NoMemory> for SettingsFault {
    ghost use Rattle.gopher_scope.specs.declared.fault.SettingsFault.TheVariants.{NoMemory};

    ghost from_gives = { λ _ fault. fault ≡ NoMemory };

    fn from(_refused: NoMemory) -> SettingsFault {
        SettingsFault::NoMemory
    }
}

/// A fault of a site.
#[derive(Clone, Copy, Debug, PartialEq, Eq, Error)]
pub enum SiteFault {
    /// 30 to 34, or 90: the settings are invalid.
    #[error("{0}")]
    Settings(SettingsFault),
    /// 20 to 26, or 90: the folder doesn't make a tree. For 23 and 26 it contains the reason.
    #[error("{0}")]
    Tree(TreeFault, Obstacle),
    /// 50: the scope doesn't allow the seed at this index.
    #[error("seed {0} is out of scope")]
    SeedOutOfScope(usize),
    /// 80: the settings file can't be read, has over 1,048,576 bytes, or isn't UTF-8; with the
    /// reason.
    #[error("the settings can't be read")]
    SettingsUnreadable(SettingsObstacle),
    /// 30: a line of the settings repeats an earlier key or table.
    #[error("a line repeats an earlier key or table")]
    KeyTwice,
}

fn explain_tree(fault: TreeFault, obstacle: Obstacle) -> (&'static str, &'static str) {
    match fault {
        TreeFault::BadName { .. } => (
            "a name in this path contains a TAB, CR or LF, or a folder is named .menu",
            "rename the file or folder",
        ),
        TreeFault::Reserved { .. } => (
            "the name search is reserved in the root, because /search is the server's search",
            "rename the file or folder",
        ),
        TreeFault::LongSelector { .. } => (
            "the path from the root has over 254 bytes",
            "use shorter names, or remove a symbolic link that points to a folder above it",
        ),
        TreeFault::TooBig { .. } | TreeFault::Unreadable { .. } => obstacle.explain(),
        TreeFault::BadMenuLine { .. } => (
            "this isn't a valid line of a menu file",
            "write text without TABs, or type and name, TAB, selector, and for another server TAB, host, TAB, port",
        ),
        TreeFault::Twice { .. } => ("another file has the same path", "remove one of the two"),
        TreeFault::NoMemory => (
            "out of memory",
            "give the program more memory, or serve fewer or smaller files",
        ),
    }
}

// What the value of a key may be.
fn range_remedy(key: Key) -> &'static str {
    match key {
        Key::Host =>
            "give the name or the address of the server, without spaces or control characters",
        Key::Port => "use a number from 1 to 65535",
        Key::Root => "give the path of a folder",
        Key::Seeds =>
            "use at most 256 tables, with type 0 or 1, a host, a port from 1 to 65535, and a selector of at most 255 bytes",
        Key::Allow | Key::Deny =>
            "use at most 256 tables, with a host, a port from 1 to 65535, and a prefix of at most 255 bytes",
        Key::Places => "use a number from 1 to 65536",
        Key::Workers => "use a number from 1 to 16",
        Key::Threads => "use a number from 1 to 8",
        Key::Tries => "use a number from 1 to 5",
    }
}

fn explain_settings(fault: SettingsFault) -> (&'static str, &'static str) {
    match fault {
        SettingsFault::NotToml => (
            "the settings aren't valid TOML",
            "correct this line; strings need quotation marks",
        ),
        SettingsFault::Missing(_) => (
            "this key is missing, or one of its tables lacks a required key",
            "add it; hole.toml(5) describes the keys",
        ),
        SettingsFault::WrongKind(_) => (
            "this key's value has the wrong type, or a value in one of its tables has",
            "put strings in quotation marks, write integers without, and begin tables with [[seeds]], [[allow]] or [[deny]]",
        ),
        SettingsFault::OutOfRange(key) => (
            "this key's value is out of range, or a value in one of its tables is",
            range_remedy(key),
        ),
        SettingsFault::UnknownKey => (
            "this key is unknown, or a key in one of its tables is",
            "correct its spelling; the server's own keys come before the first [[",
        ),
        SettingsFault::NoMemory => ("out of memory", "give the program more memory"),
    }
}

impl SiteFault {
    /// Returns the number of the fault, with which the server also fails.
    pub fn code(self) -> u8
        ensures { result ≡ site_fault_code self }
    {
        match self {
            SiteFault::Settings(fault) => fault.code(),
            SiteFault::Tree(fault, _) => fault.code(),
            SiteFault::SeedOutOfScope(_) => 50,
            SiteFault::SettingsUnreadable(_) => 80,
            SiteFault::KeyTwice => SettingsFault::NotToml.code(),
        }
    }

    /// Returns the cause of the fault and its remedy: one line each, without its LF.
    pub fn explain(self) -> (&'static str, &'static str) {
        match self {
            SiteFault::Settings(fault) => explain_settings(fault),
            SiteFault::Tree(fault, obstacle) => explain_tree(fault, obstacle),
            SiteFault::SeedOutOfScope(_) => (
                "no allow rule covers this seed, or a deny rule does",
                "add an allow rule with its host, its port and a prefix of its selector, change the deny rule, or remove the seed",
            ),
            SiteFault::SettingsUnreadable(obstacle) => obstacle.explain(),
            SiteFault::KeyTwice => (
                "this line repeats an earlier key or table",
                "remove one of the two lines",
            ),
        }
    }
}
