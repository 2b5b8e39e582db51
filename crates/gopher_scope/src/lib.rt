//! The settings of a server, read from a text in TOML, and the report of `hole check` on settings
//! and their folder.
//!
//! The crates above use three contracts:
//!
//! - `Settings::read` reads a text as `settings_of` defines (`specs/Settings.antt`).
//! - `check` reports the first fault of the settings, the folder or the seeds, or a site without a
//!   fault, as `IsReportOnText` defines (`specs/Report.antt`). A report is a value, and the lines
//!   that it is written in have no contract: tests/check.py compares them with the manual.
//! - `SoundSite::warnings` returns the warnings of a site without a fault, as `site_warnings`
//!   defines (`specs/Warnings.antt`).
//!
//! Rules, scopes and the limits of a crawl are those of gopher_item.
//!
//! Error 90 (`NoMemory`) means out of memory; no argument has changed. Calls that can't fail with
//! it allocate nothing.
//!
//! RFC 1436 doesn't define settings or reports: this profile does.
#![tactic(auto)]

mod fault;
mod report;
mod settings;

pub use fault::{SettingsFault, SiteFault};
pub use gopher_item::{MAX_PLACES, MAX_TRIES, Rule, Scope};
pub use report::{
    FaultReport, Obstacle, Report, SettingsObstacle, SiteMistake, SiteWarning, SoundSite, Summary,
    Unserved, check, is_asked, is_own, push_shown, unreadable,
};
pub use settings::{Key, Settings};
