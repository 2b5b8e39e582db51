//! The fault of a table of settings: that of one key, and the first of all.

ghost use Rattle.std.specs.Prelude.{◌≡◌};
ghost use Rattle.toml.specs.View.{table_view};
ghost use Rattle.gopher_scope.specs.Values.{first_of};
ghost use Rattle.gopher_scope.specs.Settings.{key_fault, settings_fault};

use super::key::Key;
use super::unknown::have_unknown;
use crate::fault::SettingsFault;
use toml::Table;

/// Returns the first fault of a key's value, or of a missing value (31, 32, 33).
#[tactic(auto, unfolding(crate::specs::Settings::key_fault))]
pub(crate) fn key_fault(table: &Table, key: Key) -> Option<SettingsFault>
    ensures { result ≡ key_fault (table_view table.now) key }
{
    let problem = key.row().problem(table)?;
    Some(problem.at(key))
}

fn first_fault(table: &Table, keys: &[Key]) -> Option<SettingsFault>
    ensures { result ≡ first_of (key_fault (table_view table.now)) keys.now }
{
    for key in keys {
        if let Some(fault) = key_fault(table, *key) {
            return Some(fault);
        }
    }
    None
}

/// Returns the fault of the table, if it has one: an unknown key anywhere (34) or, without one, the
/// fault of the first key with a fault, in the order of `Key` (31, 32, 33).
pub(crate) fn settings_fault(table: &Table) -> Option<SettingsFault>
    ensures { result ≡ settings_fault (table_view table.now) }
{
    if have_unknown(table) {
        Some(SettingsFault::UnknownKey)
    } else {
        first_fault(table, &Key::ALL)
    }
}
