//! The report on a table of settings that has faults: on all of them.

ghost use Rattle.std.specs.Prelude.{◌≡◌, IfOk, map};
ghost use Rattle.toml.specs.View.{table_view};
ghost use Rattle.gopher_scope.specs.Lines.{Puts};
ghost use Rattle.gopher_scope.specs.Finding.{unknown_finding, value_finding, key_findings, table_findings};

use super::finding::{Finding, detail_of};
use crate::fault::{Pushed, SettingsFault, SiteFault};
use crate::settings::{Key, Spot, UnknownKey, key_fault, unknown_keys};
use gopher_item::NoMemory;
use std::alloc::{AllocError, Global};
use toml::Table;

// The finding of an unknown key.
fn unknown_finding(alloc: Global, key: &UnknownKey<'_>) -> Result<Finding, AllocError>
    ensures { IfOk result (λ finding. finding ≡ unknown_finding key.now) }
{
    let fault = SiteFault::Settings(SettingsFault::UnknownKey);
    Ok(Finding {
        fault,
        line: None,
        detail: detail_of(fault, None, key.array),
        name: Vec::from_slice(alloc, key.name.as_bytes())?,
    })
}

// Appends the finding of each of these unknown keys.
fn push_all_unknown(alloc: Global, keys: &[UnknownKey<'_>], out: &mut Vec<Finding>) -> Pushed
    ensures { Puts (map unknown_finding keys.now) out.old out.new result }
{
    for key in keys {
        out.push(unknown_finding(alloc, key)?)?;
    }
    Ok(())
}

// The finding of the fault of a key's value, at this spot of its array.
fn value_finding(alloc: Global, fault: SettingsFault, spot: Option<Spot>) -> Finding
    ensures { result ≡ value_finding spot fault }
{
    let fault = SiteFault::Settings(fault);
    Finding {
        fault,
        line: None,
        detail: detail_of(fault, spot, None),
        name: Vec::new(alloc),
    }
}

// Appends the finding of each of these keys that has a fault.
fn push_keys(alloc: Global, table: &Table, keys: &[Key], out: &mut Vec<Finding>) -> Pushed
    ensures { Puts (key_findings (table_view table.now) keys.now) out.old out.new result }
{
    for key in keys {
        if let Some(fault) = key_fault(table, *key) {
            out.push(value_finding(alloc, fault, key.row().spot(table)))?;
        }
    }
    Ok(())
}

/// Returns all faults of a table of settings: each unknown key, and each key with a fault, in the
/// order in which a server checks them.
pub fn table_findings(alloc: Global, table: &Table) -> Result<Vec<Finding>, NoMemory>
    ensures { IfOk result (λ found. found.items ≡ table_findings (table_view table.now)) }
{
    let mut found = Vec::new(alloc);
    push_all_unknown(alloc, &unknown_keys(alloc, table)?, &mut found)?;
    push_keys(alloc, table, &Key::ALL, &mut found)?;
    Ok(found)
}
