//! `Settings`: the fields, and how they are read from a text in TOML.

ghost use Rattle.std.specs.Prelude.{◌≡◌, None, IfOk, IfErr};
ghost use Rattle.toml.specs.View.{table_view};
ghost use Rattle.gopher_scope.specs.Values.{integer_read};
ghost use Rattle.gopher_scope.specs.Rows.{key_row};
ghost use Rattle.gopher_scope.specs.Settings.{settings_data, settings_fault, home_read, settings_read, rules_at, ReadsTable, AreSettingsOf, AreInRange, AreValuesInText, IsFaultOf};

mod check;
mod items;
mod key;
mod row;
mod tables;
mod unknown;

use crate::fault::SettingsFault;
pub(crate) use check::key_fault;
use check::settings_fault;
use gopher_item::{Home, ItemFault, NoMemory, Place, Scope};
use items::{rules, seeds};
pub use key::Key;
use std::alloc::Global;
pub(crate) use tables::{Field, Spot};
use toml::Table;
pub(crate) use unknown::{UnknownKey, unknown_keys};

/// The settings of a server and its crawl.
#[derive(Debug, Drop)]
pub struct Settings {
    /// The server's own host and port.
    pub home: Home,
    /// The folder to serve.
    pub root: String,
    /// The places from which the crawl starts, in the order of the text.
    pub seeds: Vec<Place>,
    /// The places that the crawl may visit.
    pub scope: Scope,
    /// The most places that the crawl knows, from 1 to 65,536.
    pub places: u32,
    /// The number of workers that crawl, from 1 to 16.
    pub workers: u32,
    /// The number of server threads, from 1 to 8.
    pub threads: u32,
    /// How often the crawl claims a place at most, from 1 to 5.
    pub tries: u32,
}

fn integer_at(table: &Table, key: Key) -> u32
    requires { settings_fault (table_view table.now) ≡ None }
    ensures { result ≡ integer_read (table_view table.now) (key_row key) }
{
    key.row().integer(table)
}

fn home(alloc: Global, table: &Table) -> Result<Home, NoMemory>
    requires { settings_fault (table_view table.now) ≡ None }
    ensures { IfOk result (λ home. home ≡ home_read (table_view table.now)) }
{
    let host = Key::Host.row().text(table).as_bytes();
    match Home::new(alloc, host, integer_at(table, Key::Port) as u16) {
        Ok(home) => Ok(home),
        Err(ItemFault::NoMemory) => Err(NoMemory),
        Err(_) => unreachable!(),
    }
}

fn scope_at(alloc: Global, table: &Table) -> Result<Scope, NoMemory>
    requires { settings_fault (table_view table.now) ≡ None }
    ensures allow { IfOk result (λ scope. scope.allow ≡ rules_at (table_view table.now) Key.Allow) }
    ensures deny { IfOk result (λ scope. scope.deny ≡ rules_at (table_view table.now) Key.Deny) }
{
    let allow = rules(alloc, Key::Allow.row().values(table))?;
    let deny = rules(alloc, Key::Deny.row().values(table))?;
    Ok(Scope::new(allow, deny))
}

fn settings_read(alloc: Global, table: &Table) -> Result<Settings, NoMemory>
    requires { settings_fault (table_view table.now) ≡ None }
    ensures { IfOk result (λ s. settings_data s ≡ settings_read (table_view table.now)) }
{
    Ok(Settings {
        home: home(alloc, table)?,
        root: String::from_str(alloc, Key::Root.row().text(table))?,
        seeds: seeds(alloc, Key::Seeds.row().values(table))?,
        scope: scope_at(alloc, table)?,
        places: integer_at(table, Key::Places),
        workers: integer_at(table, Key::Workers),
        threads: integer_at(table, Key::Threads),
        tries: integer_at(table, Key::Tries),
    })
}

impl Settings {
    /// Reads the settings of a text in TOML.
    ///
    /// # Errors
    ///
    /// The first fault in this order:
    /// - `NotToml` (30): the text isn't TOML
    /// - `UnknownKey` (34): the settings, or a table in `seeds`, `allow` or `deny`, have an unknown
    ///   key
    /// - for each key in the order of `Key`: `Missing` (31) if it is required and missing,
    ///   `WrongKind` (32) if its value has the wrong type, `OutOfRange` (33) if its value is out of
    ///   range
    /// - `NoMemory` (90); out of memory while the text is parsed comes before all other faults
    ///
    /// A fault inside an array names the key of the array. The array's type and length are checked
    /// first, then its elements in order, and the keys of each element in order.
    pub fn read(alloc: Global, text: &str) -> Result<Settings, SettingsFault>
        ensures read { IfOk result (AreSettingsOf text.now) }
        ensures ranges { IfOk result (λ settings. AreInRange (settings_data settings)) }
        ensures table { IfOk result (AreValuesInText text.now) }
        ensures refused { IfErr result (IsFaultOf text.now) }
    {
        match toml::table_from_str(alloc, text) {
            Ok(table) => Settings::of_table(alloc, &table),
            Err(fault) if fault.is_memory() => Err(SettingsFault::NoMemory),
            Err(_) => Err(SettingsFault::NotToml),
        }
    }

    /// Reads the settings of a TOML table. The errors are those of `read` for a text with it.
    pub fn of_table(alloc: Global, table: &Table) -> Result<Settings, SettingsFault>
        ensures { ReadsTable (table_view table.now) result }
    {
        match settings_fault(table) {
            Some(fault) => Err(fault),
            None => Ok(settings_read(alloc, table)?),
        }
    }
}
