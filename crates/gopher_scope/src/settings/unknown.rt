//! All unknown keys of settings.

ghost use Rattle.std.specs.Prelude.{◌≡◌, None, IfOk};
ghost use Rattle.std.specs.List.{list_any};
ghost use Rattle.toml.specs.View.{view, table_view};
ghost use Rattle.gopher_scope.specs.Unknown.{is_key_name, is_known_in, has_unknown, array_has_unknown, have_unknown, unknown_in, array_unknown, arrays_unknown, unknown_keys};
ghost use Rattle.gopher_scope.specs.Lines.{Puts};

use super::key::Key;
use super::row::Form;
use crate::fault::Pushed;
use gopher_item::NoMemory;
use std::alloc::Global;
use std::marker::Model;
use toml::{Table, Value};

/// An unknown key of settings.
#[derive(Debug, Drop)]
pub(crate) struct UnknownKey<'a> {
    /// The key of the array with the table that has it; `None` for one of the settings' own.
    pub(crate) array: Option<Key>,
    /// Its name.
    pub(crate) name: &'a str,
}

impl<'a> Model for UnknownKey<'a> {
    ghost use Rattle.gopher_scope.specs.Unknown.{Unknown};

    ghost Value = { Unknown };

    ghost view = { λ k. (k.array, k.name.now) };
}

// Whether one of these keys of the settings has this name.
#[tactic(auto, unfolding(crate::specs::Unknown::is_key_name))]
fn is_key_name(keys: &[Key], name: &str) -> bool
    ensures { result ≡ is_key_name keys.now name.now }
{
    keys.iter().any(|key| key.name() == name)
}

// Whether a table in the array of this key, or the settings' own table, may have the key.
fn is_known_in(array: Option<Key>, name: &str) -> bool
    ensures { result ≡ is_known_in array name.now }
{
    let Some(array) = array else {
        return is_key_name(&Key::ALL, name);
    };
    match array.row().form {
        Form::Tables(element) => element.is_field_name(name),
        _ => true,
    }
}

// Whether a table, in the array of this key or the settings' own, has an unknown key.
fn has_unknown(table: &Table, array: Option<Key>) -> bool
    ensures { result ≡ has_unknown array (table_view table.now) }
{
    for name in table.keys() {
        if !is_known_in(array, name.as_str()) {
            return true;
        }
    }
    false
}

// Whether a table in the array of this key has an unknown key.
fn array_has_unknown(table: &Table, array: Key) -> bool
    ensures { result ≡ array_has_unknown (table_view table.now) array }
{
    let values = array.row().values(table);
    for value in values {
        if let Some(table) = value.as_table()
            && has_unknown(table, Some(array))
        {
            return true;
        }
    }
    false
}

// Whether a table in the arrays of these keys has an unknown key.
fn arrays_have_unknown(table: &Table, keys: &[Key]) -> bool
    ensures { result ≡ list_any (array_has_unknown (table_view table.now)) keys.now }
{
    keys.iter().any(|key| array_has_unknown(table, *key))
}

/// Returns whether the settings, or a table in one of their arrays, have an unknown key.
#[tactic(auto, unfolding(crate::specs::Unknown::have_unknown))]
pub(crate) fn have_unknown(table: &Table) -> bool
    ensures { result ≡ have_unknown (table_view table.now) }
{
    has_unknown(table, None) || arrays_have_unknown(table, &Key::ALL)
}

// Appends the unknown keys of a table.
fn push_table<'a>(table: &'a Table, array: Option<Key>, out: &mut Vec<UnknownKey<'a>>) -> Pushed
    ensures { Puts (unknown_in array (table_view table.now)) out.old out.new result }
{
    for name in table.keys() {
        let name = name.as_str();
        if !is_known_in(array, name) {
            out.push(UnknownKey { array, name })?;
        }
    }
    Ok(())
}

// Appends the unknown keys of the tables in an array.
fn push_array<'a>(table: &'a Table, array: Key, out: &mut Vec<UnknownKey<'a>>) -> Pushed
    ensures { Puts (array_unknown (table_view table.now) array) out.old out.new result }
{
    let values = array.row().values(table);
    for value in values {
        if let Some(table) = value.as_table() {
            push_table(table, Some(array), out)?;
        }
    }
    Ok(())
}

// Appends the unknown keys of the tables in the arrays of these keys.
fn push_arrays<'a>(table: &'a Table, keys: &[Key], out: &mut Vec<UnknownKey<'a>>) -> Pushed
    ensures { Puts (arrays_unknown (table_view table.now) keys.now) out.old out.new result }
{
    for key in keys {
        push_array(table, *key, out)?;
    }
    Ok(())
}

/// Returns all unknown keys of settings: their own by their bytes, then those of the tables in each
/// array, in the order of `Key`.
pub(crate) fn unknown_keys(alloc: Global, table: &Table) -> Result<Vec<UnknownKey<'_>>, NoMemory>
    ensures { IfOk result (λ keys. keys.items ≡ unknown_keys (table_view table.now)) }
{
    let mut keys = Vec::new(alloc);
    push_table(table, None, &mut keys)?;
    push_arrays(table, &Key::ALL, &mut keys)?;
    Ok(keys)
}
