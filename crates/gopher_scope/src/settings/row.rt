//! The row of a key, `Row`: its name and the form of its values, `Form`. Reading and checking its
//! value in a table.

ghost use Rattle.std.specs.Prelude.{◌≡◌, map, None};
ghost use Rattle.std.specs.Option.{option_copied, option_map};
ghost use Rattle.toml.specs.Data.{as_integer, as_str};
ghost use Rattle.toml.specs.View.{view, table_view};
ghost use Rattle.gopher_scope.specs.Rows.{absent_text, is_in_range};
ghost use Rattle.gopher_scope.specs.Values.{integer_problem, number_read, text_problem, scalar_problem, form_problem, form_spot, integer_read, text_read, values_read, value_at};
ghost use Rattle.gopher_scope.specs.Settings.{fault_at};

use super::key::Key;
use super::tables::{Element, Spot};
use crate::fault::SettingsFault;
use gopher_item::{is_host, is_selector};
use std::marker::Model;
use toml::{Table, Value};

/// The fault of a value, or of a key without one.
#[derive(Clone, Copy, Debug)]
pub(crate) enum Problem {
    /// The key is required and missing.
    Missing,
    /// The value has the wrong type.
    WrongKind,
    /// The value is out of range.
    OutOfRange,
}

impl Problem {
    /// Returns the fault of settings with this problem at `key`.
    pub(crate) fn at(self, key: Key) -> SettingsFault
        ensures { result ≡ fault_at key self }
    {
        match self {
            Problem::Missing => SettingsFault::Missing(key),
            Problem::WrongKind => SettingsFault::WrongKind(key),
            Problem::OutOfRange => SettingsFault::OutOfRange(key),
        }
    }
}

/// The kinds of texts in settings.
#[derive(Clone, Copy, Debug)]
pub(crate) enum TextKind {
    /// A host: 1 to 255 bytes without spaces and control bytes; required.
    Host,
    /// A path: any text that isn't empty; required.
    Path,
    /// The type of a place, `0` or `1`; `1` if missing.
    PlaceKind,
    /// A selector or a prefix of selectors: at most 255 bytes without TAB, CR, LF and NUL; empty if
    /// missing.
    Selector,
}

impl TextKind {
    // The value for a missing key, unless the key is required.
    fn absent(self) -> Option<&'static str>
        ensures { option_copied result ≡ absent_text self }
    {
        match self {
            TextKind::Host | TextKind::Path => None,
            TextKind::PlaceKind => Some("1"),
            TextKind::Selector => Some(""),
        }
    }

    fn is_in_range(self, text: &str) -> bool
        ensures { result ≡ is_in_range self text.now }
    {
        match self {
            TextKind::Host => is_host(text.as_bytes()),
            TextKind::Path => !text.is_empty(),
            TextKind::PlaceKind => text == "0" || text == "1",
            TextKind::Selector => is_selector(text.as_bytes()),
        }
    }

    // The fault of a value that has to be such a text, if it has one.
    fn problem(self, value: &Value) -> Option<Problem>
        ensures { result ≡ text_problem self (as_str (view value.now)) }
    {
        match value.as_str() {
            None => Some(Problem::WrongKind),
            Some(text) if self.is_in_range(text) => None,
            Some(_) => Some(Problem::OutOfRange),
        }
    }
}

// The fault of a value that has to be an integer from 1 to `most`, if it has one.
fn integer_problem(most: u32, value: &Value) -> Option<Problem>
    ensures { result ≡ integer_problem most (as_integer (view value.now)) }
{
    match value.as_integer() {
        None => Some(Problem::WrongKind),
        Some(number) if 1 <= number && number <= i64::from(most) => None,
        Some(_) => Some(Problem::OutOfRange),
    }
}

// The value as a number from 1 to `most`.
fn number_read(most: u32, value: &Value) -> u32
    requires { integer_problem most (as_integer (view value.now)) ≡ None }
    ensures { result ≡ number_read (as_integer (view value.now)) }
{
    match value.as_integer() {
        Some(number) => number as u32,
        None => 0,
    }
}

/// The valid values of a key.
#[derive(Clone, Copy, Debug)]
pub(crate) enum Form {
    /// An integer from 1 to the second number; the first number if the key is missing.
    Integer(u32, u32),
    /// A text. Its kind gives its range, and its value if the key is missing.
    Text(TextKind),
    /// An array of at most 256 tables; an empty one if the key is missing.
    Tables(Element),
}

/// A key's name, and its valid values.
#[derive(Debug, Drop)]
pub(crate) struct Row {
    /// The name of the key in the text.
    pub(crate) name: &'static str,
    /// The valid values of the key.
    pub(crate) form: Form,
}

impl Model for Row {
    ghost use Rattle.gopher_scope.specs.Rows.{RowData};

    ghost Value = { RowData };

    ghost view = { λ r. (r.name.now, r.form) };
}

impl Row {
    fn value<'a>(&self, table: &'a Table) -> Option<&'a Value>
        ensures { option_map (λ v. view v.now) result ≡ value_at (table_view table.now) self.now }
    {
        table.get(self.name)
    }

    /// Returns the fault of a value that isn't an array of tables, if it has one.
    pub(crate) fn scalar_problem(&self, table: &Table) -> Option<Problem>
        ensures { result ≡ scalar_problem self.now.1 (value_at (table_view table.now) self.now) }
    {
        match (self.form, self.value(table)) {
            (Form::Integer(_, most), Some(value)) => integer_problem(most, value),
            (Form::Text(kind), Some(value)) => kind.problem(value),
            (Form::Text(kind), None) if kind.absent().is_none() => Some(Problem::Missing),
            _ => None,
        }
    }

    /// Returns the fault of the key's value, if it has one.
    pub(crate) fn problem(&self, table: &Table) -> Option<Problem>
        ensures { result ≡ form_problem self.now.1 (value_at (table_view table.now) self.now) }
    {
        match (self.form, self.value(table)) {
            (Form::Tables(element), Some(value)) => element.problem(value),
            _ => self.scalar_problem(table),
        }
    }

    /// Returns where in the key's value its fault is, if an element of an array has it.
    pub(crate) fn spot(&self, table: &Table) -> Option<Spot>
        ensures { result ≡ form_spot self.now.1 (value_at (table_view table.now) self.now) }
    {
        match (self.form, self.value(table)) {
            (Form::Tables(element), Some(value)) => element.spot(value),
            _ => None,
        }
    }

    /// Returns the integer value of a key, or the value for a missing key.
    pub(crate) fn integer(&self, table: &Table) -> u32
        requires { scalar_problem self.now.1 (value_at (table_view table.now) self.now) ≡ None }
        ensures { result ≡ integer_read (table_view table.now) self.now }
    {
        match (self.form, self.value(table)) {
            (Form::Integer(absent, _), None) => absent,
            (Form::Integer(_, most), Some(value)) => number_read(most, value),
            _ => 0,
        }
    }

    /// Returns the text value of a key, or the value for a missing key.
    pub(crate) fn text<'a>(&self, table: &'a Table) -> &'a str
        ensures { result.now ≡ text_read (table_view table.now) self.now }
    {
        match (self.form, self.value(table)) {
            (Form::Text(kind), None) => kind.absent().unwrap_or(""),
            (Form::Text(_), Some(value)) => value.as_str().unwrap_or(""),
            _ => "",
        }
    }

    /// Returns the elements of the array of a key; none if the key is missing.
    pub(crate) fn values<'a>(&self, table: &'a Table) -> &'a [Value]
        ensures { map view result.now ≡ values_read (value_at (table_view table.now) self.now) }
    {
        match self.value(table) {
            None => &[],
            Some(value) => match value.as_array() {
                None => &[],
                Some(array) => array,
            },
        }
    }
}
