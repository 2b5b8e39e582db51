//! The tables in `seeds`, `allow` and `deny`: their keys, `Field`, and their kinds, `Element`.

ghost use Rattle.std.specs.Prelude.{◌≡◌, map, Some};
ghost use Rattle.toml.specs.Data.{as_array, as_table};
ghost use Rattle.toml.specs.View.{view, table_view};
ghost use Rattle.gopher_scope.specs.Rows.{element_fields, field_row};
ghost use Rattle.gopher_scope.specs.Values.{first_of, table_problem, element_problem, array_problem, faulty_field, spot_at, first_spot, array_spot};
ghost use Rattle.gopher_scope.specs.Unknown.{is_field_name};

use super::row::{Form, Problem, Row, TextKind};
use gopher_item::MAX_PORT;
use toml::{Table, Value};

/// The most tables in an array.
const MAX_TABLES: usize = 256;

/// A key of a table in an array.
#[derive(Clone, Copy, Debug)]
pub(crate) enum Field {
    /// `type`: the type of a place.
    Kind,
    /// `host`: the host of a place or a rule.
    Host,
    /// `port`: the port of a place or a rule.
    Port,
    /// `selector`: the selector of a place.
    Selector,
    /// `prefix`: the prefix of a rule.
    Prefix,
}

impl Field {
    /// Returns the row of the key.
    pub(crate) fn row(self) -> Row
        ensures { result ≡ field_row self }
    {
        let (name, form) = match self {
            Field::Kind => ("type", Form::Text(TextKind::PlaceKind)),
            Field::Host => ("host", Form::Text(TextKind::Host)),
            Field::Port => ("port", Form::Integer(70, MAX_PORT)),
            Field::Selector => ("selector", Form::Text(TextKind::Selector)),
            Field::Prefix => ("prefix", Form::Text(TextKind::Selector)),
        };
        Row { name, form }
    }
}

/// Where in an array a fault is.
#[derive(Clone, Copy, Debug)]
pub(crate) struct Spot {
    /// The index of the element with the fault, from 0.
    pub(crate) index: usize,
    /// The key with the fault in the table there; `None` if the element isn't a table.
    pub(crate) field: Option<Field>,
}

/// The kind of the tables in an array.
#[derive(Clone, Copy, Debug)]
pub(crate) enum Element {
    /// Tables of places.
    Seed,
    /// Tables of rules.
    Rule,
}

impl Element {
    // The keys of such a table in the order in which they are checked.
    fn fields(self) -> &'static [Field]
        ensures { result.now ≡ element_fields self }
    {
        match self {
            Element::Seed => &[Field::Kind, Field::Host, Field::Port, Field::Selector],
            Element::Rule => &[Field::Host, Field::Port, Field::Prefix],
        }
    }

    fn first_problem(self, table: &Table) -> Option<Problem>
        ensures { result ≡ table_problem self (Some (table_view table.now)) }
    {
        let fields = self.fields();
        for field in fields {
            if let Some(problem) = field.row().scalar_problem(table) {
                return Some(problem);
            }
        }
        None
    }

    fn element_problem(self, value: &Value) -> Option<Problem>
        ensures { result ≡ element_problem self (view value.now) }
    {
        match value.as_table() {
            None => Some(Problem::WrongKind),
            Some(table) => self.first_problem(table),
        }
    }

    fn elements_problem(self, values: &[Value]) -> Option<Problem>
        ensures { result ≡ first_of (element_problem self) (map view values.now) }
    {
        for value in values {
            if let Some(problem) = self.element_problem(value) {
                return Some(problem);
            }
        }
        None
    }

    /// Returns the fault of a value that has to be an array of such tables, if it has one.
    pub(crate) fn problem(self, value: &Value) -> Option<Problem>
        ensures { result ≡ array_problem self (as_array (view value.now)) }
    {
        match value.as_array() {
            None => Some(Problem::WrongKind),
            Some(array) if array.len() <= MAX_TABLES => self.elements_problem(array),
            Some(_) => Some(Problem::OutOfRange),
        }
    }

    // The first key of a table with a fault, in the order in which they are checked.
    fn faulty_field(self, table: &Table) -> Option<Field>
        ensures { result ≡ faulty_field self (Some (table_view table.now)) }
    {
        let fields = self.fields();
        for field in fields {
            if field.row().scalar_problem(table).is_some() {
                return Some(*field);
            }
        }
        None
    }

    // The first key with a fault of an element, if it is a table.
    fn element_field(self, value: &Value) -> Option<Field>
        ensures { result ≡ faulty_field self (as_table (view value.now)) }
    {
        match value.as_table() {
            None => None,
            Some(table) => self.faulty_field(table),
        }
    }

    // Where the fault of the element at this index is, if it has one.
    fn spot_at(self, index: usize, value: &Value) -> Option<Spot>
        ensures { result ≡ spot_at self (index, view value.now) }
    {
        let _problem = self.element_problem(value)?;
        let field = self.element_field(value);
        Some(Spot { index, field })
    }

    // Where the fault of the first element with a fault is.
    fn first_spot(self, values: &[Value]) -> Option<Spot>
        ensures { result ≡ first_spot self (map view values.now) }
    {
        for (index, value) in values.iter().enumerate() {
            if let Some(spot) = self.spot_at(index, value) {
                return Some(spot);
            }
        }
        None
    }

    /// Returns where in a value that has to be an array of such tables its first fault is, if an
    /// element has it; `None` for a fault of the whole value.
    pub(crate) fn spot(self, value: &Value) -> Option<Spot>
        ensures { result ≡ array_spot self (as_array (view value.now)) }
    {
        match value.as_array() {
            None => None,
            Some(array) if array.len() <= MAX_TABLES => self.first_spot(array),
            Some(_) => None,
        }
    }

    /// Returns whether such a table may have a key of this name.
    #[tactic(auto, unfolding(crate::specs::Unknown::is_field_name))]
    pub(crate) fn is_field_name(self, name: &str) -> bool
        ensures { result ≡ is_field_name self name.now }
    {
        self.fields().iter().any(|field| field.row().name == name)
    }
}
