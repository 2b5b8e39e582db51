//! Reading seeds and rules from tables that have no fault.

ghost use Rattle.std.specs.Prelude.{◌≡◌, map, Some, None, IfOk};
ghost use Rattle.toml.specs.View.{view, table_view};
ghost use Rattle.gopher_scope.specs.Rows.{field_row};
ghost use Rattle.gopher_scope.specs.Values.{integer_read, text_read, first_of, field_problem, table_problem, element_problem};
ghost use Rattle.gopher_scope.specs.Settings.{kind_read, seed_read, rule_read, seeds_read, rules_read};

use super::tables::{Element, Field};
use gopher_item::{ItemFault, NoMemory, Place, Rule};
use std::alloc::Global;
use toml::{Table, Value};

fn port(table: &Table) -> u16
    requires { field_problem (table_view table.now) Field.Port ≡ None }
    ensures { result ≡ integer_read (table_view table.now) (field_row Field.Port) }
{
    Field::Port.row().integer(table) as u16
}

fn kind(table: &Table) -> u8
    ensures { result ≡ kind_read (text_read (table_view table.now) (field_row Field.Kind)) }
{
    if Field::Kind.row().text(table) == "0" {
        b'0'
    } else {
        b'1'
    }
}

fn seed(alloc: Global, table: &Table) -> Result<Place, NoMemory>
    requires { table_problem Element.Seed (Some (table_view table.now)) ≡ None }
    ensures { IfOk result (λ seed. seed ≡ seed_read (table_view table.now)) }
{
    let selector = Field::Selector.row().text(table).as_bytes();
    let host = Field::Host.row().text(table).as_bytes();
    match Place::new(alloc, kind(table), selector, host, port(table)) {
        Ok(seed) => Ok(seed),
        Err(ItemFault::NoMemory) => Err(NoMemory),
        Err(_) => unreachable!(),
    }
}

fn rule(alloc: Global, table: &Table) -> Result<Rule, NoMemory>
    requires { table_problem Element.Rule (Some (table_view table.now)) ≡ None }
    ensures { IfOk result (λ rule. rule ≡ rule_read (table_view table.now)) }
{
    let host = Field::Host.row().text(table).as_bytes();
    let prefix = Field::Prefix.row().text(table).as_bytes();
    match Rule::new(alloc, host, port(table), prefix) {
        Ok(rule) => Ok(rule),
        Err(ItemFault::NoMemory) => Err(NoMemory),
        Err(_) => unreachable!(),
    }
}

/// Reads the tables of `seeds`.
pub(crate) fn seeds(alloc: Global, values: &[Value]) -> Result<Vec<Place>, NoMemory>
    requires { first_of (element_problem Element.Seed) (map view values.now) ≡ None }
    ensures { IfOk result (λ seeds. seeds.items ≡ seeds_read (map view values.now)) }
{
    let mut seeds = Vec::new(alloc);
    for value in values {
        if let Some(table) = value.as_table() {
            seeds.push(seed(alloc, table)?)?;
        }
    }
    Ok(seeds)
}

/// Reads the tables of `allow` or `deny`.
pub(crate) fn rules(alloc: Global, values: &[Value]) -> Result<Vec<Rule>, NoMemory>
    requires { first_of (element_problem Element.Rule) (map view values.now) ≡ None }
    ensures { IfOk result (λ rules. rules.items ≡ rules_read (map view values.now)) }
{
    let mut rules = Vec::new(alloc);
    for value in values {
        if let Some(table) = value.as_table() {
            rules.push(rule(alloc, table)?)?;
        }
    }
    Ok(rules)
}
