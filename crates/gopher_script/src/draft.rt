//! The rules and seeds of a script before its crawl starts.

ghost use Rattle.std.specs.Prelude.{◌≡◌, []};
ghost use Rattle.gopher_script.specs.Parts.{DraftData};
ghost use Rattle.gopher_script.specs.Stage.{rule_step, seed_step, TakesStep};

use crate::command::{PlaceParts, RuleParts};
use crate::lines::refused_line;
use gopher_item::{NoMemory, Place, Rule, Scope};
use std::alloc::Global;
use std::marker::Model;

/// The rules and seeds that the script has added so far.
#[derive(Debug, Drop)]
pub struct Draft {
    pub allow: Vec<Rule>,
    pub deny: Vec<Rule>,
    pub seeds: Vec<Place>,
}

impl Model for Draft {
    ghost use Rattle.gopher_script.specs.Parts.{DraftData};

    ghost Value = { DraftData };

    ghost view = { λ d.
        record { allow = d.allow.items; deny = d.deny.items; seeds = d.seeds.items } };
}

impl Draft {
    /// A draft without rules and seeds.
    pub fn new(alloc: Global) -> Self
        ensures { result ≡ record { allow = []; deny = []; seeds = [] } }
    {
        Draft {
            allow: Vec::new(alloc),
            deny: Vec::new(alloc),
            seeds: Vec::new(alloc),
        }
    }
}

/// Adds a rule. Returns the bytes of the command's answer.
pub fn add_rule(
    alloc: Global,
    rules: &mut Vec<Rule>,
    parts: &RuleParts<'_>,
) -> Result<Vec<u8>, NoMemory>
    ensures { TakesStep (rule_step rules.old.items parts.now) rules.new.items result }
{
    match parts.make(alloc) {
        Ok(rule) => {
            rules.push(rule)?;
            Ok(Vec::new(alloc))
        }
        Err(fault) => refused_line(alloc, fault.code()),
    }
}

/// Adds a seed. Returns the bytes of the command's answer.
pub fn add_seed(
    alloc: Global,
    seeds: &mut Vec<Place>,
    parts: &PlaceParts<'_>,
) -> Result<Vec<u8>, NoMemory>
    ensures { TakesStep (seed_step seeds.old.items parts.now) seeds.new.items result }
{
    match parts.make(alloc) {
        Ok(seed) => {
            seeds.push(seed)?;
            Ok(Vec::new(alloc))
        }
        Err(fault) => refused_line(alloc, fault.code()),
    }
}
