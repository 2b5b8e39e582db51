//! The commands of a script, as values, and the places, rules and queries that they make.

ghost use Rattle.std.specs.Prelude.{◌≡◌, ◌≤◌, length};
ghost use Rattle.gopher_item.specs.Fault.{Makes};
ghost use Rattle.gopher_script.specs.Parts.{fault_of_rule, made_rule, fault_of_place, made_place};

use gopher_catalogue::Why;
use gopher_item::{ItemFault, MAX_LINE, Place, Rule};
use std::alloc::Global;
use std::marker::Model;

/// A command of a script, one for each line.
#[derive(Debug, Drop)]
pub enum Command<'a> {
    /// Does nothing: an empty line or a comment.
    Nothing,
    /// Adds an allow rule.
    Allow(RuleParts<'a>),
    /// Adds a deny rule.
    Deny(RuleParts<'a>),
    /// Adds a seed.
    Seed(PlaceParts<'a>),
    /// Starts the crawl with these limits: the places that become known, and the tries of a place.
    Start(u32, u32),
    /// Claims the next place.
    Claim,
    /// Records the page of the place with this number. The block of the command contains the reply.
    Found(u32, PlaceParts<'a>),
    /// Records that the place with this number failed.
    Fail(u32, Why),
    /// Searches the pages.
    Search(QueryText<'a>),
    /// Looks up the places of the pages that contain a word.
    Occurs(WordText<'a>),
    /// Asks for the number of places in each state.
    Status,
}

/// The parts of a rule, not checked yet.
#[derive(Debug, Drop)]
pub struct RuleParts<'a> {
    pub host: &'a [u8],
    pub port: u16,
    pub prefix: &'a [u8],
}

impl<'a> Model for RuleParts<'a> {
    ghost use Rattle.gopher_item.specs.Rule.{RuleData};

    ghost Value = { RuleData };

    ghost view = { λ r. record { host = r.host.now; port = r.port; prefix = r.prefix.now } };
}

impl<'a> RuleParts<'a> {
    /// Makes the rule. The errors are those of `Rule::new`.
    pub fn make(&self, alloc: Global) -> Result<Rule, ItemFault>
        ensures { Makes (fault_of_rule self.now) (made_rule self.now) result }
    {
        Rule::new(alloc, self.host, self.port, self.prefix)
    }
}

/// The parts of a place, not checked yet.
#[derive(Debug, Drop)]
pub struct PlaceParts<'a> {
    pub kind: u8,
    pub host: &'a [u8],
    pub port: u16,
    pub selector: &'a [u8],
}

impl<'a> Model for PlaceParts<'a> {
    ghost use Rattle.gopher_item.specs.Place.{PlaceData};

    ghost Value = { PlaceData };

    ghost view = { λ p.
        record { host = p.host.now; port = p.port; selector = p.selector.now; kind = p.kind } };
}

impl<'a> PlaceParts<'a> {
    /// Makes the place. The errors are those of `Place::new`.
    pub fn make(&self, alloc: Global) -> Result<Place, ItemFault>
        ensures { Makes (fault_of_place self.now) (made_place self.now) result }
    {
        Place::new(alloc, self.kind, self.selector, self.host, self.port)
    }
}

/// The text of a query: at most 1,024 bytes (`MAX_LINE`).
#[derive(Debug, Drop)]
pub struct QueryText<'a> {
    pub bytes: &'a [u8],
}

impl<'a> Model for QueryText<'a> {
    ghost use Rattle.std.specs.Prelude.{ℕ, ◌≤◌, List, length};
    ghost use Rattle.gopher_bytes.specs.declared.line.TheConstants.{MAX_LINE};

    ghost Value = { List ℕ };

    ghost view = { λ t. t.bytes.now };

    ghost invariant = { λ t. length t.bytes.now ≤ MAX_LINE };
}

impl<'a> QueryText<'a> {
    /// Returns the text.
    pub fn as_slice(&self) -> &'a [u8]
        ensures text { result.now ≡ self.now }
        ensures few { length result.now ≤ MAX_LINE }
    {
        self.bytes
    }
}

/// The word of an `occurs` command.
#[derive(Debug, Drop)]
pub struct WordText<'a> {
    pub bytes: &'a [u8],
}

impl<'a> Model for WordText<'a> {
    ghost use Rattle.std.specs.Prelude.{ℕ, List};

    ghost Value = { List ℕ };

    ghost view = { λ w. w.bytes.now };
}
