//! `Scope`: the allow rules and deny rules of a crawl, and whether they allow a place.

ghost use Rattle.std.specs.Prelude.{◌≡◌};
ghost use Rattle.gopher_item.specs.Rule.{RuleData};
ghost use Rattle.gopher_item.specs.Scope.{ScopeData, any_covers, allows};

use crate::place::Place;
use crate::rule::Rule;
use std::marker::Model;

/// The places that a crawl may visit: those that an allow rule covers and no deny rule covers.
#[derive(Debug, Drop)]
pub struct Scope {
    allow: Vec<Rule>,
    deny: Vec<Rule>,
}

impl Model for Scope {
    ghost use Rattle.gopher_item.specs.Scope.{ScopeData};

    ghost Value = { ScopeData };

    ghost view = { λ s. record { allow = s.allow.items; deny = s.deny.items } };
}

fn any_covers(rules: &[Rule], place: &Place) -> bool
    ensures { result ≡ any_covers rules.now place.now }
{
    rules.iter().any(|rule| rule.covers(place))
}

impl Scope {
    /// Makes the scope of these rules.
    pub fn new(allow: Vec<Rule>, deny: Vec<Rule>) -> Scope
        ensures allowing { result.allow ≡ allow.items }
        ensures denying { result.deny ≡ deny.items }
    {
        Scope { allow, deny }
    }

    /// Lends the allow rules and the deny rules, in their order.
    pub fn rules(&self) -> (&[Rule], &[Rule])
        ensures allowing { result.0.now ≡ self.now.allow }
        ensures denying { result.1.now ≡ self.now.deny }
    {
        (&self.allow, &self.deny)
    }

    /// Returns the allow rules and the deny rules, in their order.
    pub fn into_rules(self) -> (Vec<Rule>, Vec<Rule>)
        ensures allowing { result.0.items ≡ self.allow }
        ensures denying { result.1.items ≡ self.deny }
    {
        (self.allow, self.deny)
    }

    /// Returns whether some allow rule covers the place and no deny rule does.
    #[tactic(auto, unfolding(crate::specs::Scope::allows))]
    pub fn allows(&self, place: &Place) -> bool
        ensures { result ≡ allows self.now place.now }
    {
        any_covers(&self.allow, place) && !any_covers(&self.deny, place)
    }
}
