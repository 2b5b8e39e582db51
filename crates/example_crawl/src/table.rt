//! `Table`: the names of a crawl's scope and of a host's replies; `Told`: the rule that admits just
//! the outcomes of that host.

ghost use Rattle.std.specs.Prelude.{ℕ, [], List};
ghost use Rattle.gopher_item.specs.Scope.{ScopeData};
ghost use Rattle.example_crawl.specs.Table.{MatchesTable};

use gopher_crew::Admits;
use std::marker::{Brand, PhantomData};

/// The scope of a crawl, and the replies of its host, for proofs alone. A caller takes `Brand`, and
/// picks both in its proof.
pub trait Table {
    ghost scope: { ScopeData };

    ghost replies: { List (List ℕ × List ℕ) };
}

impl Table for Brand {
    ghost scope = { record { allow = []; deny = [] } };

    ghost replies = { [] };
}

/// The rule of a desk that takes only what the host replies.
pub struct Told<T: Table> {
    of: PhantomData<T>,
}

impl<T: Table> Admits for Told<T> {
    ghost admits = { λ place event. MatchesTable T.scope T.replies place event };
}
