//! `Crew` and `Admits`: the types that name a crew and its rule of events in contracts.

use std::marker::Brand;
use std::sync::ledger::Ledger;

/// A crew: the names of its ledger and of its history, for proofs alone.
///
/// A caller takes `Brand` as the crew. In its proof it picks the names of the blank with which it
/// opens the desk.
pub trait Crew: Ledger {
    ghost use Rattle.logbook.specs.Pages.{Book};

    ghost history: { Book };
}

impl Crew for Brand {
    ghost history = { record { number = 0; log_name = 0; cells_name = 0 } };
}

/// A caller's rule for the events of a crawl, for proofs alone: which outcomes a place may have.
///
/// A desk takes no other outcome: a caller that adds one shows that the rule admits it. So each
/// outcome in the record of a closed desk is admitted. A caller that has no such rule writes
/// `Desk<C, R>`, whose rule is that of `Brand`, which admits all.
pub trait Admits {
    ghost use Rattle.gopher_item.specs.Place.{PlaceData};
    ghost use Rattle.gopher_catalogue.specs.declared.event.EventData.{EventData};

    ghost admits: { PlaceData → EventData → Type 0 };
}

impl Admits for Brand {
    ghost admits = { λ place event. Unit {0} };
}
