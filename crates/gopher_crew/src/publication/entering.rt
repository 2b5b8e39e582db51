//! Entering the events of a catalogue's record into the crew's history.

ghost use Rattle.std.specs.Prelude.{◌≡◌, IsTrue};
ghost use mathlib.Core.List.{IsPrefix};
ghost use Rattle.gopher_crew.specs.History.{IsMadeBy};

use crate::publication::history::Head;
use crate::publication::record_prefix::RecordPrefix;
use gopher_catalogue::Catalogue;
use std::sync::Wait;

/// Enters the rest of a catalogue's record, which one share made, up to an event that can't be
/// entered. Returns whether there was none.
#[tactic(auto, using(crate::proofs::Records::whole_record, crate::proofs::Making::made_none, crate::proofs::Prefixes::prefix_self))]
pub fn enter_rest(prefix: &mut RecordPrefix, head: &Head, catalogue: &Catalogue, maker: u32) -> bool
    requires history { head.now ≡ prefix.old.history }
    requires begun { IsPrefix prefix.old.events catalogue.now }
    ensures history { prefix.new.history ≡ prefix.old.history }
    ensures begun { IsPrefix prefix.new.events catalogue.now }
    ensures grows { IsPrefix prefix.old.events prefix.new.events }
    ensures made { IsMadeBy maker prefix.old prefix.new }
    ensures all { IsTrue result → prefix.new.events ≡ catalogue.now }
{
    let events = catalogue.record();
    for index in prefix.len() as usize..events.len() {
        if !prefix.add(head, &events[index], maker) {
            return false;
        }
    }
    true
}

/// Enters the rest of a catalogue's record, which one share made. Only its desk enters events into
/// a history, so each can be entered. If one couldn't be, which can't be ruled out, it would never
/// return.
#[tactic(auto, using(crate::proofs::Making::made_none, crate::proofs::Making::made_on, crate::proofs::Prefixes::prefix_self, crate::proofs::Prefixes::prefix_trans))]
pub fn enter<R: Wait>(
    rt: &R,
    prefix: &mut RecordPrefix,
    head: &Head,
    catalogue: &Catalogue,
    maker: u32,
)
    requires history { head.now ≡ prefix.old.history }
    requires begun { IsPrefix prefix.old.events catalogue.now }
    ensures history { prefix.new.history ≡ prefix.old.history }
    ensures events { prefix.new.events ≡ catalogue.now }
    ensures made { IsMadeBy maker prefix.old prefix.new }
{
    for _round in rt.forever() {
        if enter_rest(prefix, head, catalogue, maker) {
            return;
        }
    }
    unreachable!()
}
