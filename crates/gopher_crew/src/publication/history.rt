//! The crew's history: its rule, and `Head`, through which events are added, each with the number
//! of the share that made it. It exists in proofs alone.

ghost use Rattle.std.specs.Prelude.{◌≡◌, [], length, IsTrue};
ghost use Rattle.gopher_catalogue.specs.EventOf.{event_data};
ghost use Rattle.gopher_crew.specs.History.{head_of, HasMore};

use crate::publication::record_prefix::RecordPrefix;
use gopher_catalogue::{Event, EventData};
use logbook::{Gain, Offer, Plain, Play, Rule, Seen, Start, Word};
use std::marker::Model;

/// The rule of a history: its word is its length.
pub struct Law;

impl Rule<(EventData, u32), u64> for Law {
    ghost use Rattle.std.specs.Prelude.{[]};
    ghost use base.Fml.{ftrue};
    ghost use Rattle.gopher_crew.specs.History.{IsCounted};

    ghost holds = { λ cells made. IsCounted cells made };

    ghost first = { [] };

    ghost hinted = { λ n made. Unit {0} };

    ghost shows = { λ made. [] };

    ghost keeps = { λ names made. ftrue };

    ghost moves = { λ ask before after answer. Unit {0} };
}

/// What `logbook` lets a step trade. Steps of a history trade nothing.
pub struct Nothing;

impl Gain<(EventData, u32), u64> for Nothing {
    ghost use base.Fml.{ftrue};

    ghost after = { λ names about answer. ftrue };
}

/// The step that adds an event and its maker.
pub struct Add;

impl Play<(EventData, u32), u64> for Add {
    ghost use Rattle.gopher_crew.specs.History.{ExchangeAdds};

    ghost then = { ExchangeAdds };
}

/// What the step asks for: the event, as data, and who made it.
impl Plain<(&Event, u32), (EventData, u32), u64> for Add {
    ghost use Rattle.std.specs.Prelude.{None};
    ghost use Rattle.gopher_catalogue.specs.EventOf.{event_data};

    ghost ask = { λ made. (event_data made.0.now, made.1) };

    ghost state = { λ made. None };
}

/// The word of a history, through which events are added. The program keeps the history's length in
/// it.
#[derive(Drop)]
pub struct Head {
    pub(crate) word: Word<(EventData, u32), u64, Law>,
}

impl Model for Head {
    ghost use Rattle.std.specs.Prelude.{◌≡◌};
    ghost use Rattle.logbook.specs.Pages.{Book};
    ghost use Rattle.gopher_crew.specs.History.{head_of};

    ghost Value = { Book };

    ghost view = { λ h. h.word.book };

    ghost invariant = { λ h. h.word ≡ head_of h.word.book };
}

/// Creates a history without an event. Returns its word, and the prefix that has no events.
pub fn new_history() -> (Head, RecordPrefix)
    ensures history { result.0 ≡ result.1.history }
    ensures empty { result.1.events ≡ [] }
    ensures makers { result.1.makers ≡ [] }
{
    let (seen, mut first, _second) = Seen::open(Start::alone(), 0, 0);
    let word = Word::tracked(0, &mut first);
    (Head { word }, RecordPrefix::empty(seen))
}

/// Adds an event to the history, and who made it, by an exchange of its word. Returns whether it
/// did: it didn't if the history is longer than `len`.
pub fn exchange(
    word: &Word<(EventData, u32), u64, Law>,
    len: u32,
    seen: &mut Seen<(EventData, u32), u64, Law>,
    event: &Event,
    maker: u32,
) -> bool
    requires word { word.now ≡ head_of seen.old.book }
    requires len { len ≡ length seen.old.log }
    ensures book { seen.new.book ≡ seen.old.book }
    ensures adds { IsTrue result → HasMore seen.old.log (event_data event.now, maker) seen.new.log }
{
    let made = (event, maker);
    let mut offer: Offer<(EventData, u32), u64, Law, Nothing> = seen.plain::<
        Nothing,
        (&Event, u32),
        Add,
    >(&made);
    let mut pen = seen.no_pen();
    let old = u64::from(len);
    let found = word.compare_exchange::<Add, Nothing>(old, old + 1, seen, &mut offer, &mut pen);
    found == old
}
