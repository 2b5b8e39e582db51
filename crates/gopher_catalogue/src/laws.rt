//! Laws of every legal record. Each function does nothing: its contract is the law.

ghost use Rattle.gopher_catalogue.specs.Legal.{BeginningsAreLegal, EachKnownPlaceHasOneState, KnownPlacesAreAllowed, KnownPlacesAreDistinct, NoClaimAfterAFind, NoMoreClaimsThanTries, NoPlaceIsOutTwice, OneTryHasSimpleStates, OneTryIsOneClaim, RecordsAreShort, StateSizesAddUp};

/// The scope allows each known place.
pub fn known_places_are_allowed()
    ensures { KnownPlacesAreAllowed }
{}

/// Each known place has one number.
pub fn known_places_are_distinct()
    ensures { KnownPlacesAreDistinct }
{}

/// A place that is out isn't claimed again before its outcome.
pub fn no_place_is_out_twice()
    ensures { NoPlaceIsOutTwice }
{}

/// A place that was found isn't claimed again.
pub fn no_claim_after_a_find()
    ensures { NoClaimAfterAFind }
{}

/// No place is claimed more often than its tries, and none is found twice.
pub fn no_more_claims_than_tries()
    ensures { NoMoreClaimsThanTries }
{}

/// Each known place is in exactly one state, once: waiting, out or done. No other number has a
/// state.
pub fn each_known_place_has_one_state()
    ensures { EachKnownPlaceHasOneState }
{}

/// The numbers of places that wait, are out and are done add up to the number of known places.
pub fn state_sizes_add_up()
    ensures { StateSizesAddUp }
{}

/// With one try, no place is claimed twice.
pub fn one_try_is_one_claim()
    ensures { OneTryIsOneClaim }
{}

/// With one try, a waiting place was never claimed, a place that is out was claimed and has no
/// outcome, and a place that is done was found or failed.
pub fn one_try_has_simple_states()
    ensures { OneTryHasSimpleStates }
{}

/// A prefix of a legal record that contains its opening is a legal record.
pub fn beginnings_are_legal()
    ensures { BeginningsAreLegal }
{}

/// A legal record has at most 655,361 events.
pub fn records_are_short()
    ensures { RecordsAreShort }
{}
