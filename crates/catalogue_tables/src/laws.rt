//! Laws of the seam between numbers and what they stand for: each is the contract of a function that does nothing.
ghost use Rattle.std.specs.Prelude.{◌≡◌, Bool, true, List, length};
ghost use Rattle.marc_types.specs.declared.form.Form.{Form};
ghost use Rattle.marc_types.specs.declared.key.Key.{Key};
ghost use Rattle.marc_types.specs.declared.key.Place.{Place};
ghost use Rattle.marc_types.specs.Order.{same_form, same_key};
ghost use Rattle.numbering.specs.Seats.{same_seat};
ghost use Rattle.numbering.specs.declared.seat.Seat.{Seat};
ghost use Rattle.link_table.specs.Links.{Links};
ghost use Rattle.wait_table.specs.Waits.{Waits};
ghost use Rattle.linking_laws.specs.Partway.{same_place};
ghost use Rattle.catalogue_tables.specs.Seam.{KeyLists, has_number, seat_of};
ghost use Rattle.catalogue_tables.specs.Waiting.{WaitsFit};
ghost use Rattle.catalogue_tables.specs.SeamLaws.{HasKeysWaiting, IsFreeUnlinked, ListsPlaces, StaysTold, StaysWithin, TellsWaiting};

/// Seats are told apart as their places are.
#[tactic(auto, using(crate::proofs::Seams::seat_alike))]
pub fn seats_are_told_apart_as_places()
    ensures { (keys : KeyLists) (p q : Place) → has_number keys p ≡ true
        → same_seat (seat_of keys p) (seat_of keys q) ≡ same_place p q }
{}

/// What is told of forms and places stays while forms and keys get numbers.
pub fn what_is_told_of_forms_stays()
    ensures { (old new : List Form) → StaysTold same_form old new }
{}

/// What is told of keys and places stays while keys get numbers.
pub fn what_is_told_of_keys_stays()
    ensures { (old new : List Key) → StaysTold same_key old new }
{}

/// A test stays within the numbers while more are given.
#[tactic(auto, using(crate::proofs::Seams::within_kept))]
pub fn tests_stay_within_their_numbers()
    ensures { (old new : List Form) → StaysWithin old new }
{}

/// The places of all seats that pass a test are all places that pass it, each once.
pub fn listed_seats_are_listed_places()
    ensures { (keys : KeyLists) (test : Seat → Bool) (seats : List Seat) → ListsPlaces keys test seats }
{}

/// The seats that wait for one of some forms or for a key are those of the places that the tests tell.
pub fn what_waits_is_told()
    ensures { (known : List Form) (keys : KeyLists) (waits : Waits) → TellsWaiting known keys waits }
{}

/// What waits has a key with a number.
#[tactic(auto, using(crate::proofs::Waited::waits_seated))]
pub fn what_waits_has_a_key()
    ensures { (known : List Form) (keys : KeyLists) (waits : Waits) → WaitsFit (length known) keys waits → HasKeysWaiting known keys waits }
{}

/// A place that is linked to no key has no link.
pub fn an_unlinked_place_is_free()
    ensures { (keys : KeyLists) (links : Links) (place : Place) (seat : Seat) → IsFreeUnlinked keys links place seat }
{}
