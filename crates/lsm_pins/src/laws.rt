//! The laws of a board. Each holds between any two steps, whatever threads pin, unpin, publish,
//! look, learn, cut, join or check in whatever order: of every state of the words and the views
//! that the rule allows.

ghost use Rattle.lsm_pins.specs.Laws.{IsLaw, BoardLaw, HeldIsNotFree, MissedIsHeld};
ghost use Rattle.lsm_pins.specs.Laws.{EachStartHasAState, APinOutlivesItsVersion, NoLawIsAbsurd};

/// The head has the publisher's slot and id, and that slot is in use; the pins of each slot are
/// those that were given back and those that views hold; no view has seen a greater id than the
/// publisher's; views that saw one id saw one slot for it.
pub fn board_law()
    ensures { IsLaw BoardLaw }
{}

/// No slot is free while a view holds it: the slot has the id of the view's pin.
pub fn held_is_not_free()
    ensures { IsLaw HeldIsNotFree }
{}

/// A look that answers false of a slot that is not current means that a view, one not taken in by
/// another, holds the slot.
pub fn missed_is_held()
    ensures { IsLaw MissedIsHeld }
{}

/// The rule is not empty: of each board that can be made it allows a state.
pub fn each_start_has_a_state()
    ensures { EachStartHasAState }
{}

/// In some state that it allows a view holds a version that is no longer current.
pub fn a_pin_outlives_its_version()
    ensures { APinOutlivesItsVersion }
{}

/// What can't be is no law.
pub fn no_law_is_absurd()
    ensures { NoLawIsAbsurd }
{}
