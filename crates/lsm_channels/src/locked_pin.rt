//! A pin under the lock.

ghost use Rattle.std.specs.Prelude.{◌≡◌, IfErr, IfOk, OnErr, OnOk};
ghost use Rattle.lsm_slots.specs.Slots.{current_id};
ghost use Rattle.lsm_state.specs.Held.{plain};
ghost use Rattle.lsm_channels.specs.Pinning.{GivesPinBack, IsSpent, PinsCurrent};

use lsm_slots::Boarded;
use lsm_state::{State, StateFault};
use lsm_table::Shelf;

/// A pin under the lock of the version of this id. Nothing lets it go but to give it back.
pub(crate) struct LockedPin {
    id: u32,
}

impl LockedPin {
    /// Pins the current version of a state. `PinsSpent` where it has 2^32 - 1 such pins.
    pub(crate) fn of<N: Boarded, S: Shelf>(state: &mut State<N, S>) -> Result<LockedPin, StateFault>
        ensures id { IfOk result (λ p. p.id ≡ current_id state.old.slots) }
        ensures pinned { OnOk result (PinsCurrent state.old.slots state.new.slots) }
        ensures rest { state.new ≡ record state.old { slots = state.new.slots } }
        ensures plain { plain state.new ≡ plain state.old }
        ensures err { OnErr result (state.new ≡ state.old) }
        ensures refused { IfErr result (IsSpent state.old) }
    {
        let id = state.pin()?;
        Ok(LockedPin { id })
    }

    /// Gives the pin back.
    pub(crate) fn give_back<N: Boarded, S: Shelf>(self, state: &mut State<N, S>)
        ensures pin { GivesPinBack state.old.slots state.new.slots self.id }
        ensures rest { state.new ≡ record state.old { slots = state.new.slots } }
        ensures plain { plain state.new ≡ plain state.old }
    {
        let LockedPin { id } = self;
        let _is_given_back = state.unpin(id);
    }
}
