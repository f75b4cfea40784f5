//! By whose pin a version is read.

ghost use Rattle.std.specs.Prelude.{◌≡◌, IfErr, IfOk, OnErr};
ghost use Rattle.lsm_channels.specs.Keeping.{IsKeptByLooks};
ghost use Rattle.lsm_state.specs.Held.{plain};
ghost use Rattle.lsm_channels.specs.Pinning.{HasLearnt, IsPinnedBy, IsUnpinned, KnowsSame, seen_by};
ghost use Rattle.lsm_store.specs.Readers.{unpinned};

use crate::locked_version::LockedVersion;
use lsm_slots::Boarded;
use lsm_state::{State, StateFault};
use lsm_store::{Invariant, Reader, Store, View};
use lsm_table::Shelf;
use std::sync::Wait;

/// By whose pin a version is read. It must be ended, which gives the pin back.
pub(crate) enum Pin<N: Boarded, S: Shelf> {
    /// A reader's own, which was made by one atomic step.
    Own(View<N, S>),
    /// One under the lock.
    Locked(LockedVersion<N, S>),
}

impl<N: Boarded, S: Shelf> Pin<N, S> {
    /// A pin of the current version of a state, which the reader has learnt: its own, where it has
    /// one left of this version. While the lock is held no other version becomes current, so that
    /// it is refused a pin of its own as `PinsSpent` alone; `Moved` is met so too.
    #[tactic(auto, using(crate::proofs::PinLaws::begun_knows, crate::proofs::PinLaws::begun_pins, crate::proofs::PinLaws::refused_knows))]
    pub(crate) fn of(
        state: &mut State<N, S>,
        reader: Reader<N, S>,
    ) -> Result<Pin<N, S>, (Reader<N, S>, StateFault)>
        requires { HasLearnt state.old.slots reader }
        ensures seen { IfOk result (λ p. KnowsSame reader (seen_by p)) }
        ensures pinned { IfOk result (IsPinnedBy state.old.slots state.new.slots) }
        ensures rest { state.new ≡ record state.old { slots = state.new.slots } }
        ensures plain { plain state.new ≡ plain state.old }
        ensures err { OnErr result (state.new ≡ state.old) }
        ensures back { IfErr result (λ e. KnowsSame reader e.0) }
        ensures refused { IfErr result (λ e. IsUnpinned state.old e.1) }
    {
        match reader.begin() {
            Ok(view) => Ok(Pin::Own(view)),
            Err((reader, _)) => match LockedVersion::pin(state, reader) {
                Ok(locked) => Ok(Pin::Locked(locked)),
                Err((reader, fault)) => Err((reader, fault)),
            },
        }
    }

    /// Gives the pin back.
    #[tactic(auto, using(crate::proofs::PinLaws::ended_idle))]
    pub(crate) fn end<K: Invariant, R: Wait>(self, rt: &R, store: &Store<N, S, K>) -> Reader<N, S>
        requires looks { IsKeptByLooks K.keeps }
        ensures { result ≡ unpinned (seen_by self) }
    {
        match self {
            Pin::Own(view) => view.end(),
            Pin::Locked(locked) => locked.end(rt, store),
        }
    }
}
