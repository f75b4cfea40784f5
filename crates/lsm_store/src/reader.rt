//! Readers, which hold no pin.

ghost use Rattle.std.specs.Prelude.{◌≡◌, ◌^◌, IfErr, IfOk, IsErr, OnErr, OnOk};
ghost use Rattle.lsm_history.specs.History.{IsLater};
ghost use Rattle.lsm_pins.specs.View.{noted_view};
ghost use Rattle.lsm_store.specs.Readers.{HasSeen, IsBegun, IsIdle, IsRefused, KnowsAll};
ghost use Rattle.lsm_store.specs.Readers.{refreshed};
ghost use Rattle.lsm_store.specs.declared.begin_fault.BeginFault.TheVariants.{PinsSpent};

use crate::begin_fault::BeginFault;
use crate::reader_cache::ReaderCache;
use crate::view::View;
use lsm_pins::Pinner;
use lsm_slots::Boarded;
use lsm_state::State;
use lsm_table::Shelf;
use std::alloc::AllocError;
use std::marker::Model;

/// A reader outside the lock. It has learnt a version, and holds no pin.
pub struct Reader<N: Boarded, S: Shelf> {
    pub(crate) pinner: Pinner,
    pub(crate) cache: ReaderCache<N, S>,
}

impl<N: Boarded, S: Shelf> Drop for Reader<N, S> {
    fn drop(self) {
        let Self {
            pinner: _,
            cache: _,
        } = self;
    }
}

impl<N: Boarded, S: Shelf> Model for Reader<N, S> {
    ghost use Rattle.std.specs.Prelude.{◌≡◌, ◌≤◌, None};
    ghost use Rattle.lsm_store.specs.Readers.{Learnt};

    ghost Value = { Learnt };

    ghost view = { λ r. record {
      id = r.cache.id;
      version = r.cache.version;
      pinner = r.pinner;
      told = r.cache.told;
      history = r.cache.history;
      snapshots = r.cache.snapshots;
    } };

    ghost invariant = { λ r. (r.pinner.board ≡ N.board) × (r.pinner.knows.held ≡ None)
        × (r.cache.id ≤ r.pinner.knows.id) };
}

impl<N: Boarded, S: Shelf> Reader<N, S> {
    /// The id of the version that it has learnt. What holds of every reader is told here too.
    pub fn id(&self) -> u32
        ensures id { result ≡ self.now.id }
        ensures idle { IsIdle self.now }
        ensures seen { HasSeen self.now }
        ensures board { self.now.pinner.board ≡ N.board }
        ensures history { S.honest → KnowsAll self.now }
    {
        self.cache.id
    }

    /// Learns the current version of the state that the lock has lent, and all that has come in,
    /// which goes on from what it knew. `AllocError` where the version's count of owners is at its
    /// end.
    #[tactic(auto, using(crate::proofs::ReaderLaws::same_learnt))]
    pub fn refresh(&mut self, state: &mut State<N, S>) -> Result<(), AllocError>
        ensures ok { OnOk result (self.new ≡ refreshed state.old self.old) }
        ensures later { OnOk result (IsLater self.new.history self.old.history) }
        ensures board { OnOk result ((state.new.slots.board.board ≡ state.old.slots.board.board)
            × (state.new.slots.board.knows
            ≡ noted_view state.old.slots.board.knows self.new.pinner.knows)) }
        ensures rest { state.new ≡ record state.old
            { slots = record state.old.slots { board = state.new.slots.board } } }
        ensures err { OnErr result ((self.new ≡ self.old) × (state.new ≡ state.old)) }
    {
        self.cache.learn(state)?;
        state.learn(&mut self.pinner);
        Ok(())
    }

    /// Pins the version that was learnt, by one atomic step and without the lock. Where a later one
    /// is current, the pin is given back, and its id is told (`Moved`); `PinsSpent` where all pins
    /// of the id seen last were made.
    #[tactic(auto, using(crate::proofs::ReaderLaws::begun_at, crate::proofs::ReaderLaws::moved_at))]
    pub fn begin(self) -> Result<View<N, S>, (Reader<N, S>, BeginFault)>
        ensures begun { IfOk result (λ v. IsBegun self v) }
        ensures refused { IfErr result (λ e. IsRefused self e.0 e.1) }
        ensures spent { self.pinner.knows.count ≡ 2 ^ 24
            → IsErr result × IfErr result (λ e. e.1 ≡ PinsSpent) }
    {
        let Reader { mut pinner, cache } = self;
        match pinner.pin() {
            Ok((id, slot)) => {
                if id == cache.id {
                    return Ok(View {
                        pinner,
                        slot,
                        cache,
                    });
                }
                pinner.unpin();
                Err((Reader { pinner, cache }, BeginFault::Moved(id)))
            }
            Err(_) => Err((Reader { pinner, cache }, BeginFault::PinsSpent)),
        }
    }
}
