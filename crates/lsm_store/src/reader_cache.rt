//! What a reader has besides its end of the board.

ghost use Rattle.std.specs.Prelude.{◌≡◌, ◌+◌, ℕ, IfErr, IfOk, OnErr, OnOk};
ghost use Rattle.std.specs.Arc.{arc_value};
ghost use Rattle.lsm_history.specs.History.{IsLater};
ghost use Rattle.lsm_shelf.specs.Told.{Counted, Forked, NotNamed};
ghost use Rattle.lsm_slots.specs.Slots.{Epoch, HasEpoch};
ghost use Rattle.lsm_version.specs.Versions.{numbers_in};
ghost use Rattle.lsm_store.specs.Promised.{AnswersAll, snapshot_sequences};
ghost use Rattle.lsm_store.specs.Readers.{known_by, learning_all};

use boxcar::tag::{Names, Tag};
use lsm_history::{Catalogue, Memory};
use lsm_reader::Cached;
use lsm_slots::Boarded;
use lsm_state::State;
use lsm_table::{NamedShelf, Shelf, ShelfFault};
use lsm_version::Version;
use std::alloc::{AllocError, Global};
use std::marker::Model;
use std::mem;
use std::num::NonZeroUsize;
use std::sync::Arc;

/// What a reader has besides its end of the board: the version that it has learnt, the version's
/// id, and its blocks; and, for contracts alone, all that had come in when it learnt the version,
/// the sequences of the snapshots that were live then, and which version had had which id.
pub struct ReaderCache<N: Boarded, S: Shelf> {
    pub(crate) id: u32,
    pub(crate) version: Arc<Version<N, S>>,
    pub(crate) blocks: Cached<N, S>,
    pub(crate) memory: Memory<N>,
    pub(crate) snapshots: Tag,
    pub(crate) catalogue: Catalogue<N>,
}

impl<N: Boarded, S: Shelf> Drop for ReaderCache<N, S> {
    fn drop(self) {
        let Self {
            id: _,
            version: _,
            blocks: _,
            memory: _,
            snapshots: _,
            catalogue: _,
        } = self;
    }
}

impl<N: Boarded, S: Shelf> Model for ReaderCache<N, S> {
    ghost use Rattle.std.specs.Arc.{arc_value};
    ghost use Rattle.lsm_codec.specs.Lists.{Has};
    ghost use Rattle.lsm_state.specs.Editions.{edition};
    ghost use Rattle.lsm_store.specs.Promised.{AnswersAll};
    ghost use Rattle.lsm_store.specs.Readers.{KnownVersion};

    ghost Value = { KnownVersion };

    ghost view = { λ d. record {
      id = d.id;
      version = arc_value d.version;
      told = d.blocks;
      history = d.memory;
      snapshots = d.snapshots.numbers;
    } };

    ghost invariant = { λ d.
        (S.honest → AnswersAll (arc_value d.version) d.snapshots.numbers d.memory)
        × Has d.catalogue (edition d.id (arc_value d.version)) };
}

// The sequences of the snapshots of a state.
struct OfSnapshots;

impl<N: Boarded, S: Shelf> Names<State<N, S>> for OfSnapshots {
    ghost use Rattle.lsm_store.specs.Promised.{snapshot_sequences};

    ghost numbers = { λ s. snapshot_sequences s };
}

// These sequences.
fn sequences_of<N: Boarded, S: Shelf>(state: &State<N, S>) -> Tag
    ensures { result.numbers ≡ snapshot_sequences state.now }
{
    Tag::of::<State<N, S>, OfSnapshots>(state)
}

impl<N: Boarded, S: Shelf> ReaderCache<N, S> {
    /// One at which the state's current version is known, with a fork of the shelf, and an empty
    /// cache of so many blocks.
    #[tactic(auto, using(lsm_shelf::proofs::CallerLemmas::forked_none, lsm_shelf::proofs::CallerLemmas::forked_once, lsm_shelf::proofs::CallerLemmas::forked_same))]
    pub(crate) fn new(
        alloc: Global,
        state: &mut State<N, S>,
        shelf: &mut NamedShelf<N, S>,
        blocks: NonZeroUsize,
    ) -> Result<ReaderCache<N, S>, ShelfFault>
        ensures cache { IfOk result (λ d. d ≡ known_by state.old N.place (shelf.old.forks + 1)) }
        ensures same { state.new ≡ state.old }
        ensures told { Forked shelf.old shelf.new }
        ensures cause { IfErr result (λ e. NotNamed e × Counted e shelf.old shelf.new) }
    {
        let (id, current) = state.current();
        let version = Arc::try_clone(current)?;
        let fork = shelf.fork(alloc)?;
        let blocks = Cached::new(alloc, fork, blocks)?;
        // That the version answers as the history is told by this call.
        state.law();
        let snapshots = sequences_of(state);
        let catalogue = state.catalogue();
        let memory = state.remember();
        Ok(ReaderCache {
            id,
            version,
            blocks,
            memory,
            snapshots,
            catalogue,
        })
    }

    /// Learns the state's current version, and all that has come in. The history goes on from the
    /// one that was known.
    pub(crate) fn learn(&mut self, state: &mut State<N, S>) -> Result<(), AllocError>
        ensures ok { OnOk result (self.new ≡ learning_all state.old self.old) }
        ensures later { OnOk result (IsLater self.new.history self.old.history) }
        ensures same { state.new ≡ state.old }
        ensures err { OnErr result (self.new ≡ self.old) }
    {
        let (id, current) = state.current();
        let version = Arc::try_clone(current)?;
        // That the version answers as the history is told by this call.
        state.law();
        let snapshots = sequences_of(state);
        let catalogue = state.catalogue();
        let now = state.remember();
        let memory = mem::replace(&mut self.memory, now);
        state.recall(memory);
        self.id = id;
        self.version = version;
        self.snapshots = snapshots;
        self.catalogue = catalogue;
        Ok(())
    }

    /// A version that the state has in a slot under the id that was learnt has the tables of the
    /// version that was learnt.
    pub(crate) fn compare(&mut self, state: &mut State<N, S>)
        ensures one { (slot : ℕ) (e : Epoch) → HasEpoch state.old.slots slot e
            → e.id ≡ self.old.id → numbers_in e.version ≡ numbers_in self.old.version }
        ensures same { (self.new ≡ self.old) × (state.new ≡ state.old) }
    {
        state.consult(&mut self.catalogue);
    }
}
