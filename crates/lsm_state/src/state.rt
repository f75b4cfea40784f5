//! The value behind the lock.

ghost use Rattle.std.specs.Prelude.{◌≡◌, ℕ};
ghost use Rattle.std.specs.Arc.{arc_value};
ghost use Rattle.lsm_codec.specs.Lists.{Has};
ghost use Rattle.lsm_history.specs.History.{Edition, IsLater};
ghost use Rattle.lsm_version.specs.Versions.{numbers_in};
ghost use Rattle.lsm_model.specs.Runs.{Agrees, ReadsAs};
ghost use Rattle.lsm_slots.specs.Slots.{AreSlots, Epoch, HasEpoch, current_id};
ghost use Rattle.lsm_state.specs.Editions.{edition};
ghost use Rattle.lsm_state.specs.Held.{IsLawfulState, plain};

use crate::options::Options;
use lsm_history::{Catalogue, Keeper, Memory};
use lsm_journal::Journal;
use lsm_live::LiveJobs;
use lsm_model::machine::Premise;
use lsm_pins::Pinner;
use lsm_slots::{Boarded, Slots, Snapshots};
use lsm_table::{Registry, Shelf};
use lsm_version::Version;
use std::marker::Model;
use std::mem;
use std::sync::Arc;

/// What a database holds behind its lock: versions by slot, snapshots, live jobs, and the manifest.
/// Contracts see it as that (`Held`), with the history of all that ever came in, which takes no
/// memory.
pub struct State<N: Boarded, S: Shelf> {
    pub(crate) registry: Arc<Registry<N, S>>,
    pub(crate) options: Options,
    pub(crate) slots: Slots<N, S>,
    pub(crate) snapshots: Snapshots,
    pub(crate) next: u64,
    pub(crate) next_ticket: u64,
    pub(crate) live: LiveJobs<N, S>,
    pub(crate) journal: Journal,
    pub(crate) halted: bool,
    pub(crate) pinners: Vec<Pinner>,
    pub(crate) keeper: Keeper<N>,
}

impl<N: Boarded, S: Shelf> Drop for State<N, S> {
    fn drop(self) {
        let Self {
            registry: _,
            options: _,
            slots: _,
            snapshots: _,
            next: _,
            next_ticket: _,
            live: _,
            journal: _,
            halted: _,
            pinners: _,
            keeper: _,
        } = self;
    }
}

/// What the laws of the plain machine suppose of a state: that its shelf is honest.
impl<N: Boarded, S: Shelf> Premise for State<N, S> {
    ghost holds = { S.honest };
}

impl<N: Boarded, S: Shelf> Model for State<N, S> {
    ghost use Rattle.std.specs.Prelude.{◌≡◌};
    ghost use Rattle.std.specs.Arc.{arc_value};
    ghost use Rattle.lsm_state.specs.Editions.{AreEditions};
    ghost use Rattle.lsm_state.specs.Held.{Held, IsLawfulState};

    ghost Value = { Held };

    ghost view = { λ s. record {
      options = s.options;
      slots = s.slots;
      snapshots = s.snapshots;
      next = s.next;
      next_ticket = s.next_ticket;
      live = s.live;
      journal = s.journal;
      halted = s.halted;
      pinners = s.pinners.items;
      history = s.keeper.entries;
    } };

    ghost invariant = { λ s. IsLawfulState S.honest N.board record {
      options = s.options;
      slots = s.slots;
      snapshots = s.snapshots;
      next = s.next;
      next_ticket = s.next_ticket;
      live = s.live;
      journal = s.journal;
      halted = s.halted;
      pinners = s.pinners.items;
      history = s.keeper.entries;
    } × AreEditions s.slots s.keeper.editions };
}

impl<N: Boarded, S: Shelf> State<N, S> {
    /// The options that it was made with. What holds of every state is told here too.
    pub fn options(&self) -> &Options
        ensures options { result.now ≡ self.now.options }
        ensures law { IsLawfulState S.honest N.board self.now }
        ensures slots { AreSlots self.now.slots }
        ensures board { self.now.slots.board.board ≡ N.board }
    {
        // What holds of slots is told by this call.
        let _version = self.slots.version();
        &self.options
    }

    /// The registry of its tables.
    pub fn registry(&self) -> &Arc<Registry<N, S>> {
        &self.registry
    }

    /// The current version's id, and the version.
    pub fn current(&self) -> (u32, &Arc<Version<N, S>>)
        ensures id { result.0 ≡ current_id self.now.slots }
        ensures version { arc_value result.1.now ≡ self.now.slots.version }
    {
        (self.slots.id(), self.slots.current())
    }

    /// What holds of every state. Over an honest shelf the history is one of the store: none of its
    /// entries is above the last sequence, no two have one user key and stamp, and each read that
    /// is promised, at the last sequence or at a live snapshot's, gives what it gives over all that
    /// ever came in.
    pub fn law(&self)
        ensures law { IsLawfulState S.honest N.board self.now }
        ensures agrees { S.honest → Agrees (plain self.now) self.now.history }
        ensures reads { S.honest → ReadsAs (plain self.now) self.now.history }
    {
        // What holds of the state is told by its parts.
        let _options = &self.options;
    }

    /// The history as it is now, to be remembered: for a later call of `recall`, on this state,
    /// wherever it was in between.
    pub fn remember(&mut self) -> Memory<N>
        ensures seen { result ≡ self.old.history }
        ensures same { self.new ≡ self.old }
    {
        self.keeper.remember()
    }

    /// The history goes on from what was remembered: entries came in front of it, and no other
    /// changed, whatever others did to the state since then. The memory is used up; `remember`
    /// gives a later one.
    pub fn recall(&mut self, memory: Memory<N>)
        ensures later { IsLater self.old.history memory }
        ensures same { self.new ≡ self.old }
    {
        self.keeper.recall(memory);
    }

    /// Which version has had which id, to be remembered, for a later call of `consult` on this
    /// state. The current version is listed under its id.
    pub fn catalogue(&mut self) -> Catalogue<N>
        ensures current { Has result (edition (current_id self.old.slots) self.old.slots.version) }
        ensures same { self.new ≡ self.old }
    {
        // What holds of slots is told by this call.
        let _version = self.slots.version();
        self.keeper.catalogue()
    }

    /// A version that a slot has under a listed id has the tables that are listed, whatever others
    /// did to the state since the list was made. The list is then made anew: what it had it has.
    pub fn consult(&mut self, catalogue: &mut Catalogue<N>)
        ensures one { (x : Edition) → Has catalogue.old x → (slot : ℕ) (e : Epoch)
            → HasEpoch self.old.slots slot e → e.id ≡ x.id → numbers_in e.version ≡ x.tables }
        ensures later { IsLater catalogue.new catalogue.old }
        ensures same { self.new ≡ self.old }
    {
        let now = self.keeper.catalogue();
        let old = mem::replace(catalogue, now);
        self.keeper.consult(old);
    }

    /// The manifest that it holds: its number, and its bytes as far as the shelf confirmed them.
    pub fn journal(&self) -> &Journal
        ensures { result.now ≡ self.now.journal }
    {
        &self.journal
    }
}
