//! Reads and snapshots.

ghost use Rattle.std.specs.Prelude.{◌≡◌, ℕ, suc, ◌-◌, ◌^◌, [], ◌∷◌, ◌++◌, ◌⊎◌, IfErr, IfOk, OnErr};
ghost use Rattle.std.specs.Prelude.{OnOk};
ghost use Rattle.std.specs.Option.{option_map};
ghost use Rattle.lsm_codec.specs.Entries.{answer};
ghost use Rattle.lsm_codec.specs.Lists.{Has};
ghost use Rattle.lsm_model.specs.Files.{all_entries};
ghost use Rattle.lsm_shelf.specs.Told.{Becomes};
ghost use Rattle.lsm_version.specs.Versions.{files};
ghost use Rattle.lsm_model.specs.Plain.{Releases, TakesSnapshot, without_snapshot};
ghost use Rattle.lsm_slots.specs.Snapshots.{HasId};
ghost use Rattle.lsm_state.specs.Held.{plain};
ghost use Rattle.lsm_state.specs.Reading.{IsNoBadTable, IsReadRefusal, IsSequence, IsUnknown};
ghost use Rattle.lsm_state.specs.declared.state_fault.StateFault.TheVariants.{NumbersSpent};
ghost use Rattle.lsm_state.specs.declared.state_fault.StateFault.TheVariants.{OutOfMemory};
ghost use Rattle.lsm_state.specs.declared.state_fault.StateFault.TheVariants.{UnknownSnapshot};

use crate::state::State;
use crate::state_fault::StateFault;
use lsm_slots::Boarded;
use lsm_table::{NamedShelf, Shelf};
use std::alloc::Global;

impl<N: Boarded, S: Shelf> State<N, S> {
    // The sequence at which a read is made.
    fn sequence_at(&self, at: Option<u64>) -> Result<u64, StateFault>
        ensures ok { IfOk result (λ seq. IsSequence self.now at seq) }
        ensures err { IfErr result (λ e. IsUnknown self.now at e) }
    {
        match at {
            None => Ok(self.slots.version().last()),
            Some(id) => self.sequence_of(id),
        }
    }

    /// The value of a user key, or none: as of the snapshot, or of the last sequence. Only the
    /// current version is read.
    ///
    /// `UnknownSnapshot` where the snapshot is not live; then `Read` as `lsm_query::get`, over an
    /// honest shelf only where the shelf refused or memory ran out.
    pub fn get(
        &self,
        shelf: &mut NamedShelf<N, S>,
        alloc: Global,
        user: &[u8],
        at: Option<u64>,
    ) -> Result<Option<Vec<u8>>, StateFault>
        ensures answer { IfOk result (λ v. (seq : ℕ) × IsSequence self.now at seq
            × (S.honest → option_map (λ b. b.items) v
            ≡ answer (all_entries (files self.now.slots.version)) user.now seq)) }
        ensures history { IfOk result (λ v. (seq : ℕ) × IsSequence self.now at seq
            × (S.honest → option_map (λ b. b.items) v
            ≡ answer self.now.history user.now seq)) }
        ensures refused { IfErr result (IsReadRefusal self.now at shelf.old shelf.new) }
        ensures sound { S.honest → IfErr result IsNoBadTable }
        ensures told { Becomes shelf.old shelf.new }
    {
        let seq = self.sequence_at(at)?;
        let value = lsm_query::get(self.slots.version(), shelf, alloc, user, seq)?;
        Ok(value)
    }

    /// A snapshot at the last sequence, under the next id, which it answers. `NumbersSpent` where
    /// the next id would be 2^64 - 1.
    pub fn snapshot(&mut self) -> Result<u64, StateFault>
        ensures ok { IfOk result (λ id. (id ≡ self.old.snapshots.next)
            × (self.new ≡ record self.old {
              snapshots = record {
                taken = self.old.snapshots.taken
                    ++ (id, self.old.slots.version.last) ∷ [];
                next = suc id;
              };
            })) }
        ensures event { OnOk result (TakesSnapshot (plain self.old) (plain self.new)) }
        ensures spent { IfOk result (λ id. self.old.snapshots.next ≡ 2 ^ 64 - 1 → ⊥) }
        ensures err { OnErr result (self.new ≡ self.old) }
        ensures refused { IfErr result (λ e. ((e ≡ NumbersSpent) × (self.old.snapshots.next
            ≡ 2 ^ 64 - 1)) ⊎ ((e ≡ OutOfMemory) × (self.old.snapshots.next ≡ 2 ^ 64 - 1 → ⊥))) }
    {
        if self.snapshots.are_spent() {
            return Err(StateFault::NumbersSpent);
        }
        let last = self.slots.version().last();
        let id = self.snapshots.take(last)?;
        Ok(id)
    }

    /// Gives up the snapshot of this id. `UnknownSnapshot` where it is not live.
    pub fn release(&mut self, id: u64) -> Result<(), StateFault>
        ensures ok { OnOk result (HasId self.old.snapshots.taken id
            × (self.new ≡ record self.old {
              snapshots = record self.old.snapshots
                  { taken = without_snapshot id self.old.snapshots.taken };
            })) }
        ensures event { OnOk result (Releases (plain self.old) id (plain self.new)) }
        ensures err { OnErr result (self.new ≡ self.old) }
        ensures refused { IfErr result (λ e. (e ≡ UnknownSnapshot id)
            × (HasId self.old.snapshots.taken id → ⊥)) }
    {
        if !self.snapshots.release(id) {
            return Err(StateFault::UnknownSnapshot(id));
        }
        Ok(())
    }

    /// The live snapshots, the oldest first, each an id and a sequence.
    pub fn live(&self) -> &[(u64, u64)]
        ensures { result.now ≡ self.now.snapshots.taken }
    {
        self.snapshots.live()
    }

    /// The sequence of the snapshot of this id. `UnknownSnapshot` where it is not live.
    pub fn sequence_of(&self, id: u64) -> Result<u64, StateFault>
        ensures ok { IfOk result (λ seq. Has self.now.snapshots.taken (id, seq)) }
        ensures refused { IfErr result (λ e. (e ≡ UnknownSnapshot id)
            × (HasId self.now.snapshots.taken id → ⊥)) }
    {
        match self.snapshots.sequence_of(id) {
            Some(seq) => Ok(seq),
            None => Err(StateFault::UnknownSnapshot(id)),
        }
    }
}
