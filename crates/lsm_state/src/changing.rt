//! Changes of the current version.

ghost use Rattle.std.specs.Prelude.{◌≡◌, ℕ, ◌+◌, ◌-◌, ◌<◌, ◌^◌, IfErr, IfOk, OnErr, OnOk, false};
ghost use Rattle.std.specs.Prelude.{true, ◌++◌};
ghost use Rattle.std.specs.Arc.{arc_value};
ghost use Rattle.lsm_codec.specs.Lists.{Has};
ghost use Rattle.lsm_shelf.specs.Told.{Becomes};
ghost use Rattle.lsm_table.specs.Registry.{Table};
ghost use Rattle.lsm_version.specs.Versions.{IsWhole};
ghost use Rattle.lsm_model.specs.Law.{Law};
ghost use Rattle.lsm_model.specs.Runs.{Agrees};
ghost use Rattle.lsm_slots.specs.Slots.{IsFreeSlot, current_id};
ghost use Rattle.lsm_live.specs.Booked.{Booked};
ghost use Rattle.lsm_journal.specs.HeldManifest.{is_at_limit};
ghost use Rattle.lsm_journal.specs.Difference.{Suits, changed_by};
ghost use Rattle.lsm_state.specs.Asked.{ChangeRefused, OnShelf};
ghost use Rattle.lsm_state.specs.Changing.{ChangesVersion, IsChangeRefusal, IsSlotRefusal, Sought};
ghost use Rattle.lsm_state.specs.Changing.{halts, live_after, next_spent, plain_after};
ghost use Rattle.lsm_state.specs.Collecting.{SameCounts};
ghost use Rattle.lsm_state.specs.Held.{HasInputs};
ghost use Rattle.lsm_state.specs.declared.state_fault.StateFault.TheVariants.{OutOfMemory};

use crate::coming::edition_of;
use crate::state::State;
use crate::state_fault::StateFault;
use lsm_history::History;
use lsm_journal::VersionChange;
use lsm_live::LiveJobs;
use lsm_slots::Boarded;
use lsm_table::{NamedShelf, Naming, Shelf, ShelfFault};
use lsm_version::{Version, changed_is_sound};
use std::alloc::Global;
use std::sync::{Arc, Wait};

// The greatest id of a version.
const LAST_VERSION: u32 = (1 << 28) - 1;

// A version to be shared by two.
type Shared<N, S> = (Arc<Version<N, S>>, Arc<Version<N, S>>);

// Whether the manifest may be written no more after this refusal.
fn halts(fault: ShelfFault) -> bool
    ensures { result ≡ halts fault }
{
    match fault {
        ShelfFault::OutOfMemory => false,
        ShelfFault::Device | ShelfFault::Missing | ShelfFault::Taken(_) => true,
    }
}

// Takes the job of the ticket out, if one is named.
fn take_out<N: Naming, S: Shelf>(live: &mut LiveJobs<N, S>, out: Option<u64>)
    ensures { live.new ≡ live_after out live.old }
{
    if let Some(ticket) = out {
        live.remove(ticket);
    }
}

impl<N: Boarded, S: Shelf> State<N, S> {
    // A free slot for the next version. Where none is known to be free, those that may turn free
    // are looked at first.
    //
    // `SlotsHeld` where none is free after that; then `VersionsSpent` where the current version's
    // id is the last one.
    pub(crate) fn find_slot(&mut self) -> Result<u8, StateFault>
        ensures sought { Sought self.old.slots self.new.slots }
        ensures rest { self.new ≡ record self.old { slots = self.new.slots } }
        ensures ok { IfOk result (λ slot. IsFreeSlot self.new.slots slot
            × (current_id self.new.slots < 2 ^ 28 - 1)) }
        ensures refused { IfErr result (λ e. IsSlotRefusal self.old.slots self.new.slots e) }
    {
        let Some(slot) = self.slots.find_free() else {
            return Err(StateFault::SlotsHeld);
        };
        if self.slots.id() >= LAST_VERSION {
            return Err(StateFault::VersionsSpent);
        }
        Ok(slot)
    }

    // The version after a change.
    fn version_after(
        &self,
        alloc: Global,
        change: &VersionChange<N, S>,
        out: Option<u64>,
    ) -> Result<Shared<N, S>, StateFault>
        requires whole { S.honest → (n : ℕ) (t : Table) → Has change.now.added (n, t) → IsWhole t }
        requires law { Law S.honest (plain_after self.now change.now out) }
        ensures first { IfOk result (λ v.
            arc_value v.0 ≡ changed_by change.now self.now.slots.version) }
        ensures second { IfOk result (λ v.
            arc_value v.1 ≡ changed_by change.now self.now.slots.version) }
        ensures refused { IfErr result (λ e. e ≡ OutOfMemory) }
    {
        changed_is_sound();
        let current = self.slots.version();
        // What holds of the version is told by this call.
        let _last = current.last();
        let version = change.apply(alloc, current)?;
        let first = Arc::new(alloc, version)?;
        let second = Arc::try_clone(&first)?;
        Ok((first, second))
    }

    // The next file number after a refused write of the manifest.
    fn next_spent(&self) -> u64
        requires { is_at_limit self.now.journal ≡ true → self.now.next + 1 < 2 ^ 64 }
        ensures { result ≡ next_spent self.now }
    {
        if self.journal.is_at_limit() {
            self.next + 1
        } else {
            self.next
        }
    }

    // What a refused write of the manifest leaves.
    fn spend(&mut self, fault: ShelfFault)
        requires going { self.old.halted ≡ false }
        requires numbers { is_at_limit self.old.journal ≡ true → self.old.next + 1 < 2 ^ 64 }
        ensures { self.new ≡ record self.old { next = next_spent self.old; halted = halts fault } }
    {
        let next = self.next_spent();
        self.next = next;
        self.halted = halts(fault);
    }

    // Makes a change of the current version: in the manifest, and then in a slot that is free. The
    // job of the ticket, if one is named, goes out with it, and entries come into the history.
    //
    // All room is made before the manifest is written. `OutOfMemory` where a growth was refused;
    // then all is as before. Then the shelf's refusals: the number of a new manifest is spent, and
    // the state is halted unless the shelf wanted memory.
    pub(crate) fn change_version<R: Wait>(
        &mut self,
        rt: &R,
        alloc: Global,
        shelf: &mut NamedShelf<N, S>,
        change: &VersionChange<N, S>,
        slot: u8,
        out: Option<u64>,
        coming: &History,
    ) -> Result<(), StateFault>
        requires going { self.old.halted ≡ false }
        requires free { IsFreeSlot self.old.slots slot }
        requires room { current_id self.old.slots < 2 ^ 28 - 1 }
        requires numbers { is_at_limit self.old.journal ≡ true → self.old.next + 1 < 2 ^ 64 }
        requires suits { Suits change.now self.old.slots.version }
        requires whole { S.honest → (n : ℕ) (t : Table) → Has change.now.added (n, t) → IsWhole t }
        requires law { Law S.honest (plain_after self.old change.now out) }
        requires inputs { (b : Booked) → Has (live_after out self.old.live) b
            → HasInputs (changed_by change.now self.old.slots.version) b.work }
        requires agrees { S.honest → Agrees (plain_after self.old change.now out)
            (coming.now.entries ++ self.old.history) }
        ensures ok { OnOk result (ChangesVersion self.old self.new change.now out
            coming.now.entries shelf.old shelf.new) }
        ensures refused { IfErr result (λ e.
            IsChangeRefusal self.old self.new e shelf.old shelf.new) }
        ensures asked { IfErr result
            (OnShelf (ChangeRefused (S.refuses N.place) self.old change.now)) }
        ensures history_err { OnErr result (self.new.history ≡ self.old.history) }
        ensures unsent { OnErr result (Becomes shelf.old shelf.new) }
        ensures counts { OnOk result (SameCounts shelf.old shelf.new) }
    {
        let (first, second) = self.version_after(alloc, change, out)?;
        let sent = self.journal.send(rt, alloc, shelf, &self.registry, change, &first, self.next);
        let next = match sent {
            Ok(next) => next,
            Err(fault) => {
                self.spend(fault);
                return Err(StateFault::Shelf(fault));
            }
        };
        self.next = next;
        take_out(&mut self.live, out);
        let id = self.slots.publish(slot, first, second);
        self.keeper.publish(&edition_of(id, self.slots.version()));
        self.keeper.grow(coming);
        Ok(())
    }
}
