//! Installs of finished jobs.

ghost use Rattle.std.specs.Prelude.{◌≡◌, ◌-◌, ◌^◌, ◌<◌, map, IfErr, IfOk, OnErr, OnOk};
ghost use Rattle.lsm_shelf.specs.Told.{Becomes};
ghost use Rattle.lsm_model.specs.Plain.{Spends};
ghost use Rattle.lsm_slots.specs.Slots.{IsFreeSlot, current_id};
ghost use Rattle.lsm_state.specs.Asked.{InstallRefused, OnShelf};
ghost use Rattle.lsm_state.specs.Changing.{IsChangeRefusal};
ghost use Rattle.lsm_state.specs.Collecting.{SameCounts};
ghost use Rattle.lsm_state.specs.Held.{plain};
ghost use Rattle.lsm_state.specs.Installing.{Installed, IsInstallRefusal, IsInstalling, IsPutIn};
ghost use Rattle.lsm_state.specs.Installing.{IsRefusedAtOnce, MayInstall, SameAnswers};

use crate::install_change::change_of;
use crate::state::State;
use crate::state_fault::StateFault;
use lsm_history::History;
use lsm_merge::Finished;
use lsm_slots::Boarded;
use lsm_table::{NamedShelf, Naming, Registry, Shelf, TableRef};
use lsm_version::{changed_files, changed_tables};
use std::alloc::{AllocError, Global};
use std::sync::Wait;

// The numbers of tables.
fn numbers_of<N: Naming, S: Shelf>(
    alloc: Global,
    registry: &Registry<N, S>,
    tables: &[TableRef<N, S>],
) -> Result<Vec<u64>, AllocError>
    ensures { IfOk result (λ v. v.items ≡ map (λ t. t.number) tables.now) }
{
    let mut numbers = Vec::new(alloc);
    for table in tables {
        numbers.push(registry.record(table).number())?;
    }
    Ok(numbers)
}

impl<N: Boarded, S: Shelf> State<N, S> {
    // Whether the result may be installed, as far as the state can say before it looks for a slot.
    fn admit(&self, done: &Finished<N, S>) -> Result<(), StateFault>
        ensures ok { OnOk result (MayInstall self.now done.now) }
        ensures refused { IfErr result (λ e. IsRefusedAtOnce self.now done.now e) }
    {
        if !self.live.is_live_result(&self.registry, done) {
            return Err(StateFault::Stale);
        }
        if self.halted {
            return Err(StateFault::Halted);
        }
        if self.journal.is_at_limit() && self.next == u64::MAX {
            return Err(StateFault::NumbersSpent);
        }
        Ok(())
    }

    // Makes the version after the result current, in a slot that is free; the result's job goes
    // out.
    fn put_in<R: Wait>(
        &mut self,
        rt: &R,
        alloc: Global,
        shelf: &mut NamedShelf<N, S>,
        done: &Finished<N, S>,
        slot: u8,
    ) -> Result<Vec<u64>, StateFault>
        requires may { MayInstall self.old done.now }
        requires free { IsFreeSlot self.old.slots slot }
        requires room { current_id self.old.slots < 2 ^ 28 - 1 }
        ensures installed { OnOk result (IsPutIn self.old self.new done.now shelf.old shelf.new) }
        ensures numbers { IfOk result (λ v. v.items ≡ map (λ t. t.number) done.now.outputs) }
        ensures answers { OnOk result (S.honest → SameAnswers self.old self.new) }
        ensures event { OnOk result (IsInstalling S.honest self.old done.now.work.ticket self.new) }
        ensures history { self.new.history ≡ self.old.history }
        ensures counts { OnOk result (SameCounts shelf.old shelf.new) }
        ensures refused { IfErr result (λ e.
            IsChangeRefusal self.old self.new e shelf.old shelf.new) }
        ensures asked { IfErr result
            (OnShelf (InstallRefused (S.refuses N.place) self.old done.now)) }
        ensures unsent { OnErr result (Becomes shelf.old shelf.new) }
    {
        changed_files();
        changed_tables();
        // What holds of the state is told by this call.
        let _options = self.options();
        let ticket = done.job().ticket();
        let last = self.slots.version().last();
        let change = change_of(alloc, &self.registry, done, last)?;
        let numbers = numbers_of(alloc, &self.registry, done.outputs())?;
        let nothing = History::empty();
        self.change_version(rt, alloc, shelf, &change, slot, Some(ticket), &nothing)?;
        Ok(numbers)
    }

    // Installs a result, which stays its owner's.
    fn try_install<R: Wait>(
        &mut self,
        rt: &R,
        alloc: Global,
        shelf: &mut NamedShelf<N, S>,
        done: &Finished<N, S>,
    ) -> Result<Vec<u64>, StateFault>
        ensures may { OnOk result (MayInstall self.old done.now) }
        ensures installed { OnOk result (Installed self.old self.new done.now shelf.old shelf.new) }
        ensures numbers { IfOk result (λ v. v.items ≡ map (λ t. t.number) done.now.outputs) }
        ensures answers { OnOk result (S.honest → SameAnswers self.old self.new) }
        ensures event { OnOk result (IsInstalling S.honest self.old done.now.work.ticket self.new) }
        ensures event_err { OnErr result (Spends (plain self.old) (plain self.new)) }
        ensures history { self.new.history ≡ self.old.history }
        ensures counts { OnOk result (SameCounts shelf.old shelf.new) }
        ensures refused { IfErr result (λ e.
            IsInstallRefusal self.old self.new done.now e shelf.old shelf.new) }
        ensures asked { IfErr result
            (OnShelf (InstallRefused (S.refuses N.place) self.old done.now)) }
        ensures unsent { OnErr result (Becomes shelf.old shelf.new) }
    {
        self.admit(done)?;
        let slot = self.find_slot()?;
        self.put_in(rt, alloc, shelf, done, slot)
    }

    /// Installs the result of a live job: its inputs go out of the version, its outputs come one
    /// level down, and the job goes out. Answers the numbers of the outputs. No answer to a read
    /// that is promised changes.
    ///
    /// `Stale` exactly where the result's job is not live, or did not draw the numbers that were
    /// put, or these do not rise; then nothing changes. Then `Halted`; `NumbersSpent` where a new
    /// manifest is due and its number would be 2^64 - 1; `SlotsHeld`; `VersionsSpent`;
    /// `OutOfMemory`; and the shelf's refusals, after which the state is halted, unless the shelf
    /// wanted memory. Every refusal hands the result back, and no live job goes out.
    pub fn install<R: Wait>(
        &mut self,
        rt: &R,
        alloc: Global,
        shelf: &mut NamedShelf<N, S>,
        done: Finished<N, S>,
    ) -> Result<Vec<u64>, (StateFault, Finished<N, S>)>
        ensures may { OnOk result (MayInstall self.old done) }
        ensures installed { OnOk result (Installed self.old self.new done shelf.old shelf.new) }
        ensures numbers { IfOk result (λ v. v.items ≡ map (λ t. t.number) done.outputs) }
        ensures answers { OnOk result (S.honest → SameAnswers self.old self.new) }
        ensures event { OnOk result (IsInstalling S.honest self.old done.work.ticket self.new) }
        ensures event_err { OnErr result (Spends (plain self.old) (plain self.new)) }
        ensures history { self.new.history ≡ self.old.history }
        ensures counts { OnOk result (SameCounts shelf.old shelf.new) }
        ensures back { IfErr result (λ e. e.1 ≡ done) }
        ensures refused { IfErr result (λ e.
            IsInstallRefusal self.old self.new done e.0 shelf.old shelf.new) }
        ensures asked { IfErr result (λ e.
            OnShelf (InstallRefused (S.refuses N.place) self.old done) e.0) }
        ensures unsent { OnErr result (Becomes shelf.old shelf.new) }
    {
        match self.try_install(rt, alloc, shelf, &done) {
            Ok(numbers) => Ok(numbers),
            Err(fault) => Err((fault, done)),
        }
    }
}
