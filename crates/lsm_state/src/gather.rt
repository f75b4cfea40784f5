//! Gathering: the newest small files of level 0 become one.

ghost use Rattle.std.specs.Prelude.{◌≡◌, ◌+◌, ◌-◌, ◌^◌, ◌<◌, suc, length, false, None};
ghost use Rattle.std.specs.Prelude.{IfErr, IfNone, IfOk, IfSome, MatchBool, MatchOption, OnErr, OnOk};
ghost use Rattle.lsm_codec.specs.Lists.{Has};
ghost use Rattle.lsm_shelf.specs.Told.{Becomes, putting};
ghost use Rattle.lsm_table.specs.Registry.{Table};
ghost use Rattle.lsm_version.specs.Versions.{IsWhole};
ghost use Rattle.lsm_model.specs.Plain.{Spends};
ghost use Rattle.lsm_picker.specs.Gathering.{newest};
ghost use Rattle.lsm_slots.specs.Slots.{IsFreeSlot, current_id};
ghost use Rattle.lsm_merge.specs.Causes.{NamesRefused};
ghost use Rattle.lsm_state.specs.Gathering.{GatherRefused, Gathers, HasNoneToGather};
ghost use Rattle.lsm_state.specs.Gathering.{IsGatherChange, IsGatherRefusal};
ghost use Rattle.lsm_state.specs.Gathering.{IsGatherRefusedAtOnce, IsGathered, IsGatheredIn};
ghost use Rattle.lsm_state.specs.Gathering.{IsGathering, IsRefusedIn, IsUngathered, MayGather};
ghost use Rattle.lsm_state.specs.Held.{plain};
ghost use Rattle.lsm_state.specs.Installing.{SameAnswers};
ghost use Rattle.lsm_state.specs.Options.{sizes_of};
ghost use Rattle.lsm_state.specs.declared.gather_fault.GatherFault.TheVariants as gather;

use crate::gather_fault::GatherFault;
use crate::install_change::push_deleted;
use crate::state::State;
use crate::state_fault::StateFault;
use lsm_history::History;
use lsm_journal::{VersionChange, added_keys_fit};
use lsm_merge::MergeFault;
use lsm_model::machine::gathering_changes_no_answer;
use lsm_picker::to_gather;
use lsm_slots::Boarded;
use lsm_table::{NamedShelf, Naming, Registry, Shelf, TableRef};
use lsm_version::{changed_files, changed_tables, whole_tables_fit};
use std::alloc::{AllocError, Global};
use std::sync::Wait;

// The tables that have this number or a greater one.
fn newest_of<N: Naming, S: Shelf>(
    alloc: Global,
    registry: &Registry<N, S>,
    tables: &[TableRef<N, S>],
    number: u64,
) -> Result<Vec<TableRef<N, S>>, AllocError>
    ensures { IfOk result (λ v. v.items ≡ newest number tables.now) }
{
    let mut newest = Vec::new(alloc);
    for table in tables {
        if registry.record(table).number() >= number {
            newest.push(table.again())?;
        }
    }
    Ok(newest)
}

// The change that puts a table at level 0 in the place of others that stand there.
fn change_to<N: Naming, S: Shelf>(
    alloc: Global,
    registry: &Registry<N, S>,
    gone: &[TableRef<N, S>],
    table: TableRef<N, S>,
    last: u64,
) -> Result<VersionChange<N, S>, AllocError>
    requires { IsWhole table }
    ensures { IfOk result (λ c. IsGatherChange gone.now table last c) }
{
    let mut deleted = Vec::new(alloc);
    push_deleted(registry, 0, gone, &mut deleted)?;
    let mut added = Vec::new(alloc);
    added.push((0, table))?;
    added_keys_fit(registry, &added);
    let change = VersionChange::new(deleted, added, None, last);
    // What holds of the change is told by this call.
    let _last = change.last();
    Ok(change)
}

impl<N: Boarded, S: Shelf> State<N, S> {
    // The number from which on the files of level 0 are gathered; none where none are.
    fn least_to_gather(&self, alloc: Global) -> Result<Option<u64>, StateFault>
        ensures may { IfOk result (λ r. MatchOption r (HasNoneToGather self.now) (λ n.
            MayGather self.now n)) }
        ensures open { OnOk result (self.now.halted ≡ false) }
        ensures refused { IfErr result (λ e. IsGatherRefusedAtOnce self.now (gather.State e)) }
    {
        if self.halted {
            return Err(StateFault::Halted);
        }
        let live = self.live.reservations(alloc, &self.registry)?;
        let target_size = self.options.target_size;
        let Some(least) = to_gather(&self.registry, self.slots.version(), &live, target_size) else {
            return Ok(None);
        };
        if self.next > u64::MAX - self.numbers_needed() {
            return Err(StateFault::NumbersSpent);
        }
        Ok(Some(least))
    }

    // Merges tables into one, which is put under the next file number. That is spent as the merge
    // begins.
    fn put_gathered<R: Wait>(
        &mut self,
        rt: &R,
        alloc: Global,
        shelf: &mut NamedShelf<N, S>,
        gone: &[TableRef<N, S>],
    ) -> Result<TableRef<N, S>, MergeFault>
        requires going { self.old.halted ≡ false }
        requires number { self.old.next + 1 < 2 ^ 64 }
        requires some { 0 < length gone.now }
        requires whole { S.honest → (t : Table) → Has gone.now t → IsWhole t }
        ensures table { IfOk result
            (IsGathered S.honest gone.now (sizes_of self.old.options) self.old.next) }
        ensures rest { self.new ≡ record self.old { next = suc self.old.next } }
        ensures told { IfOk result (λ t.
            Becomes (putting self.old.next t.image shelf.old) shelf.new) }
        ensures refused { IfErr result (λ e. IsUngathered S.honest gone.now
            (sizes_of self.old.options) self.old.next e shelf.old shelf.new) }
        ensures asked { IfErr result
            (NamesRefused (S.refuses N.place) (sizes_of self.old.options)) }
    {
        // What holds of the state is told by this call.
        let sizes = self.options().sizes();
        let number = self.next;
        self.next = number + 1;
        let registry = &self.registry;
        let table = lsm_merge::gather(rt, alloc, shelf, registry, gone, sizes, number)?;
        Ok(table)
    }

    // Makes the version with the gathered table current, in a slot that is free.
    fn gather_in<R: Wait>(
        &mut self,
        rt: &R,
        alloc: Global,
        shelf: &mut NamedShelf<N, S>,
        least: u64,
        slot: u8,
    ) -> Result<(), GatherFault>
        requires may { MayGather self.old least }
        requires free { IsFreeSlot self.old.slots slot }
        requires room { current_id self.old.slots < 2 ^ 28 - 1 }
        ensures ok { OnOk result
            (IsGatheredIn S.honest self.old self.new least shelf.old shelf.new) }
        ensures event { OnOk result (IsGathering S.honest self.old self.new) }
        ensures event_err { OnErr result (Spends (plain self.old) (plain self.new)) }
        ensures history { self.new.history ≡ self.old.history }
        ensures slots { OnErr result (self.new.slots ≡ self.old.slots) }
        ensures refused { IfErr result (λ e.
            IsRefusedIn S.honest self.old self.new least e shelf.old shelf.new) }
        ensures asked { IfErr result (GatherRefused (S.refuses N.place) self.old) }
    {
        changed_files();
        changed_tables();
        whole_tables_fit();
        let before = self.last();
        let version = self.slots.version();
        // What holds of the version is told by this call.
        let _last = version.last();
        let tables = newest_of(alloc, &self.registry, version.level(0), least)?;
        let gone = tables.as_slice();
        let table = self.put_gathered(rt, alloc, shelf, gone)?;
        let change = change_to(alloc, &self.registry, gone, table, before)?;
        let nothing = History::empty();
        self.change_version(rt, alloc, shelf, &change, slot, None, &nothing)?;
        Ok(())
    }

    /// Whether no files of level 0 are to be gathered (`lsm_picker::to_gather`).
    ///
    /// `Halted`; `NumbersSpent` where there are some and a file number would pass 2^64 - 2;
    /// `OutOfMemory`.
    #[tactic(auto, using(crate::proofs::GatherLaws::may_not_none))]
    pub fn has_none_to_gather(&self, alloc: Global) -> Result<bool, StateFault>
        ensures none { IfOk result (λ none. MatchBool none
            (HasNoneToGather self.now) (HasNoneToGather self.now → ⊥)) }
        ensures open { OnOk result (self.now.halted ≡ false) }
        ensures refused { IfErr result (λ e. IsGatherRefusedAtOnce self.now (gather.State e)) }
    {
        match self.least_to_gather(alloc) {
            Ok(None) => Ok(true),
            Ok(Some(_)) => Ok(false),
            Err(fault) => Err(fault),
        }
    }

    /// Gathers the newest small files of level 0 (`lsm_picker::to_gather`): they become one file of
    /// level 0, with all their entries, under the next file number, which it answers. None exactly
    /// where none are to be gathered; then nothing changes. No answer to a read changes, and no
    /// live job.
    ///
    /// `Halted`; `NumbersSpent` where a file number would pass 2^64 - 2; `SlotsHeld`;
    /// `VersionsSpent`; `OutOfMemory`; then what `lsm_merge::gather` refuses, as the fault of a
    /// merge; and the shelf's refusals of the write of the manifest, after which the state is
    /// halted, unless the shelf wanted memory. A refused call leaves the version, but slots seen
    /// free stay free, and from the beginning of the merge on the file number is spent.
    pub fn gather<R: Wait>(
        &mut self,
        rt: &R,
        alloc: Global,
        shelf: &mut NamedShelf<N, S>,
    ) -> Result<Option<u64>, GatherFault>
        ensures ok { IfOk result (λ r. MatchOption r (HasNoneToGather self.old) (λ number.
            Gathers S.honest self.old self.new number shelf.old shelf.new)) }
        ensures none { IfOk result (λ r.
            IfNone r ((self.new ≡ self.old) × (shelf.new ≡ shelf.old))) }
        ensures open { OnOk result (self.old.halted ≡ false) }
        ensures event { IfOk result (λ r.
            IfSome r (λ _. IsGathering S.honest self.old self.new)) }
        ensures event_err { OnErr result (Spends (plain self.old) (plain self.new)) }
        ensures answers { S.honest → IfOk result (λ r.
            IfSome r (λ _. SameAnswers self.old self.new)) }
        ensures history { self.new.history ≡ self.old.history }
        ensures refused { IfErr result (λ e.
            IsGatherRefusal S.honest self.old self.new e shelf.old shelf.new) }
        ensures asked { IfErr result (GatherRefused (S.refuses N.place) self.old) }
    {
        gathering_changes_no_answer::<State<N, S>>();
        // What holds of the state is told by this call.
        let _options = self.options();
        let Some(least) = self.least_to_gather(alloc)? else {
            return Ok(None);
        };
        let slot = self.find_slot()?;
        let number = self.next_file();
        self.gather_in(rt, alloc, shelf, least, slot)?;
        Ok(Some(number))
    }
}
