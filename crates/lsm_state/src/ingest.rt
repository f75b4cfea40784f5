//! Ingests.

ghost use Rattle.std.specs.Prelude.{◌≡◌, suc, ◌+◌, ◌<◌, ◌^◌, ◌↔◌, ◌⊎◌, length, IfErr, IfOk};
ghost use Rattle.std.specs.Prelude.{◌++◌, IsTrue, OnErr, OnOk};
ghost use Rattle.lsm_codec.specs.Entries.{Entry};
ghost use Rattle.lsm_codec.specs.Lists.{Has};
ghost use Rattle.lsm_model.specs.Files.{all_entries};
ghost use Rattle.lsm_shelf.specs.Told.{Becomes, putting};
ghost use Rattle.lsm_version.specs.Versions.{IsWhole, files};
ghost use Rattle.lsm_model.specs.Plain as machine;
ghost use Rattle.lsm_state.specs.Asked.{IngestRefused, OnShelf, PutRefused};
ghost use Rattle.lsm_state.specs.Collecting.{SameCounts};
ghost use Rattle.lsm_state.specs.Held.{IsLawfulState, plain};
ghost use Rattle.lsm_state.specs.Ingesting.{FailsToBuild, FailsToPut, HasRoom, Ingests};
ghost use Rattle.lsm_state.specs.Ingesting.{IsEarlyRefusal, IsIngestRefusal, IsTableOf, IsWelcome};
ghost use Rattle.lsm_state.specs.Ingesting.{coming_in, entries_of, numbers_needed};
ghost use Rattle.lsm_state.specs.Ingesting.{table_bytes_of};

use crate::coming::entries_of_batch;
use crate::state::State;
use crate::state_fault::StateFault;
use lsm_batch::{Batch, BatchFault};
use lsm_codec::MAX_SEQ;
use lsm_journal::{VersionChange, added_keys_fit};
use lsm_slots::Boarded;
use lsm_table::{BuildFault, NamedShelf, Shelf, TableRef, entries_are};
use lsm_version::{changed_files, changed_tables, tables_are_whole, whole_tables_fit};
use std::alloc::{AllocError, Global};
use std::sync::Wait;

// So many files at level 0 keep batches out.
const FULL: usize = 12;

/// What came in.
#[derive(Clone, Copy, Debug, PartialEq, Eq)]
pub struct Ingested {
    /// The number of its table.
    pub file: u64,
    /// The sequence of its first entry.
    pub first: u64,
    /// The sequence of its last entry.
    pub last: u64,
}

impl From<BatchFault> for StateFault {
    ghost use Rattle.lsm_state.specs.Ingesting.{of_batch};

    ghost from_gives = { λ fault e. e ≡ of_batch fault };

    fn from(fault: BatchFault) -> StateFault {
        match fault {
            BatchFault::EmptyBatch => StateFault::EmptyBatch,
            BatchFault::KeyOrder(place) => StateFault::KeyOrder(place),
            BatchFault::TooLarge => StateFault::TooLarge,
        }
    }
}

impl From<BuildFault> for StateFault {
    ghost use Rattle.lsm_state.specs.Ingesting.{of_build};

    ghost from_gives = { λ fault e. e ≡ of_build fault };

    fn from(fault: BuildFault) -> StateFault {
        match fault {
            BuildFault::OutOfMemory => StateFault::OutOfMemory,
            BuildFault::TooLarge => StateFault::TooLarge,
        }
    }
}

impl<N: Boarded, S: Shelf> State<N, S> {
    // The last sequence. What holds of the state and of its version is told here too.
    pub(crate) fn last(&self) -> u64
        ensures last { result ≡ self.now.slots.version.last }
        ensures levels { length self.now.slots.version.tables ≡ 7 }
        ensures law { IsLawfulState S.honest N.board self.now }
    {
        self.slots.version().last()
    }

    // The next file number.
    pub(crate) fn next_file(&self) -> u64
        ensures { result ≡ self.now.next }
    {
        self.next
    }

    // How many file numbers an ingest needs.
    pub(crate) fn numbers_needed(&self) -> u64
        ensures { result ≡ numbers_needed self.now }
    {
        if self.journal.is_at_limit() { 2 } else { 1 }
    }

    /// Whether level 0 has room for a batch. Where it has none, `ingest` refuses what it would else
    /// bring in: `LevelZeroFull`.
    pub fn has_room(&self) -> bool
        ensures { IsTrue result ↔ HasRoom self.now }
    {
        self.slots.version().level(0).len() < FULL
    }

    // Whether a batch may come in now, as far as this can be tested first.
    fn may_ingest(&self, batch: &Batch) -> Result<(), StateFault>
        ensures ok { OnOk result (IsWelcome self.now batch.now) }
        ensures refused { IfErr result (IsEarlyRefusal self.now batch.now) }
    {
        if self.halted {
            return Err(StateFault::Halted);
        }
        batch.check()?;
        if !self.has_room() {
            return Err(StateFault::LevelZeroFull);
        }
        let last = self.slots.version().last();
        if last > MAX_SEQ || batch.len() as u64 > MAX_SEQ - last {
            return Err(StateFault::SequencesSpent);
        }
        if self.next > u64::MAX - self.numbers_needed() {
            return Err(StateFault::NumbersSpent);
        }
        Ok(())
    }

    // Builds the table of a batch, and puts it under the next file number, which is spent once the
    // put begins.
    fn put_batch<R: Wait>(
        &mut self,
        rt: &R,
        alloc: Global,
        shelf: &mut NamedShelf<N, S>,
        batch: &Batch,
    ) -> Result<TableRef<N, S>, StateFault>
        requires welcome { IsWelcome self.old batch.now }
        ensures table { IfOk result (IsTableOf (entries_of self.old batch.now) self.old.next) }
        ensures bytes { IfOk result (λ t.
            t.image ≡ table_bytes_of self.old batch.now) }
        ensures ok { OnOk result (self.new ≡ record self.old { next = suc self.old.next }) }
        ensures told { IfOk result (λ t.
            Becomes (putting self.old.next t.image shelf.old) shelf.new) }
        ensures counts { OnOk result (SameCounts shelf.old shelf.new) }
        ensures refused { IfErr result (λ e.
            FailsToBuild self.old self.new batch.now e shelf.old shelf.new
            ⊎ FailsToPut self.old self.new batch.now e shelf.old shelf.new) }
        ensures asked { IfErr result (OnShelf (PutRefused (S.refuses N.place) self.old batch.now)) }
        ensures slots { OnErr result (self.new.slots ≡ self.old.slots) }
        ensures history { self.new.history ≡ self.old.history }
    {
        tables_are_whole();
        entries_are();
        let first = self.slots.version().last() + 1;
        let image = batch.build(alloc, self.options.sizes(), first)?;
        let number = self.next;
        self.next = number + 1;
        let table = image.put(rt, alloc, shelf, &self.registry, number)?;
        Ok(table)
    }

    // The change that brings a table in at level 0.
    fn bring_in(
        &self,
        alloc: Global,
        table: TableRef<N, S>,
        last: u64,
    ) -> Result<VersionChange<N, S>, AllocError>
        requires { IsWhole table }
        ensures { IfOk result (λ c. c ≡ coming_in table last) }
    {
        let mut added = Vec::new(alloc);
        added.push((0, table))?;
        added_keys_fit(&self.registry, &added);
        Ok(VersionChange::new(Vec::new(alloc), added, None, last))
    }

    /// Brings a batch in: its entries, at sequences one after another from the one after the last,
    /// are one table at level 0, and come in front of the history.
    ///
    /// `Halted`, `EmptyBatch`, `TooLarge`, `KeyOrder`, `LevelZeroFull`, `SequencesSpent`,
    /// `NumbersSpent`, `SlotsHeld`, `VersionsSpent`, then `OutOfMemory`, `TooLarge` again where a
    /// block of the table would pass 2^32 - 1 bytes, and the shelf's, in this order. A refused call
    /// leaves all as it was, but that slots seen free stay free. From the put of the table on the
    /// file number is spent, and where the start of a new manifest was refused its number too;
    /// where the shelf refused the append or the start, the state is halted.
    pub fn ingest<R: Wait>(
        &mut self,
        rt: &R,
        alloc: Global,
        shelf: &mut NamedShelf<N, S>,
        batch: &Batch,
    ) -> Result<Ingested, StateFault>
        ensures welcome { OnOk result (IsWelcome self.old batch.now) }
        ensures ok { IfOk result (λ r. Ingests self.old self.new batch.now r shelf.old shelf.new) }
        ensures event { OnOk result
            (machine.Ingests (plain self.old) (entries_of self.old batch.now) (plain self.new)) }
        ensures event_err { OnErr result (machine.Spends (plain self.old) (plain self.new)) }
        ensures entries { OnOk result ((e : Entry) → Has
            (all_entries (files self.new.slots.version)) e ↔ (Has (entries_of self.old batch.now) e
            ⊎ Has (all_entries (files self.old.slots.version)) e)) }
        ensures history { OnOk result (self.new.history
            ≡ entries_of self.old batch.now ++ self.old.history) }
        ensures history_err { OnErr result (self.new.history ≡ self.old.history) }
        ensures counts { OnOk result (SameCounts shelf.old shelf.new) }
        ensures refused { IfErr result (λ e.
            IsIngestRefusal self.old self.new batch.now e shelf.old shelf.new) }
        ensures asked { IfErr result
            (OnShelf (IngestRefused (S.refuses N.place) self.old batch.now)) }
    {
        changed_files();
        changed_tables();
        whole_tables_fit();
        self.may_ingest(batch)?;
        let before = self.last();
        let slot = self.find_slot()?;
        let file = self.next_file();
        let table = self.put_batch(rt, alloc, shelf, batch)?;
        let last = before + batch.len() as u64;
        let change = self.bring_in(alloc, table, last)?;
        let coming = entries_of_batch(batch, before + 1);
        self.change_version(rt, alloc, shelf, &change, slot, None, &coming)?;
        Ok(Ingested {
            file,
            first: before + 1,
            last,
        })
    }
}
