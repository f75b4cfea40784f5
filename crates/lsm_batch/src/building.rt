//! The table of a batch.

ghost use Rattle.std.specs.Prelude.{◌≡◌, ◌<◌, ◌≤◌, ◌+◌, ◌^◌, ◌++◌, ◌∷◌, [], length};
ghost use Rattle.std.specs.Prelude.{IfOk, OnOk, Err};
ghost use Rattle.lsm_block.specs.Block.{Ascends};
ghost use Rattle.lsm_block.specs.declared.build_fault.BuildFault.TheVariants.{TooLarge};
ghost use Rattle.lsm_table.specs.Options.{AreInRange};
ghost use Rattle.lsm_table.specs.TableBuilding.{PassesLimit, table_bytes};
ghost use Rattle.lsm_batch.specs.Batches.{IsBatch, KeysRise, entries_from, written_at};
ghost use Rattle.lsm_batch.specs.Images.{IsImage, PassesIn, PassesTable};

use crate::batch::Batch;
use crate::write::Write;
use lsm_table::{BegunTable, BuildFault, TableImage, TableOptions};
use std::alloc::Global;

// Adds what is written of a key, at a sequence.
fn add(table: &mut BegunTable, seq: u64, write: &Write) -> Result<(), BuildFault>
    requires room { seq < 2 ^ 56 }
    requires ascends { Ascends (table.old.entries ++ written_at seq write.now ∷ []) }
    ensures ok { OnOk result (table.new
        ≡ record table.old { entries = table.old.entries ++ written_at seq write.now ∷ [] }) }
    ensures large { result ≡ Err TooLarge
        → PassesLimit table.old.options table.old.entries (written_at seq write.now) }
{
    table.add(&write.key_at(seq), write.bytes())
}

// Adds what is written of all keys, at sequences one after another.
fn add_all(table: &mut BegunTable, first: u64, writes: &[Write]) -> Result<(), BuildFault>
    requires room { first + length writes.now ≤ 2 ^ 56 }
    requires ascends { Ascends (table.old.entries ++ entries_from first writes.now) }
    ensures ok { OnOk result (table.new
        ≡ record table.old { entries = table.old.entries ++ entries_from first writes.now }) }
    ensures large { result ≡ Err TooLarge
        → PassesIn table.old.options (table.old.entries ++ entries_from first writes.now) }
{
    for (i, write) in writes.iter().enumerate() {
        add(table, first + i as u64, write)?;
    }
    Ok(())
}

impl Batch {
    /// The table of its entries, at sequences one after another from this one. No sequence is above
    /// 2^56 - 1.
    ///
    /// `OutOfMemory` where a growth was refused. `TooLarge` where a block of the table would pass
    /// 2^32 - 1 bytes.
    pub fn build(
        &self,
        alloc: Global,
        options: TableOptions,
        first: u64,
    ) -> Result<TableImage, BuildFault>
        requires batch { IsBatch self.now }
        requires sequences { first + length self.now ≤ 2 ^ 56 }
        requires options { AreInRange options }
        ensures bytes { IfOk result (λ i.
            i.bytes ≡ table_bytes options (entries_from first self.now)) }
        ensures image { IfOk result (IsImage (entries_from first self.now)) }
        ensures large { result ≡ Err TooLarge → PassesTable options (entries_from first self.now) }
    {
        self.build_run(alloc, options, first)
    }

    /// The same of a batch that may pass the limits of one that comes in, as that of a log's writes
    /// does: it has an entry, and its keys ascend.
    pub fn build_run(
        &self,
        alloc: Global,
        options: TableOptions,
        first: u64,
    ) -> Result<TableImage, BuildFault>
        requires some { 0 < length self.now }
        requires rises { KeysRise (length self.now) self.now }
        requires sequences { first + length self.now ≤ 2 ^ 56 }
        requires options { AreInRange options }
        ensures bytes { IfOk result (λ i.
            i.bytes ≡ table_bytes options (entries_from first self.now)) }
        ensures image { IfOk result (IsImage (entries_from first self.now)) }
        ensures large { result ≡ Err TooLarge → PassesTable options (entries_from first self.now) }
    {
        let [one, others @ ..] = self.writes.as_slice() else {
            unreachable!()
        };
        let mut table = BegunTable::begin(alloc, options, &one.key_at(first), one.bytes())?;
        add_all(&mut table, first + 1, others)?;
        table.finish(alloc)
    }
}
