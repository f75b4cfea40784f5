//! The last writes of logs, as one table more.

ghost use Rattle.std.specs.Prelude.{◌≡◌, ◌⊎◌, ◌+◌, ◌^◌, ◌<◌, ◌≤◌, ◌-◌, length, IfErr, IfOk};
ghost use Rattle.std.specs.Prelude.{ℕ, List, MatchBool, None, OnOk, Some};
ghost use Rattle.lsm_shelf.specs.Stored.{Stored};
ghost use Rattle.lsm_table.specs.Options.{AreInRange};
ghost use Rattle.lsm_manifest.specs.EditFit.{FitsAdded};
ghost use Rattle.lsm_batch.specs.Batches.{KeysRise, entries_from};
ghost use Rattle.lsm_batch.specs.Images.{IsImage, PassesTable};
ghost use Rattle.lsm_import.specs.Copied.{AreSpent, HasLogs, IsFitting, IsLogFile, IsLogsRefusal};
ghost use Rattle.lsm_import.specs.Copied.{IsTableRefusal, with_file};
ghost use Rattle.lsm_import.specs.Copies.{IsPutRefusal, OnlyPuts};
ghost use Rattle.lsm_import.specs.LogTable.{IsMade, NoneRefuses};
ghost use Rattle.lsm_import.specs.declared.import_fault.ImportFault.TheVariants.{OutOfMemory};
ghost use Rattle.lsm_import.specs.declared.import_fault.ImportFault.TheVariants.{SequencesSpent};
ghost use Rattle.lsm_import.specs.declared.import_fault.ImportFault.TheVariants.{TooLarge};
ghost use Rattle.lsm_import.specs.declared.log_table.LogTable.{LogTable};

use crate::copied::Copied;
use crate::import_fault::ImportFault;
use crate::log_table::LogTable;
use lsm_batch::Batch;
use lsm_codec::{Bytes, List};
use lsm_manifest::{AddedFile, Edit, FileMeta};
use lsm_table::{NamedShelf, Naming, Shelf, TableImage, TableOptions};
use lsm_wal::{WriteLogs, last_writes};
use std::alloc::{AllocError, Global};
use std::sync::Wait;

/// How many sequences there are: 2^56.
const SEQUENCES: u64 = 72_057_594_037_927_936;

/// The sequence of the first of so many writes: above the last one, and not below the end of the
/// logs.
fn first_sequence(last: u64, end: u64, count: usize) -> Result<u64, ImportFault>
    ensures above { IfOk result (λ n. last < n) }
    ensures behind { IfOk result (λ n. end ≤ n) }
    ensures fits { IfOk result (λ n. n + count ≤ 2 ^ 56) }
    ensures spent { IfErr result (λ e. (e ≡ SequencesSpent) × AreSpent last end count) }
{
    if last >= SEQUENCES || end > SEQUENCES {
        return Err(ImportFault::SequencesSpent);
    }
    let first = end.max(last + 1);
    if count as u64 > SEQUENCES - first {
        return Err(ImportFault::SequencesSpent);
    }
    Ok(first)
}

/// Whether the length of a key fits 32 bits.
fn is_short(key: &[u8]) -> bool
    ensures { MatchBool result (length key.now < 2 ^ 32) (2 ^ 32 ≤ length key.now) }
{
    key.len() <= 4_294_967_295
}

/// The image of the table of a batch.
fn image_of(
    alloc: Global,
    options: TableOptions,
    batch: &Batch,
    first: u64,
) -> Result<TableImage, ImportFault>
    requires some { 0 < length batch.now }
    requires rises { KeysRise (length batch.now) batch.now }
    requires sequences { first + length batch.now ≤ 2 ^ 56 }
    requires options { AreInRange options }
    ensures image { IfOk result (IsImage (entries_from first batch.now)) }
    ensures refused { IfErr result (λ e. (e ≡ OutOfMemory)
        ⊎ ((e ≡ TooLarge) × PassesTable options (entries_from first batch.now))) }
{
    match batch.build_run(alloc, options, first) {
        Ok(image) => Ok(image),
        Err(fault) => Err(ImportFault::of_build(fault)),
    }
}

/// The file of a table of this number, of these keys and of so many bytes, at level 0, where its
/// keys are short.
fn short_file(
    number: u64,
    smallest: Bytes,
    largest: Bytes,
    size: u64,
) -> Result<AddedFile, ImportFault>
    ensures level { IfOk result (λ file. file.level ≡ 0) }
    ensures number { IfOk result (λ file. file.file.number ≡ number) }
    ensures size { IfOk result (λ file. file.file.size ≡ size) }
    ensures smallest { IfOk result (λ file. file.file.smallest ≡ smallest) }
    ensures largest { IfOk result (λ file. file.file.largest ≡ largest) }
    ensures short { OnOk result ((length smallest < 2 ^ 32) × (length largest < 2 ^ 32)) }
    ensures long { IfErr result (λ e. (e ≡ TooLarge)
        × ((2 ^ 32 ≤ length smallest) ⊎ (2 ^ 32 ≤ length largest))) }
{
    if !is_short(smallest.as_slice()) {
        return Err(ImportFault::TooLarge);
    }
    if !is_short(largest.as_slice()) {
        return Err(ImportFault::TooLarge);
    }
    Ok(AddedFile {
        level: 0,
        file: FileMeta {
            number,
            size,
            smallest,
            largest,
        },
    })
}

/// The table of a batch, on no shelf, and its file as the manifest names it.
fn table_of(
    alloc: Global,
    options: TableOptions,
    batch: &Batch,
    first: u64,
    number: u64,
) -> Result<(AddedFile, LogTable), ImportFault>
    requires some { 0 < length batch.now }
    requires rises { KeysRise (length batch.now) batch.now }
    requires sequences { first + length batch.now ≤ 2 ^ 56 }
    requires options { AreInRange options }
    ensures file { IfOk result (λ r.
        IsLogFile (IsMade (Some r.1)) (entries_from first batch.now) number r.0) }
    ensures fits { IfOk result (λ r. FitsAdded r.0) }
    ensures refused { IfErr result
        (IsTableRefusal NoneRefuses options (entries_from first batch.now) number) }
{
    let image = image_of(alloc, options, batch, first)?;
    let (smallest, largest, image) = image.into_parts();
    let file = short_file(number, smallest, largest, image.len() as u64)?;
    Ok((file, LogTable { number, image }))
}

/// Puts the table of logs, if there is one, into the target.
fn put_table<M: Naming, T: Shelf, R: Wait>(
    rt: &R,
    alloc: Global,
    target: &mut NamedShelf<M, T>,
    table: &Option<LogTable>,
) -> Result<(), ImportFault>
    ensures put { OnOk result ((number : ℕ) (image : List ℕ) → IsMade table.now number image
        → Stored T.Receipt (T.is_of M.place) T.Receipt.number T.Receipt.image number image) }
    ensures puts { OnlyPuts target.old target.new }
    ensures refused { IfErr result (λ e. (t : LogTable) × (table.now ≡ Some t)
        × IsPutRefusal (T.refuses M.place) t.number t.image.items e) }
{
    let Some(table) = table else {
        return Ok(());
    };
    match target.put(rt, alloc, table.number, &table.image) {
        Ok(_receipt) => Ok(()),
        Err(fault) => Err(ImportFault::Unwritten(fault)),
    }
}

impl Copied {
    /// The same with one table more, of so many writes that begin at this sequence.
    fn with_file(self, file: AddedFile, first: u64, count: usize) -> Result<Copied, AllocError>
        requires numbers { self.next < 2 ^ 64 - 1 }
        requires some { 0 < count }
        requires sequences { first + count ≤ 2 ^ 56 }
        ensures { IfOk result (λ copied. copied ≡ with_file self file first count) }
    {
        let Copied { edit, next, .. } = self;
        let last = first + (count as u64 - 1);
        let mut added = edit.added.into_vec();
        added.push(file)?;
        Ok(Copied {
            edit: Edit {
                comparator: edit.comparator,
                log: edit.log,
                prev_log: edit.prev_log,
                next: Some(next + 1),
                last: Some(last),
                pointers: edit.pointers,
                deleted: edit.deleted,
                added: List::of(added),
            },
            next: next + 1,
            last,
            writes: count as u64,
        })
    }

    /// Adds the writes of the source's logs as one table: of each key the last one, at level 0,
    /// under the next file number, and under new sequences, above the copy's last one and those of
    /// the logs. Where the logs write nothing it adds nothing.
    ///
    /// # Errors
    /// `SequencesSpent` where a sequence would pass 2^56 - 1; `NumbersSpent` where no file number
    /// is left; `TooLarge` where a key or a block of the table would pass 2^32 - 1 bytes;
    /// `Unwritten`; `OutOfMemory` on the way.
    pub fn add_logs<M: Naming, T: Shelf, R: Wait>(
        self,
        rt: &R,
        alloc: Global,
        target: &mut NamedShelf<M, T>,
        options: TableOptions,
        logs: WriteLogs,
    ) -> Result<Copied, ImportFault>
        requires options { AreInRange options }
        requires fits { IsFitting self }

        // Of each key just the last write of the logs comes in.
        ensures logs { IfOk result (HasLogs
            (Stored T.Receipt (T.is_of M.place) T.Receipt.number T.Receipt.image) logs self) }
        ensures fits { IfOk result IsFitting }
        ensures puts { OnlyPuts target.old target.new }
        ensures refused { IfErr result
            (IsLogsRefusal (T.refuses M.place) options logs self) }
    {
        let (copied, table) = self.with_logs(alloc, options, logs)?;
        put_table(rt, alloc, target, &table)?;
        Ok(copied)
    }

    /// The same as `add_logs`, but that the table is put on no shelf: it is given beside the copy.
    /// None is where the logs write nothing.
    ///
    /// # Errors
    /// Those of `add_logs`, but `Unwritten`.
    pub fn with_logs(
        self,
        alloc: Global,
        options: TableOptions,
        logs: WriteLogs,
    ) -> Result<(Copied, Option<LogTable>), ImportFault>
        requires options { AreInRange options }
        requires fits { IsFitting self }

        // Of each key just the last write of the logs comes in.
        ensures logs { IfOk result (λ r. HasLogs (IsMade r.1) logs self r.0) }
        ensures none { IfOk result (λ r. r.0 ≡ self → r.1 ≡ None) }
        ensures fits { IfOk result (λ r. IsFitting r.0) }
        ensures refused { IfErr result (IsLogsRefusal NoneRefuses options logs self) }
    {
        let end = logs.end();
        let batch = last_writes(alloc, logs.into_log())?;
        let count = batch.len();
        if count == 0 {
            return Ok((self, None));
        }
        let first = first_sequence(self.last, end, count)?;
        if self.next == u64::MAX {
            return Err(ImportFault::NumbersSpent);
        }
        let (file, table) = table_of(alloc, options, &batch, first, self.next)?;
        let copied = self.with_file(file, first, count)?;
        Ok((copied, Some(table)))
    }
}
