//! The copy of a database.

ghost use Rattle.std.specs.Prelude.{◌≡◌, IfErr, IfOk, OnErr, OnOk};
ghost use Rattle.std.specs.List.{sum_by};
ghost use Rattle.lsm_shelf.specs.Stored.{Stored};
ghost use Rattle.lsm_shelf.specs.Told.{Becomes};
ghost use Rattle.lsm_manifest.specs.Shape.{IsShape};
ghost use Rattle.lsm_manifest.specs.WholeEdit.{FitsShape};
ghost use Rattle.lsm_import.specs.Copied.{IsBegun, IsFitting};
ghost use Rattle.lsm_import.specs.Copies.{OnlyPuts};
ghost use Rattle.lsm_cmd_import.specs.Copying.{IsFilled, IsFinished, IsJudged, IsMade};
ghost use Rattle.lsm_cmd_import.specs.Copying.{IsUnbegun, IsUnjudged, IsUnmade, IsUnmadeOf};
ghost use Rattle.lsm_cmd_import.specs.declared.copy_fault.CopyFault.TheVariants.{OutOfMemory};

use crate::copy_fault::CopyFault;
use crate::given::tables_are_given;
use lsm_import::{Copied, ImportFault, copies_answer};
use lsm_manifest::Shape;
use lsm_table::{NamedShelf, Naming, Records, Registry, Shelf, TableOptions};
use lsm_verify::{JudgedTables, check_by};
use lsm_wal::WriteLogs;
use std::alloc::{AllocError, Global};
use std::sync::Wait;

/// The sum of counts of entries. No shelf holds so many that they can't be counted.
fn sum_of(counts: &[u64]) -> Result<u64, AllocError>
    ensures { IfOk result (λ sum. sum ≡ sum_by (λ n. n) counts.now) }
{
    let mut sum: u64 = 0;
    for count in counts {
        let Some(more) = sum.checked_add(*count) else {
            return Err(AllocError);
        };
        sum = more;
    }
    Ok(sum)
}

/// Reads and judges the tables of a copy, and answers how many entries they have.
fn judge<M: Naming, T: Shelf, R: Wait>(
    rt: &R,
    alloc: Global,
    target: &mut NamedShelf<M, T>,
    records: Records<T::Receipt>,
    copied: &Copied,
) -> Result<u64, CopyFault>
    requires named { records ≡ M.registry }
    ensures judged { IfOk result (IsJudged
        (Stored T.Receipt (T.is_of M.place) T.Receipt.number T.Receipt.image) T.honest
        copied.now) }
    ensures refused { IfErr result (IsUnjudged
        (Stored T.Receipt (T.is_of M.place) T.Receipt.number T.Receipt.image) (T.refuses M.place)
        T.honest copied.now) }
    ensures told { Becomes target.old target.new }
{
    let shape = match copied.shape(alloc) {
        Ok(shape) => shape,
        Err(fault) => return Err(CopyFault::Copy(ImportFault::Replay(fault))),
    };
    let registry = Registry::shared(alloc, records)?;
    let none = JudgedTables::none(alloc);
    let (version, counts) = check_by(target, rt, alloc, &shape, registry, none)?;
    tables_are_given(&version);
    let entries = sum_of(&counts)?;
    Ok(entries)
}

/// A copy without its manifest, and how many entries its tables have.
#[derive(Debug, Drop)]
struct Filled {
    copied: Copied,
    entries: u64,
}

/// Judges the copied tables, and adds the writes of logs to them.
fn fill<M: Naming, T: Shelf, R: Wait>(
    rt: &R,
    alloc: Global,
    target: &mut NamedShelf<M, T>,
    records: Records<T::Receipt>,
    copied: Copied,
    logs: WriteLogs,
) -> Result<Filled, CopyFault>
    requires named { records ≡ M.registry }
    requires fits { IsFitting copied }
    requires none { copied.writes ≡ 0 }
    ensures filled { IfOk result (λ f. IsFilled
        (Stored T.Receipt (T.is_of M.place) T.Receipt.number T.Receipt.image) T.honest logs copied
        f.entries f.copied) }
    ensures fits { IfOk result (λ f. IsFitting f.copied) }
    ensures puts { OnlyPuts target.old target.new }
    ensures refused { IfErr result (IsUnmadeOf
        (Stored T.Receipt (T.is_of M.place) T.Receipt.number T.Receipt.image) (T.refuses M.place)
        T.honest logs copied) }
{
    let before = judge(rt, alloc, target, records, &copied)?;
    let copied = copied.add_logs(rt, alloc, target, TableOptions::usual(), logs)?;
    let Some(entries) = before.checked_add(copied.writes) else {
        return Err(CopyFault::OutOfMemory);
    };
    Ok(Filled { copied, entries })
}

/// Begins the manifest of a copy.
fn begin<M: Naming, T: Shelf, R: Wait>(
    rt: &R,
    alloc: Global,
    target: &mut NamedShelf<M, T>,
    copied: Copied,
) -> Result<(), CopyFault>
    requires fits { IsFitting copied }
    ensures begun { OnOk result (IsBegun copied target.old target.new) }
    ensures none { OnErr result (OnlyPuts target.old target.new) }
    ensures refused { IfErr result (IsUnbegun (T.refuses M.place) copied) }
{
    match copied.begin(rt, alloc, target) {
        Ok(_shape) => Ok(()),
        Err(fault) => Err(CopyFault::Copy(fault)),
    }
}

/// How many tables a copy has, and how many entries these have.
#[derive(Clone, Copy, Debug)]
pub(crate) struct Counts {
    pub(crate) tables: u64,
    pub(crate) entries: u64,
}

/// Judges the copied tables, adds the writes of logs to them, and begins the manifest.
fn finish<M: Naming, T: Shelf, R: Wait>(
    rt: &R,
    alloc: Global,
    target: &mut NamedShelf<M, T>,
    records: Records<T::Receipt>,
    copied: Copied,
    logs: WriteLogs,
) -> Result<Counts, CopyFault>
    requires named { records ≡ M.registry }
    requires fits { IsFitting copied }
    requires none { copied.writes ≡ 0 }
    ensures finished { IfOk result (λ c. IsFinished
        (Stored T.Receipt (T.is_of M.place) T.Receipt.number T.Receipt.image) T.honest logs copied
        c.tables c.entries target.old target.new) }
    ensures none { OnErr result (OnlyPuts target.old target.new) }
    ensures refused { IfErr result (IsUnmadeOf
        (Stored T.Receipt (T.is_of M.place) T.Receipt.number T.Receipt.image) (T.refuses M.place)
        T.honest logs copied) }
{
    let Filled { copied, entries } = fill(rt, alloc, target, records, copied, logs)?;
    let tables = copied.edit.added.as_slice().len() as u64;
    match begin(rt, alloc, target, copied) {
        Ok(()) => Ok(Counts { tables, entries }),
        Err(fault) => Err(fault),
    }
}

/// Copies the tables of a shape and the writes of logs to another shelf, and begins the manifest.
pub(crate) fn copy<N: Naming, S: Shelf, M: Naming, T: Shelf, R: Wait>(
    rt: &R,
    alloc: Global,
    source: &mut NamedShelf<N, S>,
    target: &mut NamedShelf<M, T>,
    records: Records<T::Receipt>,
    shape: &Shape,
    logs: WriteLogs,
) -> Result<Counts, CopyFault>
    requires named { records ≡ M.registry }
    requires shape { IsShape shape.now }
    requires keys { FitsShape shape.now }
    ensures made { IfOk result (λ c. IsMade
        (Stored S.Receipt (S.is_of N.place) S.Receipt.number S.Receipt.image)
        (Stored T.Receipt (T.is_of M.place) T.Receipt.number T.Receipt.image) T.honest shape.now
        logs c.tables c.entries target.old target.new) }
    ensures none { OnErr result (OnlyPuts target.old target.new) }
    ensures read { Becomes source.old source.new }
    ensures refused { IfErr result (IsUnmade
        (Stored S.Receipt (S.is_of N.place) S.Receipt.number S.Receipt.image)
        (Stored T.Receipt (T.is_of M.place) T.Receipt.number T.Receipt.image) (S.refuses N.place)
        (T.refuses M.place) T.honest shape.now logs) }
{
    copies_answer();
    let options = TableOptions::usual();
    let copied = match Copied::of(rt, alloc, source, target, options, shape) {
        Ok(copied) => copied,
        Err(fault) => return Err(CopyFault::Copy(fault)),
    };
    match finish(rt, alloc, target, records, copied, logs) {
        Ok(counts) => Ok(counts),
        Err(fault) => Err(fault),
    }
}
