//! The writes of logs come into the database of their folder.

ghost use Rattle.std.specs.Prelude.{◌≡◌, ℕ, IfErr, IfOk, OnErr, OnOk};
ghost use Rattle.lsm_shelf.specs.Stored.{Stored};
ghost use Rattle.lsm_shelf.specs.Told.{Becomes};
ghost use Rattle.lsm_manifest.specs.Shape.{IsShape};
ghost use Rattle.lsm_manifest.specs.WholeEdit.{FitsShape};
ghost use Rattle.lsm_directory.specs.Logs.{NoneUnread};
ghost use Rattle.lsm_import.specs.Copied.{IsBegun, IsFitting};
ghost use Rattle.lsm_import.specs.Copies.{OnlyPuts};
ghost use Rattle.lsm_log_files.specs.Logs.{AreLogs};
ghost use Rattle.lsm_recovery.specs.Bringing.{AreTaken, BringsIn, BringsNone, IsBroughtIn};
ghost use Rattle.lsm_recovery.specs.Bringing.{IsFilled, IsJudged, IsUnbegun, IsUnbrought};
ghost use Rattle.lsm_recovery.specs.Bringing.{IsUnfilled, IsUnjudged, IsUnlisted, StaysUnread};

use crate::bring_fault::BringFault;
use crate::given::tables_are_given;
use lsm_directory::{FolderFile, first_unread};
use lsm_import::{Copied, ImportFault, copies_answer};
use lsm_manifest::Shape;
use lsm_opening::WriterFault;
use lsm_table::{NamedShelf, Naming, Records, Registry, Shelf, TableOptions};
use lsm_verify::check;
use lsm_wal::WriteLogs;
use std::alloc::Global;
use std::sync::Wait;

/// The numbers of logs, and behind them those of the tables that the shelf lists.
fn taken<N: Naming, S: Shelf, R: Wait>(
    rt: &R,
    alloc: Global,
    shelf: &mut NamedShelf<N, S>,
    logs: Vec<u64>,
) -> Result<Vec<u64>, BringFault>
    ensures taken { IfOk result (λ v. AreTaken logs.items v.items shelf.old shelf.new) }
    ensures puts { OnlyPuts shelf.old shelf.new }
    ensures refused { IfErr result (IsUnlisted (S.refuses N.place)) }
{
    let mut numbers = logs;
    let tables = match shelf.list(rt, alloc) {
        Ok(tables) => tables,
        Err(fault) => return Err(BringFault::Folder(WriterFault::of_shelf(fault))),
    };
    numbers.extend_from_slice(&tables)?;
    Ok(numbers)
}

/// Reads and judges the tables of the database.
fn judge<N: Naming, S: Shelf, R: Wait>(
    rt: &R,
    alloc: Global,
    shelf: &mut NamedShelf<N, S>,
    records: Records<S::Receipt>,
    standing: &Copied,
) -> Result<(), BringFault>
    requires named { records ≡ N.registry }
    ensures judged { OnOk result (IsJudged
        (Stored S.Receipt (S.is_of N.place) S.Receipt.number S.Receipt.image) S.honest
        standing.now) }
    ensures refused { IfErr result (IsUnjudged
        (Stored S.Receipt (S.is_of N.place) S.Receipt.number S.Receipt.image) (S.refuses N.place)
        S.honest standing.now) }
    ensures told { Becomes shelf.old shelf.new }
{
    let shape = match standing.shape(alloc) {
        Ok(shape) => shape,
        Err(fault) => return Err(BringFault::Bring(ImportFault::Replay(fault))),
    };
    let registry = Registry::shared(alloc, records)?;
    let version = check(shelf, rt, alloc, &shape, registry)?;
    tables_are_given(&version);
    Ok(())
}

/// Judges the tables of the database, and adds the writes of logs to them.
fn fill<N: Naming, S: Shelf, R: Wait>(
    rt: &R,
    alloc: Global,
    shelf: &mut NamedShelf<N, S>,
    records: Records<S::Receipt>,
    standing: Copied,
    logs: WriteLogs,
) -> Result<Copied, BringFault>
    requires named { records ≡ N.registry }
    requires fits { IsFitting standing }
    ensures filled { IfOk result (IsFilled
        (Stored S.Receipt (S.is_of N.place) S.Receipt.number S.Receipt.image) S.honest logs
        standing) }
    ensures fits { IfOk result IsFitting }
    ensures puts { OnlyPuts shelf.old shelf.new }
    ensures refused { IfErr result (IsUnfilled
        (Stored S.Receipt (S.is_of N.place) S.Receipt.number S.Receipt.image) (S.refuses N.place)
        S.honest logs standing) }
{
    judge(rt, alloc, shelf, records, &standing)?;
    let whole = standing.add_logs(rt, alloc, shelf, TableOptions::usual(), logs)?;
    Ok(whole)
}

/// Begins the manifest that names the table of the writes.
fn begin<N: Naming, S: Shelf, R: Wait>(
    rt: &R,
    alloc: Global,
    shelf: &mut NamedShelf<N, S>,
    whole: Copied,
) -> Result<(), BringFault>
    requires fits { IsFitting whole }
    ensures begun { OnOk result (IsBegun whole shelf.old shelf.new) }
    ensures none { OnErr result (OnlyPuts shelf.old shelf.new) }
    ensures refused { IfErr result (IsUnbegun (S.refuses N.place) whole) }
{
    match whole.begin(rt, alloc, shelf) {
        Ok(_shape) => Ok(()),
        Err(fault) => Err(BringFault::Bring(fault)),
    }
}

/// Judges the tables of the database, adds the writes of logs to them, and begins the manifest.
/// Answers how many entries came in.
fn finish<N: Naming, S: Shelf, R: Wait>(
    rt: &R,
    alloc: Global,
    shelf: &mut NamedShelf<N, S>,
    records: Records<S::Receipt>,
    standing: Copied,
    logs: WriteLogs,
) -> Result<u64, BringFault>
    requires named { records ≡ N.registry }
    requires fits { IsFitting standing }
    requires none { standing.writes ≡ 0 }
    ensures brought { IfOk result (λ count. IsBroughtIn
        (Stored S.Receipt (S.is_of N.place) S.Receipt.number S.Receipt.image) S.honest logs
        standing count shelf.old shelf.new) }
    ensures none { OnErr result (OnlyPuts shelf.old shelf.new) }
    ensures refused { IfErr result (IsUnbrought
        (Stored S.Receipt (S.is_of N.place) S.Receipt.number S.Receipt.image) (S.refuses N.place)
        S.honest logs standing) }
{
    let whole = fill(rt, alloc, shelf, records, standing, logs)?;
    let entries = whole.writes;
    match begin(rt, alloc, shelf, whole) {
        Ok(()) => Ok(entries),
        Err(fault) => Err(fault),
    }
}

/// Refuses a log among these files that a manifest of the standing database would still read.
fn refuse_unread(files: &[FolderFile], standing: &Copied) -> Result<(), BringFault>
    ensures flushed { OnOk result (NoneUnread standing.now.next 0 files.now) }
    ensures refused { IfErr result (StaysUnread files.now standing.now.next) }
{
    match first_unread(files, standing.next, 0) {
        Some(log) => Err(BringFault::Folder(WriterFault::UnflushedLog(log))),
        None => Ok(()),
    }
}

/// Brings the writes of the logs of these numbers into the database of a shelf, and answers as how
/// many entries they came in.
pub(crate) fn bring_in<N: Naming, S: Shelf, R: Wait>(
    rt: &R,
    alloc: Global,
    shelf: &mut NamedShelf<N, S>,
    records: Records<S::Receipt>,
    files: &[FolderFile],
    shape: &Shape,
    numbers: Vec<u64>,
    logs: WriteLogs,
) -> Result<u64, BringFault>
    requires named { records ≡ N.registry }
    requires shape { IsShape shape.now }
    requires keys { FitsShape shape.now }
    requires numbers { AreLogs shape.now.log shape.now.prev_log files.now numbers.items }
    ensures brought { IfOk result (λ count. BringsIn
        (Stored S.Receipt (S.is_of N.place) S.Receipt.number S.Receipt.image) S.honest files.now
        shape.now logs count shelf.old shelf.new) }
    ensures none { OnErr result (OnlyPuts shelf.old shelf.new) }
    ensures refused { IfErr result (BringsNone
        (Stored S.Receipt (S.is_of N.place) S.Receipt.number S.Receipt.image) (S.refuses N.place)
        S.honest files.now shape.now logs shelf.old) }
{
    copies_answer();
    let numbers = taken(rt, alloc, shelf, numbers)?;
    let standing = match Copied::standing(alloc, shape, &numbers) {
        Ok(standing) => standing,
        Err(fault) => return Err(BringFault::Bring(fault)),
    };
    refuse_unread(files, &standing)?;
    match finish(rt, alloc, shelf, records, standing, logs) {
        Ok(entries) => Ok(entries),
        Err(fault) => Err(fault),
    }
}
