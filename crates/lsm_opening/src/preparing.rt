//! A folder is locked, looked at and tidied before its database is begun or opened.

ghost use Rattle.std.specs.Prelude.{◌≡◌, List, IfErr, IfOk, OnErr, OnOk, map, string_bytes};
ghost use Rattle.lsm_folder.specs.Calls.{Call};
ghost use Rattle.lsm_directory.specs.Looking.{LooksStopped, OnlyLooks};
ghost use Rattle.lsm_opening.specs.Preparing.{IsLookedAt, IsPrepared, IsUnprepared, LooksAtLogs};
ghost use Rattle.lsm_opening.specs.Preparing.{OnlyLocks, StopsLooking, TidiesFor, plainly};
ghost use Rattle.lsm_opening.specs.Tidying.{OnlyReads};

use crate::faults::writer_fault::WriterFault;
use crate::names::start_among;
use crate::prepared::{Prepared, Start};
use crate::tidying::tidy;
use lsm_directory::{FolderFile, first_unread, folder_names, hold, logs_among};
use lsm_folder::{FolderCalls, LockKind};
use lsm_requests::IngestOptions;
use lsm_table::ShelfFault;
use lsm_text::Form;
use std::alloc::Global;
use std::sync::Wait;

/// How a folder is looked at that is no word's: a database is begun only where no file of one is,
/// logs are looked at, and tables are judged.
pub fn plainly() -> IngestOptions
    ensures { result ≡ plainly }
{
    IngestOptions {
        form: Form::Hex,
        begins: false,
        beside_log: false,
        quick: false,
    }
}

/// The files that may be logs beside the database, in the order of these names; none where it may
/// be begun or opened beside a log.
fn logs_for<C: FolderCalls, R: Wait>(
    rt: &R,
    alloc: Global,
    folder: &mut C,
    beside_log: bool,
    names: Vec<String>,
) -> Result<Vec<FolderFile>, ShelfFault>
    ensures told { IfOk result (λ files. LooksAtLogs beside_log (map string_bytes names.items)
        files.items (C.calls folder.old) (C.calls folder.new)) }
    ensures refused { IfErr result (λ e. LooksStopped e (C.calls folder.old) (C.calls folder.new)) }
    ensures looked { OnlyLooks (C.calls folder.old) (C.calls folder.new) }
    ensures place { C.place folder.new ≡ C.place folder.old }
{
    if beside_log {
        return Ok(Vec::new(alloc));
    }
    logs_among(rt, alloc, folder, names)
}

/// Looks at the names in a folder, and at its logs.
fn look<C: FolderCalls, R: Wait>(
    rt: &R,
    alloc: Global,
    folder: &mut C,
    options: IngestOptions,
) -> Result<Prepared, WriterFault>
    ensures prepared { IfOk result (λ p.
        IsLookedAt options p.start p.logs.items (C.calls folder.old) (C.calls folder.new)) }
    ensures refused { IfErr result (λ e.
        StopsLooking options e (C.calls folder.old) (C.calls folder.new)) }
    ensures looked { OnlyLooks (C.calls folder.old) (C.calls folder.new) }
    ensures place { C.place folder.new ≡ C.place folder.old }
{
    let names = folder_names(rt, alloc, folder)?;
    let start = start_among(&names, options.begins)?;
    let logs = logs_for(rt, alloc, folder, options.beside_log, names)?;
    Ok(Prepared { start, logs })
}

/// Removes what the last openings left behind, where the database that is there is meant, beside no
/// log but empty ones: by another one the opening may be refused.
fn tidy_for<C: FolderCalls, R: Wait>(
    rt: &R,
    alloc: Global,
    folder: &mut C,
    prepared: &Prepared,
) -> Result<(), ShelfFault>
    ensures tidied { OnOk result (TidiesFor prepared.now.start prepared.now.logs.items
        (C.calls folder.old) (C.calls folder.new)) }
    ensures refused { IfErr result (λ e. LooksStopped e (C.calls folder.old) (C.calls folder.new)) }
    ensures reads { OnErr result (OnlyReads (C.calls folder.old) (C.calls folder.new)) }
    ensures place { C.place folder.new ≡ C.place folder.old }
{
    if let Start::Begin(_) = prepared.start {
        return Ok(());
    }
    match first_unread(&prepared.logs, 0, 0) {
        Some(_) => Ok(()),
        None => tidy(rt, alloc, folder),
    }
}

/// Looks at the names in a folder, and at its logs, and removes what the last openings left behind.
fn look_and_tidy<C: FolderCalls, R: Wait>(
    rt: &R,
    alloc: Global,
    folder: &mut C,
    options: IngestOptions,
) -> Result<Prepared, WriterFault>
    ensures prepared { IfOk result (λ p. (looked : List Call)
        × IsLookedAt options p.start p.logs.items (C.calls folder.old) looked
        × TidiesFor p.start p.logs.items looked (C.calls folder.new)) }
    ensures refused { IfErr result (λ e.
        StopsLooking options e (C.calls folder.old) (C.calls folder.new)) }
    ensures reads { OnErr result (OnlyReads (C.calls folder.old) (C.calls folder.new)) }
    ensures place { C.place folder.new ≡ C.place folder.old }
{
    let prepared = look(rt, alloc, folder, options)?;
    tidy_for(rt, alloc, folder, &prepared)?;
    Ok(prepared)
}

/// Takes the lock of a folder, looks which database is meant there, and which logs are beside it,
/// and removes what crashes of this database left behind: manifests that `CURRENT` does not name,
/// and temporary files, and no other file. No file is made but the lock's.
///
/// Nothing is removed beside a log that is not empty, where logs are looked at; nor where the
/// manifest that `CURRENT` names can't be read, has no record, ends with bytes that hold no whole
/// one, or can't be made durable; nor where no number is left. A file that the folder does not
/// remove is left, and is no refusal.
///
/// `Locked` where another program has the folder open; the refusals of looking at it; and those of
/// its names: `LostCurrent`, or `NumbersSpent` where a database is to be begun in any case. After a
/// refusal the folder's files are as they were, but for the lock's.
pub fn prepare<C: FolderCalls, R: Wait>(
    rt: &R,
    alloc: Global,
    folder: &mut C,
    options: IngestOptions,
) -> Result<Prepared, WriterFault>
    ensures prepared { IfOk result (λ p.
        IsPrepared options p.start p.logs.items (C.calls folder.old) (C.calls folder.new)) }
    ensures refused { IfErr result (λ e.
        IsUnprepared options e (C.calls folder.old) (C.calls folder.new)) }
    ensures unchanged { OnErr result (OnlyLocks (C.calls folder.old) (C.calls folder.new)) }
    ensures place { C.place folder.new ≡ C.place folder.old }
{
    hold(rt, folder, LockKind::Exclusive)?;
    match look_and_tidy(rt, alloc, folder, options) {
        Ok(prepared) => Ok(prepared),
        Err(fault) => Err(fault),
    }
}
