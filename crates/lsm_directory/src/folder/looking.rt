//! What a folder tells of its names and logs.

ghost use Rattle.std.specs.Prelude.{◌≡◌, ◌∷◌, List, ℕ, Err, Ok, IfErr, IfOk, MatchOption, OnOk};
ghost use Rattle.std.specs.Prelude.{map, string_bytes};
ghost use Rattle.std.specs.Cmp.Lexicographic.{slice_cmp};
ghost use Rattle.std.specs.List.Sorted.{IsPermutation, IsSorted};
ghost use Rattle.std.specs.Ordering.{nat_cmp};
ghost use Rattle.lsm_folder.specs.Calls.{listed, measured};
ghost use Rattle.lsm_folder.specs.declared.folder_fault.FolderFault.TheVariants.{Missing};
ghost use Rattle.lsm_shelf.specs.Told.{NotNamed};
ghost use Rattle.lsm_shelf.specs.declared.shelf_fault.ShelfFault.TheVariants.{OutOfMemory};
ghost use Rattle.lsm_directory.specs.Holding.{IsFolderFault};
ghost use Rattle.lsm_directory.specs.Looking.{AddsLog, AsksSizes, BesideStopped, LooksStopped};
ghost use Rattle.lsm_directory.specs.Looking.{OnlyLooks, TellsBeside, TellsLogs};

use crate::faults::directory_fault::DirectoryFault;
use crate::folder::folder_file::FolderFile;
use crate::folder::holding::{device, hold};
use lsm_folder::{FolderCalls, FolderFault, LockKind};
use lsm_table::ShelfFault;
use std::alloc::Global;
use std::sync::Wait;

/// The names, ascending.
fn in_order(mut names: Vec<String>) -> Result<Vec<String>, ShelfFault>
    ensures same { IfOk result (λ v.
        IsPermutation (map string_bytes names.items) (map string_bytes v.items)) }
    ensures ascending { IfOk result (λ v. IsSorted (slice_cmp nat_cmp) (map string_bytes v.items)) }
    ensures memory { IfErr result (λ e. e ≡ OutOfMemory) }
{
    match names.sort() {
        Ok(()) => Ok(names),
        Err(_) => Err(ShelfFault::OutOfMemory),
    }
}

/// The names of a folder's files, ascending. The folder is asked for them once. A name that is no
/// text is left out. `Device` where the folder fails.
pub fn folder_names<C: FolderCalls, R: Wait>(
    rt: &R,
    alloc: Global,
    folder: &mut C,
) -> Result<Vec<String>, ShelfFault>
    ensures listed { IfOk result (λ v. (names : List (List ℕ))
        × (C.calls folder.new ≡ listed (Ok names) ∷ C.calls folder.old)
        × IsPermutation names (map string_bytes v.items)) }
    ensures ascending { IfOk result (λ v. IsSorted (slice_cmp nat_cmp) (map string_bytes v.items)) }
    ensures refused { IfErr result (λ e. LooksStopped e (C.calls folder.old) (C.calls folder.new)) }
    ensures looked { OnlyLooks (C.calls folder.old) (C.calls folder.new) }
    ensures place { C.place folder.new ≡ C.place folder.old }
    ensures fault { IfErr result NotNamed }
{
    match folder.list(rt, alloc) {
        Ok(names) => in_order(names),
        Err(fault) => Err(device(fault)),
    }
}

/// The size of a file; none where it is gone.
fn size_of<C: FolderCalls, R: Wait>(
    rt: &R,
    folder: &mut C,
    name: &str,
) -> Result<Option<u64>, ShelfFault>
    ensures measured { IfOk result (λ o. MatchOption o
        (C.calls folder.new ≡ measured name.now (Err Missing) ∷ C.calls folder.old)
        (λ size. C.calls folder.new ≡ measured name.now (Ok size) ∷ C.calls folder.old)) }
    ensures refused { IfErr result (λ e. LooksStopped e (C.calls folder.old) (C.calls folder.new)) }
    ensures looked { OnlyLooks (C.calls folder.old) (C.calls folder.new) }
    ensures place { C.place folder.new ≡ C.place folder.old }
    ensures fault { IfErr result NotNamed }
{
    match folder.length(rt, name) {
        Ok(size) => Ok(Some(size)),
        Err(fault) => match fault {
            FolderFault::Missing => Ok(None),
            _ => Err(device(fault)),
        },
    }
}

/// Adds the file of this name where the name ends like a log's.
fn add_log<C: FolderCalls, R: Wait>(
    rt: &R,
    folder: &mut C,
    files: &mut Vec<FolderFile>,
    name: String,
) -> Result<(), ShelfFault>
    ensures added { OnOk result (AddsLog (string_bytes name) files.old.items files.new.items
        (C.calls folder.old) (C.calls folder.new)) }
    ensures refused { IfErr result (λ e. LooksStopped e (C.calls folder.old) (C.calls folder.new)) }
    ensures looked { OnlyLooks (C.calls folder.old) (C.calls folder.new) }
    ensures place { C.place folder.new ≡ C.place folder.old }
    ensures fault { IfErr result NotNamed }
{
    if !name.ends_with(".log") {
        return Ok(());
    }
    let Some(size) = size_of(rt, folder, name.as_str())? else {
        return Ok(());
    };
    match files.push(FolderFile { name, size }) {
        Ok(()) => Ok(()),
        Err(_) => Err(ShelfFault::OutOfMemory),
    }
}

/// The files among these names that end like a log's, with their sizes, in the order of the names.
/// The folder is asked for sizes alone: no file is opened. One that is gone when its size is asked
/// is left out. `Device` where the folder fails.
pub fn logs_among<C: FolderCalls, R: Wait>(
    rt: &R,
    alloc: Global,
    folder: &mut C,
    names: Vec<String>,
) -> Result<Vec<FolderFile>, ShelfFault>
    ensures told { IfOk result (λ files. AsksSizes (map string_bytes names.items) files.items
        (C.calls folder.old) (C.calls folder.new)) }
    ensures refused { IfErr result (λ e. LooksStopped e (C.calls folder.old) (C.calls folder.new)) }
    ensures looked { OnlyLooks (C.calls folder.old) (C.calls folder.new) }
    ensures place { C.place folder.new ≡ C.place folder.old }
    ensures fault { IfErr result NotNamed }
{
    let mut files = Vec::new(alloc);
    for name in names {
        add_log(rt, folder, &mut files, name)?;
    }
    Ok(files)
}

/// The files of a folder whose names end like a log's, by name, with their sizes. The folder is
/// asked for its names and for sizes alone: no file is opened. One that is gone when its size is
/// asked is left out. `Device` where the folder fails.
pub fn log_files<C: FolderCalls, R: Wait>(
    rt: &R,
    alloc: Global,
    folder: &mut C,
) -> Result<Vec<FolderFile>, ShelfFault>
    ensures told { IfOk result (λ files.
        TellsLogs files.items (C.calls folder.old) (C.calls folder.new)) }
    ensures refused { IfErr result (λ e. LooksStopped e (C.calls folder.old) (C.calls folder.new)) }
    ensures looked { OnlyLooks (C.calls folder.old) (C.calls folder.new) }
    ensures place { C.place folder.new ≡ C.place folder.old }
    ensures fault { IfErr result NotNamed }
{
    let names = folder_names(rt, alloc, folder)?;
    logs_among(rt, alloc, folder, names)
}

/// What a command that reads the logs of a folder asks before its tables: it holds the lock of the
/// folder, shared, and looks for logs, as `log_files` does.
///
/// The refusals of `hold`, and then those of `log_files`, as `Shelf`.
pub fn files_beside<C: FolderCalls, R: Wait>(
    rt: &R,
    alloc: Global,
    folder: &mut C,
) -> Result<Vec<FolderFile>, DirectoryFault>
    ensures told { IfOk result (λ files.
        TellsBeside files.items (C.calls folder.old) (C.calls folder.new)) }
    ensures refused { IfErr result (λ e.
        BesideStopped e (C.calls folder.old) (C.calls folder.new)) }
    ensures place { C.place folder.new ≡ C.place folder.old }
    ensures fault { IfErr result IsFolderFault }
{
    hold(rt, folder, LockKind::Shared)?;
    match log_files(rt, alloc, folder) {
        Ok(files) => Ok(files),
        Err(fault) => Err(DirectoryFault::Shelf(fault)),
    }
}
