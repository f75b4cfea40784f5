//! What lies beside the tables of a folder, and a command that reads does not read.

ghost use Rattle.std.specs.Prelude.{◌≡◌, ◌++◌, ◌∷◌, [], List, ℕ, IfErr, IfOk, MatchBool};
ghost use Rattle.std.specs.Prelude.{MatchOption, map, max, string_bytes};
ghost use Rattle.lsm_shelf.specs.Told.{NotNamed};
ghost use Rattle.lsm_directory.specs.Beside.{Among, FindsBeside, IsHighestManifest, IsOfRocksDb};
ghost use Rattle.lsm_directory.specs.Beside.{LooksBeside};
ghost use Rattle.lsm_directory.specs.Holding.{IsFolderFault};
ghost use Rattle.lsm_directory.specs.Looking.{BesideStopped, LooksStopped};

use crate::faults::directory_fault::DirectoryFault;
use crate::folder::file_names::number_behind;
use crate::folder::folder_file::FolderFile;
use crate::folder::holding::hold;
use crate::folder::looking::{folder_names, logs_among};
use lsm_folder::{FolderCalls, LockKind};
use lsm_table::ShelfFault;
use std::alloc::Global;
use std::sync::Wait;

/// What lies beside the tables of a folder: the files whose names end like a log's, by name; the
/// highest number of a manifest, none where there is no manifest; and whether there is a file that
/// RocksDB writes, and LevelDB does not.
#[derive(Debug, Drop)]
pub struct Beside {
    pub logs: Vec<FolderFile>,
    pub manifest: Option<u64>,
    pub rocksdb: bool,
}

/// The higher one of a number, if there is one yet, and another.
fn higher(known: Option<u64>, number: u64) -> u64
    ensures { MatchOption known (result ≡ number) (λ k. result ≡ max k number) }
{
    match known {
        Some(known) => known.max(number),
        None => number,
    }
}

/// The highest number of a manifest where a file of this name is added.
fn highest_with(highest: Option<u64>, name: &str) -> Option<u64>
    ensures { (front : List (List ℕ)) → IsHighestManifest front highest
        → IsHighestManifest (front ++ name.now ∷ []) result }
{
    match number_behind("MANIFEST-", name) {
        Some(number) => Some(higher(highest, number)),
        None => highest,
    }
}

/// The highest number of a manifest that is there.
fn highest_manifest(names: &[String]) -> Option<u64>
    ensures { IsHighestManifest (map string_bytes names.now) result }
{
    let mut highest = None;
    for name in names {
        highest = highest_with(highest, name.as_str());
    }
    highest
}

/// Whether RocksDB writes a file of this name, and LevelDB does not.
fn is_of_rocksdb(name: &str) -> bool
    ensures { MatchBool result (IsOfRocksDb name.now) (IsOfRocksDb name.now → ⊥) }
{
    if name == "IDENTITY" {
        return true;
    }
    match number_behind("OPTIONS-", name) {
        Some(_) => true,
        None => false,
    }
}

/// Whether such a file is there.
fn has_rocksdb(names: &[String]) -> bool
    ensures { MatchBool result (Among (map string_bytes names.now) IsOfRocksDb)
        (Among (map string_bytes names.now) IsOfRocksDb → ⊥) }
{
    for name in names {
        if is_of_rocksdb(name.as_str()) {
            return true;
        }
    }
    false
}

/// What lies beside the tables of a folder. The folder is asked for its names and for sizes alone,
/// as `log_files` does.
fn find_beside<C: FolderCalls, R: Wait>(
    rt: &R,
    alloc: Global,
    folder: &mut C,
) -> Result<Beside, ShelfFault>
    ensures told { IfOk result (λ beside.
        FindsBeside beside (C.calls folder.old) (C.calls folder.new)) }
    ensures refused { IfErr result (λ e. LooksStopped e (C.calls folder.old) (C.calls folder.new)) }
    ensures place { C.place folder.new ≡ C.place folder.old }
    ensures fault { IfErr result NotNamed }
{
    let names = folder_names(rt, alloc, folder)?;
    let manifest = highest_manifest(&names);
    let rocksdb = has_rocksdb(&names);
    let logs = logs_among(rt, alloc, folder, names)?;
    Ok(Beside {
        logs,
        manifest,
        rocksdb,
    })
}

/// What a command that only reads asks of a folder before its tables: it holds the lock of the
/// folder, shared, and looks at what lies beside the tables.
///
/// The refusals of `hold`, and then those of `log_files`, as `Shelf`.
pub fn look_beside<C: FolderCalls, R: Wait>(
    rt: &R,
    alloc: Global,
    folder: &mut C,
) -> Result<Beside, DirectoryFault>
    ensures told { IfOk result (λ beside.
        LooksBeside beside (C.calls folder.old) (C.calls folder.new)) }
    ensures refused { IfErr result (λ e.
        BesideStopped e (C.calls folder.old) (C.calls folder.new)) }
    ensures place { C.place folder.new ≡ C.place folder.old }
    ensures fault { IfErr result IsFolderFault }
{
    hold(rt, folder, LockKind::Shared)?;
    match find_beside(rt, alloc, folder) {
        Ok(beside) => Ok(beside),
        Err(fault) => Err(DirectoryFault::Shelf(fault)),
    }
}
