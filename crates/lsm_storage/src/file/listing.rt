//! The tables of a folder.

ghost use Rattle.std.specs.Prelude.{◌≡◌, ◌↔◌, ℕ, ◌<◌, ◌^◌, ◌∷◌, List, [], ◌++◌, Ok, map};
ghost use Rattle.std.specs.Prelude.{string_bytes, IfOk, IfErr, OnOk};
ghost use Rattle.std.specs.List.{Contains};
ghost use Rattle.std.specs.List.Sorted.{IsStrictlyIncreasing};
ghost use Rattle.lsm_folder.specs.Calls.{listed};
ghost use Rattle.lsm_storage.specs.Plans.{AreTablesOf, Unlisted, ListStopped};
ghost use Rattle.lsm_shelf.specs.Told.{NotNamed};

use crate::file::fault::device;
use crate::file::file_names::table_in;
use lsm_folder::FolderCalls;
use lsm_shelf::ShelfFault;
use std::alloc::{AllocError, Global};
use std::sync::Wait;

/// The numbers in order, each once.
fn in_order(mut numbers: Vec<u64>) -> Result<Vec<u64>, AllocError>
    ensures ascending { IfOk result (λ v. IsStrictlyIncreasing v.items) }
    ensures all { IfOk result (λ v. (n : ℕ) → Contains v.items n ↔ Contains numbers.items n) }
{
    numbers.sort()?;
    numbers.dedup();
    Ok(numbers)
}

/// Adds the number of the table of this name, if it is one's.
fn add_table(alloc: Global, numbers: &mut Vec<u64>, name: &str) -> Result<(), AllocError>
    ensures { OnOk result ((names : List (List ℕ)) → AreTablesOf names numbers.old.items
        → AreTablesOf (names ++ name.now ∷ []) numbers.new.items) }
{
    let found = table_in(alloc, name)?;
    match found {
        Some(number) => {
            numbers.push(number)?;
            Ok(())
        }
        None => Ok(()),
    }
}

/// The numbers of the tables among names of files.
fn tables_among(alloc: Global, names: &[String]) -> Result<Vec<u64>, AllocError>
    ensures { IfOk result (λ v. AreTablesOf (map string_bytes names.now) v.items) }
{
    let mut numbers = Vec::new(alloc);
    for name in names {
        add_table(alloc, &mut numbers, name.as_str())?;
    }
    Ok(numbers)
}

/// The names that the folder lists.
fn list_names<C: FolderCalls, W: Wait>(
    folder: &mut C,
    rt: &W,
    alloc: Global,
) -> Result<Vec<String>, ShelfFault>
    ensures ok { IfOk result (λ v.
        C.calls folder.new ≡ listed (Ok (map string_bytes v.items)) ∷ C.calls folder.old) }
    ensures err { IfErr result (λ e. Unlisted e (C.calls folder.old) (C.calls folder.new)) }
    ensures place { C.place folder.new ≡ C.place folder.old }
    ensures fault { IfErr result NotNamed }
{
    folder.list(rt, alloc).map_err(|e| device(e))
}

/// The numbers of the tables among names of files, ascending.
fn tables_of(alloc: Global, names: &[String]) -> Result<Vec<u64>, AllocError>
    ensures ascending { IfOk result (λ v. IsStrictlyIncreasing v.items) }
    ensures tables { IfOk result (λ v. AreTablesOf (map string_bytes names.now) v.items) }
{
    let numbers = tables_among(alloc, names)?;
    let ordered = in_order(numbers)?;
    Ok(ordered)
}

/// The numbers of the tables that the folder names, ascending.
pub(crate) fn list_tables<C: FolderCalls, W: Wait>(
    folder: &mut C,
    rt: &W,
    alloc: Global,
) -> Result<Vec<u64>, ShelfFault>
    ensures ascending { IfOk result (λ v. IsStrictlyIncreasing v.items) }
    ensures ok { IfOk result (λ v. (names : List (List ℕ)) × (C.calls folder.new
        ≡ listed (Ok names) ∷ C.calls folder.old) × AreTablesOf names v.items) }
    ensures err { IfErr result (λ e. ListStopped e (C.calls folder.old) (C.calls folder.new)) }
    ensures place { C.place folder.new ≡ C.place folder.old }
    ensures fault { IfErr result NotNamed }
{
    let names = list_names(folder, rt, alloc)?;
    match tables_of(alloc, names.as_slice()) {
        Ok(numbers) => Ok(numbers),
        Err(_) => Err(ShelfFault::OutOfMemory),
    }
}
