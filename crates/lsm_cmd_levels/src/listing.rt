//! The files of a folder, with their sizes.

ghost use Rattle.std.specs.Prelude.{◌≡◌, IfErr, IfOk, OnOk, map, string_bytes};
ghost use Rattle.lsm_shelf.specs.Told.{NotNamed};
ghost use Rattle.lsm_cmd_levels.specs.Listing.{AddsFile, AsksEach, IsWithout, TellsFiles};

use lsm_directory::{FolderFile, folder_names};
use lsm_folder::{FolderCalls, FolderFault};
use lsm_table::ShelfFault;
use std::alloc::Global;
use std::sync::Wait;

/// Whether a file whose size is refused has none: it is gone, or is no log and no regular file.
/// Else why the size was refused.
fn without_size(fault: FolderFault, name: &str) -> Result<(), ShelfFault>
    ensures without { OnOk result (IsWithout name.now fault) }
    ensures fault { IfErr result NotNamed }
{
    match fault {
        FolderFault::Missing => Ok(()),
        FolderFault::OutOfMemory => Err(ShelfFault::OutOfMemory),
        FolderFault::Exists => Err(ShelfFault::Device),
        FolderFault::Failed => {
            if name.ends_with(".log") {
                return Err(ShelfFault::Device);
            }
            Ok(())
        }
    }
}

/// Adds the file of this name, if it has a size.
fn add_file<C: FolderCalls, R: Wait>(
    rt: &R,
    folder: &mut C,
    files: &mut Vec<FolderFile>,
    name: String,
) -> Result<(), ShelfFault>
    ensures added { OnOk result (AddsFile (string_bytes name) files.old.items files.new.items
        (C.calls folder.old) (C.calls folder.new)) }
    ensures place { C.place folder.new ≡ C.place folder.old }
    ensures fault { IfErr result NotNamed }
{
    let size = match folder.length(rt, name.as_str()) {
        Ok(size) => size,
        Err(fault) => return without_size(fault, name.as_str()),
    };
    match files.push(FolderFile { name, size }) {
        Ok(()) => Ok(()),
        Err(_) => Err(ShelfFault::OutOfMemory),
    }
}

/// The files of these names that have sizes, in the order of the names.
fn with_sizes<C: FolderCalls, R: Wait>(
    rt: &R,
    alloc: Global,
    folder: &mut C,
    names: Vec<String>,
) -> Result<Vec<FolderFile>, ShelfFault>
    ensures told { IfOk result (λ files. AsksEach (map string_bytes names.items) files.items
        (C.calls folder.old) (C.calls folder.new)) }
    ensures place { C.place folder.new ≡ C.place folder.old }
    ensures fault { IfErr result NotNamed }
{
    let mut files = Vec::new(alloc);
    for name in names {
        add_file(rt, folder, &mut files, name)?;
    }
    Ok(files)
}

/// The files of a folder, by name, with their sizes. The folder is asked for its names and for
/// sizes alone: no file is opened. One that is gone when its size is asked is left out, and what is
/// no regular file. `Device` where the folder fails, also of the size of a log.
pub(crate) fn folder_files<C: FolderCalls, R: Wait>(
    rt: &R,
    alloc: Global,
    folder: &mut C,
) -> Result<Vec<FolderFile>, ShelfFault>
    ensures told { IfOk result (λ files.
        TellsFiles files.items (C.calls folder.old) (C.calls folder.new)) }
    ensures place { C.place folder.new ≡ C.place folder.old }
    ensures fault { IfErr result NotNamed }
{
    let names = folder_names(rt, alloc, folder)?;
    with_sizes(rt, alloc, folder, names)
}
