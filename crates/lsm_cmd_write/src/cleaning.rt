//! The files of a folder that its database does not need are removed.

mod durable;
pub(crate) mod kept;
pub(crate) mod program;

ghost use Rattle.std.specs.Prelude.{◌≡◌, ◌++◌, ◌∷◌, [], Ok, IfErr, OnOk, map, string_bytes};
ghost use Rattle.std.specs.Io.KnownBytes.{Appends};
ghost use Rattle.lsm_folder.specs.Calls.{removed};
ghost use Rattle.lsm_storage.specs.FolderFault.{device_of};
ghost use Rattle.lsm_shelf.specs.Told.{NotNamed};
ghost use Rattle.lsm_cmd_write.specs.Cleaning.{AreRemoved, AreSparesGone, IsAccepted, IsCleaned};
ghost use Rattle.lsm_cmd_write.specs.Cleaning.{IsCleared, IsTorn};
ghost use Rattle.lsm_cmd_write.specs.Cleaning.{IsTidied, IsUncleared};
ghost use Rattle.lsm_cmd_write.specs.Cleaning.{IsSpare, IsUncleaned, IsUnremoved, IsUntidied};
ghost use Rattle.lsm_cmd_write.specs.Cleaning.{Removes, StopsCleaning, StopsRemoving};
ghost use Rattle.lsm_opening.specs.WriterFault.{of_shelf};

use crate::cleaning::durable::make_durable;
use crate::cleaning::kept::{Kept, kept_in};
use lsm_directory::{DirectoryFault, folder_names, hold};
use lsm_folder::{FolderCalls, FolderFault, LockKind};
use lsm_opening::WriterFault;
use lsm_requests::CleanOptions;
use lsm_table::ShelfFault;
use std::alloc::Global;
use std::io::{self, Write};
use std::sync::Wait;

/// A refusal of a folder.
pub(crate) fn refused_by(fault: FolderFault) -> WriterFault
    ensures fault { result ≡ of_shelf (device_of fault) }
    ensures named { NotNamed (device_of fault) }
{
    match fault {
        FolderFault::OutOfMemory => WriterFault::of_shelf(ShelfFault::OutOfMemory),
        FolderFault::Failed | FolderFault::Missing | FolderFault::Exists => {
            WriterFault::of_shelf(ShelfFault::Device)
        }
    }
}

/// Writes a name as a line.
fn write_name<O: Write>(out: &mut O, name: &str) -> io::Result<()>
    ensures { OnOk result
        (Appends (O.contents out.old) (O.contents out.new) (name.now ++ 10 ∷ [])) }
{
    writeln!(out, "{name}")
}

/// Removes the file of this name, and writes its line.
fn remove_file<C: FolderCalls, R: Wait, O: Write>(
    rt: &R,
    folder: &mut C,
    name: &str,
    out: &mut O,
) -> Result<(), WriterFault>
    ensures calls { OnOk result (C.calls folder.new
        ≡ removed name.now (Ok tt) ∷ C.calls folder.old) }
    ensures printed { OnOk result
        (Appends (O.contents out.old) (O.contents out.new) (name.now ++ 10 ∷ [])) }
    ensures refused { IfErr result (λ e. IsUnremoved name.now e (C.calls folder.old)
        (C.calls folder.new) (O.contents out.old) (O.contents out.new)) }
    ensures place { C.place folder.new ≡ C.place folder.old }
{
    if let Err(fault) = folder.remove(rt, name) {
        return Err(refused_by(fault));
    }
    match write_name(out, name) {
        Ok(()) => Ok(()),
        Err(_) => Err(WriterFault::Write),
    }
}

/// Removes the file of this name, if the database does not need it, and writes its line.
fn remove_spare<C: FolderCalls, R: Wait, O: Write>(
    rt: &R,
    folder: &mut C,
    kept: &Kept,
    name: &str,
    out: &mut O,
) -> Result<(), WriterFault>
    ensures removed { OnOk result (Removes kept.now.journal kept.now.tables.items name.now
        (C.calls folder.old) (C.calls folder.new) (O.contents out.old) (O.contents out.new)) }
    ensures spare { IfErr result (λ _. IsSpare kept.now.journal kept.now.tables.items name.now) }
    ensures refused { IfErr result (λ e. IsUnremoved name.now e (C.calls folder.old)
        (C.calls folder.new) (O.contents out.old) (O.contents out.new)) }
    ensures place { C.place folder.new ≡ C.place folder.old }
{
    if !kept.spares(name) {
        return Ok(());
    }
    match remove_file(rt, folder, name, out) {
        Ok(()) => Ok(()),
        Err(fault) => Err(fault),
    }
}

/// Removes the files of those of these names that the database does not need, and writes a line for
/// each.
fn remove_spares<C: FolderCalls, R: Wait, O: Write>(
    rt: &R,
    folder: &mut C,
    kept: &Kept,
    names: &[String],
    out: &mut O,
) -> Result<(), WriterFault>
    ensures removed { OnOk result
        (AreRemoved kept.now.journal kept.now.tables.items (map string_bytes names.now)
        (C.calls folder.old) (C.calls folder.new) (O.contents out.old) (O.contents out.new)) }
    ensures refused { IfErr result (λ e.
        StopsRemoving kept.now.journal kept.now.tables.items (map string_bytes names.now) e
        (C.calls folder.old) (C.calls folder.new) (O.contents out.old) (O.contents out.new)) }
    ensures place { C.place folder.new ≡ C.place folder.old }
{
    for name in names {
        remove_spare(rt, folder, kept, name.as_str(), out)?;
    }
    Ok(())
}

/// Removes the files in a folder that the database does not need, and writes a line for each, in
/// the order of names.
fn tidy<C: FolderCalls, R: Wait, O: Write>(
    rt: &R,
    alloc: Global,
    folder: &mut C,
    kept: &Kept,
    out: &mut O,
) -> Result<(), WriterFault>
    ensures tidied { OnOk result (IsTidied kept.now.journal kept.now.tables.items
        (C.calls folder.old) (C.calls folder.new) (O.contents out.old) (O.contents out.new)) }
    ensures refused { IfErr result (λ e. IsUntidied kept.now.journal kept.now.tables.items e
        (C.calls folder.old) (C.calls folder.new) (O.contents out.old) (O.contents out.new)) }
    ensures place { C.place folder.new ≡ C.place folder.old }
{
    let names = folder_names(rt, alloc, folder)?;
    remove_spares(rt, folder, kept, &names, out)?;
    match out.flush() {
        Ok(()) => Ok(()),
        Err(_) => Err(WriterFault::Write),
    }
}

/// Makes durable what the database needs, and then removes the files that it does not need.
fn clear<C: FolderCalls, R: Wait, O: Write>(
    rt: &R,
    alloc: Global,
    folder: &mut C,
    kept: &Kept,
    out: &mut O,
) -> Result<(), WriterFault>
    ensures cleared { OnOk result (IsCleared kept.now.journal kept.now.tables.items
        (C.calls folder.old) (C.calls folder.new) (O.contents out.old) (O.contents out.new)) }
    ensures refused { IfErr result (λ e. IsUncleared kept.now.journal kept.now.tables.items e
        (C.calls folder.old) (C.calls folder.new) (O.contents out.old) (O.contents out.new)) }
    ensures place { C.place folder.new ≡ C.place folder.old }
{
    make_durable(rt, alloc, folder, kept.journal.number())?;
    tidy(rt, alloc, folder, kept, out)
}

/// Refuses a manifest with so many bytes at its end that hold no whole record, unless that is
/// accepted.
fn refuse_torn(rest: u64, options: CleanOptions) -> Result<(), WriterFault>
    ensures accepted { OnOk result (IsAccepted options rest) }
    ensures torn { IfErr result (IsTorn options rest) }
{
    if rest == 0 || options.accepts_rest {
        return Ok(());
    }
    Err(WriterFault::Directory(DirectoryFault::TornManifest(rest)))
}

/// Opens the database in a folder to read, and removes the files that it does not need.
fn clean_held<C: FolderCalls + Send + Sync, R: Wait, O: Write>(
    rt: &R,
    alloc: Global,
    folder: &mut C,
    options: CleanOptions,
    out: &mut O,
) -> Result<(), WriterFault>
where
    C::Mark: Send + Sync,
    ensures cleaned { OnOk result (AreSparesGone C.FolderCalls options (C.place folder.old)
        (C.calls folder.old) (C.calls folder.new) (O.contents out.old) (O.contents out.new)) }
    ensures refused { IfErr result (λ e. StopsCleaning C.FolderCalls C.Mark.Mark options
        (C.place folder.old) e (C.calls folder.old) (C.calls folder.new) (O.contents out.old)
        (O.contents out.new)) }
    ensures place { C.place folder.new ≡ C.place folder.old }
{
    let kept = kept_in(rt, alloc, &*folder)?;
    refuse_torn(kept.rest, options)?;
    match clear(rt, alloc, folder, &kept, out) {
        Ok(()) => Ok(()),
        Err(fault) => Err(fault),
    }
}

/// Takes the lock of a folder, opens its database to read, removes the files that this does not
/// need, and writes a line for each.
pub(crate) fn clean_folder<C: FolderCalls + Send + Sync, R: Wait, O: Write>(
    rt: &R,
    alloc: Global,
    folder: &mut C,
    options: CleanOptions,
    out: &mut O,
) -> Result<(), WriterFault>
where
    C::Mark: Send + Sync,
    ensures cleaned { OnOk result (IsCleaned C.FolderCalls options (C.place folder.old)
        (C.calls folder.old) (C.calls folder.new) (O.contents out.old) (O.contents out.new)) }
    ensures refused { IfErr result (λ e. IsUncleaned C.FolderCalls C.Mark.Mark options
        (C.place folder.old) e (C.calls folder.old) (C.calls folder.new) (O.contents out.old)
        (O.contents out.new)) }
    ensures place { C.place folder.new ≡ C.place folder.old }
{
    hold(rt, folder, LockKind::Exclusive)?;
    match clean_held(rt, alloc, folder, options, out) {
        Ok(()) => Ok(()),
        Err(fault) => Err(fault),
    }
}
