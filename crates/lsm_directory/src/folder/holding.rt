//! The lock of a folder, which a command holds while it reads or writes there.

ghost use Rattle.std.specs.Prelude.{◌≡◌, IfErr, OnOk};
ghost use Rattle.lsm_storage.specs.FolderFault.{device_of};
ghost use Rattle.lsm_shelf.specs.Told.{NotNamed};
ghost use Rattle.lsm_directory.specs.Holding.{IsFolderFault, IsHeld, IsUnheld};

use crate::faults::directory_fault::DirectoryFault;
use lsm_folder::{FolderCalls, FolderFault, LockKind};
use lsm_table::ShelfFault;
use std::sync::Wait;

/// What a refusal of a folder means to one that asks it.
pub(crate) fn device(fault: FolderFault) -> ShelfFault
    ensures device { result ≡ device_of fault }
    ensures fault { NotNamed result }
{
    match fault {
        FolderFault::OutOfMemory => ShelfFault::OutOfMemory,
        FolderFault::Failed | FolderFault::Missing | FolderFault::Exists => ShelfFault::Device,
    }
}

/// Holds the lock of a folder, its file `LOCK`, until the value is dropped: shared to read,
/// exclusive to write. Where there is no such file, an exclusive lock makes it, and a shared one
/// does without.
///
/// `Locked` where another has it, in a way that forbids this one; `Shelf` where the folder refuses.
pub fn hold<C: FolderCalls, R: Wait>(
    rt: &R,
    folder: &mut C,
    kind: LockKind,
) -> Result<(), DirectoryFault>
    ensures held { OnOk result (IsHeld kind (C.calls folder.old) (C.calls folder.new)) }
    ensures refused { IfErr result (λ e.
        IsUnheld kind e (C.calls folder.old) (C.calls folder.new)) }
    ensures place { C.place folder.new ≡ C.place folder.old }
    ensures fault { IfErr result IsFolderFault }
{
    match folder.lock(rt, "LOCK", kind) {
        Ok(true) => Ok(()),
        Ok(false) => Err(DirectoryFault::Locked),
        Err(fault) => match (kind, fault) {
            (LockKind::Shared, FolderFault::Missing) => Ok(()),
            _ => Err(DirectoryFault::Shelf(device(fault))),
        },
    }
}
