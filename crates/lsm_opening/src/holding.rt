//! A shelf on a folder of which the lock is held.

ghost use Rattle.std.specs.Prelude.{◌≡◌, IfErr, IfOk, List, OnOk};
ghost use Rattle.lsm_folder.specs.Calls.{Call};
ghost use Rattle.lsm_opening.specs.Tidying.{IsHeldTidy, IsUntidy};
ghost use Rattle.lsm_shelf.specs.Told.{fresh};
ghost use Rattle.lsm_storage.specs.FileShelf.{file_told, folder_of};

use crate::tidying::tidy;
use lsm_directory::{DirectoryFault, hold};
use lsm_folder::{FolderCalls, LockKind};
use lsm_storage::FileShelf;
use std::sync::Wait;

/// Takes the lock of a folder, and removes what the last openings left behind, as `prepare` does
/// where a database is there.
fn hold_and_tidy<C: FolderCalls, R: Wait>(rt: &R, folder: &mut C) -> Result<(), DirectoryFault>
    ensures held { OnOk result (IsHeldTidy (C.calls folder.old) (C.calls folder.new)) }
    ensures refused { IfErr result (λ e.
        IsUntidy e (C.calls folder.old) (C.calls folder.new)) }
    ensures place { C.place folder.new ≡ C.place folder.old }
{
    hold(rt, folder, LockKind::Exclusive)?;
    let alloc = folder.alloc();
    match tidy(rt, alloc, folder) {
        Ok(()) => Ok(()),
        Err(fault) => Err(DirectoryFault::Shelf(fault)),
    }
}

/// A shelf on a folder of which the lock is held, exclusively. What the last openings of its
/// database left behind is removed, as by `prepare`.
///
/// `Locked` where another program has the folder open; the refusals of taking the lock and of
/// looking at the names, after which the folder's files are as they were, but for the lock's.
pub fn held_shelf<C: FolderCalls, R: Wait>(
    rt: &R,
    folder: C,
) -> Result<FileShelf<C>, DirectoryFault>
    ensures held { IfOk result (λ s. IsHeldTidy (C.calls folder) (C.calls (folder_of s))) }
    ensures fresh { IfOk result (λ s. file_told C.place s ≡ fresh (C.place folder)) }
    ensures refused { IfErr result (λ e.
        (after : List Call) × IsUntidy e (C.calls folder) after) }
{
    let mut folder = folder;
    match hold_and_tidy(rt, &mut folder) {
        Ok(()) => Ok(FileShelf::over(folder)),
        Err(fault) => Err(fault),
    }
}
