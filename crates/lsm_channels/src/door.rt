//! The way to the folder of an opening.

ghost use Rattle.std.specs.Prelude.{◌≡◌};
ghost use Rattle.lsm_storage.specs.FolderFault.{device_of};

use lsm_folder::{FolderCalls, FolderFault, Reasons};
use lsm_table::ShelfFault;
use std::alloc::Global;

/// The one way to a folder that a run of the server has. To open a folder uses it up, so a run that
/// has one door opens no second folder, and where the door is left it opened none.
pub trait Door<C: FolderCalls>: Drop {
    ghost use Rattle.std.specs.Prelude.{◌≡◌, ◌∷◌, [], ℕ, List, IfErr, IfOk};
    ghost use Rattle.lsm_folder.specs.Calls.{opened};
    ghost use Rattle.lsm_folder.specs.declared.folder_fault.FolderFault.{FolderFault};
    ghost use Rattle.lsm_shelf.specs.Place.{IsAtPath};

    /// The folder of this path was refused with this fault. What holds of a run holds for each
    /// choice of it, so a run learns of it by `open` alone.
    ghost refuses: { List ℕ → FolderFault → Type 0 };

    /// What gives memory.
    fn alloc(&self) -> Global;

    /// Opens the folder of a path. What is answered where it refuses a call is kept in `reasons`.
    fn open(self, path: &str, reasons: &Reasons) -> Result<C, FolderFault>
        ensures calls { IfOk result (λ f. C.calls f ≡ opened ∷ []) }
        ensures place { IfOk result (λ f. IsAtPath path.now (C.place f)) }
        ensures refused { IfErr result (refuses path.now) };
}

/// What it means that a folder was refused.
pub(crate) fn device(fault: FolderFault) -> ShelfFault
    ensures { result ≡ device_of fault }
{
    match fault {
        FolderFault::OutOfMemory => ShelfFault::OutOfMemory,
        FolderFault::Failed | FolderFault::Missing | FolderFault::Exists => ShelfFault::Device,
    }
}
