//! What a refusal of a folder means to a shelf.

ghost use Rattle.std.specs.Prelude.{◌≡◌};
ghost use Rattle.lsm_storage.specs.FolderFault.{device_of, missing_of, taken_of};

use lsm_folder::FolderFault;
use lsm_shelf::ShelfFault;

/// A refusal of a call that needs no name.
pub(crate) fn device(fault: FolderFault) -> ShelfFault
    ensures { result ≡ device_of fault }
{
    match fault {
        FolderFault::OutOfMemory => ShelfFault::OutOfMemory,
        FolderFault::Failed | FolderFault::Missing | FolderFault::Exists => ShelfFault::Device,
    }
}

/// A refusal of a call on a file that must be there.
pub(crate) fn missing(fault: FolderFault) -> ShelfFault
    ensures { result ≡ missing_of fault }
{
    match fault {
        FolderFault::OutOfMemory => ShelfFault::OutOfMemory,
        FolderFault::Missing => ShelfFault::Missing,
        FolderFault::Failed | FolderFault::Exists => ShelfFault::Device,
    }
}

/// A refusal of a call that makes the file of this number.
pub(crate) fn taken(fault: FolderFault, number: u64) -> ShelfFault
    ensures { result ≡ taken_of number fault }
{
    match fault {
        FolderFault::OutOfMemory => ShelfFault::OutOfMemory,
        FolderFault::Exists => ShelfFault::Taken(number),
        FolderFault::Failed | FolderFault::Missing => ShelfFault::Device,
    }
}
