//! Why a call on a folder was refused.

use std::alloc::{AllocError, AllocFailed};
use thiserror::Error;

/// Why a call on a folder was refused.
#[derive(Clone, Copy, Debug, Drop, Error, PartialEq, Eq)]
pub enum FolderFault {
    /// A growth was refused.
    #[error("OutOfMemory")]
    OutOfMemory,
    /// The device failed, or the file is larger than what may be read whole.
    #[error("Failed")]
    Failed,
    /// No file has this name.
    #[error("Missing")]
    Missing,
    /// A file has this name already.
    #[error("Exists")]
    Exists,
}

impl From<AllocError> for FolderFault {
    ghost use Rattle.std.specs.Prelude.{◌≡◌};
    ghost use Rattle.lsm_folder.specs.declared.folder_fault.FolderFault.TheVariants.{OutOfMemory};

    ghost from_gives = { λ _ e. e ≡ OutOfMemory };

    fn from(_: AllocError) -> FolderFault {
        FolderFault::OutOfMemory
    }
}

impl<T: Drop> From<AllocFailed<T>> for FolderFault {
    ghost use Rattle.std.specs.Prelude.{◌≡◌};
    ghost use Rattle.lsm_folder.specs.declared.folder_fault.FolderFault.TheVariants.{OutOfMemory};

    ghost from_gives = { λ _ e. e ≡ OutOfMemory };

    fn from(_: AllocFailed<T>) -> FolderFault {
        FolderFault::OutOfMemory
    }
}
