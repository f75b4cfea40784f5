//! What a refusal of the system means to a folder.

ghost use Rattle.std.specs.Prelude.{◌≡◌, ◌≢◌, ◌↔◌};
ghost use Rattle.lsm_folder.specs.FolderFault.{NotMissing, NotExists, NotNamed};
ghost use Rattle.std.specs.IoError.{error_kind};
ghost use Rattle.lsm_folder.specs.SystemFault.{fault_kind};
ghost use Rattle.lsm_folder.specs.declared.system_fault.SystemFault.TheVariants.{Unacted, Acted};

use crate::folder_fault::FolderFault;
use std::alloc::AllocError;
use std::io::{self, ErrorKind};

/// A refusal of the system.
#[derive(Clone, Copy, Drop)]
pub enum SystemFault {
    /// Nothing was made, written, renamed or removed.
    Unacted(io::Error),
    /// A part of it may have been.
    Acted(io::Error),
}

impl SystemFault {
    /// A refusal of a call that acts. One for want of memory does not say that it did not.
    pub(crate) fn asked(error: io::Error) -> SystemFault
        ensures never { fault_kind result ≢ ErrorKind.OutOfMemory }
        ensures acted { error_kind error ≡ ErrorKind.OutOfMemory → result ≡ Acted error }
        ensures unacted { error_kind error ≢ ErrorKind.OutOfMemory → result ≡ Unacted error }
    {
        match error.kind() {
            ErrorKind::OutOfMemory => SystemFault::Acted(error),
            _ => SystemFault::Unacted(error),
        }
    }

    /// What the system answered.
    pub(crate) fn error(self) -> io::Error {
        match self {
            SystemFault::Unacted(error) | SystemFault::Acted(error) => error,
        }
    }

    /// Why the call did not act; `Other` where it may have.
    fn kind(self) -> ErrorKind
        ensures { result ≡ fault_kind self }
    {
        match self {
            SystemFault::Unacted(error) => error.kind(),
            SystemFault::Acted(_) => ErrorKind::Other,
        }
    }

    /// A refusal of a call that needs no name.
    pub(crate) fn failed(self) -> FolderFault
        ensures fault { NotNamed result }
        ensures memory { (result ≡ FolderFault.OutOfMemory)
            ↔ (fault_kind self ≡ ErrorKind.OutOfMemory) }
    {
        match self.kind() {
            ErrorKind::OutOfMemory => FolderFault::OutOfMemory,
            _ => FolderFault::Failed,
        }
    }

    /// A refusal of a call on a file that must be there.
    pub(crate) fn missing(self) -> FolderFault
        ensures fault { NotExists result }
        ensures memory { (result ≡ FolderFault.OutOfMemory)
            ↔ (fault_kind self ≡ ErrorKind.OutOfMemory) }
        ensures missing { (result ≡ FolderFault.Missing) ↔ (fault_kind self ≡ ErrorKind.NotFound) }
    {
        match self.kind() {
            ErrorKind::NotFound => FolderFault::Missing,
            ErrorKind::OutOfMemory => FolderFault::OutOfMemory,
            _ => FolderFault::Failed,
        }
    }

    /// A refusal of a call that makes a file.
    pub(crate) fn exists(self) -> FolderFault
        ensures fault { NotMissing result }
        ensures memory { (result ≡ FolderFault.OutOfMemory)
            ↔ (fault_kind self ≡ ErrorKind.OutOfMemory) }
        ensures exists { (result ≡ FolderFault.Exists)
            ↔ (fault_kind self ≡ ErrorKind.AlreadyExists) }
    {
        match self.kind() {
            ErrorKind::AlreadyExists => FolderFault::Exists,
            ErrorKind::OutOfMemory => FolderFault::OutOfMemory,
            _ => FolderFault::Failed,
        }
    }
}

impl From<io::Error> for SystemFault {
    ghost use Rattle.lsm_folder.specs.declared.system_fault.SystemFault.TheVariants.{Unacted};

    ghost from_gives = { λ error f. f ≡ Unacted error };

    fn from(error: io::Error) -> SystemFault {
        SystemFault::Unacted(error)
    }
}

impl From<AllocError> for SystemFault {
    ghost use Rattle.std.specs.declared.io.ErrorKind.TheVariants.{OutOfMemory};
    ghost use Rattle.lsm_folder.specs.SystemFault.{fault_kind};

    ghost from_gives = { λ _ f. fault_kind f ≡ OutOfMemory };

    fn from(error: AllocError) -> SystemFault {
        SystemFault::Unacted(io::Error::from(error))
    }
}
