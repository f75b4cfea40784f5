//! What is wrong with an edit.

ghost use Rattle.std.specs.Prelude.{◌≡◌, codes};
ghost use Rattle.lsm_manifest.specs.EditFault.{number_of, name_of};
ghost use Rattle.lsm_manifest.specs.declared.edit_fault.EditFault.TheVariants.{OutOfMemory};

use std::alloc::{AllocError, AllocFailed};
use thiserror::Error;

/// Why an edit could not be read. The first fault from the front is named.
#[derive(Clone, Copy, Debug, Drop, Error, PartialEq, Eq)]
pub enum EditFault {
    /// A growth was refused.
    #[error("OutOfMemory")]
    OutOfMemory,
    /// A tag that no field has.
    #[error("UnknownTag {0}")]
    UnknownTag(u32),
    /// A level of 7 or more.
    #[error("BadLevel {0}")]
    BadLevel(u32),
    /// A field's numbers or bytes run out or are too big.
    #[error("EditCut")]
    EditCut,
    /// A key of a compaction pointer or of a new file that is no internal key.
    #[error("BadEditKey")]
    BadEditKey,
}

impl EditFault {
    /// The number of the refusal in docs/FORMATS.md.
    pub fn number(&self) -> u8
        ensures { result ≡ number_of self.now }
    {
        match self {
            EditFault::OutOfMemory => 1,
            EditFault::UnknownTag(_) => 22,
            EditFault::BadLevel(_) => 23,
            EditFault::EditCut => 24,
            EditFault::BadEditKey => 25,
        }
    }

    /// The name of the refusal in docs/FORMATS.md.
    pub fn name(&self) -> &'static str
        ensures { result.now ≡ name_of self.now }
    {
        match self {
            EditFault::OutOfMemory => "OutOfMemory",
            EditFault::UnknownTag(_) => "UnknownTag",
            EditFault::BadLevel(_) => "BadLevel",
            EditFault::EditCut => "EditCut",
            EditFault::BadEditKey => "BadEditKey",
        }
    }
}

impl From<AllocError> for EditFault {
    ghost from_gives = { λ _ e. e ≡ OutOfMemory };

    fn from(_e: AllocError) -> EditFault {
        EditFault::OutOfMemory
    }
}

impl<T: Drop> From<AllocFailed<T>> for EditFault {
    ghost from_gives = { λ _ e. e ≡ OutOfMemory };

    fn from(_e: AllocFailed<T>) -> EditFault {
        EditFault::OutOfMemory
    }
}
