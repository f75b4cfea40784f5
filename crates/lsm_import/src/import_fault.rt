//! Why a copy is not made.

ghost use Rattle.std.specs.Prelude.{◌≡◌};
ghost use Rattle.lsm_import.specs.ImportFault.{name_of, number_of};
ghost use Rattle.lsm_import.specs.declared.import_fault.ImportFault.TheVariants.{OutOfMemory};
ghost use Rattle.lsm_import.specs.declared.import_fault.ImportFault.TheVariants.{TooLarge};
ghost use Rattle.lsm_block.specs.declared.build_fault.BuildFault.TheVariants as build;

use lsm_inflate::InflateFault;
use lsm_manifest::ReplayFault;
use lsm_table::{BuildFault, ShelfFault};
use std::alloc::{AllocError, AllocFailed};
use thiserror::Error;

/// Why a copy is not made.
#[derive(Clone, Copy, Debug, Drop, Error, PartialEq, Eq)]
pub enum ImportFault {
    /// A growth was refused.
    #[error("OutOfMemory")]
    OutOfMemory,
    /// The source did not give its table of this number.
    #[error("{1}")]
    Unread(u64, ShelfFault),
    /// The table of this number is none that can be made plain.
    #[error("{1}")]
    Packed(u64, InflateFault),
    /// The table of this number has no entry, or another first or last key than the manifest says.
    #[error("WrongRange {0}")]
    WrongRange(u64),
    /// The target did not take a table or the manifest.
    #[error("{0}")]
    Unwritten(ShelfFault),
    /// A key, or a block of the table of the logs, would pass 2^32 - 1 bytes.
    #[error("TooLarge")]
    TooLarge,
    /// No sequences are left for the writes of the logs.
    #[error("SequencesSpent")]
    SequencesSpent,
    /// No file number is left.
    #[error("NumbersSpent")]
    NumbersSpent,
    /// The edit of the copy comes to no shape: two of its files have one number.
    #[error("{0}")]
    Replay(ReplayFault),
}

impl ImportFault {
    /// The number of the refusal in docs/FORMATS.md.
    pub fn number(&self) -> u8
        ensures { result ≡ number_of self.now }
    {
        match self {
            ImportFault::OutOfMemory => 1,
            ImportFault::Unread(_, fault) => fault.number(),
            ImportFault::Packed(_, fault) => fault.number(),
            ImportFault::WrongRange(_) => 32,
            ImportFault::Unwritten(fault) => fault.number(),
            ImportFault::TooLarge => 39,
            ImportFault::SequencesSpent => 41,
            ImportFault::NumbersSpent => 46,
            ImportFault::Replay(fault) => fault.number(),
        }
    }

    /// The name of the refusal in docs/FORMATS.md, without its fields.
    pub fn name(&self) -> &'static str
        ensures { result.now ≡ name_of self.now }
    {
        match self {
            ImportFault::OutOfMemory => "OutOfMemory",
            ImportFault::Unread(_, fault) => fault.name(),
            ImportFault::Packed(_, fault) => fault.name(),
            ImportFault::WrongRange(_) => "WrongRange",
            ImportFault::Unwritten(fault) => fault.name(),
            ImportFault::TooLarge => "TooLarge",
            ImportFault::SequencesSpent => "SequencesSpent",
            ImportFault::NumbersSpent => "NumbersSpent",
            ImportFault::Replay(fault) => fault.name(),
        }
    }

    // A fault of the table of the logs.
    pub(crate) fn of_build(fault: BuildFault) -> ImportFault
        ensures large { fault ≡ build.TooLarge → result ≡ TooLarge }
        ensures memory { fault ≡ build.OutOfMemory → result ≡ OutOfMemory }
    {
        match fault {
            BuildFault::OutOfMemory => ImportFault::OutOfMemory,
            BuildFault::TooLarge => ImportFault::TooLarge,
        }
    }
}

impl From<AllocError> for ImportFault {
    ghost from_gives = { λ _ e. e ≡ OutOfMemory };

    fn from(_error: AllocError) -> ImportFault {
        ImportFault::OutOfMemory
    }
}

impl<T: Drop> From<AllocFailed<T>> for ImportFault {
    ghost from_gives = { λ _ e. e ≡ OutOfMemory };

    fn from(_error: AllocFailed<T>) -> ImportFault {
        ImportFault::OutOfMemory
    }
}
