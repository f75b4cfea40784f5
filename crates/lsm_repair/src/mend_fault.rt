//! Why a database is not repaired.

ghost use Rattle.std.specs.Prelude.{◌≡◌};
ghost use Rattle.lsm_block.specs.declared.build_fault.BuildFault.TheVariants as build;
ghost use Rattle.lsm_repair.specs.MendFault.{name_of, number_of};
ghost use Rattle.lsm_repair.specs.declared.mend_fault.MendFault.TheVariants.{OutOfMemory, TooLarge};

use lsm_table::{BuildFault, ShelfFault};
use std::alloc::{AllocError, AllocFailed};
use thiserror::Error;

/// Why a database is not repaired.
#[derive(Clone, Copy, Debug, Drop, Error, PartialEq, Eq)]
pub enum MendFault {
    /// A growth of memory was refused.
    #[error("OutOfMemory")]
    OutOfMemory,
    /// The manifest that is to be replaced is there, and was not read.
    #[error("{0}")]
    UnreadManifest(ShelfFault),
    /// It names a comparator other than `leveldb.BytewiseComparator`.
    #[error("OtherComparator")]
    OtherComparator,
    /// The names in the folder, or its tables, were not listed.
    #[error("{0}")]
    Unlisted(ShelfFault),
    /// No file number is left for a table and a manifest.
    #[error("NumbersSpent")]
    NumbersSpent,
    /// The table of this number was not read.
    #[error("{1}")]
    Unread(u64, ShelfFault),
    /// No table that is whole has an entry.
    #[error("NothingWhole")]
    NothingWhole,
    /// The whole tables of these numbers have two values of one internal key.
    #[error("TwoValues {0} {1}")]
    TwoValues(u64, u64),
    /// A key, or a block of the new table, would pass 2^32 - 1 bytes.
    #[error("TooLarge")]
    TooLarge,
    /// The new table or the manifest was not written.
    #[error("{0}")]
    Unwritten(ShelfFault),
}

impl MendFault {
    /// The number of the refusal in docs/FORMATS.md.
    pub fn number(&self) -> u8
        ensures { result ≡ number_of self.now }
    {
        match self {
            MendFault::OutOfMemory => 1,
            MendFault::UnreadManifest(fault)
            | MendFault::Unlisted(fault)
            | MendFault::Unread(_, fault)
            | MendFault::Unwritten(fault) => fault.number(),
            MendFault::OtherComparator => 29,
            MendFault::NumbersSpent => 46,
            MendFault::NothingWhole => 64,
            MendFault::TwoValues(_, _) => 65,
            MendFault::TooLarge => 39,
        }
    }

    /// The name of the refusal in docs/FORMATS.md, without its fields.
    pub fn name(&self) -> &'static str
        ensures { result.now ≡ name_of self.now }
    {
        match self {
            MendFault::OutOfMemory => "OutOfMemory",
            MendFault::UnreadManifest(fault)
            | MendFault::Unlisted(fault)
            | MendFault::Unread(_, fault)
            | MendFault::Unwritten(fault) => fault.name(),
            MendFault::OtherComparator => "OtherComparator",
            MendFault::NumbersSpent => "NumbersSpent",
            MendFault::NothingWhole => "NothingWhole",
            MendFault::TwoValues(_, _) => "TwoValues",
            MendFault::TooLarge => "TooLarge",
        }
    }

    /// The refusal of a builder.
    pub(crate) fn of_build(fault: BuildFault) -> MendFault
        ensures large { fault ≡ build.TooLarge → result ≡ TooLarge }
        ensures memory { fault ≡ build.OutOfMemory → result ≡ OutOfMemory }
    {
        match fault {
            BuildFault::OutOfMemory => MendFault::OutOfMemory,
            BuildFault::TooLarge => MendFault::TooLarge,
        }
    }
}

impl From<AllocError> for MendFault {
    ghost from_gives = { λ _ e. e ≡ OutOfMemory };

    fn from(_error: AllocError) -> MendFault {
        MendFault::OutOfMemory
    }
}

impl<T: Drop> From<AllocFailed<T>> for MendFault {
    ghost from_gives = { λ _ e. e ≡ OutOfMemory };

    fn from(_error: AllocFailed<T>) -> MendFault {
        MendFault::OutOfMemory
    }
}
