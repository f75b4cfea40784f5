//! Why a database could not be opened.

ghost use Rattle.std.specs.Prelude.{◌≡◌};
ghost use Rattle.lsm_journal.specs.OpenFault.{name_of, number_of};

use crate::recover_fault::RecoverFault;
use lsm_table::ShelfFault;
use lsm_verify::CheckFault;
use std::alloc::{AllocError, AllocFailed};
use thiserror::Error;

/// Why a database could not be opened. Each of them but the last may stand for a growth that was
/// refused.
#[derive(Debug, Drop, Error)]
pub enum OpenFault {
    /// A growth was refused.
    #[error("OutOfMemory")]
    OutOfMemory,
    /// The shelf did not list its tables, or refused the new manifest.
    #[error("{0}")]
    Shelf(ShelfFault),
    /// The manifest could not be read.
    #[error("{0}")]
    Recover(RecoverFault),
    /// The tables that the manifest names are no version.
    #[error("{0}")]
    Check(CheckFault),
    /// A table that is listed, or of the version, or the manifest has the number 2^64 - 1, or no
    /// number is left for a new manifest.
    #[error("NumbersSpent")]
    NumbersSpent,
}

impl OpenFault {
    /// The number of the refusal in docs/FORMATS.md.
    pub fn number(&self) -> u8
        ensures { result ≡ number_of self.now }
    {
        match self {
            OpenFault::OutOfMemory => 1,
            OpenFault::Shelf(fault) => fault.number(),
            OpenFault::Recover(fault) => fault.number(),
            OpenFault::Check(fault) => fault.number(),
            OpenFault::NumbersSpent => 46,
        }
    }

    /// The name of the refusal in docs/FORMATS.md, without its fields.
    pub fn name(&self) -> &'static str
        ensures { result.now ≡ name_of self.now }
    {
        match self {
            OpenFault::OutOfMemory => "OutOfMemory",
            OpenFault::Shelf(fault) => fault.name(),
            OpenFault::Recover(fault) => fault.name(),
            OpenFault::Check(fault) => fault.name(),
            OpenFault::NumbersSpent => "NumbersSpent",
        }
    }
}

impl From<AllocError> for OpenFault {
    ghost use Rattle.lsm_journal.specs.declared.open_fault.OpenFault.TheVariants.{OutOfMemory};

    ghost from_gives = { λ _ e. e ≡ OutOfMemory };

    fn from(_: AllocError) -> OpenFault {
        OpenFault::OutOfMemory
    }
}

impl<T: Drop> From<AllocFailed<T>> for OpenFault {
    ghost use Rattle.lsm_journal.specs.declared.open_fault.OpenFault.TheVariants.{OutOfMemory};

    ghost from_gives = { λ _ e. e ≡ OutOfMemory };

    fn from(_: AllocFailed<T>) -> OpenFault {
        OpenFault::OutOfMemory
    }
}

impl From<ShelfFault> for OpenFault {
    ghost use Rattle.lsm_journal.specs.declared.open_fault.OpenFault.TheVariants.{Shelf};

    ghost from_gives = { λ fault e. e ≡ Shelf fault };

    fn from(fault: ShelfFault) -> OpenFault {
        OpenFault::Shelf(fault)
    }
}

impl From<RecoverFault> for OpenFault {
    ghost use Rattle.lsm_journal.specs.declared.open_fault.OpenFault.TheVariants.{Recover};

    ghost from_gives = { λ fault e. e ≡ Recover fault };

    fn from(fault: RecoverFault) -> OpenFault {
        OpenFault::Recover(fault)
    }
}

impl From<CheckFault> for OpenFault {
    ghost use Rattle.lsm_journal.specs.declared.open_fault.OpenFault.TheVariants.{Check};

    ghost from_gives = { λ fault e. e ≡ Check fault };

    fn from(fault: CheckFault) -> OpenFault {
        OpenFault::Check(fault)
    }
}
