//! Why a shelf refused.

ghost use Rattle.std.specs.Prelude.{◌≡◌};
ghost use Rattle.lsm_shelf.specs.ShelfFault.{number_of, name_of};

use std::alloc::{AllocError, AllocFailed};
use thiserror::Error;

/// Why a shelf refused.
#[derive(Clone, Copy, Debug, Drop, Error, PartialEq, Eq)]
pub enum ShelfFault {
    /// A growth was refused.
    #[error("OutOfMemory")]
    OutOfMemory,
    /// The shelf failed in this call.
    #[error("Device")]
    Device,
    /// The table, the manifest or a well-formed `CURRENT` is not there.
    #[error("Missing")]
    Missing,
    /// A table or a manifest of this number is there already.
    #[error("Taken {0}")]
    Taken(u64),
}

impl ShelfFault {
    /// The number of the refusal in docs/FORMATS.md.
    pub fn number(&self) -> u8
        ensures { result ≡ number_of self.now }
    {
        match self {
            ShelfFault::OutOfMemory => 1,
            ShelfFault::Device => 9,
            ShelfFault::Missing => 10,
            ShelfFault::Taken(_) => 11,
        }
    }

    /// The name of the refusal in docs/FORMATS.md, without its fields.
    pub fn name(&self) -> &'static str
        ensures { result.now ≡ name_of self.now }
    {
        match self {
            ShelfFault::OutOfMemory => "OutOfMemory",
            ShelfFault::Device => "Device",
            ShelfFault::Missing => "Missing",
            ShelfFault::Taken(_) => "Taken",
        }
    }
}

impl From<AllocError> for ShelfFault {
    ghost use Rattle.std.specs.Prelude.{◌≡◌};
    ghost use Rattle.lsm_shelf.specs.declared.shelf_fault.ShelfFault.TheVariants.{OutOfMemory};

    ghost from_gives = { λ _ e. e ≡ OutOfMemory };

    fn from(_: AllocError) -> ShelfFault {
        ShelfFault::OutOfMemory
    }
}

impl<T: Drop> From<AllocFailed<T>> for ShelfFault {
    ghost use Rattle.std.specs.Prelude.{◌≡◌};
    ghost use Rattle.lsm_shelf.specs.declared.shelf_fault.ShelfFault.TheVariants.{OutOfMemory};

    ghost from_gives = { λ _ e. e ≡ OutOfMemory };

    fn from(_: AllocFailed<T>) -> ShelfFault {
        ShelfFault::OutOfMemory
    }
}
