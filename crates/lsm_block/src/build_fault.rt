//! Why a block could not be built.

ghost use Rattle.std.specs.Prelude.{◌≡◌};
ghost use Rattle.lsm_block.specs.declared.build_fault.BuildFault.TheVariants.{OutOfMemory};

use std::alloc::AllocError;
use thiserror::Error;

/// Why an entry could not be added to a block.
#[derive(Clone, Copy, Debug, Drop, Error, PartialEq, Eq)]
pub enum BuildFault {
    /// A growth was refused.
    #[error("OutOfMemory")]
    OutOfMemory,
    /// The block would have more than 2^32 - 1 bytes.
    #[error("TooLarge")]
    TooLarge,
}

impl BuildFault {
    ghost use Rattle.lsm_block.specs.BuildFault.{number_of, name_of};

    /// The number of the refusal in docs/FORMATS.md.
    pub fn number(&self) -> u8
        ensures { result ≡ number_of self.now }
    {
        match self {
            BuildFault::OutOfMemory => 1,
            BuildFault::TooLarge => 39,
        }
    }

    /// The name of the refusal in docs/FORMATS.md.
    pub fn name(&self) -> &'static str
        ensures { result.now ≡ name_of self.now }
    {
        match self {
            BuildFault::OutOfMemory => "OutOfMemory",
            BuildFault::TooLarge => "TooLarge",
        }
    }
}

impl From<AllocError> for BuildFault {
    ghost from_gives = { λ _ e. e ≡ OutOfMemory };

    fn from(_e: AllocError) -> BuildFault {
        BuildFault::OutOfMemory
    }
}
