//! What is wrong with a block.

ghost use Rattle.std.specs.Prelude.{◌≡◌};
ghost use Rattle.lsm_block.specs.declared.fault.BlockFault.TheVariants.{OutOfMemory};

use std::alloc::AllocError;
use thiserror::Error;

/// Why bytes could not be read as a block. Offsets are in bytes, from the start of the block.
#[derive(Clone, Copy, Debug, Drop, Error, PartialEq, Eq)]
pub enum BlockFault {
    /// A growth was refused.
    #[error("OutOfMemory")]
    OutOfMemory,
    /// Fewer than four bytes, a number of restarts that is 0 or does not fit, or restart offsets
    /// that do not begin at 0, do not rise strictly, or do not each name the start of an entry that
    /// shares nothing.
    #[error("BadRestarts")]
    BadRestarts,
    /// An entry's numbers or bytes run out or are too big, it shares more than the key before it
    /// has, or its key is no internal key.
    #[error("BadEntry {0}")]
    BadEntry(u64),
    /// A key is not greater than the one before it.
    #[error("OutOfOrder {0}")]
    OutOfOrder(u64),
}

impl BlockFault {
    ghost use Rattle.lsm_block.specs.Fault.{number_of, name_of};

    /// The number of the refusal in docs/FORMATS.md.
    pub fn number(&self) -> u8
        ensures { result ≡ number_of self.now }
    {
        match self {
            BlockFault::OutOfMemory => 1,
            BlockFault::BadRestarts => 6,
            BlockFault::BadEntry(_) => 7,
            BlockFault::OutOfOrder(_) => 8,
        }
    }

    /// The name of the refusal in docs/FORMATS.md. The offset is not in it; `Display` adds it.
    pub fn name(&self) -> &'static str
        ensures { result.now ≡ name_of self.now }
    {
        match self {
            BlockFault::OutOfMemory => "OutOfMemory",
            BlockFault::BadRestarts => "BadRestarts",
            BlockFault::BadEntry(_) => "BadEntry",
            BlockFault::OutOfOrder(_) => "OutOfOrder",
        }
    }
}

impl From<AllocError> for BlockFault {
    ghost from_gives = { λ _ e. e ≡ OutOfMemory };

    fn from(_e: AllocError) -> BlockFault {
        BlockFault::OutOfMemory
    }
}
