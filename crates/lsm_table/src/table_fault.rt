//! Why bytes are no table.

ghost use Rattle.std.specs.Prelude.{◌≡◌};
ghost use Rattle.lsm_table.specs.declared.table_fault.TableFault.TheVariants.{OutOfMemory};
ghost use Rattle.lsm_table.specs.Fault.{number_of, name_of, of_block};

use lsm_block::BlockFault;
use std::alloc::{AllocError, AllocFailed};
use thiserror::Error;

/// Why a table could not be read. The offset of `BadChecksum` counts bytes from the start of the
/// file, those of `BadEntry` and `OutOfOrder` from the start of their block.
#[derive(Clone, Copy, Debug, Drop, Error, PartialEq, Eq)]
pub enum TableFault {
    /// A growth of memory was refused.
    #[error("OutOfMemory")]
    OutOfMemory,
    /// The restarts of a block are wrong.
    #[error("BadRestarts")]
    BadRestarts,
    /// An entry of a block cannot be read, or its key is no internal key.
    #[error("BadEntry {0}")]
    BadEntry(u64),
    /// A key of a block is not greater than the one before it.
    #[error("OutOfOrder {0}")]
    OutOfOrder(u64),
    /// The file has fewer than 48 bytes.
    #[error("ShortFile")]
    ShortFile,
    /// The last eight bytes are not those of a table.
    #[error("BadMagic")]
    BadMagic,
    /// A handle of the footer cannot be decoded, or a block lies outside the part before the
    /// footer.
    #[error("BadHandle")]
    BadHandle,
    /// The checksum of the block at this offset is wrong.
    #[error("BadChecksum {0}")]
    BadChecksum(u64),
    /// A block is compressed: type 1 (Snappy) or 2 (Zstandard).
    #[error("Compressed {0}")]
    Compressed(u8),
    /// A block has a type above 2.
    #[error("BadBlockType {0}")]
    BadBlockType(u8),
    /// The value of an index entry is not one handle, a data block has no entry, or its keys do not
    /// lie between the index keys.
    #[error("BadIndex")]
    BadIndex,
}

impl TableFault {
    /// The number of the refusal in docs/FORMATS.md.
    pub fn number(&self) -> u8
        ensures { result ≡ number_of self.now }
    {
        match self {
            TableFault::OutOfMemory => 1,
            TableFault::BadRestarts => 6,
            TableFault::BadEntry(_) => 7,
            TableFault::OutOfOrder(_) => 8,
            TableFault::ShortFile => 12,
            TableFault::BadMagic => 13,
            TableFault::BadHandle => 14,
            TableFault::BadChecksum(_) => 15,
            TableFault::Compressed(_) => 16,
            TableFault::BadBlockType(_) => 17,
            TableFault::BadIndex => 18,
        }
    }

    /// The name of the refusal in docs/FORMATS.md, without its fields.
    pub fn name(&self) -> &'static str
        ensures { result.now ≡ name_of self.now }
    {
        match self {
            TableFault::OutOfMemory => "OutOfMemory",
            TableFault::BadRestarts => "BadRestarts",
            TableFault::BadEntry(_) => "BadEntry",
            TableFault::OutOfOrder(_) => "OutOfOrder",
            TableFault::ShortFile => "ShortFile",
            TableFault::BadMagic => "BadMagic",
            TableFault::BadHandle => "BadHandle",
            TableFault::BadChecksum(_) => "BadChecksum",
            TableFault::Compressed(_) => "Compressed",
            TableFault::BadBlockType(_) => "BadBlockType",
            TableFault::BadIndex => "BadIndex",
        }
    }
}

impl From<BlockFault> for TableFault {
    ghost from_gives = { λ fault e. e ≡ of_block fault };

    fn from(fault: BlockFault) -> TableFault {
        match fault {
            BlockFault::OutOfMemory => TableFault::OutOfMemory,
            BlockFault::BadRestarts => TableFault::BadRestarts,
            BlockFault::BadEntry(offset) => TableFault::BadEntry(offset),
            BlockFault::OutOfOrder(offset) => TableFault::OutOfOrder(offset),
        }
    }
}

impl From<AllocError> for TableFault {
    ghost from_gives = { λ _ e. e ≡ OutOfMemory };

    fn from(_error: AllocError) -> TableFault {
        TableFault::OutOfMemory
    }
}

impl<T: Drop> From<AllocFailed<T>> for TableFault {
    ghost from_gives = { λ _ e. e ≡ OutOfMemory };

    fn from(_error: AllocFailed<T>) -> TableFault {
        TableFault::OutOfMemory
    }
}
