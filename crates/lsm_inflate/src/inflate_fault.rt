//! Why a file is not made a plain table.

ghost use Rattle.std.specs.Prelude.{◌≡◌};
ghost use Rattle.lsm_inflate.specs.Fault.{number_of, name_of, of_block, of_build};
ghost use Rattle.lsm_inflate.specs.declared.inflate_fault.InflateFault.TheVariants.{Table};
ghost use Rattle.lsm_table.specs.declared.table_fault.TableFault.TheVariants.{OutOfMemory};

use lsm_block::{BlockFault, BuildFault};
use lsm_snappy::SnappyCause;
use lsm_table::TableFault;
use std::alloc::{AllocError, AllocFailed};
use thiserror::Error;

/// Why a file is not made a plain table.
#[derive(Clone, Copy, Debug, Drop, Error, PartialEq, Eq)]
pub enum InflateFault {
    /// A fault that a table without compression has too, or memory ran out.
    #[error("{0}")]
    Table(TableFault),
    /// The block at this offset of the file is Snappy's by its type, and its bytes are not.
    #[error("BadSnappy {0} {1}")]
    BadSnappy(u64, SnappyCause),
    /// A block of the plain table would pass 2^32 - 1 bytes.
    #[error("TooLarge")]
    TooLarge,
}

impl InflateFault {
    /// The number of the refusal in docs/FORMATS.md.
    pub fn number(&self) -> u8
        ensures { result ≡ number_of self.now }
    {
        match self {
            InflateFault::Table(fault) => fault.number(),
            InflateFault::BadSnappy(_, _) => 60,
            InflateFault::TooLarge => 39,
        }
    }

    /// The name of the refusal in docs/FORMATS.md, without its fields.
    pub fn name(&self) -> &'static str
        ensures { result.now ≡ name_of self.now }
    {
        match self {
            InflateFault::Table(fault) => fault.name(),
            InflateFault::BadSnappy(_, _) => "BadSnappy",
            InflateFault::TooLarge => "TooLarge",
        }
    }
}

impl From<TableFault> for InflateFault {
    ghost from_gives = { λ fault e. e ≡ Table fault };

    fn from(fault: TableFault) -> InflateFault {
        InflateFault::Table(fault)
    }
}

impl From<BlockFault> for InflateFault {
    ghost from_gives = { λ fault e. e ≡ Table (of_block fault) };

    fn from(fault: BlockFault) -> InflateFault {
        InflateFault::Table(TableFault::from(fault))
    }
}

impl From<BuildFault> for InflateFault {
    ghost from_gives = { λ fault e. e ≡ of_build fault };

    fn from(fault: BuildFault) -> InflateFault {
        match fault {
            BuildFault::OutOfMemory => InflateFault::Table(TableFault::OutOfMemory),
            BuildFault::TooLarge => InflateFault::TooLarge,
        }
    }
}

impl From<AllocError> for InflateFault {
    ghost from_gives = { λ _ e. e ≡ Table OutOfMemory };

    fn from(_error: AllocError) -> InflateFault {
        InflateFault::Table(TableFault::OutOfMemory)
    }
}

impl<T: Drop> From<AllocFailed<T>> for InflateFault {
    ghost from_gives = { λ _ e. e ≡ Table OutOfMemory };

    fn from(_error: AllocFailed<T>) -> InflateFault {
        InflateFault::Table(TableFault::OutOfMemory)
    }
}
