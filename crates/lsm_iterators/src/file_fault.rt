//! Why the table of a file could not be read.

ghost use Rattle.std.specs.Prelude.{◌≡◌};

use lsm_table::ReadFault;
use thiserror::Error;

/// Why a table could not be read, with the number of its file.
#[derive(Clone, Copy, Debug, Drop, Error, PartialEq, Eq)]
#[error("file {number}: {fault}")]
pub struct FileFault {
    /// The number of the table's file.
    pub number: u64,
    /// Why it could not be read.
    pub fault: ReadFault,
}

impl From<FileFault> for ReadFault {
    ghost from_gives = { λ fault e. e ≡ fault.fault };

    fn from(fault: FileFault) -> ReadFault {
        fault.fault
    }
}
