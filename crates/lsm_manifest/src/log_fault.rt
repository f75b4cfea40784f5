//! What is wrong with a log.

ghost use Rattle.std.specs.Prelude.{◌≡◌, codes};
ghost use Rattle.lsm_manifest.specs.LogFault.{number_of, name_of};
ghost use Rattle.lsm_manifest.specs.declared.log_fault.LogFault.TheVariants.{OutOfMemory};

use std::alloc::{AllocError, AllocFailed};
use thiserror::Error;

/// Why a log could not be read. A fault names the offset of its fragment, in bytes from the start
/// of the log.
#[derive(Clone, Copy, Debug, Drop, Error, PartialEq, Eq)]
pub enum LogFault {
    /// A growth was refused.
    #[error("OutOfMemory")]
    OutOfMemory,
    /// The stored checksum of a fragment is not that of its type and data.
    #[error("LogChecksum {0}")]
    LogChecksum(u64),
    /// A fragment, or zeros, where they may not stand, or a fragment that goes past its block.
    #[error("LogOrder {0}")]
    LogOrder(u64),
    /// A fragment whose type is none.
    #[error("LogType {0}")]
    LogType(u64),
}

impl LogFault {
    /// The number of the refusal in docs/FORMATS.md.
    pub fn number(&self) -> u8
        ensures { result ≡ number_of self.now }
    {
        match self {
            LogFault::OutOfMemory => 1,
            LogFault::LogChecksum(_) => 19,
            LogFault::LogOrder(_) => 20,
            LogFault::LogType(_) => 21,
        }
    }

    /// The name of the refusal in docs/FORMATS.md.
    pub fn name(&self) -> &'static str
        ensures { result.now ≡ name_of self.now }
    {
        match self {
            LogFault::OutOfMemory => "OutOfMemory",
            LogFault::LogChecksum(_) => "LogChecksum",
            LogFault::LogOrder(_) => "LogOrder",
            LogFault::LogType(_) => "LogType",
        }
    }
}

impl From<AllocError> for LogFault {
    ghost from_gives = { λ _ e. e ≡ OutOfMemory };

    fn from(_e: AllocError) -> LogFault {
        LogFault::OutOfMemory
    }
}

impl<T: Drop> From<AllocFailed<T>> for LogFault {
    ghost from_gives = { λ _ e. e ≡ OutOfMemory };

    fn from(_e: AllocFailed<T>) -> LogFault {
        LogFault::OutOfMemory
    }
}
