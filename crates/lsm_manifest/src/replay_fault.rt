//! What is wrong with a row of edits.

ghost use Rattle.std.specs.Prelude.{◌≡◌, codes};
ghost use Rattle.lsm_manifest.specs.ReplayFault.{number_of, name_of};
ghost use Rattle.lsm_manifest.specs.declared.replay_fault.ReplayFault.TheVariants.{OutOfMemory};

use std::alloc::{AllocError, AllocFailed};
use thiserror::Error;

/// Why edits give no shape.
#[derive(Clone, Copy, Debug, Drop, Error, PartialEq, Eq)]
pub enum ReplayFault {
    /// A growth was refused.
    #[error("OutOfMemory")]
    OutOfMemory,
    /// No edit has a next file number.
    #[error("NoNextFile")]
    NoNextFile,
    /// No edit has a log number.
    #[error("NoLogNumber")]
    NoLogNumber,
    /// No edit has a last sequence.
    #[error("NoLastSequence")]
    NoLastSequence,
    /// An edit names a comparator other than `leveldb.BytewiseComparator`.
    #[error("OtherComparator")]
    OtherComparator,
    /// An edit adds a file of a number that stands at some level.
    #[error("DoubleFile {0}")]
    DoubleFile(u64),
}

impl ReplayFault {
    /// The number of the refusal in docs/FORMATS.md.
    pub fn number(&self) -> u8
        ensures { result ≡ number_of self.now }
    {
        match self {
            ReplayFault::OutOfMemory => 1,
            ReplayFault::NoNextFile => 26,
            ReplayFault::NoLogNumber => 27,
            ReplayFault::NoLastSequence => 28,
            ReplayFault::OtherComparator => 29,
            ReplayFault::DoubleFile(_) => 30,
        }
    }

    /// The name of the refusal in docs/FORMATS.md.
    pub fn name(&self) -> &'static str
        ensures { result.now ≡ name_of self.now }
    {
        match self {
            ReplayFault::OutOfMemory => "OutOfMemory",
            ReplayFault::NoNextFile => "NoNextFile",
            ReplayFault::NoLogNumber => "NoLogNumber",
            ReplayFault::NoLastSequence => "NoLastSequence",
            ReplayFault::OtherComparator => "OtherComparator",
            ReplayFault::DoubleFile(_) => "DoubleFile",
        }
    }
}

impl From<AllocError> for ReplayFault {
    ghost from_gives = { λ _ e. e ≡ OutOfMemory };

    fn from(_e: AllocError) -> ReplayFault {
        ReplayFault::OutOfMemory
    }
}

impl<T: Drop> From<AllocFailed<T>> for ReplayFault {
    ghost from_gives = { λ _ e. e ≡ OutOfMemory };

    fn from(_e: AllocFailed<T>) -> ReplayFault {
        ReplayFault::OutOfMemory
    }
}
