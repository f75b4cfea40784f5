//! What is wrong with a write-ahead log.

ghost use Rattle.std.specs.Prelude.{◌≡◌};
ghost use Rattle.lsm_wal.specs.declared.write_log_fault.WriteLogFault.TheVariants.{OutOfMemory};
ghost use Rattle.lsm_wal.specs.WriteLogFault.{log_fault, name_of, number_of};

use lsm_manifest::LogFault;
use std::alloc::{AllocError, AllocFailed};
use thiserror::Error;

/// Why a write-ahead log could not be read. The first fault of the record log is named, and where
/// it has none the first fault of its batches.
#[derive(Clone, Copy, Debug, Drop, Error, PartialEq, Eq)]
pub enum WriteLogFault {
    /// A growth was refused.
    #[error("OutOfMemory")]
    OutOfMemory,
    /// The record log's `LogChecksum`, with the offset of the fragment, in bytes.
    #[error("LogChecksum {0}")]
    LogChecksum(u64),
    /// The record log's `LogOrder`, with the offset of the fragment, in bytes.
    #[error("LogOrder {0}")]
    LogOrder(u64),
    /// The record log's `LogType`, with the offset of the fragment, in bytes.
    #[error("LogType {0}")]
    LogType(u64),
    /// A batch of fewer than 12 bytes.
    #[error("BatchShort")]
    BatchShort,
    /// A write of another type than 0 and 1.
    #[error("WriteKind {0}")]
    WriteKind(u8),
    /// A write whose key or value runs out, or whose length is no varint32.
    #[error("WriteCut")]
    WriteCut,
    /// A batch with another number of writes than it states.
    #[error("BatchCount")]
    BatchCount,
    /// A batch whose sequences pass 2^56 - 1.
    #[error("BatchSequence")]
    BatchSequence,
    /// A batch that begins below the end of the one before.
    #[error("SequenceOrder")]
    SequenceOrder,
}

impl WriteLogFault {
    // The record log's fault.
    pub(crate) fn of(fault: LogFault) -> WriteLogFault
        ensures { result ≡ log_fault fault }
    {
        match fault {
            LogFault::OutOfMemory => WriteLogFault::OutOfMemory,
            LogFault::LogChecksum(offset) => WriteLogFault::LogChecksum(offset),
            LogFault::LogOrder(offset) => WriteLogFault::LogOrder(offset),
            LogFault::LogType(offset) => WriteLogFault::LogType(offset),
        }
    }

    /// The number of the refusal in docs/FORMATS.md.
    pub fn number(&self) -> u8
        ensures { result ≡ number_of self.now }
    {
        match self {
            WriteLogFault::OutOfMemory => 1,
            WriteLogFault::LogChecksum(_) => 19,
            WriteLogFault::LogOrder(_) => 20,
            WriteLogFault::LogType(_) => 21,
            WriteLogFault::BatchShort => 54,
            WriteLogFault::WriteKind(_) => 55,
            WriteLogFault::WriteCut => 56,
            WriteLogFault::BatchCount => 57,
            WriteLogFault::BatchSequence => 58,
            WriteLogFault::SequenceOrder => 59,
        }
    }

    /// The name of the refusal in docs/FORMATS.md, without its field.
    pub fn name(&self) -> &'static str
        ensures { result.now ≡ name_of self.now }
    {
        match self {
            WriteLogFault::OutOfMemory => "OutOfMemory",
            WriteLogFault::LogChecksum(_) => "LogChecksum",
            WriteLogFault::LogOrder(_) => "LogOrder",
            WriteLogFault::LogType(_) => "LogType",
            WriteLogFault::BatchShort => "BatchShort",
            WriteLogFault::WriteKind(_) => "WriteKind",
            WriteLogFault::WriteCut => "WriteCut",
            WriteLogFault::BatchCount => "BatchCount",
            WriteLogFault::BatchSequence => "BatchSequence",
            WriteLogFault::SequenceOrder => "SequenceOrder",
        }
    }
}

impl From<AllocError> for WriteLogFault {
    ghost from_gives = { λ _ e. e ≡ OutOfMemory };

    fn from(_e: AllocError) -> WriteLogFault {
        WriteLogFault::OutOfMemory
    }
}

impl<T: Drop> From<AllocFailed<T>> for WriteLogFault {
    ghost from_gives = { λ _ e. e ≡ OutOfMemory };

    fn from(_e: AllocFailed<T>) -> WriteLogFault {
        WriteLogFault::OutOfMemory
    }
}
