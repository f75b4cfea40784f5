//! Why the state refused.

ghost use Rattle.std.specs.Prelude.{◌≡◌};
ghost use Rattle.lsm_state.specs.StateFault.{name_of, number_of};

use lsm_table::{ReadFault, ShelfFault};
use std::alloc::{AllocError, AllocFailed};
use thiserror::Error;

/// Why the state refused.
#[derive(Clone, Copy, Debug, Drop, Error, PartialEq, Eq)]
pub enum StateFault {
    /// A growth was refused.
    #[error("OutOfMemory")]
    OutOfMemory,
    /// The shelf refused.
    #[error("{0}")]
    Shelf(ShelfFault),
    /// A table could not be read.
    #[error("{0}")]
    Read(ReadFault),
    /// A compaction of a range is of level 0 to 5.
    #[error("BadLevel {0}")]
    BadLevel(u8),
    /// The batch has no entry.
    #[error("EmptyBatch")]
    EmptyBatch,
    /// The key at this place of the batch, from 0, is not greater than the one before.
    #[error("KeyOrder {0}")]
    KeyOrder(u64),
    /// A key, a value, the count or the sum of the batch is over its limit, or a block of its table
    /// would pass 2^32 - 1 bytes.
    #[error("TooLarge")]
    TooLarge,
    /// Level 0 has 12 files or more.
    #[error("LevelZeroFull")]
    LevelZeroFull,
    /// The last sequence would pass 2^56 - 1.
    #[error("SequencesSpent")]
    SequencesSpent,
    /// A write of the manifest failed earlier, or the state was opened to read.
    #[error("Halted")]
    Halted,
    /// No snapshot of this id is live, or no version of this id is pinned.
    #[error("UnknownSnapshot {0}")]
    UnknownSnapshot(u64),
    /// The plan conflicts with the live job of this ticket.
    #[error("Conflict {0}")]
    Conflict(u64),
    /// No job of this ticket is live.
    #[error("UnknownTicket {0}")]
    UnknownTicket(u64),
    /// A file number, a ticket or an id would pass 2^64 - 2.
    #[error("NumbersSpent")]
    NumbersSpent,
    /// The result's ticket is not live, its job did not draw the numbers that were put, or these do
    /// not rise.
    #[error("Stale")]
    Stale,
    /// Every slot but the current one was seen held.
    #[error("SlotsHeld")]
    SlotsHeld,
    /// The current version's id is 2^28 - 1.
    #[error("VersionsSpent")]
    VersionsSpent,
    /// The current version has 2^32 - 1 pins under the lock.
    #[error("PinsSpent")]
    PinsSpent,
}

impl StateFault {
    /// The number of the refusal in docs/FORMATS.md.
    pub fn number(&self) -> u8
        ensures { result ≡ number_of self.now }
    {
        match self {
            StateFault::OutOfMemory => 1,
            StateFault::Shelf(fault) => fault.number(),
            StateFault::Read(fault) => fault.number(),
            StateFault::BadLevel(_) => 23,
            StateFault::EmptyBatch => 37,
            StateFault::KeyOrder(_) => 38,
            StateFault::TooLarge => 39,
            StateFault::LevelZeroFull => 40,
            StateFault::SequencesSpent => 41,
            StateFault::Halted => 42,
            StateFault::UnknownSnapshot(_) => 43,
            StateFault::Conflict(_) => 44,
            StateFault::UnknownTicket(_) => 45,
            StateFault::NumbersSpent => 46,
            StateFault::Stale => 47,
            StateFault::SlotsHeld => 48,
            StateFault::VersionsSpent => 49,
            StateFault::PinsSpent => 50,
        }
    }

    /// The name of the refusal in docs/FORMATS.md, without its fields.
    pub fn name(&self) -> &'static str
        ensures { result.now ≡ name_of self.now }
    {
        match self {
            StateFault::OutOfMemory => "OutOfMemory",
            StateFault::Shelf(fault) => fault.name(),
            StateFault::Read(fault) => fault.name(),
            StateFault::BadLevel(_) => "BadLevel",
            StateFault::EmptyBatch => "EmptyBatch",
            StateFault::KeyOrder(_) => "KeyOrder",
            StateFault::TooLarge => "TooLarge",
            StateFault::LevelZeroFull => "LevelZeroFull",
            StateFault::SequencesSpent => "SequencesSpent",
            StateFault::Halted => "Halted",
            StateFault::UnknownSnapshot(_) => "UnknownSnapshot",
            StateFault::Conflict(_) => "Conflict",
            StateFault::UnknownTicket(_) => "UnknownTicket",
            StateFault::NumbersSpent => "NumbersSpent",
            StateFault::Stale => "Stale",
            StateFault::SlotsHeld => "SlotsHeld",
            StateFault::VersionsSpent => "VersionsSpent",
            StateFault::PinsSpent => "PinsSpent",
        }
    }
}

impl From<AllocError> for StateFault {
    ghost use Rattle.lsm_state.specs.declared.state_fault.StateFault.TheVariants.{OutOfMemory};

    ghost from_gives = { λ _ e. e ≡ OutOfMemory };

    fn from(_: AllocError) -> StateFault {
        StateFault::OutOfMemory
    }
}

impl<T: Drop> From<AllocFailed<T>> for StateFault {
    ghost use Rattle.lsm_state.specs.declared.state_fault.StateFault.TheVariants.{OutOfMemory};

    ghost from_gives = { λ _ e. e ≡ OutOfMemory };

    fn from(_: AllocFailed<T>) -> StateFault {
        StateFault::OutOfMemory
    }
}

impl From<ReadFault> for StateFault {
    ghost use Rattle.lsm_state.specs.declared.state_fault.StateFault.TheVariants.{Read};

    ghost from_gives = { λ fault e. e ≡ Read fault };

    fn from(fault: ReadFault) -> StateFault {
        StateFault::Read(fault)
    }
}

impl From<ShelfFault> for StateFault {
    ghost use Rattle.lsm_state.specs.declared.state_fault.StateFault.TheVariants.{Shelf};

    ghost from_gives = { λ fault e. e ≡ Shelf fault };

    fn from(fault: ShelfFault) -> StateFault {
        StateFault::Shelf(fault)
    }
}
