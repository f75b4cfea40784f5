//! Why a job was not finished.

ghost use Rattle.std.specs.Prelude.{◌≡◌};
ghost use Rattle.lsm_merge.specs.MergeFault.{input_number, name_of, number_of, of_build, of_put};
ghost use Rattle.lsm_merge.specs.MergeFault.{of_read, output_number};
ghost use Rattle.lsm_merge.specs.declared.merge_fault.MergeFault.TheVariants.{OutOfMemory};
ghost use Rattle.lsm_merge.specs.MergeFault.{of_numbers};

use crate::number_source::NumberFault;
use lsm_table::{BuildFault, ReadFault, ShelfFault, TableFault};
use std::alloc::{AllocError, AllocFailed};
use thiserror::Error;

/// Why an input could not be merged.
#[derive(Clone, Copy, Debug, Drop, Error, PartialEq, Eq)]
pub enum InputFault {
    /// It could not be read.
    #[error("{0}")]
    Read(ReadFault),
    /// Its next entry does not stand after the entry that was merged before it: over an honest
    /// shelf both have one internal key.
    #[error("OutOfOrder")]
    OutOfOrder,
}

impl InputFault {
    /// The number of the refusal in docs/FORMATS.md.
    pub fn number(&self) -> u8
        ensures { result ≡ input_number self.now }
    {
        match self {
            InputFault::Read(fault) => fault.number(),
            InputFault::OutOfOrder => 8,
        }
    }
}

/// Why an output could not be put.
#[derive(Clone, Copy, Debug, Drop, Error, PartialEq, Eq)]
pub enum OutputFault {
    /// It could not be built: a block would have more than 2^32 - 1 bytes.
    #[error("TooLarge")]
    TooLarge,
    /// The shelf refused it.
    #[error("{0}")]
    Shelf(ShelfFault),
}

impl OutputFault {
    /// The number of the refusal in docs/FORMATS.md.
    pub fn number(&self) -> u8
        ensures { result ≡ output_number self.now }
    {
        match self {
            OutputFault::TooLarge => 39,
            OutputFault::Shelf(fault) => fault.number(),
        }
    }
}

/// Why a job was not finished.
#[derive(Clone, Copy, Debug, Drop, Error, PartialEq, Eq)]
pub enum MergeFault {
    /// A growth of memory was refused.
    #[error("OutOfMemory")]
    OutOfMemory,
    /// The input of this number could not be read or merged.
    #[error("ReadFailed {0} {number}", number = .1.number())]
    ReadFailed(u64, InputFault),
    /// The output of this number could not be built or put.
    #[error("PutFailed {0} {number}", number = .1.number())]
    PutFailed(u64, OutputFault),
    /// The source of numbers knows no job of this ticket.
    #[error("UnknownTicket {0}")]
    UnknownTicket(u64),
    /// The source of numbers has none left.
    #[error("NumbersSpent")]
    NumbersSpent,
}

impl MergeFault {
    /// The number of the refusal in docs/FORMATS.md.
    pub fn number(&self) -> u8
        ensures { result ≡ number_of self.now }
    {
        match self {
            MergeFault::OutOfMemory => 1,
            MergeFault::ReadFailed(_, _) => 35,
            MergeFault::PutFailed(_, _) => 36,
            MergeFault::UnknownTicket(_) => 45,
            MergeFault::NumbersSpent => 46,
        }
    }

    /// The name of the refusal in docs/FORMATS.md, without its fields.
    pub fn name(&self) -> &'static str
        ensures { result.now ≡ name_of self.now }
    {
        match self {
            MergeFault::OutOfMemory => "OutOfMemory",
            MergeFault::ReadFailed(_, _) => "ReadFailed",
            MergeFault::PutFailed(_, _) => "PutFailed",
            MergeFault::UnknownTicket(_) => "UnknownTicket",
            MergeFault::NumbersSpent => "NumbersSpent",
        }
    }

    /// What it is that the input of this number could not be read.
    pub(crate) fn of_read(number: u64, fault: ReadFault) -> MergeFault
        ensures { result ≡ of_read number fault }
    {
        match fault {
            ReadFault::Shelf(ShelfFault::OutOfMemory) => MergeFault::OutOfMemory,
            ReadFault::Table(TableFault::OutOfMemory) => MergeFault::OutOfMemory,
            other => MergeFault::ReadFailed(number, InputFault::Read(other)),
        }
    }

    /// What it is that the output of this number could not be built.
    pub(crate) fn of_build(number: u64, fault: BuildFault) -> MergeFault
        ensures { result ≡ of_build number fault }
    {
        match fault {
            BuildFault::OutOfMemory => MergeFault::OutOfMemory,
            BuildFault::TooLarge => MergeFault::PutFailed(number, OutputFault::TooLarge),
        }
    }

    /// What it is that the output of this number could not be put.
    pub(crate) fn of_put(number: u64, fault: ShelfFault) -> MergeFault
        ensures { result ≡ of_put number fault }
    {
        match fault {
            ShelfFault::OutOfMemory => MergeFault::OutOfMemory,
            other => MergeFault::PutFailed(number, OutputFault::Shelf(other)),
        }
    }
}

impl From<NumberFault> for MergeFault {
    ghost from_gives = { λ fault e. e ≡ of_numbers fault };

    fn from(fault: NumberFault) -> MergeFault {
        match fault {
            NumberFault::OutOfMemory => MergeFault::OutOfMemory,
            NumberFault::UnknownTicket(ticket) => MergeFault::UnknownTicket(ticket),
            NumberFault::NumbersSpent => MergeFault::NumbersSpent,
        }
    }
}

impl From<AllocError> for MergeFault {
    ghost from_gives = { λ _ e. e ≡ OutOfMemory };

    fn from(_error: AllocError) -> MergeFault {
        MergeFault::OutOfMemory
    }
}

impl<T: Drop> From<AllocFailed<T>> for MergeFault {
    ghost from_gives = { λ _ e. e ≡ OutOfMemory };

    fn from(_error: AllocFailed<T>) -> MergeFault {
        MergeFault::OutOfMemory
    }
}
