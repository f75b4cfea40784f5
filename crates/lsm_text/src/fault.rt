//! Why a command ends with status 1, as the line on standard error says.

ghost use Rattle.std.specs.Prelude.{◌≡◌, Some};
ghost use Rattle.lsm_text.specs.Fault.{of_input, of_line, of_table, of_build, of_log, of_edit};
ghost use Rattle.lsm_text.specs.FaultText.{fault_text};
ghost use Rattle.lsm_text.specs.declared.fault.Fault.TheVariants.{OutOfMemory};

use crate::entry_reader::LineFault;
use crate::refusal::Refusal;
use crate::streams::InputFault;
use lsm_manifest::{EditFault, LogFault};
use lsm_table::{BuildFault, TableFault};
use std::alloc::AllocError;
use std::fmt;

/// What a command could not do. It prints as a text without a newline.
#[derive(Debug, Drop)]
pub enum Fault {
    /// A read failed, or there are more than 64 MiB to read.
    Read,
    /// A write failed.
    Write,
    /// The number of the first bad line, from 1.
    BadLine(usize),
    /// A growth of memory was refused.
    OutOfMemory,
    /// Bytes are no table.
    Table(TableFault),
    /// Bytes are no record log.
    Log(LogFault),
    /// A record is no version edit.
    Edit(EditFault),
    /// A block of a table would have more than 2^32 - 1 bytes.
    TooLarge,
}

impl fmt::Display for Fault {
    ghost output = { λ f. Some (fault_text f) };

    fn fmt<W: fmt::Write>(&self, f: &mut fmt::Formatter<W>) -> fmt::Result {
        let refusal = match self {
            Fault::Read => return f.write_str("read fault"),
            Fault::Write => return f.write_str("write fault"),
            Fault::BadLine(line) => return write!(f, "bad line {line}"),
            Fault::OutOfMemory => Refusal::of_build(BuildFault::OutOfMemory),
            Fault::TooLarge => Refusal::of_build(BuildFault::TooLarge),
            Fault::Table(fault) => Refusal::of_table(*fault),
            Fault::Log(fault) => Refusal::of_log(*fault),
            Fault::Edit(fault) => Refusal::of_edit(*fault),
        };
        write!(f, "{refusal}")
    }
}

impl From<AllocError> for Fault {
    ghost from_gives = { λ _ f. f ≡ OutOfMemory };

    fn from(_error: AllocError) -> Fault {
        Fault::OutOfMemory
    }
}

impl From<InputFault> for Fault {
    ghost from_gives = { λ e f. f ≡ of_input e };

    fn from(error: InputFault) -> Fault {
        match error {
            InputFault::Read | InputFault::TooLong => Fault::Read,
            InputFault::OutOfMemory => Fault::OutOfMemory,
        }
    }
}

impl From<LineFault> for Fault {
    ghost from_gives = { λ e f. f ≡ of_line e };

    fn from(error: LineFault) -> Fault {
        match error {
            LineFault::BadLine(line) => Fault::BadLine(line),
            LineFault::OutOfMemory => Fault::OutOfMemory,
        }
    }
}

impl From<TableFault> for Fault {
    ghost from_gives = { λ e f. f ≡ of_table e };

    fn from(error: TableFault) -> Fault {
        match error {
            TableFault::OutOfMemory => Fault::OutOfMemory,
            fault => Fault::Table(fault),
        }
    }
}

impl From<BuildFault> for Fault {
    ghost from_gives = { λ e f. f ≡ of_build e };

    fn from(error: BuildFault) -> Fault {
        match error {
            BuildFault::OutOfMemory => Fault::OutOfMemory,
            BuildFault::TooLarge => Fault::TooLarge,
        }
    }
}

impl From<LogFault> for Fault {
    ghost from_gives = { λ e f. f ≡ of_log e };

    fn from(error: LogFault) -> Fault {
        match error {
            LogFault::OutOfMemory => Fault::OutOfMemory,
            fault => Fault::Log(fault),
        }
    }
}

impl From<EditFault> for Fault {
    ghost from_gives = { λ e f. f ≡ of_edit e };

    fn from(error: EditFault) -> Fault {
        match error {
            EditFault::OutOfMemory => Fault::OutOfMemory,
            fault => Fault::Edit(fault),
        }
    }
}
