//! Why logs do not come into their database.

ghost use Rattle.std.specs.Prelude.{◌≡◌, None};
ghost use Rattle.lsm_recovery.specs.BringFault.{file_of};
ghost use Rattle.lsm_recovery.specs.declared.bring_fault.BringFault.TheVariants.{Bring};
ghost use Rattle.lsm_recovery.specs.declared.bring_fault.BringFault.TheVariants.{OutOfMemory};
ghost use Rattle.lsm_recovery.specs.declared.bring_fault.BringFault.TheVariants.{Tables};

use lsm_batch::Write as KeyWrite;
use lsm_directory::{Exit, check_meaning};
use lsm_import::ImportFault;
use lsm_log_files::SourceFault;
use lsm_opening::WriterFault;
use lsm_verify::CheckFault;
use std::alloc::{AllocError, AllocFailed};
use std::fmt;
use std::io::{self, Write};

/// Why the logs of a folder do not come into its database. It prints as a text without a newline.
#[derive(Debug, Drop)]
pub enum BringFault {
    /// A growth of memory was refused.
    OutOfMemory,
    /// The folder could not be opened, locked or looked at, or its tables not listed.
    Folder(WriterFault),
    /// The manifest or a log could not be read.
    Read(SourceFault),
    /// The table of the logs' writes was not put, or no manifest begun.
    Bring(ImportFault),
    /// The tables are no version.
    Tables(CheckFault),
}

impl fmt::Display for BringFault {
    ghost output = { λ _. None };

    fn fmt<W: fmt::Write>(&self, f: &mut fmt::Formatter<W>) -> fmt::Result {
        match self {
            BringFault::OutOfMemory => f.write_str("refused 1 OutOfMemory"),
            BringFault::Folder(fault) => write!(f, "{fault}"),
            BringFault::Read(fault) => write!(f, "{fault}"),
            BringFault::Bring(fault) => write!(f, "refused {} {fault}", fault.number()),
            BringFault::Tables(fault) => write!(f, "refused {} {fault}", fault.number()),
        }
    }
}

impl Exit for BringFault {
    ghost file = { file_of };

    ghost meaning = { λ _. None };

    fn table_file(&self) -> Option<u64> {
        match self {
            BringFault::Tables(CheckFault::Read(number, _)) => *number,
            _ => None,
        }
    }

    fn refusal(&self) -> Option<u64> {
        match self {
            BringFault::Folder(fault) => fault.refusal(),
            BringFault::Read(fault) => fault.refusal(),
            BringFault::Bring(fault) => Some(u64::from(fault.number())),
            BringFault::Tables(fault) => Some(u64::from(fault.number())),
            BringFault::OutOfMemory => None,
        }
    }

    fn explain<E: Write>(&self, err: &mut E, _writes: &[KeyWrite]) -> io::Result<()> {
        match self {
            BringFault::Folder(WriterFault::UnflushedLog(number)) => writeln!(
                err,
                "each manifest reads {number:06}.log: lsm import DIR NEW copies what it holds too"
            ),
            BringFault::Folder(fault) => fault.explain(err, &[]),
            BringFault::Read(fault) => fault.explain(err, &[]),
            BringFault::Tables(fault) => err.write_all(check_meaning(fault).as_bytes()),
            BringFault::OutOfMemory | BringFault::Bring(_) => Ok(()),
        }
    }
}

impl From<AllocError> for BringFault {
    ghost from_gives = { λ _ f. f ≡ OutOfMemory };

    fn from(_error: AllocError) -> BringFault {
        BringFault::OutOfMemory
    }
}

impl<T: Drop> From<AllocFailed<T>> for BringFault {
    ghost from_gives = { λ _ f. f ≡ OutOfMemory };

    fn from(_error: AllocFailed<T>) -> BringFault {
        BringFault::OutOfMemory
    }
}

impl From<ImportFault> for BringFault {
    ghost from_gives = { λ e f. f ≡ Bring e };

    fn from(error: ImportFault) -> BringFault {
        BringFault::Bring(error)
    }
}

impl From<CheckFault> for BringFault {
    ghost from_gives = { λ e f. f ≡ Tables e };

    fn from(error: CheckFault) -> BringFault {
        BringFault::Tables(error)
    }
}
