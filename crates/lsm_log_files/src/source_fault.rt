//! Why a manifest and its logs are not read.

ghost use Rattle.std.specs.Prelude.{◌≡◌, None};
ghost use Rattle.lsm_log_files.specs.declared.source_fault.SourceFault.TheVariants.{OutOfMemory};

use lsm_batch::Write as KeyWrite;
use lsm_directory::{DirectoryFault, Exit};
use lsm_journal::RecoverFault;
use lsm_table::ShelfFault;
use lsm_wal::WriteLogFault;
use std::alloc::{AllocError, AllocFailed};
use std::fmt;
use std::io::{self, Write};

/// Why a manifest and its logs are not read. It prints as a text without a newline.
#[derive(Debug, Drop)]
pub enum SourceFault {
    /// A growth of memory was refused.
    OutOfMemory,
    /// The manifest could not be read.
    Manifest(RecoverFault),
    /// The folder did not give its log of this number.
    UnreadLog(u64, ShelfFault),
    /// The log of this number is none, or begins below the end of the one before.
    BadLog(u64, WriteLogFault),
}

impl fmt::Display for SourceFault {
    ghost output = { λ _. None };

    fn fmt<W: fmt::Write>(&self, f: &mut fmt::Formatter<W>) -> fmt::Result {
        match self {
            SourceFault::OutOfMemory => f.write_str("refused 1 OutOfMemory"),
            SourceFault::Manifest(fault) => write!(f, "{}", DirectoryFault::Manifest(*fault)),
            SourceFault::UnreadLog(_, fault) => write!(f, "refused {} {fault}", fault.number()),
            SourceFault::BadLog(_, fault) => write!(f, "refused {} {fault}", fault.number()),
        }
    }
}

impl Exit for SourceFault {
    ghost file = { λ _. None };

    ghost meaning = { λ _. None };

    fn table_file(&self) -> Option<u64> {
        None
    }

    fn refusal(&self) -> Option<u64> {
        match self {
            SourceFault::Manifest(fault) => Some(u64::from(fault.number())),
            SourceFault::UnreadLog(_, fault) => Some(u64::from(fault.number())),
            SourceFault::OutOfMemory | SourceFault::BadLog(_, _) => None,
        }
    }

    fn explain<E: Write>(&self, err: &mut E, _writes: &[KeyWrite]) -> io::Result<()> {
        match self {
            SourceFault::Manifest(fault) => DirectoryFault::Manifest(*fault).explain(err, &[]),
            SourceFault::UnreadLog(number, _) | SourceFault::BadLog(number, _) => {
                writeln!(err, "in {number:06}.log")
            }
            SourceFault::OutOfMemory => Ok(()),
        }
    }
}

impl From<AllocError> for SourceFault {
    ghost from_gives = { λ _ f. f ≡ OutOfMemory };

    fn from(_error: AllocError) -> SourceFault {
        SourceFault::OutOfMemory
    }
}

impl<T: Drop> From<AllocFailed<T>> for SourceFault {
    ghost from_gives = { λ _ f. f ≡ OutOfMemory };

    fn from(_error: AllocFailed<T>) -> SourceFault {
        SourceFault::OutOfMemory
    }
}
