//! Why a database is not seen.

ghost use Rattle.std.specs.Prelude.{◌≡◌, None};
ghost use Rattle.lsm_preview.specs.PreviewFault.{file_of};
ghost use Rattle.lsm_preview.specs.declared.preview_fault.PreviewFault.TheVariants.{OutOfMemory};
ghost use Rattle.lsm_preview.specs.declared.preview_fault.PreviewFault.TheVariants.{Unmade};

use lsm_batch::Write as KeyWrite;
use lsm_directory::{DirectoryFault, Exit};
use lsm_import::ImportFault;
use lsm_inflate::InflateFault;
use lsm_log_files::SourceFault;
use lsm_table::{ReadFault, ShelfFault, TableFault};
use lsm_verify::CheckFault;
use std::alloc::{AllocError, AllocFailed};
use std::fmt;
use std::io::{self, Write};

/// Why a database is not seen with its logs, or with its tables plain. It prints as a text without
/// a newline.
#[derive(Debug, Drop)]
pub enum PreviewFault {
    /// A growth of memory was refused.
    OutOfMemory,
    /// The manifest or a log could not be read.
    Unread(SourceFault),
    /// The tables could not be listed.
    Unlisted(ShelfFault),
    /// A table is not shown plain, or the table of the logs' writes is not made.
    Unmade(ImportFault),
}

impl fmt::Display for PreviewFault {
    ghost output = { λ _. None };

    fn fmt<W: fmt::Write>(&self, f: &mut fmt::Formatter<W>) -> fmt::Result {
        match self {
            PreviewFault::OutOfMemory => f.write_str("refused 1 OutOfMemory"),
            PreviewFault::Unread(fault) => write!(f, "{fault}"),
            PreviewFault::Unlisted(fault) => write!(f, "{}", DirectoryFault::Shelf(*fault)),
            PreviewFault::Unmade(fault) => write!(f, "refused {} {fault}", fault.number()),
        }
    }
}

/// Writes why a table is not shown plain.
fn explain_table<E: Write>(err: &mut E, fault: &ImportFault) -> io::Result<()> {
    match fault {
        ImportFault::WrongRange(number) => {
            DirectoryFault::Tables(CheckFault::WrongRange(*number)).explain(err, &[])
        }
        ImportFault::Packed(_, InflateFault::Table(TableFault::Compressed(_))) => {
            writeln!(
                err,
                "compressed by Zstandard: tables are made plain of Snappy's alone"
            )
        }
        ImportFault::Packed(_, InflateFault::Table(fault)) => {
            DirectoryFault::Read(ReadFault::Table(*fault)).explain(err, &[])
        }
        _ => Ok(()),
    }
}

impl Exit for PreviewFault {
    ghost file = { file_of };

    ghost meaning = { λ _. None };

    fn table_file(&self) -> Option<u64> {
        match self {
            PreviewFault::Unmade(ImportFault::Unread(number, _)) => Some(*number),
            PreviewFault::Unmade(ImportFault::Packed(number, _)) => Some(*number),
            PreviewFault::Unmade(ImportFault::WrongRange(number)) => Some(*number),
            _ => None,
        }
    }

    fn refusal(&self) -> Option<u64> {
        match self {
            PreviewFault::Unread(fault) => fault.refusal(),
            PreviewFault::Unlisted(fault) => Some(u64::from(fault.number())),
            PreviewFault::Unmade(fault) => Some(u64::from(fault.number())),
            PreviewFault::OutOfMemory => None,
        }
    }

    fn explain<E: Write>(&self, err: &mut E, _writes: &[KeyWrite]) -> io::Result<()> {
        match self {
            PreviewFault::Unread(fault) => fault.explain(err, &[]),
            PreviewFault::Unlisted(fault) => DirectoryFault::Shelf(*fault).explain(err, &[]),
            PreviewFault::Unmade(fault) => explain_table(err, fault),
            PreviewFault::OutOfMemory => Ok(()),
        }
    }
}

impl From<AllocError> for PreviewFault {
    ghost from_gives = { λ _ f. f ≡ OutOfMemory };

    fn from(_error: AllocError) -> PreviewFault {
        PreviewFault::OutOfMemory
    }
}

impl<T: Drop> From<AllocFailed<T>> for PreviewFault {
    ghost from_gives = { λ _ f. f ≡ OutOfMemory };

    fn from(_error: AllocFailed<T>) -> PreviewFault {
        PreviewFault::OutOfMemory
    }
}

impl From<ImportFault> for PreviewFault {
    ghost from_gives = { λ e f. f ≡ Unmade e };

    fn from(error: ImportFault) -> PreviewFault {
        PreviewFault::Unmade(error)
    }
}
