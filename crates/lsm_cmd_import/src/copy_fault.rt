//! Why a run of `import` ends with status 1.

ghost use Rattle.std.specs.Prelude.{◌≡◌, None};
ghost use Rattle.lsm_cmd_import.specs.CopyFault.{file_of};
ghost use Rattle.lsm_cmd_import.specs.declared.copy_fault.CopyFault.TheVariants.{Copy, OutOfMemory};
ghost use Rattle.lsm_cmd_import.specs.declared.copy_fault.CopyFault.TheVariants.{Read, Tables};

use lsm_batch::Write as KeyWrite;
use lsm_directory::{DirectoryFault, Exit, check_meaning};
use lsm_import::ImportFault;
use lsm_log_files::SourceFault;
use lsm_opening::WriterFault;
use lsm_verify::CheckFault;
use std::alloc::{AllocError, AllocFailed};
use std::fmt;
use std::io::{self, Write};

/// Why a run of `import` ends with status 1. It prints as a text without a newline.
#[derive(Debug, Drop)]
pub enum CopyFault {
    /// A growth of memory was refused, outside of the copy.
    OutOfMemory,
    /// The source could not be opened, locked or looked at.
    Source(DirectoryFault),
    /// The source's manifest or a log of it could not be read.
    Read(SourceFault),
    /// The target could not be opened, locked or looked at, or is none in which a database can be
    /// begun.
    Target(WriterFault),
    /// The target has a database already.
    IsThere,
    /// The copy was not made.
    Copy(ImportFault),
    /// The tables of the copy are no version.
    Tables(CheckFault),
    /// The copy was made, and what is told of it not written.
    Write,
}

impl fmt::Display for CopyFault {
    ghost output = { λ _. None };

    fn fmt<W: fmt::Write>(&self, f: &mut fmt::Formatter<W>) -> fmt::Result {
        match self {
            CopyFault::OutOfMemory => f.write_str("refused 1 OutOfMemory"),
            CopyFault::Source(fault) => write!(f, "{fault}"),
            CopyFault::Read(fault) => write!(f, "{fault}"),
            CopyFault::Target(fault) => write!(f, "{fault}"),
            CopyFault::IsThere => f.write_str("refused 53 IsThere"),
            CopyFault::Copy(fault) => write!(f, "refused {} {fault}", fault.number()),
            CopyFault::Tables(fault) => write!(f, "refused {} {fault}", fault.number()),
            CopyFault::Write => f.write_str("write fault"),
        }
    }
}

/// Writes why the source's manifest or a log of it was not read.
fn explain_read<E: Write>(err: &mut E, fault: &SourceFault) -> io::Result<()> {
    fault.explain(err, &[])?;
    match fault {
        SourceFault::Manifest(_) => writeln!(err, "in SRC"),
        _ => Ok(()),
    }
}

/// Writes why a database is not begun in the target.
fn explain_target<E: Write>(err: &mut E, fault: &WriterFault) -> io::Result<()> {
    match fault {
        WriterFault::LostCurrent(_) => writeln!(
            err,
            "DST has no CURRENT, but files of a database: a copy is made where none are"
        ),
        WriterFault::UnflushedLog(number) => writeln!(
            err,
            "DST has {number:06}.log, which LevelDB would read: a copy is made where none is"
        ),
        _ => {
            fault.explain(err, &[])?;
            writeln!(err, "in DST")
        }
    }
}

impl Exit for CopyFault {
    ghost file = { file_of };

    ghost meaning = { λ _. None };

    fn table_file(&self) -> Option<u64> {
        match self {
            CopyFault::Copy(ImportFault::Unread(number, _)) => Some(*number),
            CopyFault::Copy(ImportFault::Packed(number, _)) => Some(*number),
            CopyFault::Copy(ImportFault::WrongRange(number)) => Some(*number),
            CopyFault::Tables(CheckFault::Read(number, _)) => *number,
            _ => None,
        }
    }

    fn refusal(&self) -> Option<u64> {
        match self {
            CopyFault::Source(fault) => fault.refusal(),
            CopyFault::Read(fault) => fault.refusal(),
            CopyFault::Target(fault) => fault.refusal(),
            CopyFault::Copy(fault) => Some(u64::from(fault.number())),
            CopyFault::Tables(fault) => Some(u64::from(fault.number())),
            CopyFault::OutOfMemory | CopyFault::IsThere | CopyFault::Write => None,
        }
    }

    fn explain<E: Write>(&self, err: &mut E, _writes: &[KeyWrite]) -> io::Result<()> {
        match self {
            CopyFault::Source(fault) => {
                fault.explain(err, &[])?;
                writeln!(err, "in SRC")
            }
            CopyFault::Read(fault) => explain_read(err, fault),
            CopyFault::Target(fault) => explain_target(err, fault),
            CopyFault::IsThere => writeln!(err, "DST has a database: a copy is made where none is"),
            CopyFault::Tables(fault) => err.write_all(check_meaning(fault).as_bytes()),
            CopyFault::OutOfMemory | CopyFault::Copy(_) | CopyFault::Write => Ok(()),
        }
    }
}

impl From<AllocError> for CopyFault {
    ghost from_gives = { λ _ f. f ≡ OutOfMemory };

    fn from(_error: AllocError) -> CopyFault {
        CopyFault::OutOfMemory
    }
}

impl<T: Drop> From<AllocFailed<T>> for CopyFault {
    ghost from_gives = { λ _ f. f ≡ OutOfMemory };

    fn from(_error: AllocFailed<T>) -> CopyFault {
        CopyFault::OutOfMemory
    }
}

impl From<SourceFault> for CopyFault {
    ghost from_gives = { λ e f. f ≡ Read e };

    fn from(error: SourceFault) -> CopyFault {
        CopyFault::Read(error)
    }
}

impl From<ImportFault> for CopyFault {
    ghost from_gives = { λ e f. f ≡ Copy e };

    fn from(error: ImportFault) -> CopyFault {
        CopyFault::Copy(error)
    }
}

impl From<CheckFault> for CopyFault {
    ghost from_gives = { λ e f. f ≡ Tables e };

    fn from(error: CheckFault) -> CopyFault {
        CopyFault::Tables(error)
    }
}
