//! Why a command that writes a directory ends with status 1.

ghost use Rattle.std.specs.Prelude.{◌≡◌, None, Some, codes};
ghost use Rattle.lsm_text.specs.FaultText.{refusal_text};
ghost use Rattle.lsm_opening.specs.WriterFault.{fault_text, of_input, of_manifest, of_open};
ghost use Rattle.lsm_opening.specs.WriterFault.{of_shelf, table_file_of};
ghost use Rattle.lsm_opening.specs.declared.faults.writer_fault.WriterFault.TheVariants.{Directory as DirectoryVariant};
ghost use Rattle.lsm_opening.specs.declared.faults.writer_fault.WriterFault.TheVariants.{OutOfMemory};
ghost use Rattle.lsm_opening.specs.declared.faults.writer_fault.WriterFault.TheVariants.{State as StateVariant};
ghost use Rattle.lsm_opening.specs.declared.faults.writer_fault.WriterFault.TheVariants.{Write as WriteVariant};

use crate::faults::passed_limit::write_limit;
use lsm_batch::Write as KeyWrite;
use lsm_directory::{DirectoryFault, Exit, OutputFault};
use lsm_journal::{OpenFault, RecoverFault};
use lsm_refusals::of_state;
use lsm_state::StateFault;
use lsm_table::{ShelfFault, TableFault};
use lsm_text::{InputFault, LineSyntaxFault, Refusal};
use std::alloc::{AllocError, AllocFailed};
use std::fmt;
use std::io::{self, Write};

/// What a command that writes a directory could not do. It prints as a text without a newline.
#[derive(Debug, Drop)]
pub enum WriterFault {
    /// A growth of memory was refused, or there was no thread.
    OutOfMemory,
    /// A read of the file failed, or it has more than 64 MiB.
    Read,
    /// A write failed on standard output.
    Write,
    /// The number of the first bad line, from 1, and where it stops being one of a batch.
    BadLine(usize, Option<LineSyntaxFault>),
    /// The directory could not be locked, looked at, begun, opened or cleaned.
    Directory(DirectoryFault),
    /// The folder has no `CURRENT`, but files of a database; its highest manifest, if it has one.
    LostCurrent(Option<u64>),
    /// The log of this number is not flushed.
    UnflushedLog(u64),
    /// The database refused.
    State(StateFault),
}

impl WriterFault {
    /// A refusal of the shelf or of its folder.
    pub fn of_shelf(fault: ShelfFault) -> WriterFault
        ensures { result ≡ of_shelf fault }
    {
        WriterFault::Directory(DirectoryFault::Shelf(fault))
    }

    /// A directory that could not be opened.
    pub fn of_open(fault: OpenFault) -> WriterFault
        ensures { result ≡ of_open fault }
    {
        WriterFault::Directory(DirectoryFault::from(fault))
    }
}

/// The refusal `10 Missing`.
pub(crate) fn missing() -> Refusal
    ensures { refusal_text result.number result.name.now result.field
        ≡ refusal_text 10 (codes "Missing") None }
{
    Refusal {
        number: 10,
        name: "Missing",
        field: None,
    }
}

/// The refusal `51 UnflushedLog`.
fn unflushed(number: u64) -> Refusal
    ensures { refusal_text result.number result.name.now result.field
        ≡ refusal_text 51 (codes "UnflushedLog") (Some number) }
{
    Refusal {
        number: 51,
        name: "UnflushedLog",
        field: Some(number),
    }
}

impl fmt::Display for WriterFault {
    ghost output = { λ f. fault_text f };

    fn fmt<W: fmt::Write>(&self, f: &mut fmt::Formatter<W>) -> fmt::Result {
        let refusal = match self {
            WriterFault::Read => return f.write_str("read fault"),
            WriterFault::Write => return f.write_str("write fault"),
            WriterFault::BadLine(line, _) => return write!(f, "bad line {line}"),
            WriterFault::Directory(fault) => return write!(f, "{fault}"),
            WriterFault::OutOfMemory => Refusal::of_table(TableFault::OutOfMemory),
            WriterFault::LostCurrent(_) => missing(),
            WriterFault::UnflushedLog(number) => unflushed(*number),
            WriterFault::State(fault) => of_state(*fault),
        };
        write!(f, "{refusal}")
    }
}

/// Writes how a lost `CURRENT` is written anew.
fn write_cure<E: Write>(err: &mut E, highest: Option<u64>) -> io::Result<()> {
    match highest {
        Some(number) => writeln!(
            err,
            "no CURRENT is there, but MANIFEST-{number:06} is the last manifest: printf 'MANIFEST-{number:06}\\n' > DIR/CURRENT names it again, lsm repair DIR makes another of the tables; --begin begins a new database"
        ),
        None => writeln!(
            err,
            "neither CURRENT nor a manifest is there, but tables are: lsm repair DIR makes both, --begin begins a new database"
        ),
    }
}

/// Writes what a fault of the database means.
pub(crate) fn explain_state<E: Write>(
    err: &mut E,
    fault: StateFault,
    writes: &[KeyWrite],
) -> io::Result<()> {
    match fault {
        StateFault::TooLarge => write_limit(err, writes),
        StateFault::LevelZeroFull => {
            writeln!(err, "level 0 has 12 tables: lsm compact DIR makes room")
        }
        StateFault::KeyOrder(place) => {
            let line = place.saturating_add(1);
            writeln!(
                err,
                "line {line}: its key is not above that of the line before"
            )
        }
        StateFault::Halted => writeln!(
            err,
            "an earlier write of the manifest failed: nothing is written until DIR is opened anew"
        ),
        _ => Ok(()),
    }
}

impl Exit for WriterFault {
    ghost file = { table_file_of };

    ghost meaning = { λ _. None };

    fn table_file(&self) -> Option<u64> {
        match self {
            WriterFault::Directory(fault) => fault.file(),
            _ => None,
        }
    }

    fn refusal(&self) -> Option<u64> {
        match self {
            WriterFault::Directory(fault) => fault.refusal(),
            WriterFault::State(fault) => Some(u64::from(fault.number())),
            _ => None,
        }
    }

    fn explain<E: Write>(&self, err: &mut E, writes: &[KeyWrite]) -> io::Result<()> {
        match self {
            WriterFault::Read => {
                writeln!(err, "the file could not be read, or has more than 64 MiB")
            }
            WriterFault::BadLine(line, Some(fault)) => writeln!(err, "line {line}, {fault}"),
            WriterFault::BadLine(line, None) => {
                writeln!(err, "line {line} is not of the form KEY=VALUE or KEY!")
            }
            WriterFault::LostCurrent(highest) => write_cure(err, *highest),
            WriterFault::UnflushedLog(number) => writeln!(
                err,
                "{number:06}.log is not flushed: lsm recover DIR brings it in, lsm import DIR NEW copies the folder with it; --beside-log goes on all the same"
            ),
            WriterFault::Directory(fault) => fault.explain(err, writes),
            WriterFault::State(fault) => explain_state(err, *fault, writes),
            WriterFault::OutOfMemory | WriterFault::Write => Ok(()),
        }
    }
}

impl From<AllocError> for WriterFault {
    ghost from_gives = { λ _ f. f ≡ OutOfMemory };

    fn from(_error: AllocError) -> WriterFault {
        WriterFault::OutOfMemory
    }
}

impl<T: Drop> From<AllocFailed<T>> for WriterFault {
    ghost from_gives = { λ _ f. f ≡ OutOfMemory };

    fn from(_error: AllocFailed<T>) -> WriterFault {
        WriterFault::OutOfMemory
    }
}

impl From<InputFault> for WriterFault {
    ghost from_gives = { λ e f. f ≡ of_input e };

    fn from(error: InputFault) -> WriterFault {
        match error {
            InputFault::Read | InputFault::TooLong => WriterFault::Read,
            InputFault::OutOfMemory => WriterFault::OutOfMemory,
        }
    }
}

impl From<StateFault> for WriterFault {
    ghost from_gives = { λ e f. f ≡ StateVariant e };

    fn from(error: StateFault) -> WriterFault {
        WriterFault::State(error)
    }
}

impl From<DirectoryFault> for WriterFault {
    ghost from_gives = { λ e f. f ≡ DirectoryVariant e };

    fn from(error: DirectoryFault) -> WriterFault {
        WriterFault::Directory(error)
    }
}

impl From<ShelfFault> for WriterFault {
    ghost from_gives = { λ e f. f ≡ of_shelf e };

    fn from(error: ShelfFault) -> WriterFault {
        WriterFault::of_shelf(error)
    }
}

impl From<RecoverFault> for WriterFault {
    ghost from_gives = { λ e f. f ≡ of_manifest e };

    fn from(error: RecoverFault) -> WriterFault {
        WriterFault::Directory(DirectoryFault::Manifest(error))
    }
}

impl From<OpenFault> for WriterFault {
    ghost from_gives = { λ e f. f ≡ of_open e };

    fn from(error: OpenFault) -> WriterFault {
        WriterFault::of_open(error)
    }
}

impl From<OutputFault> for WriterFault {
    ghost from_gives = { λ _ f. f ≡ WriteVariant };

    fn from(_error: OutputFault) -> WriterFault {
        WriterFault::Write
    }
}
