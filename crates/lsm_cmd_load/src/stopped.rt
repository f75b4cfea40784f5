//! Why a load ends with status 1.

ghost use Rattle.std.specs.Prelude.{◌≡◌, IfSome, None, OnOk};
ghost use Rattle.std.specs.Io.KnownBytes.{Appends};
ghost use Rattle.lsm_cmd_load.specs.StoppedText.{came_text, last_in, line_meaning, line_text};
ghost use Rattle.lsm_cmd_load.specs.StoppedText.{load_meaning, load_text, stopped_meaning};
ghost use Rattle.lsm_cmd_load.specs.StoppedText.{stopped_text};
ghost use Rattle.lsm_cmd_load.specs.declared.stopped.Stopped.TheVariants.{Before, Sweep};
ghost use Rattle.lsm_opening.specs.declared.faults.writer_fault.WriterFault.TheVariants.{Directory};
ghost use Rattle.lsm_opening.specs.declared.faults.writer_fault.WriterFault.TheVariants.{OutOfMemory};

use lsm_batch::Write as KeyWrite;
use lsm_bulk_load::LoadFault;
use lsm_directory::{DirectoryFault, Exit};
use lsm_lines::{LineFault, WriteLineFault};
use lsm_opening::{CompactFault, WriterFault};
use lsm_state::StateFault;
use lsm_store::WorkerFault;
use lsm_text::LineSyntaxFault;
use std::alloc::AllocError;
use std::fmt;
use std::io::{self, Write};

/// Why a load ends with status 1. It prints as a text without a newline.
#[derive(Debug, Drop)]
pub enum Stopped {
    /// Nothing came in: memory ran out, the input could not be read, or the directory was not
    /// locked, looked at, begun or opened.
    Before(WriterFault),
    /// The lines before the one of this number, from 1, are in, and this kept the others out, or
    /// what was due from being compacted.
    Lines(LoadFault, u128),
    /// All lines are in, and tables that are not needed any more were not removed.
    Sweep(StateFault),
    /// All is done, and the reply was not written.
    Write,
}

impl Stopped {
    /// The number of the last line that is in, where not all are; 0 where none is.
    pub(crate) fn last_in(&self) -> Option<u128>
        ensures { result ≡ last_in self.now }
    {
        match self {
            Stopped::Lines(_, line) => Some(line.saturating_sub(1)),
            _ => None,
        }
    }
}

/// A line of this number that is no write. It prints as a text without a newline.
#[derive(Drop)]
struct BadLine(WriteLineFault, u128);

impl fmt::Display for BadLine {
    ghost output = { λ l. line_text l.0 l.1 };

    fn fmt<W: fmt::Write>(&self, f: &mut fmt::Formatter<W>) -> fmt::Result {
        let BadLine(fault, line) = self;
        match fault {
            WriteLineFault::BadLine(_)
            | WriteLineFault::LongLine
            | WriteLineFault::LargeWrite
            | WriteLineFault::NoNewline => write!(f, "bad line {line}"),
            WriteLineFault::Read => write!(f, "{}", WriterFault::Read),
            WriteLineFault::OutOfMemory => write!(f, "{}", WriterFault::OutOfMemory),
        }
    }
}

/// What kept the lines from the one of this number on out, or what was due from being compacted. It
/// prints as a text without a newline.
#[derive(Drop)]
struct Unloaded(LoadFault, u128);

impl fmt::Display for Unloaded {
    ghost output = { λ u. load_text u.0 u.1 };

    fn fmt<W: fmt::Write>(&self, f: &mut fmt::Formatter<W>) -> fmt::Result {
        let Unloaded(fault, line) = self;
        match *fault {
            LoadFault::OutOfMemory => write!(f, "{}", WriterFault::OutOfMemory),
            LoadFault::Shelf(fault) => write!(f, "{}", WriterFault::of_shelf(fault)),
            LoadFault::Line(fault) => write!(f, "{}", BadLine(fault, *line)),
            LoadFault::Ingest(fault) => write!(f, "{}", WriterFault::State(fault)),
            LoadFault::Other => f.write_str("another batch came in between these"),
            LoadFault::Worker(fault) => write!(f, "{}", CompactFault::Worker(fault)),
            LoadFault::Due => f.write_str("something is left to compact"),
        }
    }
}

impl fmt::Display for Stopped {
    ghost output = { stopped_text };

    fn fmt<W: fmt::Write>(&self, f: &mut fmt::Formatter<W>) -> fmt::Result {
        match self {
            Stopped::Before(fault) => write!(f, "{fault}"),
            Stopped::Lines(fault, line) => write!(f, "{}", Unloaded(*fault, *line)),
            Stopped::Sweep(fault) => write!(f, "{}", WriterFault::State(*fault)),
            Stopped::Write => write!(f, "{}", WriterFault::Write),
        }
    }
}

/// Writes which lines are in: `lines 1 to 131072 are in`.
pub(crate) fn write_came<E: Write>(err: &mut E, last: u128) -> io::Result<()>
    ensures { OnOk result (Appends (E.contents err.old) (E.contents err.new) (came_text last)) }
{
    if last == 0 {
        return writeln!(err, "no line is in");
    }
    writeln!(err, "lines 1 to {last} are in")
}

/// Writes which lines are in, where not all are.
pub(crate) fn write_last<E: Write>(err: &mut E, last: Option<u128>) -> io::Result<()>
    ensures { OnOk result (IfSome last (λ n.
        Appends (E.contents err.old) (E.contents err.new) (came_text n))) }
{
    match last {
        Some(last) => write_came(err, last),
        None => Ok(()),
    }
}

/// Where a line of words stops being one; none of an object.
fn words_fault(place: Option<LineFault>) -> Option<LineSyntaxFault> {
    match place {
        Some(LineFault::Words(fault)) => Some(fault),
        Some(LineFault::Object(_)) | None => None,
    }
}

/// A line that is no write, as other commands tell it.
fn fault_of_line(fault: WriteLineFault, line: u128) -> WriterFault {
    let line = usize::try_from(line).unwrap_or(usize::MAX);
    match fault {
        WriteLineFault::BadLine(place) => WriterFault::BadLine(line, words_fault(place)),
        WriteLineFault::LongLine | WriteLineFault::LargeWrite | WriteLineFault::NoNewline => {
            WriterFault::BadLine(line, None)
        }
        WriteLineFault::Read => WriterFault::Read,
        WriteLineFault::OutOfMemory => WriterFault::OutOfMemory,
    }
}

/// What kept lines out, as other commands tell it; none where they have no such fault.
fn fault_of_load(fault: LoadFault, line: u128) -> Option<CompactFault> {
    match fault {
        LoadFault::OutOfMemory => Some(CompactFault::Writer(WriterFault::OutOfMemory)),
        LoadFault::Shelf(fault) => Some(CompactFault::Writer(WriterFault::of_shelf(fault))),
        LoadFault::Line(fault) => Some(CompactFault::Writer(fault_of_line(fault, line))),
        LoadFault::Ingest(fault) => Some(CompactFault::Writer(WriterFault::State(fault))),
        LoadFault::Worker(fault) => Some(CompactFault::Worker(fault)),
        LoadFault::Other | LoadFault::Due => None,
    }
}

/// Writes where a line stops being one of its form.
fn explain_bad<E: Write>(err: &mut E, place: Option<LineFault>, line: u128) -> io::Result<()> {
    match place {
        Some(LineFault::Object(fault)) => writeln!(err, "line {line}, {fault}"),
        place => fault_of_line(WriteLineFault::BadLine(place), line).explain(err, &[]),
    }
}

/// Writes what is wrong with the first line that is not in.
fn explain_line<E: Write>(err: &mut E, fault: WriteLineFault, line: u128) -> io::Result<()>
    ensures { OnOk result (IfSome (line_meaning fault line) (λ text.
        Appends (E.contents err.old) (E.contents err.new) text)) }
{
    match fault {
        WriteLineFault::BadLine(place) => explain_bad(err, place, line),
        WriteLineFault::LongLine => writeln!(err, "line {line} has more than 8388608 bytes"),
        WriteLineFault::LargeWrite => writeln!(
            err,
            "line {line}: its key has more than 4096 bytes, or its value more than 1048576"
        ),
        WriteLineFault::NoNewline => writeln!(
            err,
            "line {line} has no newline, so that it may be cut; --last-line takes it"
        ),
        WriteLineFault::Read => writeln!(err, "the input could not be read any further"),
        fault => fault_of_line(fault, line).explain(err, &[]),
    }
}

/// Writes what is left where all lines are in, and something is due.
fn explain_due<E: Write>(err: &mut E) -> io::Result<()> {
    writeln!(err, "all lines are in; what is due is left to lsm compact")
}

/// Writes what a worker's early end means.
fn explain_worker<E: Write>(err: &mut E, fault: WorkerFault) -> io::Result<()> {
    CompactFault::Worker(fault).explain(err, &[])?;
    explain_due(err)
}

/// Writes what a fault of a load means.
fn explain_load<E: Write>(err: &mut E, fault: LoadFault, line: u128) -> io::Result<()>
    ensures { OnOk result (IfSome (load_meaning fault line) (λ text.
        Appends (E.contents err.old) (E.contents err.new) text)) }
{
    match fault {
        LoadFault::Line(fault) => explain_line(err, fault, line),
        LoadFault::Worker(fault) => explain_worker(err, fault),
        LoadFault::Due => explain_due(err),
        fault => match fault_of_load(fault, line) {
            Some(fault) => fault.explain(err, &[]),
            None => Ok(()),
        },
    }
}

impl Exit for Stopped {
    ghost file = { λ _. None };

    ghost meaning = { stopped_meaning };

    fn table_file(&self) -> Option<u64> {
        None
    }

    fn refusal(&self) -> Option<u64> {
        match self {
            Stopped::Before(fault) => fault.refusal(),
            Stopped::Lines(fault, line) => fault_of_load(*fault, *line)?.refusal(),
            Stopped::Sweep(fault) => Some(u64::from(fault.number())),
            Stopped::Write => None,
        }
    }

    fn explain<E: Write>(&self, err: &mut E, writes: &[KeyWrite]) -> io::Result<()> {
        match self {
            Stopped::Before(fault) => fault.explain(err, writes),
            Stopped::Lines(fault, line) => explain_load(err, *fault, *line),
            Stopped::Sweep(_) | Stopped::Write => {
                writeln!(err, "all lines are in, and what was due is compacted")
            }
        }
    }
}

impl From<WriterFault> for Stopped {
    ghost from_gives = { λ e f. f ≡ Before e };

    fn from(error: WriterFault) -> Stopped {
        Stopped::Before(error)
    }
}

impl From<DirectoryFault> for Stopped {
    ghost from_gives = { λ e f. f ≡ Before (Directory e) };

    fn from(error: DirectoryFault) -> Stopped {
        Stopped::Before(WriterFault::Directory(error))
    }
}

impl From<AllocError> for Stopped {
    ghost from_gives = { λ _ f. f ≡ Before OutOfMemory };

    fn from(_error: AllocError) -> Stopped {
        Stopped::Before(WriterFault::OutOfMemory)
    }
}

impl From<StateFault> for Stopped {
    ghost from_gives = { λ e f. f ≡ Sweep e };

    fn from(error: StateFault) -> Stopped {
        Stopped::Sweep(error)
    }
}
