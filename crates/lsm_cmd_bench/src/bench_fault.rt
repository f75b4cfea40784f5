//! Why a run of `bench` ends with status 1.

ghost use Rattle.std.specs.Prelude.{◌≡◌, None};
ghost use Rattle.lsm_cmd_bench.specs.declared.bench_fault.BenchFault.TheVariants.{Before, State as StateStopped};
ghost use Rattle.lsm_opening.specs.declared.faults.writer_fault.WriterFault.TheVariants.{Directory};
ghost use Rattle.lsm_opening.specs.declared.faults.writer_fault.WriterFault.TheVariants.{OutOfMemory};
ghost use Rattle.lsm_state.specs.declared.state_fault.StateFault.TheVariants.{OutOfMemory as StateMemory};

use lsm_batch::Write as KeyWrite;
use lsm_bulk_load::LoadFault;
use lsm_directory::{DirectoryFault, Exit};
use lsm_opening::{CompactFault, WriterFault};
use lsm_state::StateFault;
use lsm_store::WorkerFault;
use lsm_table::{ReadFault, ShelfFault};
use std::alloc::AllocError;
use std::fmt;
use std::io::{self, Write};

/// Why a run of `bench` ends with status 1. It prints as a text without a newline.
#[derive(Debug, Drop)]
pub enum BenchFault {
    /// Nothing was measured: memory ran out, or the folder was not locked, looked at or begun.
    Before(WriterFault),
    /// The folder has a database already.
    IsThere,
    /// The database refused.
    State(StateFault),
    /// A batch came in that is not of these benchmarks.
    Other,
    /// A worker ended early.
    Worker(WorkerFault),
    /// The clock of the system could not be read.
    Clock,
    /// A write failed on standard output.
    Write,
}

impl BenchFault {
    /// A read that the database refused.
    pub(crate) fn of_read(fault: ReadFault) -> BenchFault {
        BenchFault::State(StateFault::from(fault))
    }

    /// A refusal of the shelf.
    pub(crate) fn of_shelf(fault: ShelfFault) -> BenchFault {
        BenchFault::Before(WriterFault::of_shelf(fault))
    }

    /// A batch that did not come in, or not alone.
    pub(crate) fn of_batch(fault: LoadFault) -> BenchFault {
        match fault {
            LoadFault::Ingest(fault) => BenchFault::State(fault),
            _ => BenchFault::Other,
        }
    }
}

impl fmt::Display for BenchFault {
    ghost output = { λ _. None };

    fn fmt<W: fmt::Write>(&self, f: &mut fmt::Formatter<W>) -> fmt::Result {
        match self {
            BenchFault::Before(fault) => write!(f, "{fault}"),
            BenchFault::IsThere => f.write_str("refused 53 IsThere"),
            BenchFault::State(fault) => write!(f, "{}", WriterFault::State(*fault)),
            BenchFault::Worker(fault) => write!(f, "{}", CompactFault::Worker(*fault)),
            BenchFault::Other => f.write_str("another batch came in between these"),
            BenchFault::Clock => f.write_str("clock fault"),
            BenchFault::Write => write!(f, "{}", WriterFault::Write),
        }
    }
}

impl Exit for BenchFault {
    ghost file = { λ _. None };

    ghost meaning = { λ _. None };

    fn table_file(&self) -> Option<u64> {
        None
    }

    fn refusal(&self) -> Option<u64> {
        match self {
            BenchFault::Before(fault) => fault.refusal(),
            BenchFault::State(fault) => Some(u64::from(fault.number())),
            BenchFault::Worker(fault) => Some(u64::from(fault.number())),
            _ => None,
        }
    }

    fn explain<E: Write>(&self, err: &mut E, writes: &[KeyWrite]) -> io::Result<()> {
        match self {
            BenchFault::Before(WriterFault::LostCurrent(_)) => writeln!(
                err,
                "no CURRENT is there, but files of a database: bench fills a folder that has none"
            ),
            BenchFault::Before(fault) => fault.explain(err, writes),
            BenchFault::IsThere => writeln!(
                err,
                "the folder has a database: bench fills a folder that has none"
            ),
            BenchFault::Worker(fault) => CompactFault::Worker(*fault).explain(err, &[]),
            _ => Ok(()),
        }
    }
}

impl From<WriterFault> for BenchFault {
    ghost from_gives = { λ e f. f ≡ Before e };

    fn from(error: WriterFault) -> BenchFault {
        BenchFault::Before(error)
    }
}

impl From<DirectoryFault> for BenchFault {
    ghost from_gives = { λ e f. f ≡ Before (Directory e) };

    fn from(error: DirectoryFault) -> BenchFault {
        BenchFault::Before(WriterFault::Directory(error))
    }
}

impl From<AllocError> for BenchFault {
    ghost from_gives = { λ _ f. f ≡ Before OutOfMemory };

    fn from(_error: AllocError) -> BenchFault {
        BenchFault::Before(WriterFault::OutOfMemory)
    }
}

impl From<StateFault> for BenchFault {
    ghost from_gives = { λ e f. f ≡ StateStopped e };

    fn from(error: StateFault) -> BenchFault {
        BenchFault::State(error)
    }
}
