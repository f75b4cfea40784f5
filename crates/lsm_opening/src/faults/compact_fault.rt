//! Why a command that lets workers compact ends with status 1.

ghost use Rattle.std.specs.Prelude.{◌≡◌, None};
ghost use Rattle.lsm_opening.specs.WriterFault.{of_shelf};
ghost use Rattle.lsm_opening.specs.declared.faults.writer_fault.WriterFault.TheVariants.{Directory as DirectoryVariant};
ghost use Rattle.lsm_opening.specs.declared.faults.writer_fault.WriterFault.TheVariants.{OutOfMemory};
ghost use Rattle.lsm_opening.specs.declared.faults.writer_fault.WriterFault.TheVariants.{State as StateVariant};
ghost use Rattle.lsm_opening.specs.CompactFault.{fault_text, table_file_of, table_of_merge};
ghost use Rattle.lsm_opening.specs.declared.faults.compact_fault.CompactFault.TheVariants.{Writer as WriterVariant};
ghost use Rattle.lsm_opening.specs.declared.faults.compact_fault.CompactFault.TheVariants.{Worker as WorkerVariant};

use crate::faults::writer_fault::{WriterFault, explain_state, missing};
use lsm_batch::Write as KeyWrite;
use lsm_directory::{DirectoryFault, Exit};
use lsm_merge::MergeFault;
use lsm_refusals::{cause_of_merge, of_merge};
use lsm_state::StateFault;
use lsm_store::WorkerFault;
use lsm_table::ShelfFault;
use std::alloc::AllocError;
use std::fmt;
use std::io::{self, Write};

/// What a command that lets workers compact a directory could not do. It prints as a text without a
/// newline.
#[derive(Debug, Drop)]
pub enum CompactFault {
    /// Memory ran out, the directory was not locked or opened, a shelf failed to fork, the database
    /// refused to collect, or a write failed.
    Writer(WriterFault),
    /// A worker ended early.
    Worker(WorkerFault),
    /// The directory names another manifest than the one that the database has written.
    OtherManifest,
}

impl CompactFault {
    /// A refusal of the shelf.
    pub fn of_shelf(fault: ShelfFault) -> CompactFault
        ensures { result ≡ WriterVariant (of_shelf fault) }
    {
        CompactFault::Writer(WriterFault::of_shelf(fault))
    }
}

impl fmt::Display for CompactFault {
    ghost output = { λ f. fault_text f };

    fn fmt<W: fmt::Write>(&self, f: &mut fmt::Formatter<W>) -> fmt::Result {
        let fault = match self {
            CompactFault::Writer(fault) => return write!(f, "{fault}"),
            CompactFault::OtherManifest => return write!(f, "{}", missing()),
            CompactFault::Worker(WorkerFault::NoThread) => {
                return write!(f, "{}", WriterFault::OutOfMemory);
            }
            CompactFault::Worker(WorkerFault::State(fault)) => {
                return write!(f, "{}", WriterFault::State(*fault));
            }
            CompactFault::Worker(WorkerFault::Merge(fault)) => *fault,
        };
        let refusal = of_merge(fault);
        match cause_of_merge(fault) {
            Some(cause) => write!(f, "{refusal} {cause}"),
            None => write!(f, "{refusal}"),
        }
    }
}

/// The number of the file that a merge failed to read or to put.
fn table_of_merge(fault: MergeFault) -> Option<u64>
    ensures { result ≡ table_of_merge fault }
{
    match fault {
        MergeFault::ReadFailed(number, _) | MergeFault::PutFailed(number, _) => Some(number),
        MergeFault::OutOfMemory | MergeFault::UnknownTicket(_) | MergeFault::NumbersSpent => None,
    }
}

impl Exit for CompactFault {
    ghost file = { table_file_of };

    ghost meaning = { λ _. None };

    fn table_file(&self) -> Option<u64> {
        match self {
            CompactFault::Writer(fault) => fault.table_file(),
            CompactFault::Worker(WorkerFault::Merge(fault)) => table_of_merge(*fault),
            CompactFault::Worker(WorkerFault::NoThread | WorkerFault::State(_))
            | CompactFault::OtherManifest => None,
        }
    }

    fn refusal(&self) -> Option<u64> {
        match self {
            CompactFault::Writer(fault) => fault.refusal(),
            CompactFault::Worker(WorkerFault::NoThread) => None,
            CompactFault::OtherManifest => Some(10),
            CompactFault::Worker(WorkerFault::State(fault)) => Some(u64::from(fault.number())),
            CompactFault::Worker(WorkerFault::Merge(fault)) => cause_of_merge(*fault),
        }
    }

    fn explain<E: Write>(&self, err: &mut E, writes: &[KeyWrite]) -> io::Result<()> {
        match self {
            CompactFault::Writer(fault) => fault.explain(err, writes),
            CompactFault::Worker(WorkerFault::State(fault)) => explain_state(err, *fault, writes),
            CompactFault::OtherManifest => writeln!(
                err,
                "another program has written the manifest meanwhile: no table was removed"
            ),
            CompactFault::Worker(WorkerFault::NoThread | WorkerFault::Merge(_)) => Ok(()),
        }
    }
}

impl From<WriterFault> for CompactFault {
    ghost from_gives = { λ e f. f ≡ WriterVariant e };

    fn from(error: WriterFault) -> CompactFault {
        CompactFault::Writer(error)
    }
}

impl From<StateFault> for CompactFault {
    ghost from_gives = { λ e f. f ≡ WriterVariant (StateVariant e) };

    fn from(error: StateFault) -> CompactFault {
        CompactFault::Writer(WriterFault::State(error))
    }
}

impl From<AllocError> for CompactFault {
    ghost from_gives = { λ _ f. f ≡ WriterVariant OutOfMemory };

    fn from(_error: AllocError) -> CompactFault {
        CompactFault::Writer(WriterFault::OutOfMemory)
    }
}

impl From<WorkerFault> for CompactFault {
    ghost from_gives = { λ e f. f ≡ WorkerVariant e };

    fn from(error: WorkerFault) -> CompactFault {
        CompactFault::Worker(error)
    }
}

impl From<DirectoryFault> for CompactFault {
    ghost from_gives = { λ e f. f ≡ WriterVariant (DirectoryVariant e) };

    fn from(error: DirectoryFault) -> CompactFault {
        CompactFault::Writer(WriterFault::Directory(error))
    }
}
