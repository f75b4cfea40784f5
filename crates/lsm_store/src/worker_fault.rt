//! Why a worker ended early.

ghost use Rattle.std.specs.Prelude.{◌≡◌};
ghost use Rattle.lsm_store.specs.WorkerFault.{name_of, number_of};

use lsm_merge::MergeFault;
use lsm_state::{GatherFault, StateFault};
use thiserror::Error;

/// Why a worker ended before nothing was left to do.
#[derive(Clone, Copy, Debug, Drop, Error, PartialEq, Eq)]
pub enum WorkerFault {
    /// Its thread could not be made: it has done nothing.
    #[error("OutOfMemory")]
    NoThread,
    /// The state refused a reservation, an install or a gather.
    #[error("{0}")]
    State(StateFault),
    /// A job was not finished, or files were not gathered.
    #[error("{0}")]
    Merge(MergeFault),
}

impl WorkerFault {
    /// The number of the refusal in docs/FORMATS.md. That of a thread that could not be made is 1,
    /// as for want of memory.
    pub fn number(&self) -> u8
        ensures { result ≡ number_of self.now }
    {
        match self {
            WorkerFault::NoThread => 1,
            WorkerFault::State(fault) => fault.number(),
            WorkerFault::Merge(fault) => fault.number(),
        }
    }

    /// The name of the refusal in docs/FORMATS.md, without its fields.
    pub fn name(&self) -> &'static str
        ensures { result.now ≡ name_of self.now }
    {
        match self {
            WorkerFault::NoThread => "OutOfMemory",
            WorkerFault::State(fault) => fault.name(),
            WorkerFault::Merge(fault) => fault.name(),
        }
    }
}

impl From<StateFault> for WorkerFault {
    ghost use Rattle.lsm_store.specs.declared.worker_fault.WorkerFault.TheVariants.{State};

    ghost from_gives = { λ fault e. e ≡ State fault };

    fn from(fault: StateFault) -> WorkerFault {
        WorkerFault::State(fault)
    }
}

impl From<GatherFault> for WorkerFault {
    ghost use Rattle.lsm_store.specs.WorkerFault.{of_gather};

    ghost from_gives = { λ fault e. e ≡ of_gather fault };

    fn from(fault: GatherFault) -> WorkerFault {
        match fault {
            GatherFault::State(fault) => WorkerFault::State(fault),
            GatherFault::Merge(fault) => WorkerFault::Merge(fault),
        }
    }
}
