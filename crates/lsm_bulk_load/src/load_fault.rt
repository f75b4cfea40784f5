//! Why not all lines are loaded.

ghost use Rattle.std.specs.Prelude.{◌≡◌};
ghost use Rattle.lsm_bulk_load.specs.declared.load_fault.LoadFault.TheVariants.{OutOfMemory};

use lsm_lines::WriteLineFault;
use lsm_state::StateFault;
use lsm_store::WorkerFault;
use lsm_table::ShelfFault;
use std::alloc::AllocFailed;

/// Why not all lines are loaded, or what was due is not compacted behind them.
#[derive(Clone, Copy, Debug)]
pub enum LoadFault {
    /// There is no memory for a batch, or for the workers.
    OutOfMemory,
    /// The shelf gave no fork for a worker.
    Shelf(ShelfFault),
    /// The line behind those that are in is no write of a batch.
    Line(WriteLineFault),
    /// The next batch was refused.
    Ingest(StateFault),
    /// A batch that is not of these lines came in between two of them, or behind them.
    Other,
    /// All lines are in, and the first worker that ended early did so by this.
    Worker(WorkerFault),
    /// All lines are in, and there is still something to gather or to compact, or that could not be
    /// told.
    Due,
}

impl<T: Drop> From<AllocFailed<T>> for LoadFault {
    ghost from_gives = { λ _ f. f ≡ OutOfMemory };

    fn from(_error: AllocFailed<T>) -> LoadFault {
        LoadFault::OutOfMemory
    }
}
