//! What a worker has done.

use crate::worker_fault::WorkerFault;

/// What a worker has done when it ends.
#[derive(Clone, Copy, Debug, PartialEq, Eq)]
pub struct WorkerEnd {
    /// How many results it has installed. What it gathered is not counted.
    pub installed: u64,
    /// Why it ended early; none where nothing was left to reserve, or the body had answered beside
    /// which it worked.
    pub fault: Option<WorkerFault>,
}
