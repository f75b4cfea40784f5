//! How workers ended, all together.

ghost use Rattle.std.specs.Prelude.{◌≡◌, All, IfErr, OnOk};
ghost use Rattle.lsm_store.specs.Ends.{IsFaultless, IsFirstFault};

use crate::worker_end::WorkerEnd;
use crate::worker_fault::WorkerFault;

/// The fault of a worker, if it has one.
fn fault_of(end: &WorkerEnd) -> Option<WorkerFault>
    ensures { result ≡ end.now.fault }
{
    end.fault
}

/// Ok where no worker has a fault; else the fault of the first one that has one.
pub fn judge_ends(ends: &[WorkerEnd]) -> Result<(), WorkerFault>
    ensures faultless { OnOk result (All IsFaultless ends.now) }
    ensures first { IfErr result (λ fault. IsFirstFault fault ends.now) }
{
    for end in ends {
        if let Some(fault) = fault_of(end) {
            return Err(fault);
        }
    }
    Ok(())
}
