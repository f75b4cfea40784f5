//! What is left behind the lines: whether workers ended early, and whether nothing is due.

ghost use Rattle.std.specs.Prelude.{◌≡◌, ◌≢◌, ℕ, All, IfErr, OnErr, OnOk};
ghost use Rattle.lsm_live.specs.Booked.{HasTicket};
ghost use Rattle.lsm_store.specs.Ends.{IsFaultless};
ghost use Rattle.lsm_bulk_load.specs.Ending.{IsIdle, IsLate, IsLooked, ReservesNone};
ghost use Rattle.lsm_bulk_load.specs.Marks.{IsEven, marked_in};
ghost use Rattle.lsm_bulk_load.specs.declared.load_fault.LoadFault.TheVariants.{Due};

use crate::load_fault::LoadFault;
use crate::mark::Mark;
use crate::origin::Origin;
use lsm_slots::Boarded;
use lsm_state::State;
use lsm_store::{WorkerEnd, judge_ends};
use lsm_table::Shelf;
use std::alloc::Global;

/// Gives a job up again.
fn give_up<N: Boarded, S: Shelf>(state: &mut State<N, S>, ticket: u64)
    ensures rest { state.new ≡ record state.old { live = state.new.live } }
    ensures gone { (other : ℕ) → HasTicket state.new.live other
        → HasTicket state.old.live other × (other ≢ ticket) }
{
    match state.cancel(ticket) {
        Ok(()) => {}
        // A job that is not live needs no cancel.
        Err(_) => {}
    }
}

/// Whether a worker would find nothing to gather, and nothing to compact. What is reserved is given
/// up again.
#[tactic(auto, using(crate::proofs::EndingLaws::looked_none, crate::proofs::EndingLaws::looked_mark, crate::proofs::EndingLaws::reserves_same))]
fn nothing_is_due<N: Boarded, S: Shelf>(
    alloc: Global,
    state: &mut State<N, S>,
) -> Result<(), LoadFault>
    ensures idle { OnOk result (S.honest → IsIdle state.new) }
    ensures due { IfErr result (λ e. e ≡ Due) }
    ensures looked { IsLooked state.old state.new }
    ensures none { ReservesNone state.old state.new }
    ensures same { marked_in state.new ≡ marked_in state.old }
{
    let Ok(true) = state.has_none_to_gather(alloc) else {
        return Err(LoadFault::Due);
    };
    match state.reserve_next(alloc) {
        Ok(None) => Ok(()),
        Ok(Some(job)) => {
            give_up(state, job.ticket());
            Err(LoadFault::Due)
        }
        Err(_) => Err(LoadFault::Due),
    }
}

/// Whether all is done, where lines came in up to a mark, and workers ended so: the state is just
/// as far as the mark, all lines are in, no worker ended early, and nothing is due.
#[tactic(auto, using(crate::proofs::EndingLaws::late_other, crate::proofs::EndingLaws::late_lines, crate::proofs::EndingLaws::late_worker, crate::proofs::EndingLaws::late_due, crate::proofs::EndingLaws::none_refused, crate::proofs::EndingLaws::looked_none, crate::proofs::EndingLaws::reserves_same))]
pub(crate) fn finish<N: Boarded, S: Shelf, O: Origin>(
    alloc: Global,
    mark: Mark<N, O>,
    state: &mut State<N, S>,
    loaded: Result<(), LoadFault>,
    ends: &[WorkerEnd],
) -> Result<(), LoadFault>
    requires { IsEven O.found (marked_in state.old) }
    ensures as_far { OnOk result (marked_in state.new ≡ mark) }
    ensures loaded { OnOk result (OnErr loaded ⊥) }
    ensures idle { OnOk result (S.honest → IsIdle state.new) }
    ensures faultless { OnOk result (All IsFaultless ends.now) }
    ensures looked { IsLooked state.old state.new }
    ensures none { ReservesNone state.old state.new }
    ensures late { IfErr result (λ e. IsLate mark (marked_in state.new) loaded ends.now e) }
{
    if !mark.is_of(state) {
        return Err(LoadFault::Other);
    }
    match loaded {
        Ok(()) => {}
        Err(fault) => return Err(fault),
    }
    match judge_ends(ends) {
        Ok(()) => nothing_is_due(alloc, state),
        Err(fault) => Err(LoadFault::Worker(fault)),
    }
}
