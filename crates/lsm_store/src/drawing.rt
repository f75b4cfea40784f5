//! Numbers drawn under the lock, for workers that ask.

ghost use Rattle.std.specs.Prelude.{◌≡◌, suc, IfErr, IfOk, OnErr};
ghost use Rattle.lsm_live.specs.Booked.{booked};
ghost use Rattle.lsm_merge.specs.NumberFault.{IsOfTicket};
ghost use Rattle.lsm_store.specs.Compacting.{IsCompactingStep, IsKeptByCompaction};

use crate::invariant::Invariant;
use crate::number_service::NumberService;
use crate::store::Store;
use lsm_merge::NumberFault;
use lsm_slots::Boarded;
use lsm_state::{State, StateFault};
use lsm_table::Shelf;
use std::sync::Wait;

/// The state's next number, booked under the ticket.
#[tactic(auto, using(crate::proofs::CompactingLaws::step_none, crate::proofs::CompactingLaws::step_drawn))]
fn draw<N: Boarded, S: Shelf>(state: &mut State<N, S>, ticket: u64) -> Result<u64, NumberFault>
    ensures ok { IfOk result (λ n. (n ≡ state.old.next)
        × (state.new ≡ record state.old { live = booked ticket n state.old.live; next = suc n })) }
    ensures err { OnErr result (state.new ≡ state.old) }
    ensures named { IfErr result (λ e. IsOfTicket e ticket) }
    ensures step { IsCompactingStep S.honest state.old state.new }
{
    match state.new_number(ticket) {
        Ok(number) => Ok(number),
        Err(StateFault::OutOfMemory) => Err(NumberFault::OutOfMemory),
        Err(StateFault::UnknownTicket(ticket)) => Err(NumberFault::UnknownTicket(ticket)),
        Err(StateFault::NumbersSpent) => Err(NumberFault::NumbersSpent),
        Err(_) => unreachable!(),
    }
}

/// A number drawn under the lock.
fn draw_under_lock<N: Boarded, S: Shelf, K: Invariant, R: Wait>(
    rt: &R,
    store: &Store<N, S, K>,
    ticket: u64,
) -> Result<u64, NumberFault>
    requires kept { IsKeptByCompaction S.honest K.keeps }
{
    draw(&mut store.lock(rt).state, ticket)
}

/// Draws a number for each worker that asks, until none may ask any more.
pub(crate) fn draw_for_all<N: Boarded, S: Shelf, K: Invariant, R: Wait>(
    rt: &R,
    store: &Store<N, S, K>,
    service: &NumberService,
)
    requires kept { IsKeptByCompaction S.honest K.keeps }
{
    for _ in rt.forever() {
        let Some(ticket) = service.next(rt) else {
            return;
        };
        service.answer(rt, draw_under_lock(rt, store, ticket));
    }
}
