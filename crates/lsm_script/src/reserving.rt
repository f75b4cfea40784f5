//! Reservations.

ghost use Rattle.std.specs.Prelude.{◌≡◌, ◌<◌, ◌++◌, IfOk, OnOk, vec_capacity, vec_len};
ghost use Rattle.lsm_live.specs.Booked.{HasTicket};
ghost use Rattle.lsm_merge.specs.Inputs.{input_numbers, numbers_of};
ghost use Rattle.lsm_script.specs.Replies.{IsCancelReply, IsKeepReply, IsRangeReply};
ghost use Rattle.lsm_script.specs.Replies.{IsReserveReply, SaysJob};

use crate::reply::{Reply, Reserved};
use lsm_codec::List;
use lsm_merge::Job;
use lsm_slots::Boarded;
use lsm_state::State;
use lsm_table::{Naming, Registry, Shelf, TableRef};
use std::alloc::{AllocError, Global};

/// Appends the numbers of tables.
fn push_numbers<N: Naming, S: Shelf>(
    registry: &Registry<N, S>,
    tables: &[TableRef<N, S>],
    numbers: &mut Vec<u64>,
) -> Result<(), AllocError>
    ensures { OnOk result (numbers.new.items ≡ numbers.old.items ++ numbers_of tables.now) }
{
    for table in tables {
        numbers.push(registry.record(table).number())?;
    }
    Ok(())
}

/// The numbers of a job's inputs, those of its level first.
fn inputs_of<N: Naming, S: Shelf>(
    alloc: Global,
    registry: &Registry<N, S>,
    job: &Job<N, S>,
) -> Result<List<u64>, AllocError>
    ensures { IfOk result (λ v. v ≡ input_numbers job.now) }
{
    let mut numbers = Vec::new(alloc);
    push_numbers(registry, job.upper(), &mut numbers)?;
    push_numbers(registry, job.lower(), &mut numbers)?;
    Ok(List::of(numbers))
}

/// The reply to a reservation of the job, whose inputs have these numbers.
fn said<N: Naming, S: Shelf>(job: &Job<N, S>, inputs: List<u64>) -> Reply
    requires { inputs ≡ input_numbers job.now }
    ensures { SaysJob job.now result }
{
    let reserved = Reserved {
        ticket: job.ticket(),
        level: job.level(),
        inputs,
    };
    if job.is_move() {
        Reply::Move(reserved)
    } else {
        Reply::Job(reserved)
    }
}

/// Keeps a job that was just reserved. Where there is no memory to say its inputs, it is cancelled.
fn keep<N: Boarded, S: Shelf>(
    alloc: Global,
    state: &mut State<N, S>,
    registry: &Registry<N, S>,
    jobs: &mut Vec<Job<N, S>>,
    job: Job<N, S>,
) -> Reply
    requires room { vec_len jobs.old < vec_capacity jobs.old }
    requires live { HasTicket state.old.live job.ticket }
    ensures kept { IsKeepReply job result state.old state.new jobs.old.items jobs.new.items }
{
    let ticket = job.ticket();
    let Ok(inputs) = inputs_of(alloc, registry, &job) else {
        let _cancelled = state.cancel(ticket);
        return Reply::out_of_memory();
    };
    let reply = said(&job, inputs);
    let Ok(()) = jobs.push(job) else {
        unreachable!()
    };
    reply
}

/// Reserves the compaction that is chosen.
#[tactic(auto, using(crate::proofs::Elements::added_is_live))]
pub(crate) fn reserve<N: Boarded, S: Shelf>(
    alloc: Global,
    state: &mut State<N, S>,
    registry: &Registry<N, S>,
    jobs: &mut Vec<Job<N, S>>,
) -> Reply
    ensures { IsReserveReply S.honest result state.old state.new jobs.old.items jobs.new.items }
{
    if jobs.reserve(1).is_err() {
        return Reply::out_of_memory();
    }
    let found = match state.reserve(alloc) {
        Ok(found) => found,
        Err(fault) => return Reply::refused(fault),
    };
    let Some(job) = found else {
        return Reply::NoJob;
    };
    keep(alloc, state, registry, jobs, job)
}

/// Reserves the compaction of the files of the level that meet the range.
#[tactic(auto, using(crate::proofs::Elements::added_is_live))]
pub(crate) fn reserve_range<N: Boarded, S: Shelf>(
    alloc: Global,
    state: &mut State<N, S>,
    registry: &Registry<N, S>,
    jobs: &mut Vec<Job<N, S>>,
    level: u8,
    from: &[u8],
    to: &[u8],
) -> Reply
    ensures { IsRangeReply S.honest level from.now to.now result state.old state.new jobs.old.items
        jobs.new.items }
{
    if jobs.reserve(1).is_err() {
        return Reply::out_of_memory();
    }
    let found = match state.reserve_range(alloc, level, from, to) {
        Ok(found) => found,
        Err(fault) => return Reply::refused(fault),
    };
    let Some(job) = found else {
        return Reply::NoJob;
    };
    keep(alloc, state, registry, jobs, job)
}

/// Gives up the live job of this ticket.
pub(crate) fn cancel<N: Boarded, S: Shelf>(state: &mut State<N, S>, ticket: u64) -> Reply
    ensures { IsCancelReply ticket result state.old state.new }
{
    match state.cancel(ticket) {
        Ok(()) => Reply::Cancelled,
        Err(fault) => Reply::refused(fault),
    }
}
