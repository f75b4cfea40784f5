//! Merges.

ghost use Rattle.std.specs.Prelude.{◌≡◌, [], IfErr, IfOk};
ghost use Rattle.lsm_script.specs.Drawing.{Keeps};
ghost use Rattle.lsm_script.specs.Replies.{IsMergeReply, IsMerged, IsMergedBy, IsRefusedBy};
ghost use Rattle.lsm_script.specs.Replies.{IsRefusedMerge};

use crate::command_fault::CommandFault;
use crate::held::index_of_job;
use crate::numbers::{Answered, Noted, Numbers, drawn};
use crate::reply::Reply;
use lsm_merge::{Finished, Job, MergeFault, NumberFault, compact};
use lsm_slots::Boarded;
use lsm_state::State;
use lsm_table::{NamedShelf, Registry, Shelf};
use std::alloc::Global;
use std::marker::Brand;
use std::sync::Wait;

/// Merges a job, with numbers that are drawn so of a state that is lent: what is proved of them
/// does not depend on the parts of a state.
fn merge_with<'a, M: Noted<X>, X, F, N: Boarded, S: Shelf, R: Wait>(
    rt: &R,
    alloc: Global,
    numbers: &mut Numbers<'a, M, X, F>,
    shelf: &mut NamedShelf<N, S>,
    registry: &Registry<N, S>,
    job: Job<N, S>,
) -> Result<Finished<N, S>, MergeFault>
where
    F: Fn(&mut X, u64) -> Result<u64, NumberFault>,
    requires call { F.IsAlwaysCallable numbers.old.draw }
    requires loan { numbers.old.state.ghost_name ≡ M.loan }
    requires none { (numbers.old.answered.now.drew.numbers ≡ [])
        × (numbers.old.answered.now.refused.numbers ≡ [])
        × (numbers.old.answered.now.asked.numbers ≡ []) }
    requires begins { M.holds numbers.old.state.now [] [] [] }
    requires keeps { Keeps (λ p t q r. F.post numbers.old.draw p t r q)
        (λ p drew refused asked. M.holds p.now drew refused asked) }
    ensures loan { numbers.new.state.ghost_name ≡ numbers.old.state.ghost_name }
    ensures ok { IfOk result (λ d.
        IsMergedBy S.honest M.holds job d numbers.new.state.now shelf.old shelf.new) }
    ensures err { IfErr result (λ e.
        IsRefusedBy S.honest M.holds job e numbers.new.state.now shelf.old shelf.new) }
{
    match compact(rt, alloc, shelf, registry, job, numbers) {
        Ok(done) => {
            // What holds of the job is told by this call.
            let _job = done.job();
            Ok(done)
        }
        Err((fault, _job, _put)) => Err(fault),
    }
}

/// Merges a job, with numbers of the state.
#[tactic(auto, using(crate::proofs::Drawings::all_merged, crate::proofs::Drawings::all_refused))]
fn merge_job<N: Boarded, S: Shelf, R: Wait>(
    rt: &R,
    alloc: Global,
    state: &mut State<N, S>,
    shelf: &mut NamedShelf<N, S>,
    registry: &Registry<N, S>,
    job: Job<N, S>,
) -> Result<Finished<N, S>, MergeFault>
    ensures ok { IfOk result (λ d.
        IsMerged S.honest job d state.old state.new shelf.old shelf.new) }
    ensures err { IfErr result (λ e.
        IsRefusedMerge S.honest job e state.old state.new shelf.old shelf.new) }
{
    let mut answered = Answered::nothing();
    let mut numbers: Numbers<'_, Brand, State<N, S>, _> = Numbers::of(
        state,
        &mut answered,
        |state: &mut State<N, S>, ticket| { drawn(state, ticket) },
    );
    merge_with::<Brand, State<N, S>, _, N, S, R>(rt, alloc, &mut numbers, shelf, registry, job)
}

/// Merges the job of this ticket. The result is kept in place of the job.
#[tactic(auto, using(crate::proofs::Elements::taken_out, lsm_live::proofs::CallerLemmas::has_at))]
pub(crate) fn merge<N: Boarded, S: Shelf, R: Wait>(
    rt: &R,
    alloc: Global,
    state: &mut State<N, S>,
    shelf: &mut NamedShelf<N, S>,
    registry: &Registry<N, S>,
    jobs: &mut Vec<Job<N, S>>,
    results: &mut Vec<Finished<N, S>>,
    ticket: u64,
) -> Reply
    ensures reply { IsMergeReply S.honest ticket result state.old state.new jobs.old.items
        jobs.new.items results.old.items results.new.items shelf.old shelf.new }
{
    let Some(at) = index_of_job(jobs, ticket) else {
        return Reply::unknown(ticket);
    };
    if results.reserve(1).is_err() {
        return Reply::out_of_memory();
    }
    let Ok(job) = jobs[at].try_copy(alloc) else {
        return Reply::out_of_memory();
    };
    let done = match merge_job(rt, alloc, state, shelf, registry, job) {
        Ok(done) => done,
        Err(fault) => return Reply::Refused(CommandFault::Merge(fault)),
    };
    let tables = done.put_numbers().len();
    jobs.remove(at);
    let Ok(()) = results.push(done) else {
        unreachable!()
    };
    Reply::Merged(ticket, tables)
}
