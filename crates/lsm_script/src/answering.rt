//! Any command.

ghost use Rattle.lsm_script.specs.Steps.{IsStep};

use crate::batches::ingest;
use crate::command::Command;
use crate::installing::install;
use crate::merging::merge;
use crate::pins::{collect, pin, unpin};
use crate::reads::{get, list};
use crate::reply::Reply;
use crate::reserving::{cancel, reserve, reserve_range};
use crate::snapshots::{release, snapshot};
use lsm_merge::{Finished, Job};
use lsm_slots::Boarded;
use lsm_state::State;
use lsm_table::{NamedShelf, Registry, Shelf};
use std::alloc::Global;
use std::sync::Wait;

/// Answers a command.
pub(crate) fn answer_call<N: Boarded, S: Shelf, R: Wait>(
    rt: &R,
    alloc: Global,
    state: &mut State<N, S>,
    shelf: &mut NamedShelf<N, S>,
    registry: &Registry<N, S>,
    jobs: &mut Vec<Job<N, S>>,
    results: &mut Vec<Finished<N, S>>,
    command: &Command,
) -> Reply
    ensures step { IsStep S.honest command.now result record {
      state = state.old;
      told = shelf.old;
      jobs = jobs.old.items;
      results = results.old.items;
    } record {
      state = state.new;
      told = shelf.new;
      jobs = jobs.new.items;
      results = results.new.items;
    } }
{
    match command {
        Command::Ingest(batch) => ingest(rt, alloc, state, shelf, batch),
        Command::Get(key, at) => get(alloc, state, shelf, key, *at),
        Command::Snapshot => snapshot(state),
        Command::Release(id) => release(state, *id),
        Command::Reserve => reserve(alloc, state, registry, jobs),
        Command::ReserveRange(level, from, to) => {
            reserve_range(
                alloc,
                state,
                registry,
                jobs,
                *level,
                from.as_slice(),
                to.as_slice(),
            )
        }
        Command::Merge(ticket) => {
            merge(rt, alloc, state, shelf, registry, jobs, results, *ticket)
        }
        Command::Install(ticket) => install(rt, alloc, state, shelf, results, *ticket),
        Command::Cancel(ticket) => cancel(state, *ticket),
        Command::Pin => pin(state),
        Command::Unpin(id) => unpin(state, *id),
        Command::Collect => collect(rt, alloc, state, shelf),
        Command::List => list(alloc, state),
    }
}
