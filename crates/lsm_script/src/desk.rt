//! The jobs and the results of those who drive a state by commands.

ghost use Rattle.std.specs.Prelude.{◌≡◌, IfOk};
ghost use Rattle.lsm_script.specs.Steps.{IsStep, clear, stage};

use crate::answering::answer_call;
use crate::command::Command;
use crate::reply::Reply;
use lsm_merge::{Finished, Job};
use lsm_slots::Boarded;
use lsm_state::State;
use lsm_table::{NamedShelf, Registry, Shelf};
use std::alloc::{AllocError, Global};
use std::marker::Model;
use std::sync::{Arc, Wait};

/// The jobs that were reserved by commands, and the results that were merged. Contracts see it as
/// these (`OnDesk`). A command finds what those before it left.
///
/// Jobs and results that are not installed are let go with it; its live jobs stay live.
#[derive(Drop)]
pub struct Desk<N: Boarded, S: Shelf> {
    registry: Arc<Registry<N, S>>,
    jobs: Vec<Job<N, S>>,
    results: Vec<Finished<N, S>>,
}

impl<N: Boarded, S: Shelf> Model for Desk<N, S> {
    ghost use Rattle.lsm_script.specs.Steps.{OnDesk};

    ghost Value = { OnDesk };

    ghost view = { λ d. record { jobs = d.jobs.items; results = d.results.items } };
}

impl<N: Boarded, S: Shelf> Desk<N, S> {
    /// No job and no result yet.
    ///
    /// # Errors
    /// `AllocError` where the registry can't be shared once more.
    pub fn new(alloc: Global, state: &State<N, S>) -> Result<Desk<N, S>, AllocError>
        ensures clear { IfOk result (λ d. d ≡ clear) }
    {
        let registry = Arc::try_clone(state.registry())?;
        Ok(Desk {
            registry,
            jobs: Vec::new(alloc),
            results: Vec::new(alloc),
        })
    }

    /// Answers a command on a state, the same for all that is on the desk. A refusal is a reply.
    pub fn answer<R: Wait>(
        &mut self,
        rt: &R,
        alloc: Global,
        state: &mut State<N, S>,
        shelf: &mut NamedShelf<N, S>,
        command: &Command,
    ) -> Reply

        // The reply, and what it leaves, is as the state's call says.
        ensures step { IsStep S.honest command.now result (stage state.old self.old shelf.old)
            (stage state.new self.new shelf.new) }
    {
        answer_call(
            rt,
            alloc,
            state,
            shelf,
            &self.registry,
            &mut self.jobs,
            &mut self.results,
            command,
        )
    }
}
