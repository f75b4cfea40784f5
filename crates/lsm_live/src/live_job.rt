//! A live job.

ghost use Rattle.std.specs.Prelude.{◌≡◌, [], OnErr, OnOk};
ghost use Rattle.lsm_live.specs.Booked.{drawing, new_booked};

use lsm_merge::Job;
use lsm_table::{Naming, Shelf};
use std::alloc::{AllocError, Global};
use std::marker::Model;

/// A live job, with the numbers that were drawn for its outputs. Contracts see it as that
/// (`Booked`).
pub struct LiveJob<N: Naming, S: Shelf> {
    job: Job<N, S>,
    drawn: Vec<u64>,
}

impl<N: Naming, S: Shelf> Drop for LiveJob<N, S> {
    fn drop(self) {
        let Self { job: _, drawn: _ } = self;
    }
}

impl<N: Naming, S: Shelf> Model for LiveJob<N, S> {
    ghost use Rattle.lsm_live.specs.Booked.{Booked};

    ghost Value = { Booked };

    ghost view = { λ l. record { work = l.job; drawn = l.drawn.items } };
}

impl<N: Naming, S: Shelf> LiveJob<N, S> {
    /// A job for which no number was drawn yet.
    pub(crate) fn new(alloc: Global, job: Job<N, S>) -> LiveJob<N, S>
        ensures { result ≡ new_booked job }
    {
        LiveJob {
            job,
            drawn: Vec::new(alloc),
        }
    }

    /// The job.
    pub fn job(&self) -> &Job<N, S>
        ensures { result.now ≡ self.now.work }
    {
        &self.job
    }

    /// The ticket under which the job is reserved.
    pub fn ticket(&self) -> u64
        ensures { result ≡ self.now.work.ticket }
    {
        self.job.ticket()
    }

    /// The numbers that were drawn for its outputs, the latest last.
    pub fn drawn(&self) -> &[u64]
        ensures { result.now ≡ self.now.drawn }
    {
        self.drawn.as_slice()
    }

    /// Appends a number to those that were drawn. `AllocError` where a growth was refused; then it
    /// is as before.
    pub(crate) fn draw(&mut self, number: u64) -> Result<(), AllocError>
        ensures ok { OnOk result (self.new ≡ drawing number self.old) }
        ensures err { OnErr result (self.new ≡ self.old) }
    {
        self.drawn.push(number)?;
        Ok(())
    }
}
