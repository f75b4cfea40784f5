//! The live jobs of a store.

ghost use Rattle.std.specs.Prelude.{◌≡◌, ℕ, ◌<◌, [], ◌∷◌, ◌++◌, ◌↔◌, length, MatchOption, IsErr};
ghost use Rattle.std.specs.Prelude.{IsTrue, OnErr, OnOk, slice_index_or};
ghost use Rattle.lsm_codec.specs.Lists.{Has};
ghost use Rattle.lsm_live.specs.Booked.{AreIncreasing, Booked, HasTicket, booked, drawn_numbers};
ghost use Rattle.lsm_live.specs.Booked.{new_booked, tickets_of, without};

use crate::live_job::LiveJob;
use lsm_merge::Job;
use lsm_table::{Naming, Shelf};
use std::alloc::{AllocError, Global};
use std::marker::Model;

/// The live jobs, in the order of their reservations, so that tickets rise. Contracts see them as
/// that list.
pub struct LiveJobs<N: Naming, S: Shelf> {
    pub(crate) jobs: Vec<LiveJob<N, S>>,
}

impl<N: Naming, S: Shelf> Drop for LiveJobs<N, S> {
    fn drop(self) {
        let Self { jobs: _ } = self;
    }
}

impl<N: Naming, S: Shelf> Model for LiveJobs<N, S> {
    ghost use Rattle.std.specs.Prelude.{List};
    ghost use Rattle.lsm_live.specs.Booked.{AreIncreasing, Booked, tickets_of};

    ghost Value = { List Booked };

    ghost view = { λ l. l.jobs.items };

    ghost invariant = { λ l. AreIncreasing (tickets_of l.jobs.items) };
}

/// Where the job of a ticket stands.
fn index_of<N: Naming, S: Shelf>(jobs: &[LiveJob<N, S>], ticket: u64) -> Option<usize>
    ensures { MatchOption result ((b : Booked) → Has jobs.now b → b.work.ticket ≡ ticket
        → ⊥) (λ i. (i < length jobs.now)
        × ((d : Booked) → (slice_index_or jobs.now i d).work.ticket ≡ ticket)) }
{
    for (i, one) in jobs.iter().enumerate() {
        if one.ticket() == ticket {
            return Some(i);
        }
    }
    None
}

impl<N: Naming, S: Shelf> LiveJobs<N, S> {
    /// No job.
    pub fn new(alloc: Global) -> LiveJobs<N, S>
        ensures { result ≡ [] }
    {
        LiveJobs {
            jobs: Vec::new(alloc),
        }
    }

    /// How many jobs are live.
    pub fn len(&self) -> usize
        ensures { result ≡ length self.now }
    {
        self.jobs.len()
    }

    /// Lends the jobs, in the order of their reservations. What holds of all live jobs is told here
    /// too.
    pub fn jobs(&self) -> &[LiveJob<N, S>]
        ensures jobs { result.now ≡ self.now }
        ensures rising { AreIncreasing (tickets_of self.now) }
    {
        self.jobs.as_slice()
    }

    /// Whether some live job has the ticket.
    pub fn is_live(&self, ticket: u64) -> bool
        ensures { IsTrue result ↔ HasTicket self.now ticket }
    {
        index_of(self.jobs.as_slice(), ticket).is_some()
    }

    /// Adds a job that was just reserved, under a ticket above those of all live jobs. `AllocError`
    /// where a growth was refused; then all is as before.
    pub fn add(&mut self, alloc: Global, job: Job<N, S>) -> Result<(), AllocError>
        requires newest { (b : Booked) → Has self.old b → b.work.ticket < job.ticket }
        ensures ok { OnOk result (self.new ≡ self.old ++ new_booked job ∷ []) }
        ensures err { OnErr result (self.new ≡ self.old) }
    {
        self.jobs.push(LiveJob::new(alloc, job))?;
        Ok(())
    }

    /// Takes the job of a ticket out, and says whether there was one. All others stay, in order.
    pub fn remove(&mut self, ticket: u64) -> bool
        ensures was_live { IsTrue result ↔ HasTicket self.old ticket }
        ensures rest { self.new ≡ without ticket self.old }
    {
        let was_live = self.is_live(ticket);
        self.jobs.retain(|one| one.ticket() != ticket);
        was_live
    }

    /// Appends a number to those that the job of a ticket drew. Nothing changes where the ticket is
    /// not live, nor where a growth was refused, which is the `AllocError`.
    pub fn draw(&mut self, ticket: u64, number: u64) -> Result<(), AllocError>
        ensures ok { OnOk result (self.new ≡ booked ticket number self.old) }
        ensures err { OnErr result (self.new ≡ self.old) }
        ensures refused { IsErr result → HasTicket self.old ticket }
    {
        let Some(i) = index_of(self.jobs.as_slice(), ticket) else {
            return Ok(());
        };
        self.jobs[i].draw(number)
    }

    /// Appends all numbers that live jobs drew, in the order of the jobs. Where a growth was
    /// refused the numbers are as before.
    pub fn push_drawn(&self, numbers: &mut Vec<u64>) -> Result<(), AllocError>
        ensures ok { OnOk result (numbers.new.items ≡ numbers.old.items ++ drawn_numbers self.now) }
        ensures err { OnErr result (numbers.new.items ≡ numbers.old.items) }
    {
        let before = numbers.len();
        for one in &self.jobs {
            if let Err(refused) = numbers.extend_from_slice(one.drawn()) {
                numbers.truncate(before);
                return Err(refused);
            }
        }
        Ok(())
    }
}
