//! Whether a result is of a live job, or stale.

ghost use Rattle.std.specs.Prelude.{◌≡◌, ℕ, ◌↔◌, IsTrue};
ghost use Rattle.lsm_codec.specs.Lists.{Has};
ghost use Rattle.lsm_live.specs.Booked.{AreIncreasing, Booked};
ghost use Rattle.lsm_live.specs.Results.{Awaits, IsLiveResult};

use crate::live_job::LiveJob;
use crate::live_jobs::LiveJobs;
use lsm_merge::Finished;
use lsm_table::{Naming, Registry, Shelf};

/// Whether each number is less than the one after it.
fn are_increasing(numbers: &[u64]) -> bool
    ensures { IsTrue result ↔ AreIncreasing numbers.now }
{
    let mut rest = numbers;
    while let [first, tail @ ..] = rest {
        if let [second, ..] = tail
            && first >= second
        {
            return false;
        }
        rest = tail;
    }
    true
}

/// Whether each number is among the others.
fn are_among(numbers: &[u64], others: &[u64]) -> bool
    ensures { IsTrue result ↔ ((n : ℕ) → Has numbers.now n → Has others.now n) }
{
    for number in numbers {
        if !others.contains(number) {
            return false;
        }
    }
    true
}

/// Whether the live job is the result's, and has drawn the numbers that the result put.
fn awaits<N: Naming, S: Shelf>(
    registry: &Registry<N, S>,
    one: &LiveJob<N, S>,
    done: &Finished<N, S>,
) -> bool
    ensures { IsTrue result ↔ Awaits one.now done.now }
{
    one.job().same(registry, done.job()) && are_among(done.put_numbers(), one.drawn())
}

impl<N: Naming, S: Shelf> LiveJobs<N, S> {
    /// Whether a result's ticket is live: a live job equals the result's in all parts and has drawn
    /// the numbers under which the result put its outputs, and these rise. A result for which this
    /// is false is stale.
    pub fn is_live_result(&self, registry: &Registry<N, S>, done: &Finished<N, S>) -> bool
        ensures { IsTrue result ↔ ((b : Booked) × IsLiveResult self.now done.now b) }
    {
        if !are_increasing(done.put_numbers()) {
            return false;
        }
        for one in &self.jobs {
            if awaits(registry, one, done) {
                return true;
            }
        }
        false
    }
}
