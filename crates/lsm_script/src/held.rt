//! Jobs and results that a script has, by their tickets.

ghost use Rattle.std.specs.Prelude.{◌≡◌, ◌<◌, length, slice_index_or, MatchOption};
ghost use Rattle.lsm_codec.specs.Lists.{Has};
ghost use Rattle.lsm_merge.specs.Work.{Done, Work};

use lsm_merge::{Finished, Job};
use lsm_table::{Naming, Shelf};

/// Where the job of a ticket stands.
pub(crate) fn index_of_job<N: Naming, S: Shelf>(jobs: &[Job<N, S>], ticket: u64) -> Option<usize>
    ensures { MatchOption result ((w : Work) → Has jobs.now w → w.ticket ≡ ticket → ⊥) (λ i.
        (i < length jobs.now) × ((d : Work) → (slice_index_or jobs.now i d).ticket ≡ ticket)) }
{
    for (i, job) in jobs.iter().enumerate() {
        if job.ticket() == ticket {
            return Some(i);
        }
    }
    None
}

/// Where the result of a ticket stands.
pub(crate) fn index_of_result<N: Naming, S: Shelf>(
    results: &[Finished<N, S>],
    ticket: u64,
) -> Option<usize>
    ensures { MatchOption result ((d : Done) → Has results.now d → d.work.ticket ≡ ticket
        → ⊥) (λ i. (i < length results.now)
        × ((d : Done) → (slice_index_or results.now i d).work.ticket ≡ ticket)) }
{
    for (i, done) in results.iter().enumerate() {
        if done.job().ticket() == ticket {
            return Some(i);
        }
    }
    None
}
