//! Forks of a shelf.

ghost use Rattle.std.specs.Prelude.{◌≡◌, ◌+◌, IfErr, IfOk, OnErr, OnOk, vec_len};
ghost use Rattle.lsm_shelf.specs.Told.{CountedBy, ForkedAtMost, ForkedTimes, NotNamed, fork_at};
ghost use Rattle.lsm_shelf.specs.Told.{forks_behind};

use lsm_slots::Boarded;
use lsm_table::{NamedShelf, Shelf, ShelfFault};
use std::alloc::Global;

/// So many forks of a shelf, and no more; of which nothing else is asked. Once one is refused, no
/// other is asked for.
pub fn forks<N: Boarded, S: Shelf>(
    alloc: Global,
    shelf: &mut NamedShelf<N, S>,
    count: usize,
) -> Result<Vec<NamedShelf<N, S>>, ShelfFault>
    ensures count { IfOk result (λ v. vec_len v ≡ count) }
    ensures new { IfOk result (λ v. v.items ≡ forks_behind N.place shelf.old.forks count) }
    ensures just { OnOk result (ForkedTimes count shelf.old shelf.new) }
    ensures fewer { OnErr result (ForkedAtMost count shelf.old shelf.new) }
    ensures cause { IfErr result NotNamed }
    ensures counts { CountedBy result shelf.old shelf.new }
{
    let mut forks = Vec::new(alloc);
    for _ in 0..count {
        let fork = shelf.fork(alloc)?;
        forks.push(fork)?;
    }
    Ok(forks)
}

/// Shelves on the contents of one: one for each worker of a store, and one for who works beside
/// them.
#[derive(Drop)]
pub struct Shelves<N: Boarded, S: Shelf> {
    /// Those of the workers.
    pub shelves: Vec<NamedShelf<N, S>>,
    /// That of who works beside them.
    pub own: NamedShelf<N, S>,
}

impl<N: Boarded, S: Shelf> Shelves<N, S> {
    /// The next forks of a shelf, those of so many workers first, and no more. Nothing else is
    /// asked of it, and once one is refused, no other.
    pub fn of(
        alloc: Global,
        shelf: &mut NamedShelf<N, S>,
        workers: usize,
    ) -> Result<Shelves<N, S>, ShelfFault>
        ensures count { IfOk result (λ f. vec_len f.shelves ≡ workers) }
        ensures new { IfOk result (λ f.
            f.shelves.items ≡ forks_behind N.place shelf.old.forks workers) }
        ensures own { IfOk result (λ f.
            f.own ≡ fork_at N.place (shelf.old.forks + workers + 1)) }
        ensures just { OnOk result (ForkedTimes (workers + 1) shelf.old shelf.new) }
        ensures fewer { OnErr result (ForkedAtMost (workers + 1) shelf.old shelf.new) }
        ensures cause { IfErr result NotNamed }
        ensures counts { CountedBy result shelf.old shelf.new }
    {
        let shelves = forks(alloc, shelf, workers)?;
        let own = shelf.fork(alloc)?;
        Ok(Shelves { shelves, own })
    }
}
