//! Reads give the newest of all that ever came in.

ghost use Rattle.std.specs.Prelude.{◌≡◌, ℕ, IfOk};
ghost use Rattle.std.specs.Option.{option_map};
ghost use Rattle.lsm_codec.specs.Lists.{Has};
ghost use Rattle.lsm_model.specs.Scanning.{IsScan};
ghost use Rattle.lsm_iterators.specs.Seeking.{at_or_past};
ghost use Rattle.lsm_state.specs.Held.{Held};
ghost use Rattle.lsm_state.specs.Reading.{IsSequence};
ghost use Rattle.lsm_store.specs.Readers.{IsPromised, Learnt, refreshed};
ghost use Rattle.lsm_theorems.specs.Newest.{IsReadOf};

use lsm_query::Scan;
use lsm_slots::Boarded;
use lsm_state::{State, StateFault};
use lsm_store::View;
use lsm_table::{NamedShelf, ReadFault, Shelf};
use std::alloc::Global;

/// Under the lock: a read at the last sequence, or at a live snapshot's, gives the newest of all
/// that ever came into the database and that its sequence allows.
pub fn reads_give_the_newest<N: Boarded, S: Shelf>(
    state: &State<N, S>,
    shelf: &mut NamedShelf<N, S>,
    alloc: Global,
    user: &[u8],
    at: Option<u64>,
) -> Result<Option<Vec<u8>>, StateFault>
    ensures { S.honest → IfOk result (λ v. (seq : ℕ) × IsSequence state.now at seq
        × IsReadOf state.now.history user.now seq (option_map (λ b. b.items) v)) }
{
    state.get(shelf, alloc, user, at)
}

/// Without the lock: a promised read of a view gives the newest of all that had come in when its
/// reader learnt the version, whatever else came in since, and whatever was compacted.
pub fn views_give_the_newest<N: Boarded, S: Shelf>(
    view: &mut View<N, S>,
    alloc: Global,
    user: &[u8],
    seq: u64,
) -> Result<Option<Vec<u8>>, ReadFault>
    ensures { S.honest → IsPromised view.old seq → IfOk result (λ v.
        IsReadOf view.old.history user.now seq (option_map (λ b. b.items) v)) }
{
    view.get(alloc, user, seq)
}

/// So does a scan: it shows each user key that has an answer in all that had come in, with it,
/// ascending, and no other.
pub fn scans_show_the_newest<N: Boarded, S: Shelf>(
    view: &mut View<N, S>,
    alloc: Global,
    seq: u64,
) -> Result<Scan<N, S>, ReadFault>
    ensures { S.honest → IsPromised view.old seq
        → IfOk result (λ s. IsScan seq view.old.history s.left) }
{
    view.scan(alloc, seq)
}

/// A scan from a user key on shows each of these that is at or past it.
pub fn scans_from_a_key_show_the_newest<N: Boarded, S: Shelf>(
    view: &mut View<N, S>,
    alloc: Global,
    seq: u64,
    from: &[u8],
) -> Result<Scan<N, S>, ReadFault>
    ensures { S.honest → IsPromised view.old seq
        → IfOk result (λ s. IsScan seq (at_or_past from.now view.old.history) s.left) }
{
    view.scan_from(alloc, seq, from)
}

/// Which reads of a view are promised: those at the last sequence of its version, and those at the
/// sequence of each snapshot that was live when its reader learnt it.
pub fn such_reads_are_promised()
    ensures last { (r : Learnt) → IsPromised r r.version.last }
    ensures snapshots { (h : Held) (r : Learnt) (id seq : ℕ) → Has h.snapshots.taken (id, seq)
        → IsPromised (refreshed h r) seq }
{}
