//! Snapshots.

ghost use Rattle.std.specs.Prelude.{◌≡◌, ◌⊎◌, ◌<◌, IfErr, IfOk, OnErr, OnOk, vec_capacity, vec_len};
ghost use Rattle.std.specs.List.{filter};
ghost use Rattle.lsm_history.specs.History.{IsLater};
ghost use Rattle.lsm_model.specs.Plain.{without_snapshot};
ghost use Rattle.lsm_channels.specs.Keeping.{IsKeptByRelease, IsKeptByTakes, IsKnown};
ghost use Rattle.lsm_channels.specs.Served.{IsToldBy};
ghost use Rattle.lsm_channels.specs.Snapshots.{Forgets, IsReleased, IsTakeFault, IsTaken};
ghost use Rattle.lsm_channels.specs.Snapshots.{IsUnreleased, IsUntaken, Notes, ReleasesAt, TakesAt};
ghost use Rattle.lsm_channels.specs.Snapshots.{is_among};
ghost use Rattle.lsm_slots.specs.Snapshots.{HasId};
ghost use Rattle.lsm_state.specs.declared.state_fault.StateFault.TheVariants.{UnknownSnapshot};

use crate::knowing::catch_up;
use lsm_history::Memory;
use lsm_slots::Boarded;
use lsm_state::{State, StateFault};
use lsm_store::{Invariant, Store};
use lsm_table::Shelf;
use std::sync::Wait;

/// Whether a snapshot is among these.
fn is_among(live: &[(u64, u64)], one: &(u64, u64)) -> bool
    ensures { result ≡ is_among live.now one.now }
{
    live.iter()
        .any(|other| other.0 == one.0 && other.1 == one.1)
}

/// Keeps those snapshots that are live.
fn keep_live(live: &[(u64, u64)], taken: &mut Vec<(u64, u64)>)
    ensures { taken.new.items ≡ filter (is_among live.now) taken.old.items }
{
    taken.retain(|one| is_among(live, one));
}

/// Forgets the snapshots that are not live, once they are more than those that are. So a channel
/// whose snapshots others give up remembers no more than twice what the database does.
fn forget<N: Boarded, S: Shelf>(state: &State<N, S>, taken: &mut Vec<(u64, u64)>)
    ensures { Forgets state.now taken.old.items taken.new.items }
{
    let live = state.live();
    if taken.len() / 2 > live.len() {
        keep_live(live, taken);
    }
}

/// Takes a snapshot of a state: its number, and its sequence, which are noted.
fn take_of<N: Boarded, S: Shelf>(
    state: &mut State<N, S>,
    memory: &mut Memory<N>,
    taken: &mut Vec<(u64, u64)>,
) -> Result<(u64, u64), StateFault>
    ensures told { IsToldBy state.old memory.old memory.new }
    ensures ok { IfOk result (λ r. TakesAt state.old state.new r.0 r.1
        × Notes state.old r.0 r.1 taken.old.items taken.new.items) }
    ensures err { OnErr result (state.new ≡ state.old) }
    ensures refused { IfErr result (λ e. IsTakeFault state.old e
        × Forgets state.old taken.old.items taken.new.items) }
{
    catch_up(state, memory);
    forget(state, taken);
    taken.reserve(1)?;
    let last = state.current().1.last();
    let number = state.snapshot()?;
    let Ok(()) = taken.push((number, last)) else {
        unreachable!()
    };
    Ok((number, last))
}

/// Takes a snapshot: its number, and its sequence, which are noted.
#[tactic(auto, using(crate::proofs::KnownLaws::told_later))]
pub(crate) fn take<N: Boarded, S: Shelf, K: Invariant, R: Wait>(
    rt: &R,
    store: &Store<N, S, K>,
    memory: &mut Memory<N>,
    taken: &mut Vec<(u64, u64)>,
) -> Result<(u64, u64), StateFault>
    requires taken { IsKeptByTakes K.keeps }
    ensures ok { IfOk result (λ r.
        IsTaken K.keeps r.0 r.1 memory.old memory.new taken.old.items taken.new.items) }
    ensures refused { IfErr result (λ e.
        IsUntaken K.keeps e memory.old memory.new taken.old.items taken.new.items) }
    ensures known { IsLater memory.new memory.old }
    ensures kept { IsKnown K.keeps memory.new }
{
    take_of(&mut store.lock(rt).state, memory, taken)
}

/// Gives a snapshot of a state up.
fn release_of<N: Boarded, S: Shelf>(
    state: &mut State<N, S>,
    memory: &mut Memory<N>,
    number: u64,
) -> Result<(), StateFault>
    ensures told { IsToldBy state.old memory.old memory.new }
    ensures ok { OnOk result (ReleasesAt state.old state.new number) }
    ensures err { OnErr result (state.new ≡ state.old) }
    ensures refused { IfErr result (λ e. (e ≡ UnknownSnapshot number)
        × (HasId state.old.snapshots.taken number → ⊥)) }
{
    catch_up(state, memory);
    state.release(number)
}

/// Gives a snapshot up under the lock.
#[tactic(auto, using(crate::proofs::KnownLaws::told_later))]
fn release_at<N: Boarded, S: Shelf, K: Invariant, R: Wait>(
    rt: &R,
    store: &Store<N, S, K>,
    memory: &mut Memory<N>,
    number: u64,
) -> Result<(), StateFault>
    requires given_up { IsKeptByRelease number K.keeps }
    ensures ok { OnOk result (IsReleased K.keeps number memory.old memory.new) }
    ensures refused { IfErr result (λ e. IsUnreleased K.keeps number e memory.old memory.new) }
    ensures known { IsLater memory.new memory.old }
    ensures kept { IsKnown K.keeps memory.new }
{
    release_of(&mut store.lock(rt).state, memory, number)
}

/// Takes the snapshot of a number out.
fn take_out(taken: &mut Vec<(u64, u64)>, number: u64)
    ensures { taken.new.items ≡ without_snapshot number taken.old.items }
{
    taken.retain(|one| one.0 != number);
}

/// Gives a snapshot up, which is noted no more.
pub(crate) fn release<N: Boarded, S: Shelf, K: Invariant, R: Wait>(
    rt: &R,
    store: &Store<N, S, K>,
    memory: &mut Memory<N>,
    taken: &mut Vec<(u64, u64)>,
    number: u64,
) -> Result<(), StateFault>
    requires given_up { IsKeptByRelease number K.keeps }
    ensures ok { OnOk result (IsReleased K.keeps number memory.old memory.new
        × (taken.new.items ≡ without_snapshot number taken.old.items)) }
    ensures refused { IfErr result (λ e. IsUnreleased K.keeps number e memory.old memory.new
        × (taken.new.items ≡ taken.old.items)) }
    ensures known { IsLater memory.new memory.old }
    ensures kept { IsKnown K.keeps memory.new }
{
    match release_at(rt, store, memory, number) {
        Ok(()) => {
            take_out(taken, number);
            Ok(())
        }
        Err(fault) => Err(fault),
    }
}
