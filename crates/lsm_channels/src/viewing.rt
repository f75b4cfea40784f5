//! A view of all that has come in, and the sequence at which a request reads it.

ghost use Rattle.std.specs.Prelude.{◌≡◌, ◌⊎◌, Some, IfErr, IfOk, OnErr, OnOk};
ghost use Rattle.lsm_frames.specs.declared.when.When.TheVariants.{Snapshot};
ghost use Rattle.lsm_history.specs.History.{IsLater};
ghost use Rattle.lsm_state.specs.Held.{plain};
ghost use Rattle.lsm_state.specs.Reading.{IsSequence};
ghost use Rattle.lsm_state.specs.declared.state_fault.StateFault.TheVariants.{OutOfMemory};
ghost use Rattle.lsm_channels.specs.Pinning.{HasSameVersions, IsUnpinned};
ghost use Rattle.lsm_channels.specs.Reading.{IsUnseen};
ghost use Rattle.lsm_channels.specs.Seen.{IsAsGiven, IsGiven, IsNotLive, Learns, Sees, is_other};
ghost use Rattle.lsm_channels.specs.Seen.{snapshot_in};
ghost use Rattle.std.specs.List.{list_any};
ghost use Rattle.lsm_channels.specs.Keeping.{IsKeptByLooks, IsKnown};
ghost use Rattle.lsm_channels.specs.Served.{IsToldBy};
ghost use Rattle.lsm_store.specs.Readers.{refreshed};

use crate::channel_reader::ChannelReader;
use crate::channel_view::ChannelView;
use crate::knowing::catch_up;
use crate::pin::Pin;
use lsm_frames::When;
use lsm_history::Memory;
use lsm_slots::Boarded;
use lsm_state::{State, StateFault};
use lsm_store::{Invariant, Reader, Store};
use lsm_table::Shelf;
use std::sync::Wait;

/// Whether one of these snapshots has the number, and another sequence.
fn is_told_other(taken: &[(u64, u64)], number: u64, sequence: u64) -> bool
    ensures { result ≡ list_any (is_other number sequence) taken.now }
{
    taken.iter().any(|one| one.0 == number && one.1 != sequence)
}

/// The sequence of the live snapshot of a number. No clause ties what is live in one state to what
/// was in an earlier one, so it is compared with what the channel was told.
fn sequence_of<N: Boarded, S: Shelf>(
    state: &State<N, S>,
    taken: &[(u64, u64)],
    number: u64,
) -> Result<u64, StateFault>
    ensures ok { IfOk result (IsSequence state.now (Some number)) }
    ensures given { IfOk result (IsGiven taken.now number) }
    ensures refused { IfErr result (IsNotLive state.now taken.now (Snapshot number)) }
{
    let sequence = state.sequence_of(number)?;
    if is_told_other(taken, number, sequence) {
        return Err(StateFault::UnknownSnapshot(number));
    }
    Ok(sequence)
}

/// The sequence at which a read is made: the last one, or a snapshot's.
fn sequence_at<N: Boarded, S: Shelf>(
    state: &State<N, S>,
    taken: &[(u64, u64)],
    when: When,
) -> Result<u64, StateFault>
    ensures ok { IfOk result (IsSequence state.now (snapshot_in when)) }
    ensures given { IfOk result (IsAsGiven taken.now when) }
    ensures refused { IfErr result (IsNotLive state.now taken.now when) }
{
    match when {
        When::Now => Ok(state.current().1.last()),
        When::Snapshot(number) => sequence_of(state, taken, number),
    }
}

/// The reader learns the current version of a state, and a sequence of it.
fn learn<N: Boarded, S: Shelf>(
    state: &mut State<N, S>,
    reader: &mut Reader<N, S>,
    taken: &[(u64, u64)],
    when: When,
) -> Result<u64, StateFault>
    ensures ok { IfOk result (IsSequence state.old (snapshot_in when)) }
    ensures given { IfOk result (IsAsGiven taken.now when) }
    ensures learnt { OnOk result (reader.new ≡ refreshed state.old reader.old) }
    ensures later { OnOk result (IsLater reader.new.history reader.old.history) }
    ensures same { OnOk result (HasSameVersions state.old.slots state.new.slots) }
    ensures rest { state.new ≡ record state.old
        { slots = record state.old.slots { board = state.new.slots.board } } }
    ensures plain { plain state.new ≡ plain state.old }
    ensures err { OnErr result (reader.new ≡ reader.old) }
    ensures refused { IfErr result (λ e. IsNotLive state.old taken.now when e ⊎ (e ≡ OutOfMemory)) }
{
    let seq = sequence_at(state, taken, when)?;
    reader.refresh(state)?;
    Ok(seq)
}

/// A view of the current version of a state, and a sequence of it. The state has all that was
/// known.
#[tactic(auto, using(crate::proofs::PinLaws::still_learnt, crate::proofs::PinLaws::learns_by, crate::proofs::PinLaws::later_by, crate::proofs::PinLaws::unpinned_since, crate::proofs::PinLaws::rest_on, crate::proofs::PinLaws::rest_of))]
fn view_of<N: Boarded, S: Shelf>(
    state: &mut State<N, S>,
    reader: ChannelReader<N, S>,
    memory: &mut Memory<N>,
    taken: &[(u64, u64)],
    when: When,
) -> Result<(ChannelView<N, S>, u64), (ChannelReader<N, S>, StateFault)>
    ensures told { IsToldBy state.old memory.old memory.new }
    ensures learnt { IfOk result (λ r. Learns state.old reader r.0) }
    ensures sequence { IfOk result (λ r. IsSequence state.old (snapshot_in when) r.1) }
    ensures given { IfOk result (λ r. IsAsGiven taken.now when r.1) }
    ensures later { IfErr result (λ e. IsLater e.0.history reader.history) }
    ensures rest { state.new ≡ record state.old { slots = state.new.slots } }
    ensures plain { plain state.new ≡ plain state.old }
    ensures refused { IfErr result (λ e.
        IsNotLive state.old taken.now when e.1 ⊎ IsUnpinned state.old e.1) }
{
    catch_up(state, memory);
    let ChannelReader { mut reader, blocks } = reader;
    let seq = match learn(state, &mut reader, taken, when) {
        Ok(seq) => seq,
        Err(fault) => return Err((ChannelReader { reader, blocks }, fault)),
    };
    match Pin::of(state, reader) {
        Ok(pin) => Ok((ChannelView { pin, blocks }, seq)),
        Err((reader, fault)) => Err((ChannelReader { reader, blocks }, fault)),
    }
}

/// A view of all that has come in, and the sequence at which it is read: the last one, or the
/// snapshot's. The version is pinned under the lock.
#[tactic(auto, using(crate::proofs::KnownLaws::told_later))]
pub(crate) fn view_at<N: Boarded, S: Shelf, K: Invariant, R: Wait>(
    rt: &R,
    store: &Store<N, S, K>,
    reader: ChannelReader<N, S>,
    memory: &mut Memory<N>,
    taken: &[(u64, u64)],
    when: When,
) -> Result<(ChannelView<N, S>, u64), (ChannelReader<N, S>, StateFault)>
    requires looks { IsKeptByLooks K.keeps }
    ensures sees { IfOk result (λ r. Sees K.keeps when taken.now reader r.0 memory.old memory.new
        r.1) }
    ensures known { IsLater memory.new memory.old }
    ensures kept { IsKnown K.keeps memory.new }
    ensures later { IfErr result (λ e. IsLater e.0.history reader.history) }
    ensures refused { IfErr result (λ e. IsUnseen K.keeps when taken.now memory.old memory.new e.1) }
{
    view_of(&mut store.lock(rt).state, reader, memory, taken, when)
}
