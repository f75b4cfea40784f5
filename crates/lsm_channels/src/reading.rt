//! The values of keys.

ghost use Rattle.std.specs.Prelude.{◌≡◌, ◌++◌, ◌∷◌, [], Err, IfErr, IfOk, OnOk};
ghost use Rattle.std.specs.Option.{option_map};
ghost use Rattle.lsm_codec.specs.Entries.{answer};
ghost use Rattle.lsm_frames.specs.Answers.{Found};
ghost use Rattle.lsm_frames.specs.declared.answer_fault.AnswerFault.TheVariants.{TooLong};
ghost use Rattle.lsm_history.specs.History.{IsLater};
ghost use Rattle.lsm_channels.specs.Answered.{done_frame};
ghost use Rattle.lsm_channels.specs.Keeping.{IsKeptByLooks, IsKnown};
ghost use Rattle.lsm_channels.specs.Reading.{IsRead, IsReadFault, IsTooLong, IsUnread, values_at};
ghost use Rattle.lsm_state.specs.declared.state_fault.StateFault.TheVariants.{TooLarge};
ghost use Rattle.lsm_store.specs.Readers.{IsPromised};

use crate::channel_reader::ChannelReader;
use crate::channel_view::ChannelView;
use crate::refusing::of_answer;
use crate::viewing::view_at;
use lsm_frames::{AnswerFault, Keys, ValuesAnswer, When};
use lsm_history::Memory;
use lsm_slots::Boarded;
use lsm_state::StateFault;
use lsm_store::{Invariant, Store};
use lsm_table::Shelf;
use std::alloc::Global;
use std::sync::Wait;

/// Adds what was found of a key.
fn add_found(values: &mut ValuesAnswer, found: Option<Vec<u8>>) -> Result<(), AnswerFault>
    ensures added { OnOk result
        (values.new ≡ values.old ++ option_map (λ b. b.items) found ∷ []) }
    ensures long { result ≡ Err TooLong
        → IsTooLong (Found (values.old ++ option_map (λ b. b.items) found ∷ [])) }
{
    match found {
        Some(value) => values.value(&value),
        None => values.absent(),
    }
}

/// Adds the value of a key at a sequence.
fn add_value<N: Boarded, S: Shelf>(
    alloc: Global,
    view: &mut ChannelView<N, S>,
    seq: u64,
    key: &[u8],
    values: &mut ValuesAnswer,
) -> Result<(), StateFault>
    requires promised { IsPromised view.old seq }
    ensures added { S.honest → OnOk result
        (values.new ≡ values.old ++ answer view.old.history key.now seq ∷ []) }
    ensures long { S.honest → result ≡ Err TooLarge
        → IsTooLong (Found (values.old ++ answer view.old.history key.now seq ∷ [])) }
    ensures rest { view.new ≡ record view.old { told = view.new.told } }
    ensures refused { IfErr result (IsUnread S.honest) }
{
    let found = view.get(alloc, key, seq)?;
    match add_found(values, found) {
        Ok(()) => Ok(()),
        Err(fault) => Err(of_answer(fault)),
    }
}

/// Adds the values of keys at a sequence, in the order of the keys.
fn add_values<N: Boarded, S: Shelf>(
    alloc: Global,
    view: &mut ChannelView<N, S>,
    seq: u64,
    keys: Keys<'_>,
    values: &mut ValuesAnswer,
) -> Result<(), StateFault>
    requires promised { IsPromised view.old seq }
    ensures added { S.honest → OnOk result
        (values.new ≡ values.old ++ values_at view.old.history seq keys.entry) }
    ensures long { S.honest → result ≡ Err TooLarge
        → IsTooLong (Found (values.old ++ values_at view.old.history seq keys.entry)) }
    ensures rest { view.new ≡ record view.old { told = view.new.told } }
    ensures refused { IfErr result (IsUnread S.honest) }
{
    let mut keys = keys;
    'keys: while let Some(key) = keys.next() {
        add_value(alloc, view, seq, key, values)?;
    }
    Ok(())
}

/// The answer with the values of keys at a sequence.
fn values_of<N: Boarded, S: Shelf>(
    alloc: Global,
    view: &mut ChannelView<N, S>,
    seq: u64,
    keys: Keys<'_>,
) -> Result<Vec<u8>, StateFault>
    requires promised { IsPromised view.old seq }
    ensures values { S.honest → IfOk result (λ v.
        v.items ≡ done_frame (Found (values_at view.old.history seq keys.entry))) }
    ensures long { S.honest → result ≡ Err TooLarge
        → IsTooLong (Found (values_at view.old.history seq keys.entry)) }
    ensures rest { view.new ≡ record view.old { told = view.new.told } }
    ensures refused { IfErr result (IsUnread S.honest) }
{
    let mut values = ValuesAnswer::new(alloc)?;
    add_values(alloc, view, seq, keys, &mut values)?;
    Ok(values.finish())
}

/// The values of keys in all that has come in, at its last sequence or at a snapshot's.
#[tactic(auto, using(crate::proofs::SeenLaws::promised))]
pub(crate) fn read<N: Boarded, S: Shelf, K: Invariant, R: Wait>(
    rt: &R,
    alloc: Global,
    store: &Store<N, S, K>,
    reader: ChannelReader<N, S>,
    memory: &mut Memory<N>,
    taken: &[(u64, u64)],
    when: When,
    keys: Keys<'_>,
) -> (ChannelReader<N, S>, Result<Vec<u8>, StateFault>)
    requires looks { IsKeptByLooks K.keeps }
    ensures read { IfOk result.1 (λ v. IsRead S.honest K.keeps when keys.entry taken.now
        reader result.0 memory.old memory.new v.items) }
    ensures known { IsLater memory.new memory.old }
    ensures kept { IsKnown K.keeps memory.new }
    ensures later { IsLater result.0.history reader.history }
    ensures refused { IfErr result.1 (IsReadFault S.honest K.keeps when keys.entry taken.now
        reader result.0 memory.old memory.new) }
{
    match view_at(rt, store, reader, memory, taken, when) {
        Ok((mut view, seq)) => {
            let answer = values_of(alloc, &mut view, seq, keys);
            (view.end(rt, store), answer)
        }
        Err((reader, fault)) => (reader, Err(fault)),
    }
}
