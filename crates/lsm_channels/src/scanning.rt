//! Pairs in the order of keys.

ghost use Rattle.std.specs.Prelude.{◌≡◌, ◌↔◌, ◌++◌, ◌∷◌, [], length, false, Err, IfErr, IfOk};
ghost use Rattle.std.specs.Prelude.{IsTrue, OnOk};
ghost use Rattle.std.specs.Option.{option_map};
ghost use Rattle.lsm_codec.specs.Keys.{user_le};
ghost use Rattle.lsm_frames.specs.Answers.{Shown};
ghost use Rattle.lsm_frames.specs.Views.{stretch_of};
ghost use Rattle.lsm_history.specs.History.{IsLater};
ghost use Rattle.lsm_model.specs.Scanning.{UsersAscend};
ghost use Rattle.lsm_channels.specs.Keeping.{IsKeptByLooks, IsKnown};
ghost use Rattle.lsm_channels.specs.Reading.{IsAnswerFault, IsTooLong, IsUnread};
ghost use Rattle.lsm_channels.specs.Scanning.{IsFull, IsLongPage, IsPage, IsScanFault, IsScanFrom};
ghost use Rattle.lsm_channels.specs.Scanning.{IsScanned, IsShown, IsUnshown, below, is_below};
ghost use Rattle.lsm_channels.specs.Scanning.{pair_of};
ghost use Rattle.lsm_channels.specs.Stepping.{Grows, IsLongTurn, Turns, ahead};
ghost use Rattle.lsm_state.specs.declared.state_fault.StateFault.TheVariants.{TooLarge};
ghost use Rattle.lsm_store.specs.Readers.{IsPromised};
ghost use Rattle.lsm_table.specs.ReadFault.{IsMemoryOrShelf};

use crate::channel_reader::ChannelReader;
use crate::channel_view::ChannelView;
use crate::refusing::of_answer;
use crate::turn::Turn;
use crate::viewing::view_at;
use lsm_frames::{PairsAnswer, Range};
use lsm_history::Memory;
use lsm_query::{Pair, Scan};
use lsm_slots::Boarded;
use lsm_state::StateFault;
use lsm_store::{Invariant, Store};
use lsm_table::{ReadFault, Shelf};
use std::alloc::Global;
use std::sync::Wait;

/// An answer gets no more pairs once they have so many bytes.
const PAGE: usize = 65_536;

/// Whether the first key is at most the second one.
#[tactic(auto, unfolding(lsm_codec::specs::Keys::user_le))]
fn is_at_most(a: &[u8], b: &[u8]) -> bool
    ensures { result ≡ user_le a.now b.now }
{
    a.cmp(b).is_le()
}

/// Whether a key is before the bound, if there is one.
fn is_below(to: Option<&[u8]>, key: &[u8]) -> bool
    ensures { result ≡ is_below (option_map (λ k. k.now) to.entry) key.now }
{
    match to {
        None => true,
        Some(to) => !is_at_most(to, key),
    }
}

/// A scan from a key on, of which the first pair is taken.
fn first_from<N: Boarded, S: Shelf>(
    alloc: Global,
    view: &mut ChannelView<N, S>,
    seq: u64,
    from: &[u8],
) -> Result<(Scan<N, S>, Option<Pair>), ReadFault>
    requires promised { IsPromised view.old seq }
    ensures scanned { S.honest → IfOk result (λ r.
        IsScanFrom from.now seq view.old.history (ahead r.1 r.0.left)) }
    ensures sound { S.honest → IfErr result IsMemoryOrShelf }
    ensures rest { view.new ≡ record view.old { told = view.new.told } }
{
    let mut scan = view.scan_from(alloc, seq, from)?;
    let next = view.next(alloc, &mut scan)?;
    Ok((scan, next))
}

/// Whether an answer of so many pairs gets no more.
fn is_full(limit: u32, count: u64, pairs: &PairsAnswer) -> bool
    requires count { length pairs.now ≡ count }
    ensures { IsTrue result ↔ IsFull limit pairs.now }
{
    (limit != 0 && u64::from(limit) <= count) || PAGE <= pairs.size()
}

/// Adds a pair.
fn add(pairs: &mut PairsAnswer, pair: &Pair) -> Result<(), StateFault>
    ensures added { OnOk result (pairs.new ≡ pairs.old ++ pair_of pair.now ∷ []) }
    ensures long { result ≡ Err TooLarge
        → IsTooLong (Shown false (pairs.old ++ pair_of pair.now ∷ [])) }
    ensures refused { IfErr result IsAnswerFault }
{
    match pairs.pair(pair.user(), pair.value()) {
        Ok(()) => Ok(()),
        Err(fault) => Err(of_answer(fault)),
    }
}

/// Adds the next pair of a scan, if it is before the bound, and the page is not full.
fn take_turn<N: Boarded, S: Shelf>(
    alloc: Global,
    view: &mut ChannelView<N, S>,
    scan: &mut Scan<N, S>,
    next: Option<Pair>,
    range: Range<'_>,
    count: u64,
    pairs: &mut PairsAnswer,
) -> Result<Turn, StateFault>
    requires ascending { S.honest → UsersAscend (ahead next scan.old.left) }
    requires count { length pairs.old ≡ count }
    ensures turn { S.honest → IfOk result (λ t. Turns (stretch_of range.entry).to range.entry.limit
        (ahead next scan.old.left) t scan.new.left pairs.old pairs.new) }
    ensures grows { IfOk result (λ t. Grows t pairs.old pairs.new) }
    ensures long { result ≡ Err TooLarge → IsLongTurn (stretch_of range.entry).to range.entry.limit
        (ahead next scan.old.left) pairs.old }
    ensures rest { view.new ≡ record view.old { told = view.new.told } }
    ensures refused { IfErr result (IsUnread S.honest) }
{
    let Some(pair) = next else {
        return Ok(Turn::Ended);
    };
    if !is_below(range.to, pair.user()) {
        return Ok(Turn::Ended);
    }
    if is_full(range.limit, count, pairs) {
        return Ok(Turn::Full);
    }
    add(pairs, &pair)?;
    Ok(Turn::Next(view.next(alloc, scan)?))
}

/// Adds the pairs of a range, up to a page. Whether none is left.
fn fill<N: Boarded, S: Shelf>(
    alloc: Global,
    view: &mut ChannelView<N, S>,
    scan: &mut Scan<N, S>,
    first: Option<Pair>,
    range: Range<'_>,
    pairs: &mut PairsAnswer,
) -> Result<bool, StateFault>
    requires ascending { S.honest → UsersAscend (ahead first scan.old.left) }
    requires none { pairs.old ≡ [] }
    ensures page { S.honest → IfOk result (λ ended. IsPage range.entry.limit
        (below (stretch_of range.entry).to (ahead first scan.old.left)) ended pairs.new) }
    ensures long { S.honest → result ≡ Err TooLarge → IsLongPage range.entry.limit
        (below (stretch_of range.entry).to (ahead first scan.old.left)) }
    ensures rest { view.new ≡ record view.old { told = view.new.told } }
    ensures refused { IfErr result (IsUnread S.honest) }
{
    let mut next = first;
    for count in 0..u64::MAX {
        match take_turn(alloc, view, scan, next, range, count, pairs)? {
            Turn::Next(pair) => next = pair,
            Turn::Full => return Ok(false),
            Turn::Ended => return Ok(true),
        }
    }
    // Only a shelf that is not honest could give so many.
    Err(StateFault::OutOfMemory)
}

/// The answer with the first pairs of a range at a sequence.
fn page_of<N: Boarded, S: Shelf>(
    alloc: Global,
    view: &mut ChannelView<N, S>,
    seq: u64,
    range: Range<'_>,
) -> Result<Vec<u8>, StateFault>
    requires promised { IsPromised view.old seq }
    ensures shown { S.honest → IfOk result (λ v.
        IsShown (stretch_of range.entry) view.old.history seq v.items) }
    ensures long { S.honest → result ≡ Err TooLarge
        → IsUnshown (stretch_of range.entry) view.old.history seq }
    ensures rest { view.new ≡ record view.old { told = view.new.told } }
    ensures refused { IfErr result (IsUnread S.honest) }
{
    let mut pairs = PairsAnswer::new(alloc)?;
    let (mut scan, first) = first_from(alloc, view, seq, range.from)?;
    let is_ended = fill(alloc, view, &mut scan, first, range, &mut pairs)?;
    Ok(pairs.finish(is_ended))
}

/// The first pairs of a range in all that has come in, at its last sequence or at a snapshot's.
#[tactic(auto, using(crate::proofs::SeenLaws::promised))]
pub(crate) fn scan<N: Boarded, S: Shelf, K: Invariant, R: Wait>(
    rt: &R,
    alloc: Global,
    store: &Store<N, S, K>,
    reader: ChannelReader<N, S>,
    memory: &mut Memory<N>,
    taken: &[(u64, u64)],
    range: Range<'_>,
) -> (ChannelReader<N, S>, Result<Vec<u8>, StateFault>)
    requires looks { IsKeptByLooks K.keeps }
    ensures scanned { IfOk result.1 (λ v. IsScanned S.honest K.keeps (stretch_of range.entry)
        taken.now reader result.0 memory.old memory.new v.items) }
    ensures known { IsLater memory.new memory.old }
    ensures kept { IsKnown K.keeps memory.new }
    ensures later { IsLater result.0.history reader.history }
    ensures refused { IfErr result.1 (IsScanFault S.honest K.keeps (stretch_of range.entry)
        taken.now reader result.0 memory.old memory.new) }
{
    match view_at(rt, store, reader, memory, taken, range.when) {
        Ok((mut view, seq)) => {
            let answer = page_of(alloc, &mut view, seq, range);
            (view.end(rt, store), answer)
        }
        Err((reader, fault)) => (reader, Err(fault)),
    }
}
