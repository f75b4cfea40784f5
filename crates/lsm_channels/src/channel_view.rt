//! What a request reads by.

ghost use Rattle.std.specs.Prelude.{◌≡◌, IfErr, IfOk};
ghost use Rattle.std.specs.Option.{option_map};
ghost use Rattle.lsm_codec.specs.Entries.{answer};
ghost use Rattle.lsm_model.specs.Scanning.{IsScan};
ghost use Rattle.lsm_iterators.specs.Seeking.{at_or_past};
ghost use Rattle.lsm_iterators.specs.Shown.{ShowsPair};
ghost use Rattle.lsm_channels.specs.Keeping.{IsKeptByLooks};
ghost use Rattle.lsm_store.specs.Readers.{IsPromised, unpinned};
ghost use Rattle.lsm_table.specs.ReadFault.{IsMemoryOrShelf};

use crate::channel_reader::ChannelReader;
use crate::pin::Pin;
use lsm_query::{Pair, Scan};
use lsm_reader::Cached;
use lsm_slots::Boarded;
use lsm_store::{Invariant, Store};
use lsm_table::{ReadFault, Shelf};
use std::alloc::Global;
use std::marker::Model;
use std::sync::Wait;

/// A channel's reader with a pin of the version that it has learnt. It must be ended, which gives
/// the pin back. Contracts see the reader.
pub(crate) struct ChannelView<N: Boarded, S: Shelf> {
    pub(crate) pin: Pin<N, S>,
    pub(crate) blocks: Cached<N, S>,
}

impl<N: Boarded, S: Shelf> Model for ChannelView<N, S> {
    ghost use Rattle.lsm_channels.specs.Pinning.{seen_by};
    ghost use Rattle.lsm_store.specs.Readers.{Learnt};

    ghost Value = { Learnt };

    ghost view = { λ v. seen_by v.pin };
}

impl<N: Boarded, S: Shelf> ChannelView<N, S> {
    /// The value of a user key at a promised sequence, in all that had come in when the version was
    /// learnt.
    pub(crate) fn get(
        &mut self,
        alloc: Global,
        user: &[u8],
        seq: u64,
    ) -> Result<Option<Vec<u8>>, ReadFault>
        requires promised { IsPromised self.old seq }
        ensures history { S.honest → IfOk result (λ v.
            option_map (λ b. b.items) v ≡ answer self.old.history user.now seq) }
        ensures sound { S.honest → IfErr result IsMemoryOrShelf }
        ensures rest { self.new ≡ record self.old { told = self.new.told } }
    {
        let ChannelView { pin, blocks } = self;
        match pin {
            Pin::Own(view) => view.get(alloc, user, seq),
            Pin::Locked(locked) => locked.get(blocks, alloc, user, seq),
        }
    }

    /// A scan at a promised sequence from a user key on, of all that had come in then.
    pub(crate) fn scan_from(
        &mut self,
        alloc: Global,
        seq: u64,
        from: &[u8],
    ) -> Result<Scan<N, S>, ReadFault>
        requires promised { IsPromised self.old seq }
        ensures scanned { S.honest → IfOk result (λ s.
            IsScan seq (at_or_past from.now self.old.history) s.left) }
        ensures sound { S.honest → IfErr result IsMemoryOrShelf }
        ensures rest { self.new ≡ record self.old { told = self.new.told } }
    {
        let ChannelView { pin, blocks } = self;
        match pin {
            Pin::Own(view) => view.scan_from(alloc, seq, from),
            Pin::Locked(locked) => locked.scan_from(blocks, alloc, seq, from),
        }
    }

    /// A copy of the next pair of the scan, or none at the end.
    pub(crate) fn next(
        &mut self,
        alloc: Global,
        scan: &mut Scan<N, S>,
    ) -> Result<Option<Pair>, ReadFault>
        ensures ok { S.honest → IfOk result (λ r. ShowsPair r scan.old.left scan.new.left) }
        ensures sound { S.honest → IfErr result IsMemoryOrShelf }
        ensures rest { self.new ≡ record self.old { told = self.new.told } }
    {
        let ChannelView { pin, blocks } = self;
        match pin {
            Pin::Own(view) => view.next(alloc, scan),
            Pin::Locked(_) => scan.next_by(blocks, alloc),
        }
    }

    /// Gives the pin back.
    pub(crate) fn end<K: Invariant, R: Wait>(
        self,
        rt: &R,
        store: &Store<N, S, K>,
    ) -> ChannelReader<N, S>
        requires looks { IsKeptByLooks K.keeps }
        ensures { result ≡ unpinned self }
    {
        let ChannelView { pin, blocks } = self;
        let reader = pin.end(rt, store);
        ChannelReader { reader, blocks }
    }
}
