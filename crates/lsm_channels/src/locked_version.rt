//! A version that is pinned under the lock.

ghost use Rattle.std.specs.Prelude.{◌≡◌, IfErr, IfOk, OnErr, OnOk};
ghost use Rattle.std.specs.Option.{option_map};
ghost use Rattle.lsm_codec.specs.Entries.{answer};
ghost use Rattle.lsm_model.specs.Scanning.{IsScan};
ghost use Rattle.lsm_iterators.specs.Seeking.{at_or_past};
ghost use Rattle.lsm_channels.specs.Keeping.{IsKeptByLooks};
ghost use Rattle.lsm_state.specs.Held.{plain};
ghost use Rattle.lsm_channels.specs.Pinning.{HasLearnt, IsUnpinned, PinsCurrent};
ghost use Rattle.lsm_store.specs.Readers.{IsIdle, IsPromised};
ghost use Rattle.lsm_table.specs.ReadFault.{IsMemoryOrShelf};

use crate::locked_pin::LockedPin;
use lsm_query::{Scan, get_by, scan_from_by};
use lsm_reader::Cached;
use lsm_slots::Boarded;
use lsm_state::{State, StateFault};
use lsm_store::{Invariant, Reader, Store};
use lsm_table::{ReadFault, Shelf};
use lsm_version::Version;
use std::alloc::Global;
use std::marker::Model;
use std::sync::{Arc, Wait};

/// The version that a reader has learnt, pinned under the lock, and that reader. It must be ended,
/// which gives the pin back.
pub(crate) struct LockedVersion<N: Boarded, S: Shelf> {
    reader: Reader<N, S>,
    version: Arc<Version<N, S>>,
    pin: LockedPin,
}

impl<N: Boarded, S: Shelf> Model for LockedVersion<N, S> {
    ghost use Rattle.std.specs.Prelude.{◌≡◌};
    ghost use Rattle.std.specs.Arc.{arc_value};
    ghost use Rattle.lsm_store.specs.Readers.{Learnt};

    ghost Value = { Learnt };

    ghost view = { λ l. l.reader };

    ghost invariant = { λ l. (arc_value l.version ≡ l.reader.version)
        × (l.pin.id ≡ l.reader.id) };
}

impl<N: Boarded, S: Shelf> LockedVersion<N, S> {
    /// Pins the current version of a state, which the reader has learnt. `PinsSpent` where it has
    /// 2^32 - 1 such pins.
    pub(crate) fn pin(
        state: &mut State<N, S>,
        reader: Reader<N, S>,
    ) -> Result<LockedVersion<N, S>, (Reader<N, S>, StateFault)>
        requires { HasLearnt state.old.slots reader }
        ensures pinned { OnOk result (PinsCurrent state.old.slots state.new.slots) }
        ensures reader { IfOk result (λ l. l ≡ reader) }
        ensures rest { state.new ≡ record state.old { slots = state.new.slots } }
        ensures plain { plain state.new ≡ plain state.old }
        ensures err { OnErr result (state.new ≡ state.old) }
        ensures back { IfErr result (λ e. e.0 ≡ reader) }
        ensures refused { IfErr result (λ e. IsUnpinned state.old e.1) }
    {
        let Ok(version) = Arc::try_clone(state.current().1) else {
            return Err((reader, StateFault::OutOfMemory));
        };
        match LockedPin::of(state) {
            Ok(pin) => Ok(LockedVersion {
                reader,
                version,
                pin,
            }),
            Err(fault) => Err((reader, fault)),
        }
    }

    /// The value of a user key at a promised sequence, in all that had come in when the reader
    /// learnt the version.
    pub(crate) fn get(
        &self,
        blocks: &mut Cached<N, S>,
        alloc: Global,
        user: &[u8],
        seq: u64,
    ) -> Result<Option<Vec<u8>>, ReadFault>
        requires promised { IsPromised self.now seq }
        ensures history { S.honest → IfOk result (λ v.
            option_map (λ b. b.items) v ≡ answer self.now.history user.now seq) }
        ensures sound { S.honest → IfErr result IsMemoryOrShelf }
    {
        // That the version answers as the history is told by this call.
        let _id = self.reader.id();
        get_by(&self.version, blocks, alloc, user, seq)
    }

    /// A scan at a promised sequence from a user key on, of all that had come in then.
    pub(crate) fn scan_from(
        &self,
        blocks: &mut Cached<N, S>,
        alloc: Global,
        seq: u64,
        from: &[u8],
    ) -> Result<Scan<N, S>, ReadFault>
        requires promised { IsPromised self.now seq }
        ensures scanned { S.honest → IfOk result (λ s.
            IsScan seq (at_or_past from.now self.now.history) s.left) }
        ensures sound { S.honest → IfErr result IsMemoryOrShelf }
    {
        // That the version answers as the history is told by this call.
        let _id = self.reader.id();
        scan_from_by(&self.version, blocks, alloc, seq, from)
    }

    /// Gives the pin back.
    pub(crate) fn end<K: Invariant, R: Wait>(self, rt: &R, store: &Store<N, S, K>) -> Reader<N, S>
        requires looks { IsKeptByLooks K.keeps }
        ensures reader { result ≡ self }
        ensures idle { IsIdle result }
    {
        let LockedVersion {
            reader,
            version: _,
            pin,
        } = self;
        pin.give_back(&mut store.lock(rt).state);
        // That it holds no pin of its own is told by this call.
        let _id = reader.id();
        reader
    }
}
