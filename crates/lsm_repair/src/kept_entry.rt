//! An entry of a table, held in memory.

ghost use Rattle.std.specs.Prelude.{◌≡◌, ◌<◌, ◌^◌, IfOk};
ghost use Rattle.lsm_codec.specs.Entries.{internal_key};
ghost use Rattle.lsm_codec.specs.KeyRef.{key_of};
ghost use Rattle.lsm_block.specs.Block.{entry_of};

use lsm_codec::{Bytes, KeyRef, Kind};
use std::alloc::{AllocError, Global};
use std::marker::Model;

/// An entry of a table, in memory of its own, with the number of the table.
#[derive(Drop)]
pub(crate) struct KeptEntry {
    number: u64,
    user: Bytes,
    seq: u64,
    kind: Kind,
    value: Bytes,
    ghost seq_fits: { seq < 2 ^ 56 },
}

impl Model for KeptEntry {
    ghost use Rattle.lsm_repair.specs.Reading.{Held};

    ghost Value = { Held };

    ghost view = { λ e. record {
      number = e.number;
      entry = record { user = e.user; seq = e.seq; kind = e.kind; value = e.value };
    } };
}

impl KeptEntry {
    /// A copy of an entry of the table of this number.
    pub(crate) fn of(
        alloc: Global,
        number: u64,
        key: &KeyRef<'_>,
        value: &[u8],
    ) -> Result<KeptEntry, AllocError>
        ensures { IfOk result (λ e.
            e ≡ record { number = number; entry = entry_of (key_of key.now) value.now }) }
    {
        Ok(KeptEntry {
            number,
            user: Bytes::of(Vec::from_slice(alloc, key.user)?),
            seq: key.seq,
            kind: key.kind,
            value: Bytes::of(Vec::from_slice(alloc, value)?),
        })
    }

    /// The number of its table.
    pub(crate) fn number(&self) -> u64
        ensures { result ≡ self.now.number }
    {
        self.number
    }

    /// Its sequence.
    pub(crate) fn sequence(&self) -> u64
        ensures { result ≡ self.now.entry.seq }
    {
        self.seq
    }

    /// Its internal key.
    pub(crate) fn key(&self) -> KeyRef<'_>
        ensures { key_of result ≡ internal_key self.now.entry }
    {
        KeyRef {
            user: self.user.as_slice(),
            seq: self.seq,
            kind: self.kind,
        }
    }

    /// Its value, no bytes for a deletion.
    pub(crate) fn value(&self) -> &[u8]
        ensures { result.now ≡ self.now.entry.value }
    {
        self.value.as_slice()
    }
}
