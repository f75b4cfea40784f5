//! What a batch does to one key.

ghost use Rattle.std.specs.Prelude.{◌≡◌, ◌<◌, ◌^◌, IfNone, IfSome};
ghost use Rattle.lsm_codec.specs.KeyRef.{key_of};
ghost use Rattle.lsm_codec.specs.Entries.{internal_key};
ghost use Rattle.lsm_batch.specs.Batches.{IsLarge, kind_of, size_of, value_of, written_at};

use crate::limits::{MOST_KEY, MOST_VALUE};
use lsm_codec::{Bytes, KeyRef, Kind};

/// What a batch does to one user key.
#[derive(Debug, Drop)]
pub struct Write {
    /// The user key.
    pub key: Bytes,
    /// Its new value, or none for a deletion.
    pub value: Option<Bytes>,
}

impl Write {
    // The kind of its entry.
    fn kind(&self) -> Kind
        ensures { result ≡ kind_of self.now.value }
    {
        match &self.value {
            Some(_) => Kind::Value,
            None => Kind::Deletion,
        }
    }

    // The key of its entry at a sequence.
    pub(crate) fn key_at(&self, seq: u64) -> KeyRef<'_>
        requires { seq < 2 ^ 56 }
        ensures { key_of result ≡ internal_key (written_at seq self.now) }
    {
        KeyRef {
            user: self.key.as_slice(),
            seq,
            kind: self.kind(),
        }
    }

    // The bytes of its entry's value, none for a deletion.
    pub(crate) fn bytes(&self) -> &[u8]
        ensures { result.now ≡ value_of self.now.value }
    {
        match &self.value {
            Some(value) => value.as_slice(),
            None => b"".as_slice(),
        }
    }

    /// How many bytes key and value have. None where one of them is over its limit.
    pub fn fitting_size(&self) -> Option<usize>
        ensures size { IfSome result (λ n. n ≡ size_of self.now) }
        ensures small { IfSome result (λ n. (IsLarge self.now → ⊥) × (n < 2 ^ 21)) }
        ensures large { IfNone result (IsLarge self.now) }
    {
        let key = self.key.as_slice().len();
        let value = self.bytes().len();
        if key > MOST_KEY || value > MOST_VALUE {
            return None;
        }
        Some(key + value)
    }
}
