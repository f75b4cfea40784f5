//! One entry of a text list, in buffers that the next one reuses.

ghost use Rattle.std.specs.Prelude.{◌≡◌, ◌<◌, ◌^◌, IfOk};

use crate::text_parts::parts;
use crate::words::{read_bytes, sequence};
use lsm_batch::{MOST_KEY, MOST_VALUE};
use lsm_codec::{KeyRef, Kind};
use std::alloc::{AllocError, Global};

/// An entry in memory of its own.
#[derive(Debug, Drop)]
pub struct EntryBuffer {
    pub user: Vec<u8>,
    pub seq: u64,
    pub kind: Kind,
    pub value: Vec<u8>,
    ghost seq_fits: { seq < 2 ^ 56 },
}

impl EntryBuffer {
    ghost use Rattle.lsm_text.specs.EntryReading.{entry_at, action_at, Reads};
    ghost use Rattle.lsm_text.specs.EntryView.{entry_of};
    ghost use Rattle.lsm_codec.specs.Entries.{internal_key};
    ghost use Rattle.lsm_codec.specs.KeyRef.{key_of};

    pub(crate) fn new(alloc: Global) -> EntryBuffer {
        EntryBuffer {
            user: Vec::new(alloc),
            seq: 0,
            kind: Kind::Deletion,
            value: Vec::new(alloc),
        }
    }

    /// The entry's key.
    pub fn key(&self) -> KeyRef<'_>
        ensures { key_of result ≡ internal_key (entry_of self.now) }
    {
        KeyRef {
            user: &self.user,
            seq: self.seq,
            kind: self.kind,
        }
    }

    /// Takes the entry that a line spells. `false` where it spells none; what is then held is not
    /// specified.
    #[tactic(auto, unfolding(crate::specs::EntryReading::entry_at))]
    pub(crate) fn read(&mut self, line: &[u8]) -> Result<bool, AllocError>
        ensures { IfOk result (λ found. Reads found (entry_of self.new) (entry_at line.now)) }
    {
        let Some((key, rest)) = parts(b' ', line) else {
            return Ok(false);
        };
        let Some((seq, action)) = parts(b' ', rest) else {
            return Ok(false);
        };
        if !read_bytes(&mut self.user, MOST_KEY, key)? {
            return Ok(false);
        }
        let Some(seq) = sequence(seq) else {
            return Ok(false);
        };
        self.seq = seq;
        self.read_action(action)
    }

    #[tactic(auto, unfolding(crate::specs::EntryReading::action_at))]
    fn read_action(&mut self, action: &[u8]) -> Result<bool, AllocError>
        ensures user { self.new.user ≡ self.old.user }
        ensures seq { self.new.seq ≡ self.old.seq }
        ensures action { IfOk result (λ found.
            Reads found (self.new.kind, self.new.value.items) (action_at action.now)) }
    {
        if action == b"del".as_slice() {
            self.kind = Kind::Deletion;
            self.value.clear();
            return Ok(true);
        }
        let Some((verb, word)) = parts(b' ', action) else {
            return Ok(false);
        };
        if verb != b"put".as_slice() {
            return Ok(false);
        }
        self.kind = Kind::Value;
        read_bytes(&mut self.value, MOST_VALUE, word)
    }
}
