//! The manifest that a database holds.

ghost use Rattle.std.specs.Prelude.{◌≡◌, IsTrue};
ghost use Rattle.lsm_journal.specs.HeldManifest.{is_at_limit};

use crate::manifest_limit::ManifestLimit;
use std::marker::Model;

/// The manifest that a database holds: its number and bytes, the log numbers that it keeps from the
/// manifest it was read from (tags 2 and 9 of LevelDB's `db/version_edit.cc`), and the size from
/// which a new manifest is due.
#[derive(Debug, Drop)]
pub struct Journal {
    pub(crate) number: u64,
    pub(crate) bytes: Vec<u8>,
    pub(crate) log: u64,
    pub(crate) prev_log: u64,
    pub(crate) limit: ManifestLimit,
}

impl Model for Journal {
    ghost use Rattle.lsm_journal.specs.HeldManifest.{HeldManifest};

    ghost Value = { HeldManifest };

    ghost view = { λ j. record {
      number = j.number;
      bytes = j.bytes.items;
      log = j.log;
      prev_log = j.prev_log;
      limit = j.limit;
    } };

    ghost invariant = { λ j. Unit {0} };
}

impl Journal {
    /// The number of the manifest's file.
    pub fn number(&self) -> u64
        ensures { result ≡ self.now.number }
    {
        self.number
    }

    /// The manifest's bytes, as far as the shelf confirmed them.
    pub fn bytes(&self) -> &[u8]
        ensures { result.now ≡ self.now.bytes }
    {
        self.bytes.as_slice()
    }

    /// The number of the write-ahead log, as the manifest had it when it was read: logs below it
    /// are flushed (but for the one before it).
    pub fn log(&self) -> u64
        ensures { result ≡ self.now.log }
    {
        self.log
    }

    /// The number of the log before that one, as the manifest had it; 0 where there is none.
    pub fn prev_log(&self) -> u64
        ensures { result ≡ self.now.prev_log }
    {
        self.prev_log
    }

    /// Whether a new manifest is due: the manifest held has as many bytes as the limit, or more.
    pub fn is_at_limit(&self) -> bool
        ensures { result ≡ is_at_limit self.now }
    {
        self.limit.bytes <= self.bytes.len() as u64
    }
}
