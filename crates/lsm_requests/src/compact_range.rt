//! A range of keys that is compacted.

use lsm_codec::Bytes;

/// The user keys from one to another, both included, in bytewise order. `None` is no bound.
#[derive(Debug, Drop)]
pub struct CompactRange {
    pub from: Option<Bytes>,
    pub to: Option<Bytes>,
}
