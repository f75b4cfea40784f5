//! Which entries a merge keeps.

ghost use Rattle.std.specs.Prelude.{◌≡◌, [], Option};
ghost use Rattle.lsm_codec.specs.Entries.{Entry};
ghost use Rattle.lsm_codec.specs.KeyRef.{key_of};
ghost use Rattle.lsm_block.specs.Block.{entry_of};
ghost use Rattle.lsm_model.specs.Kept.{is_void};
ghost use Rattle.lsm_model.specs.Streams.{is_shadowed};
ghost use Rattle.lsm_merge.specs.Dropping.{is_kept};

use crate::rows::Rows;
use lsm_codec::{KeyRef, Kind};

/// Whether an entry of this key is a deletion that nothing below needs.
fn is_void(floor: u64, ranges: &Rows<'_>, key: &KeyRef<'_>) -> bool
    ensures { result ≡ is_void floor ranges.now (entry_of (key_of key.now) []) }
{
    match key.kind {
        Kind::Value => false,
        Kind::Deletion => key.seq <= floor && !ranges.covers(key.user),
    }
}

/// Whether an entry of this key is kept, where the entry before shadows it or not.
pub(crate) fn is_kept(shadowed: bool, floor: u64, ranges: &Rows<'_>, key: &KeyRef<'_>) -> bool
    ensures { (before : Option Entry)
        → shadowed ≡ is_shadowed floor before (entry_of (key_of key.now) [])
        → result ≡ is_kept floor ranges.now before (entry_of (key_of key.now) []) }
{
    !shadowed && !is_void(floor, ranges, key)
}
