//! Searching a data block for what a read finds.

ghost use Rattle.std.specs.Prelude.{◌≡◌, [], ◌∷◌, min, IfOk};
ghost use Rattle.lsm_codec.specs.KeyRef.{key_of};
ghost use Rattle.lsm_block.specs.Block.{entry_of};
ghost use Rattle.lsm_block.specs.Seeking.{not_below};
ghost use Rattle.lsm_table.specs.Found.{seen, found_in};
ghost use Rattle.lsm_table.specs.Searching.{read_key, of_user, Tells};

use crate::found::Found;
use lsm_block::{BlockRef, Cursor};
use lsm_codec::{KeyRef, Kind, MAX_SEQ};
use std::alloc::{AllocError, Global};

/// What a search of one data block tells.
#[derive(Drop)]
pub(crate) enum Search {
    /// All its entries stand before the key.
    GoesOn,
    /// What the first entry at or after the key says of the user key, which ends the read.
    Ended(Option<Found>),
}

/// The key from which on a read looks. A sequence above `MAX_SEQ` reads as that one.
pub fn key_for(user: &[u8], seq: u64) -> KeyRef<'_>
    ensures { key_of result ≡ read_key user.now (min seq MAX_SEQ) }
{
    KeyRef {
        user,
        seq: seq.min(MAX_SEQ),
        kind: Kind::Value,
    }
}

/// What an entry says of a user key: its value or deletion, or nothing where it is another user
/// key's.
pub fn found_in_entry(
    alloc: Global,
    key: &KeyRef<'_>,
    value: &[u8],
    user: &[u8],
) -> Result<Option<Found>, AllocError>
    ensures { IfOk result (λ r.
        seen r ≡ found_in (of_user user.now (entry_of (key_of key.now) value.now ∷ []))) }
{
    if key.user != user {
        return Ok(None);
    }
    match key.kind {
        Kind::Deletion => Ok(Some(Found::Deleted)),
        Kind::Value => Ok(Some(Found::Value(Vec::from_slice(alloc, value)?))),
    }
}

/// Searches a data block for the first entry at or after the key. Leaves the cursor where it may
/// be.
pub(crate) fn search_block(
    alloc: Global,
    block: &BlockRef<'_>,
    cursor: &mut Cursor,
    key: &KeyRef<'_>,
) -> Result<Search, AllocError>
    ensures { IfOk result (λ s.
        Tells (key_of key.now).user (not_below (key_of key.now) block.now.entries) s) }
{
    block.seek(cursor, key)?;
    let Some(value) = block.next(cursor)? else {
        return Ok(Search::GoesOn);
    };
    let Some(found) = cursor.key() else {
        return Ok(Search::GoesOn);
    };
    Ok(Search::Ended(found_in_entry(alloc, &found, value, key.user)?))
}
