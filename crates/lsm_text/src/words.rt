//! The words of a line.

ghost use Rattle.std.specs.Prelude.{◌≡◌, ℕ, ◌<◌, ◌^◌, List, IfOk, IfSome, Some};
ghost use Rattle.lsm_text.specs.EntryList.{IsBytesWord};
ghost use Rattle.lsm_text.specs.EntryReading.{sequence_at, bytes_at, Reads};

use crate::number::number_in;
use lsm_codec::{Bytes, MAX_SEQ};
use std::alloc::{AllocError, Global};

/// The sequence that a word spells.
pub(crate) fn sequence(word: &[u8]) -> Option<u64>
    ensures reads { result ≡ sequence_at word.now }
    ensures fits { IfSome result (λ seq. seq < 2 ^ 56) }
{
    if word.len() > 20 {
        return None;
    }
    number_in(word, MAX_SEQ)
}

/// Takes the bytes that a word spells. `false` where it spells none, or more than `most`; what
/// `out` then holds is not specified.
#[tactic(auto, unfolding(crate::specs::EntryReading::bytes_at))]
pub(crate) fn read_bytes(out: &mut Vec<u8>, most: usize, word: &[u8]) -> Result<bool, AllocError>
    ensures { IfOk result (λ found. Reads found out.new.items (bytes_at most word.now)) }
{
    if word == b".".as_slice() {
        out.clear();
        return Ok(true);
    }
    let len = word.len() / 2;
    if len == 0 || len > most {
        return Ok(false);
    }
    out.resize(len, 0)?;
    Ok(hex::decode_to_slice(word, out.as_mut_slice()).is_ok())
}

/// The bytes that a word spells in hex; none where it spells none.
pub(crate) fn read_hex(alloc: Global, word: &[u8]) -> Result<Option<Bytes>, AllocError>
    ensures only { IfOk result (λ o. IfSome o (IsBytesWord word.now)) }
    ensures found { (bytes : List ℕ) → IsBytesWord word.now bytes
        → IfOk result (λ o. o ≡ Some bytes) }
{
    let mut bytes = Vec::new(alloc);
    if read_bytes(&mut bytes, usize::MAX, word)? {
        return Ok(Some(Bytes::of(bytes)));
    }
    Ok(None)
}
