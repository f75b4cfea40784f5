//! The limits of a batch, and the order of its keys.

ghost use Rattle.std.specs.Prelude.{◌≡◌, ◌↔◌, length, IsTrue, IfSome, IfNone};
ghost use Rattle.lsm_batch.specs.Batches.{IsLess, IsMisplaced, IsTooLarge, KeysRise};

use crate::write::Write;

/// The most entries of a batch.
pub const MOST_ENTRIES: usize = 65_536;

/// The most bytes of the keys and values of a batch together, 4 MiB.
pub const MOST_BYTES: usize = 4_194_304;

/// The most bytes of a key.
pub const MOST_KEY: usize = 4_096;

/// The most bytes of a value, 1 MiB.
pub const MOST_VALUE: usize = 1_048_576;

// Whether a batch is over a limit.
pub(crate) fn is_too_large(writes: &[Write]) -> bool
    ensures { IsTrue result ↔ IsTooLarge writes.now }
{
    if writes.len() > MOST_ENTRIES {
        return true;
    }
    let mut bytes = 0;
    for write in writes {
        let Some(size) = write.fitting_size() else {
            return true;
        };
        bytes += size;
        if bytes > MOST_BYTES {
            return true;
        }
    }
    false
}

// Whether the first key is less than the second one.
fn is_less(first: &[u8], second: &[u8]) -> bool
    ensures { IsTrue result ↔ IsLess first.now second.now }
{
    first.cmp(second).is_lt()
}

// The place of the first key that is not greater than the one before.
pub(crate) fn misplaced(writes: &[Write]) -> Option<u64>
    ensures some { IfSome result (λ i. IsMisplaced writes.now i) }
    ensures none { IfNone result (KeysRise (length writes.now) writes.now) }
{
    for i in 1..writes.len() {
        if !is_less(writes[i - 1].key.as_slice(), writes[i].key.as_slice()) {
            return Some(i as u64);
        }
    }
    None
}
