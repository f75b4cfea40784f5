//! The last values of number fields and pointers in a row of edits.

ghost use Rattle.std.specs.Prelude.{◌≡◌, ℕ, List, IfOk};
ghost use Rattle.std.specs.Option.{option_map};
ghost use Rattle.lsm_manifest.specs.Replay.{pointer_in, last_pointer};

use crate::edit::Edit;
use crate::parts::CompactPointer;
use lsm_codec::Bytes;
use std::alloc::{AllocError, Global};

/// The last value of each number field, if some edit has it.
#[derive(Clone, Copy)]
pub(crate) struct LastValues {
    pub(crate) log: Option<u64>,
    pub(crate) prev_log: Option<u64>,
    pub(crate) next: Option<u64>,
    pub(crate) last: Option<u64>,
}

impl LastValues {
    ghost use Rattle.lsm_manifest.specs.LastValues.{AreLast};

    pub(crate) fn of(edits: &[Edit]) -> LastValues
        ensures { AreLast edits.now result }
    {
        let mut numbers = LastValues {
            log: None,
            prev_log: None,
            next: None,
            last: None,
        };
        for edit in edits {
            numbers = LastValues {
                log: edit.log.or(numbers.log),
                prev_log: edit.prev_log.or(numbers.prev_log),
                next: edit.next.or(numbers.next),
                last: edit.last.or(numbers.last),
            };
        }
        numbers
    }
}

/// The last pointer of a level in a list.
fn pointer_of(pointers: &[CompactPointer], level: u8) -> Option<&Bytes>
    ensures { option_map (λ key. key.now) result ≡ pointer_in level pointers.now }
{
    let mut found = None;
    for pointer in pointers {
        if pointer.level != level {
            continue;
        }
        found = Some(&pointer.key);
    }
    found
}

/// The last pointer of a level in a row of edits.
fn last_lent(edits: &[Edit], level: u8) -> Option<&Bytes>
    ensures { option_map (λ key. key.now) result ≡ last_pointer level edits.now }
{
    let mut found = None;
    for edit in edits {
        let Some(key) = pointer_of(edit.pointers.as_slice(), level) else {
            continue;
        };
        found = Some(key);
    }
    found
}

/// A copy of the last pointer of a level in a row of edits.
pub(crate) fn last_key(
    alloc: Global,
    edits: &[Edit],
    level: u8,
) -> Result<Option<Bytes>, AllocError>
    ensures { IfOk result (λ key. key ≡ last_pointer level edits.now) }
{
    match last_lent(edits, level) {
        Some(key) => Ok(Some(key.try_copy(alloc)?)),
        None => Ok(None),
    }
}
