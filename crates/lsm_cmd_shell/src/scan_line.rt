//! Lines that ask for a scan.

ghost use Rattle.std.specs.Prelude.{◌≡◌, ℕ, Option, IfNone, IfOk, IfSome, IsTrue, ◌↔◌, map};
ghost use Rattle.lsm_requests.specs.declared.key_bounds.KeyBounds.{KeyBounds};
ghost use Rattle.lsm_cmd_shell.specs.Asks.{AreEnds, HasLimit, IsScanRest, IsScanWords};
ghost use Rattle.lsm_cmd_shell.specs.Mistakes.{ends_by_limit};

use lsm_requests::KeyBounds;
use lsm_text::{Form, number_in};
use std::alloc::{AllocError, Global};

/// The bounds that `[FROM [TO]]` spell.
fn bounds_in(alloc: Global, form: Form, ends: &[&[u8]]) -> Result<Option<KeyBounds>, AllocError>
    ensures some { IfOk result (λ o. IfSome o (AreEnds form (map (λ w. w.now) ends.now))) }
    ensures none { IfOk result (λ o.
        IfNone o ((b : KeyBounds) → AreEnds form (map (λ w. w.now) ends.now) b → ⊥)) }
{
    match ends {
        [] => Ok(Some(KeyBounds {
            from: None,
            to: None,
            prefix: None,
        })),
        [from] => match form.read_bytes(alloc, from)? {
            Some(from) => Ok(Some(KeyBounds {
                from: Some(from),
                to: None,
                prefix: None,
            })),
            None => Ok(None),
        },
        [from, to] => {
            if *from == b"limit".as_slice() {
                return Ok(None);
            }
            let Some(from) = form.read_bytes(alloc, from)? else {
                return Ok(None);
            };
            match form.read_bytes(alloc, to)? {
                Some(to) => Ok(Some(KeyBounds {
                    from: Some(from),
                    to: Some(to),
                    prefix: None,
                })),
                None => Ok(None),
            }
        }
        _ => Ok(None),
    }
}

/// Whether the last word but one is `limit`.
pub(crate) fn has_limit(rest: &[&[u8]]) -> bool
    ensures has { IsTrue result ↔ HasLimit (map (λ w. w.now) rest.now) }
    ensures same { result ≡ ends_by_limit (map (λ w. w.now) rest.now) }
{
    let count = rest.len();
    if count < 2 {
        return false;
    }
    if rest[count - 2] == b"limit".as_slice() {
        return true;
    }
    false
}

/// The bounds and the limit that these words ask for.
fn limited_in(
    alloc: Global,
    form: Form,
    rest: &[&[u8]],
) -> Result<Option<(KeyBounds, Option<u64>)>, AllocError>
    requires limit { HasLimit (map (λ w. w.now) rest.now) }
    ensures some { IfOk result (λ o. IfSome o (λ s.
        IsScanRest form (map (λ w. w.now) rest.now) s.0 s.1)) }
    ensures none { IfOk result (λ o. IfNone o ((b : KeyBounds) (n : Option ℕ)
        → IsScanRest form (map (λ w. w.now) rest.now) b n → ⊥)) }
{
    let count = rest.len();
    let Some(limit) = number_in(rest[count - 1], u64::MAX) else {
        return Ok(None);
    };
    match bounds_in(alloc, form, &rest[..count - 2])? {
        Some(bounds) => Ok(Some((bounds, Some(limit)))),
        None => Ok(None),
    }
}

/// The bounds and the limit of the scan that these words behind its name ask for.
fn ends_in(
    alloc: Global,
    form: Form,
    rest: &[&[u8]],
) -> Result<Option<(KeyBounds, Option<u64>)>, AllocError>
    ensures some { IfOk result (λ o. IfSome o (λ s.
        IsScanRest form (map (λ w. w.now) rest.now) s.0 s.1)) }
    ensures none { IfOk result (λ o. IfNone o ((b : KeyBounds) (n : Option ℕ)
        → IsScanRest form (map (λ w. w.now) rest.now) b n → ⊥)) }
{
    if has_limit(rest) {
        return limited_in(alloc, form, rest);
    }
    match bounds_in(alloc, form, rest)? {
        Some(bounds) => Ok(Some((bounds, None))),
        None => Ok(None),
    }
}

/// The bounds and the limit of the scan that the words ask for.
pub(crate) fn scan_in(
    alloc: Global,
    form: Form,
    words: &[&[u8]],
) -> Result<Option<(KeyBounds, Option<u64>)>, AllocError>
    ensures some { IfOk result (λ o. IfSome o (λ s.
        IsScanWords form (map (λ w. w.now) words.now) s.0 s.1)) }
    ensures none { IfOk result (λ o. IfNone o ((b : KeyBounds) (n : Option ℕ)
        → IsScanWords form (map (λ w. w.now) words.now) b n → ⊥)) }
{
    match words {
        [name, rest @ ..] if *name == b"scan".as_slice() => ends_in(alloc, form, rest),
        _ => Ok(None),
    }
}
