//! One line of a batch.

ghost use Rattle.std.specs.Prelude.{◌∷◌, IfNone, IfOk, IfSome, codes};
ghost use Rattle.lsm_batch.specs.declared.write.Write.{Write};
ghost use Rattle.lsm_text.specs.BatchText.{IsWriteLine, Spell};

use crate::form::Form;
use crate::text_parts::parts;
use lsm_batch::Write;
use std::alloc::{AllocError, Global};

/// The key of this word gets the value of that word. None where one of them spells no bytes.
fn put_in(alloc: Global, form: Form, key: &[u8], value: &[u8]) -> Result<Option<Write>, AllocError>
    ensures some { IfOk result (λ o. IfSome o (Spell form key.now (61 ∷ value.now))) }
    ensures none { IfOk result (λ o.
        IfNone o ((w : Write) → Spell form key.now (61 ∷ value.now) w → ⊥)) }
{
    let Some(key) = form.read_bytes(alloc, key)? else {
        return Ok(None);
    };
    match form.read_bytes(alloc, value)? {
        Some(value) => Ok(Some(Write {
            key,
            value: Some(value),
        })),
        None => Ok(None),
    }
}

/// The key of this word is deleted. None where it spells no bytes.
fn delete_in(alloc: Global, form: Form, key: &[u8]) -> Result<Option<Write>, AllocError>
    ensures some { IfOk result (λ o. IfSome o (Spell form key.now (codes "!"))) }
    ensures none { IfOk result (λ o.
        IfNone o ((w : Write) → Spell form key.now (codes "!") w → ⊥)) }
{
    match form.read_bytes(alloc, key)? {
        Some(key) => Ok(Some(Write { key, value: None })),
        None => Ok(None),
    }
}

/// What a line writes of a key: `KEY=VALUE` for its new value, `KEY!` where it is deleted, both
/// words of this form. None for another line.
pub fn write_in(alloc: Global, form: Form, word: &[u8]) -> Result<Option<Write>, AllocError>
    ensures some { IfOk result (λ o. IfSome o (IsWriteLine form word.now)) }
    ensures none { IfOk result (λ o. IfNone o ((w : Write) → IsWriteLine form word.now w → ⊥)) }
{
    if let Some(found) = parts(b'=', word) {
        return put_in(alloc, form, found.0, found.1);
    }
    let Some(found) = parts(b'!', word) else {
        return Ok(None);
    };
    if !found.1.is_empty() {
        return Ok(None);
    }
    delete_in(alloc, form, found.0)
}
