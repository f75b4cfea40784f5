//! Lines that write one key.

ghost use Rattle.std.specs.Prelude.{IfNone, IfOk, IfSome, map};
ghost use Rattle.lsm_batch.specs.declared.write.Write.{Write};
ghost use Rattle.lsm_cmd_shell.specs.Asks.{IsDelete, IsOneWrite, IsPut};

use lsm_batch::Write;
use lsm_text::Form;
use std::alloc::{AllocError, Global};

/// What `put KEY VALUE` writes.
fn put_in(alloc: Global, form: Form, words: &[&[u8]]) -> Result<Option<Write>, AllocError>
    ensures some { IfOk result (λ o. IfSome o (IsPut form (map (λ w. w.now) words.now))) }
    ensures none { IfOk result (λ o.
        IfNone o ((w : Write) → IsPut form (map (λ w. w.now) words.now) w → ⊥)) }
{
    match words {
        [name, key, value] if *name == b"put".as_slice() => {
            let Some(key) = form.read_bytes(alloc, key)? else {
                return Ok(None);
            };
            match form.read_bytes(alloc, value)? {
                Some(value) => Ok(Some(Write {
                    key,
                    value: Some(value),
                })),
                None => Ok(None),
            }
        }
        _ => Ok(None),
    }
}

/// What `delete KEY` writes.
fn delete_in(alloc: Global, form: Form, words: &[&[u8]]) -> Result<Option<Write>, AllocError>
    ensures some { IfOk result (λ o. IfSome o (IsDelete form (map (λ w. w.now) words.now))) }
    ensures none { IfOk result (λ o.
        IfNone o ((w : Write) → IsDelete form (map (λ w. w.now) words.now) w → ⊥)) }
{
    match words {
        [name, key] if *name == b"delete".as_slice() => match form.read_bytes(alloc, key)? {
            Some(key) => Ok(Some(Write { key, value: None })),
            None => Ok(None),
        },
        _ => Ok(None),
    }
}

/// What the words write of one key.
pub(crate) fn one_write_in(
    alloc: Global,
    form: Form,
    words: &[&[u8]],
) -> Result<Option<Write>, AllocError>
    ensures some { IfOk result (λ o. IfSome o (IsOneWrite form (map (λ w. w.now) words.now))) }
    ensures none { IfOk result (λ o.
        IfNone o ((w : Write) → IsOneWrite form (map (λ w. w.now) words.now) w → ⊥)) }
{
    if let Some(write) = put_in(alloc, form, words)? {
        return Ok(Some(write));
    }
    delete_in(alloc, form, words)
}
