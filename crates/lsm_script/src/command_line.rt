//! One command as a line.

ghost use Rattle.std.specs.Prelude.{ℕ, IfNone, IfOk, IfSome, List, None, Some, map};
ghost use Rattle.lsm_batch.specs.declared.write.Write.{Write};
ghost use Rattle.lsm_script.specs.declared.command.Command.{Command};
ghost use Rattle.lsm_script.specs.declared.command.Command.TheVariants.{Get, Ingest, ReserveRange};
ghost use Rattle.lsm_text.specs.BatchText.{AreWriteLines};
ghost use Rattle.lsm_script.specs.CommandLine.{IsCommand, IsCommandLine};

use crate::command::Command;
use crate::named::{bare_in, numbered_in};
use crate::words::words_in;
use lsm_batch::Batch;
use lsm_text::{Form, number_in, push_write, write_in};
use std::alloc::{AllocError, Global};

/// The batch of which each word writes one key.
fn batch_of(alloc: Global, form: Form, words: &[&[u8]]) -> Result<Option<Batch>, AllocError>
    ensures some { IfOk result (λ o. IfSome o (AreWriteLines form (map (λ w. w.now) words.now))) }
    ensures none { IfOk result (λ o.
        IfNone o ((ws : List Write) → AreWriteLines form (map (λ w. w.now) words.now) ws → ⊥)) }
{
    let mut batch = Batch::new(alloc);
    for word in words {
        let Some(write) = write_in(alloc, form, word)? else {
            return Ok(None);
        };
        push_write(&mut batch, write)?;
    }
    Ok(Some(batch))
}

/// The batch that the words ask to bring in.
fn ingest_in(alloc: Global, form: Form, words: &[&[u8]]) -> Result<Option<Command>, AllocError>
    ensures some { IfOk result (λ o. IfSome o (IsCommand form (map (λ w. w.now) words.now))) }
    ensures none { IfOk result (λ o.
        IfNone o ((ws : List Write)
        → IsCommand form (map (λ w. w.now) words.now) (Ingest ws) → ⊥)) }
{
    match words {
        [name, keys @ ..] if *name == b"ingest".as_slice() => match batch_of(alloc, form, keys)? {
            Some(batch) => Ok(Some(Command::Ingest(batch))),
            None => Ok(None),
        },
        _ => Ok(None),
    }
}

/// The key that the words ask to read.
fn get_in(alloc: Global, form: Form, words: &[&[u8]]) -> Result<Option<Command>, AllocError>
    ensures some { IfOk result (λ o. IfSome o (IsCommand form (map (λ w. w.now) words.now))) }
    ensures none { IfOk result (λ o.
        IfNone o ((key : List ℕ)
        → IsCommand form (map (λ w. w.now) words.now) (Get key None) → ⊥)) }
{
    match words {
        [name, key] if *name == b"get".as_slice() => match form.read_bytes(alloc, key)? {
            Some(key) => Ok(Some(Command::Get(key, None))),
            None => Ok(None),
        },
        _ => Ok(None),
    }
}

/// The key that the words ask to read as of a snapshot.
fn get_at_in(alloc: Global, form: Form, words: &[&[u8]]) -> Result<Option<Command>, AllocError>
    ensures some { IfOk result (λ o. IfSome o (IsCommand form (map (λ w. w.now) words.now))) }
    ensures none { IfOk result (λ o. IfNone o ((key : List ℕ) (id : ℕ)
        → IsCommand form (map (λ w. w.now) words.now) (Get key (Some id)) → ⊥)) }
{
    match words {
        [name, key, id] if *name == b"get".as_slice() => {
            let Some(id) = number_in(id, u64::MAX) else {
                return Ok(None);
            };
            match form.read_bytes(alloc, key)? {
                Some(key) => Ok(Some(Command::Get(key, Some(id)))),
                None => Ok(None),
            }
        }
        _ => Ok(None),
    }
}

/// The range of which the words ask to reserve the compaction.
fn range_in(alloc: Global, form: Form, words: &[&[u8]]) -> Result<Option<Command>, AllocError>
    ensures some { IfOk result (λ o. IfSome o (IsCommand form (map (λ w. w.now) words.now))) }
    ensures none { IfOk result (λ o. IfNone o ((level : ℕ) (from : List ℕ) (to : List ℕ)
        → IsCommand form (map (λ w. w.now) words.now) (ReserveRange level from to) → ⊥)) }
{
    match words {
        [name, level, from, to] if *name == b"reserve".as_slice() => {
            let Some(level) = number_in(level, u64::from(u8::MAX)) else {
                return Ok(None);
            };
            let Some(from) = form.read_bytes(alloc, from)? else {
                return Ok(None);
            };
            match form.read_bytes(alloc, to)? {
                Some(to) => Ok(Some(Command::ReserveRange(level as u8, from, to))),
                None => Ok(None),
            }
        }
        _ => Ok(None),
    }
}

/// The command that words ask for.
fn command_of(alloc: Global, form: Form, words: &[&[u8]]) -> Result<Option<Command>, AllocError>
    ensures some { IfOk result (λ o. IfSome o (IsCommand form (map (λ w. w.now) words.now))) }
    ensures none { IfOk result (λ o.
        IfNone o ((c : Command) → IsCommand form (map (λ w. w.now) words.now) c → ⊥)) }
{
    if let Some(command) = bare_in(words) {
        return Ok(Some(command));
    }
    if let Some(command) = numbered_in(words) {
        return Ok(Some(command));
    }
    if let Some(command) = get_in(alloc, form, words)? {
        return Ok(Some(command));
    }
    if let Some(command) = get_at_in(alloc, form, words)? {
        return Ok(Some(command));
    }
    if let Some(command) = range_in(alloc, form, words)? {
        return Ok(Some(command));
    }
    ingest_in(alloc, form, words)
}

/// The command that a line spells: its name, and its words behind that, one space between two,
/// those for bytes in this form. None where it spells none; an empty line spells none.
pub fn command_in(alloc: Global, form: Form, line: &[u8]) -> Result<Option<Command>, AllocError>
    ensures some { IfOk result (λ o. IfSome o (IsCommandLine form line.now)) }
    ensures none { IfOk result (λ o. IfNone o ((c : Command) → IsCommandLine form line.now c → ⊥)) }
{
    let words = words_in(alloc, line)?;
    command_of(alloc, form, &words)
}
