//! What one line asks for.

ghost use Rattle.std.specs.Prelude.{IfNone, IfOk, IfSome};
ghost use Rattle.lsm_text.specs.declared.form.Form.{Form};
ghost use Rattle.lsm_cmd_shell.specs.Asks.{IsAsk, IsBare, IsOther};
ghost use Rattle.lsm_cmd_shell.specs.declared.ask.Ask.{Ask};

use crate::ask::Ask;
use crate::scan_line::scan_in;
use crate::writes::one_write_in;
use lsm_script::{command_in, words_in};
use lsm_text::Form;
use std::alloc::{AllocError, Global};

/// What a line of one word asks for that is none of a script.
fn bare_in(line: &[u8]) -> Option<Ask>
    ensures some { (form : Form) → IfSome result (IsAsk form line.now) }
    ensures none { IfNone result ((form : Form) (a : Ask) → IsBare a → IsAsk form line.now a → ⊥) }
{
    if line == b"begin".as_slice() {
        return Some(Ask::Begin);
    }
    if line == b"commit".as_slice() {
        return Some(Ask::Commit);
    }
    if line == b"abort".as_slice() {
        return Some(Ask::Abort);
    }
    if line == b"compact".as_slice() {
        return Some(Ask::Compact);
    }
    if line == b"stats".as_slice() {
        return Some(Ask::Stats);
    }
    if line == b"help".as_slice() {
        return Some(Ask::Help);
    }
    None
}

/// What a line of several words asks for that is none of a script: one write, or a scan.
fn other_in(alloc: Global, form: Form, line: &[u8]) -> Result<Option<Ask>, AllocError>
    ensures some { IfOk result (λ o. IfSome o (IsOther form line.now)) }
    ensures none { IfOk result (λ o. IfNone o ((a : Ask) → IsOther form line.now a → ⊥)) }
{
    let words = words_in(alloc, line)?;
    if let Some(write) = one_write_in(alloc, form, &words)? {
        return Ok(Some(Ask::Put(write)));
    }
    match scan_in(alloc, form, &words)? {
        Some((bounds, limit)) => Ok(Some(Ask::Scan(bounds, limit))),
        None => Ok(None),
    }
}

/// What a line asks for, its words for bytes in this form. None where it asks for nothing.
pub fn ask_in(alloc: Global, form: Form, line: &[u8]) -> Result<Option<Ask>, AllocError>
    ensures some { IfOk result (λ o. IfSome o (IsAsk form line.now)) }
    ensures none { IfOk result (λ o. IfNone o ((a : Ask) → IsAsk form line.now a → ⊥)) }
{
    if let Some(ask) = bare_in(line) {
        return Ok(Some(ask));
    }
    if let Some(command) = command_in(alloc, form, line)? {
        return Ok(Some(Ask::Do(command)));
    }
    other_in(alloc, form, line)
}
