//! A script that an input spells.

ghost use Rattle.std.specs.Prelude.{◌≡◌, ◌⊎◌, ◌≤◌, IfErr, IfOk, IfSome, OnOk, length};
ghost use Rattle.lsm_cmd_convert.specs.Played.{IsInputFault, IsScriptTextFault, IsInputUnread};
ghost use Rattle.lsm_script.specs.CommandLine.{IsScript};
ghost use Rattle.lsm_opening.specs.declared.faults.writer_fault.WriterFault.TheVariants.{OutOfMemory};
ghost use Rattle.lsm_opening.specs.declared.faults.writer_fault.WriterFault.TheVariants.{Read as ReadFault};

use crate::playing::watched::Watched;
use lsm_opening::WriterFault;
use lsm_script::{Command, ScriptFault, script_in};
use lsm_text::{InputFault, read_input};
use std::alloc::Global;
use std::io::Read;

/// All bytes of the input. `Read` only where its last read failed, or where there are more than 64
/// MiB.
fn text_of<I: Read>(alloc: Global, input: &mut Watched<I>) -> Result<Vec<u8>, WriterFault>
    ensures found { IfOk result (λ bytes.
        IfSome (I.remaining input.old.inner) (λ text. bytes.items ≡ text)) }
    ensures limit { IfOk result (λ bytes. length bytes.items ≤ 67108864) }
    ensures fault { IfErr result (λ e. (e ≡ OutOfMemory) ⊎ ((e ≡ ReadFault)
        × IfSome (I.remaining input.old.inner) (λ text. IsInputUnread text input.new.failed))) }
{
    let read = read_input(alloc, &mut *input);
    match read {
        Ok(bytes) => Ok(bytes),
        Err(InputFault::TooLong) => Err(WriterFault::Read),
        Err(InputFault::Read) if input.has_failed() => Err(WriterFault::Read),
        Err(_) => Err(WriterFault::OutOfMemory),
    }
}

/// The commands that a text spells, with the refusals of `script_in`.
fn script_of(alloc: Global, text: &[u8]) -> Result<Vec<Command>, WriterFault>
    ensures script { IfOk result (λ commands. IsScript text.now commands.items) }
    ensures refused { IfErr result (IsScriptTextFault text.now) }
{
    match script_in(alloc, text) {
        Ok(commands) => Ok(commands),
        Err(ScriptFault::OutOfMemory) => Err(WriterFault::OutOfMemory),
        Err(ScriptFault::BadLine(line)) => Err(WriterFault::BadLine(line, None)),
    }
}

/// The commands that an input spells, one a line.
///
/// `Read` only where the last read of the input failed, or where there are more than 64 MiB;
/// `BadLine` with the number of the first line of another form; `OutOfMemory`.
pub fn read_script<I: Read>(
    alloc: Global,
    input: &mut Watched<I>,
) -> Result<Vec<Command>, WriterFault>
    ensures script { IfOk result (λ commands.
        IfSome (I.remaining input.old.inner) (λ text. IsScript text commands.items)) }
    ensures limit { OnOk result
        (IfSome (I.remaining input.old.inner) (λ text. length text ≤ 67108864)) }
    ensures refused { IfErr result (λ e.
        IfSome (I.remaining input.old.inner) (λ text. IsInputFault text input.new.failed e)) }
{
    let text = text_of(alloc, input)?;
    script_of(alloc, &text)
}
