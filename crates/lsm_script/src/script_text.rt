//! Scripts as text.

ghost use Rattle.std.specs.Prelude.{◌≡◌, IfErr, IfOk};
ghost use Rattle.lsm_script.specs.CommandLine.{IsScript, IsScriptFault};
ghost use Rattle.lsm_script.specs.declared.script_text.ScriptFault.TheVariants.{OutOfMemory};

use crate::command::Command;
use crate::command_line::command_in;
use lsm_text::{Form, first_line};
use std::alloc::{AllocError, AllocFailed, Global};

/// Why a text is no script.
#[derive(Clone, Copy, Debug)]
pub enum ScriptFault {
    /// The number of the first line that spells no command, from 1.
    BadLine(usize),
    /// A growth of memory was refused.
    OutOfMemory,
}

impl From<AllocError> for ScriptFault {
    ghost from_gives = { λ _ f. f ≡ OutOfMemory };

    fn from(_error: AllocError) -> ScriptFault {
        ScriptFault::OutOfMemory
    }
}

impl<T: Drop> From<AllocFailed<T>> for ScriptFault {
    ghost from_gives = { λ _ f. f ≡ OutOfMemory };

    fn from(_error: AllocFailed<T>) -> ScriptFault {
        ScriptFault::OutOfMemory
    }
}

/// The commands that a text spells, one a line. `BadLine` with the number of the first line that
/// spells none.
#[tactic(auto, using(crate::proofs::ScriptLaws::read_all))]
pub fn script_in(alloc: Global, text: &[u8]) -> Result<Vec<Command>, ScriptFault>
    ensures script { IfOk result (λ commands. IsScript text.now commands.items) }
    ensures refused { IfErr result (IsScriptFault text.now) }
{
    let mut commands = Vec::new(alloc);
    let mut rest = text;
    let mut count = 0;
    'lines: while !rest.is_empty() {
        let (line, after) = first_line(rest);
        let Some(command) = command_in(alloc, Form::Hex, line)? else {
            return Err(ScriptFault::BadLine(count + 1));
        };
        commands.push(command)?;
        rest = after;
        count += 1;
    }
    Ok(commands)
}
