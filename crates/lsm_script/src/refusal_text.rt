//! Refusals as text.

ghost use Rattle.std.specs.Prelude.{◌≡◌, ◌++◌, OnOk};
ghost use Rattle.lsm_text.specs.FaultText.{field_text, refusal_text};
ghost use Rattle.lsm_script.specs.RefusalText.{refused_text};

use crate::command_fault::CommandFault;
use lsm_refusals::{cause_of_merge, of_merge, of_state};
use lsm_text::push_decimal;
use std::alloc::AllocError;

/// Appends a space and a number, if there is one.
fn push_field(out: &mut Vec<u8>, field: Option<u64>) -> Result<(), AllocError>
    ensures { OnOk result (out.new.items ≡ out.old.items ++ field_text field) }
{
    match field {
        Some(field) => {
            out.push(b' ')?;
            push_decimal(out, field)
        }
        None => Ok(()),
    }
}

/// Appends a refusal: its number, its name, and the number that it names.
fn push_refusal(
    out: &mut Vec<u8>,
    number: u8,
    name: &str,
    field: Option<u64>,
) -> Result<(), AllocError>
    ensures { OnOk result (out.new.items ≡ out.old.items ++ refusal_text number name.now field) }
{
    out.extend_from_slice(b"refused ")?;
    push_decimal(out, u64::from(number))?;
    out.push(b' ')?;
    out.extend_from_slice(name.as_bytes())?;
    push_field(out, field)
}

/// Appends why a command was refused.
pub(crate) fn push_refused(out: &mut Vec<u8>, fault: &CommandFault) -> Result<(), AllocError>
    ensures { OnOk result (out.new.items ≡ out.old.items ++ refused_text fault.now) }
{
    match fault {
        CommandFault::State(fault) => {
            let refusal = of_state(*fault);
            push_refusal(out, refusal.number, refusal.name, refusal.field)
        }
        CommandFault::Merge(fault) => {
            let refusal = of_merge(*fault);
            push_refusal(out, refusal.number, refusal.name, refusal.field)?;
            push_field(out, cause_of_merge(*fault))
        }
    }
}
