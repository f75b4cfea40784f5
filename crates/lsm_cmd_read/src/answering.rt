//! What a directory answers for a key.

ghost use Rattle.std.specs.Prelude.{◌≡◌, IfOk};
ghost use Rattle.std.specs.Option.{option_map};
ghost use Rattle.lsm_cmd_read.specs.Listing.{answer_text, shown_answer};

use lsm_requests::GetOutput;
use lsm_text::Form;
use std::alloc::{AllocError, Global};

/// The line of an answer: `value V`, or `absent`.
fn answer_line(alloc: Global, form: Form, answer: Option<Vec<u8>>) -> Result<Vec<u8>, AllocError>
    ensures { IfOk result (λ text.
        text.items ≡ answer_text form (option_map (λ v. v.items) answer)) }
{
    let mut text = Vec::new(alloc);
    match answer {
        None => text.extend_from_slice(b"absent\n")?,
        Some(value) => {
            text.extend_from_slice(b"value ")?;
            form.push_bytes(&mut text, value.as_slice())?;
            text.push(b'\n')?;
        }
    }
    Ok(text)
}

/// What is written of an answer; none where that is of an absent key, and no line is asked for.
pub(crate) fn shown_answer(
    alloc: Global,
    form: Form,
    output: GetOutput,
    answer: Option<Vec<u8>>,
) -> Result<Option<Vec<u8>>, AllocError>
    ensures { IfOk result (λ text. option_map (λ v. v.items) text
        ≡ shown_answer form output (option_map (λ v. v.items) answer)) }
{
    match output {
        GetOutput::Line => Ok(Some(answer_line(alloc, form, answer)?)),
        GetOutput::Raw => Ok(answer),
        GetOutput::Nothing => match answer {
            Some(_) => Ok(Some(Vec::new(alloc))),
            None => Ok(None),
        },
    }
}
