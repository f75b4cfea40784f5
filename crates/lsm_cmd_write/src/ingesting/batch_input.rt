//! A batch that an input spells.

ghost use Rattle.std.specs.Prelude.{◌≤◌, IfErr, IfOk, IfSome, OnOk, length};
ghost use Rattle.lsm_text.specs.BatchText.{IsBatchText};
ghost use Rattle.lsm_cmd_write.specs.BatchInput.{IsTextFault};

use lsm_batch::Batch;
use lsm_opening::WriterFault;
use lsm_text::{BatchTextFault, Form, batch_in, read_input};
use std::alloc::Global;
use std::io::Read;

/// The batch that a text spells, with the refusals of `batch_in`.
fn batch_of(alloc: Global, form: Form, text: &[u8]) -> Result<Batch, WriterFault>
    ensures batch { IfOk result (λ b. IsBatchText form text.now b) }
    ensures refused { IfErr result (IsTextFault form text.now) }
{
    match batch_in(alloc, form, text) {
        Ok(batch) => Ok(batch),
        Err(BatchTextFault::OutOfMemory) => Err(WriterFault::OutOfMemory),
        Err(BatchTextFault::BadLine(line, fault)) => Err(WriterFault::BadLine(line, fault)),
    }
}

/// The batch that an input spells: one line a key, `KEY=VALUE` for its new value or `KEY!` where it
/// is deleted, KEY and VALUE words of this form. Whether it may come in is not judged here.
///
/// `Read` where a read fails, or where there are more than 64 MiB; `BadLine` with the number of the
/// first line of another form, and where that is seen; `OutOfMemory`.
pub fn read_batch<I: Read>(alloc: Global, form: Form, input: &mut I) -> Result<Batch, WriterFault>
    ensures batch { IfOk result (λ b.
        IfSome (I.remaining input.old) (λ text. IsBatchText form text b)) }
    ensures limit { OnOk result (IfSome (I.remaining input.old) (λ text. length text ≤ 67108864)) }
    ensures refused { IfErr result (λ e.
        IfSome (I.remaining input.old) (λ text. IsTextFault form text e)) }
{
    let text = read_input(alloc, input)?;
    batch_of(alloc, form, &text)
}
