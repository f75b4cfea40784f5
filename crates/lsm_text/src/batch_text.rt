//! Batches as text.

ghost use Rattle.std.specs.Prelude.{◌≡◌, ◌++◌, ◌∷◌, [], IfErr, IfOk, OnOk};
ghost use Rattle.lsm_text.specs.BatchText.{IsBatchTextFault, IsBatchText};
ghost use Rattle.lsm_text.specs.declared.batch_text.BatchTextFault.TheVariants.{OutOfMemory};

use crate::form::Form;
use crate::line_syntax::LineSyntaxFault;
use crate::text_parts::first_line;
use crate::write_line::write_in;
use lsm_batch::{Batch, Write};
use std::alloc::{AllocError, Global};

/// Why a text is no batch.
#[derive(Clone, Copy, Debug)]
pub enum BatchTextFault {
    /// The number of the first bad line, from 1, and where it stops being one of a batch.
    BadLine(usize, Option<LineSyntaxFault>),
    /// A growth of memory was refused.
    OutOfMemory,
}

impl From<AllocError> for BatchTextFault {
    ghost from_gives = { λ _ f. f ≡ OutOfMemory };

    fn from(_error: AllocError) -> BatchTextFault {
        BatchTextFault::OutOfMemory
    }
}

/// Adds what is written of a key.
pub fn push_write(batch: &mut Batch, write: Write) -> Result<(), AllocError>
    ensures { OnOk result (batch.new ≡ batch.old ++ write ∷ []) }
{
    let Write { key, value } = write;
    match value {
        Some(value) => batch.put(key, value),
        None => batch.delete(key),
    }
}

/// The batch that a text spells: one line a key, `KEY=VALUE` for its new value or `KEY!` where it
/// is deleted, KEY and VALUE words of this form. Whether it may come in is not judged here.
///
/// `BadLine` with the number of the first line of another form, and where that is seen;
/// `OutOfMemory`.
#[tactic(auto, using(crate::proofs::BatchLaws::read_start, crate::proofs::BatchLaws::read_more, crate::proofs::BatchLaws::read_all, crate::proofs::BatchLaws::read_bad))]
pub fn batch_in(alloc: Global, form: Form, text: &[u8]) -> Result<Batch, BatchTextFault>
    ensures batch { IfOk result (λ b. IsBatchText form text.now b) }
    ensures refused { IfErr result (IsBatchTextFault form text.now) }
{
    let mut batch = Batch::new(alloc);
    let mut rest = text;
    let mut count = 0;
    'lines: while !rest.is_empty() {
        let (line, after) = first_line(rest);
        let Some(write) = write_in(alloc, form, line)? else {
            return Err(BatchTextFault::BadLine(count + 1, LineSyntaxFault::of(form, line)));
        };
        push_write(&mut batch, write)?;
        rest = after;
        count += 1;
    }
    Ok(batch)
}
