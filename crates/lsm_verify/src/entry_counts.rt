//! How many entries the tables of each level have.

ghost use Rattle.std.specs.Prelude.{◌≡◌, IfOk, map};
ghost use Rattle.std.specs.List.{sum_by};
ghost use Rattle.lsm_verify.specs.Counts.{counted};

use crate::sequences::Sequences;
use std::alloc::{AllocError, Global};

/// How many entries the tables of a level have. No memory holds so many that they can't be counted.
fn count_in(sequences: &[Sequences]) -> Result<u64, AllocError>
    ensures { IfOk result (λ n. n ≡ counted sequences.now) }
{
    let mut count: u64 = 0;
    for own in sequences {
        let Some(sum) = count.checked_add(own.count) else {
            return Err(AllocError);
        };
        count = sum;
    }
    Ok(count)
}

/// The same of each level.
pub(crate) fn counts_of(alloc: Global, sequences: &[Vec<Sequences>]) -> Result<Vec<u64>, AllocError>
    ensures { IfOk result (λ v. v.items ≡ map counted (map (λ l. l.items) sequences.now)) }
{
    let mut counts = Vec::with_capacity(alloc, sequences.len())?;
    for level in sequences {
        counts.push(count_in(level.as_slice())?)?;
    }
    Ok(counts)
}
