//! Copies of lists of tables and of ranges.

ghost use Rattle.std.specs.Prelude.{◌≡◌, IfOk};

use lsm_codec::Bytes;
use lsm_table::{Naming, Shelf, TableRef};
use std::alloc::{AllocError, Global};

/// The same tables once more.
pub(crate) fn again_all<N: Naming, S: Shelf>(
    alloc: Global,
    tables: &[TableRef<N, S>],
) -> Result<Vec<TableRef<N, S>>, AllocError>
    ensures { IfOk result (λ v. v.items ≡ tables.now) }
{
    let mut copies = Vec::with_capacity(alloc, tables.len())?;
    for table in tables {
        copies.push(table.again())?;
    }
    Ok(copies)
}

/// Copies of ranges of user keys.
pub(crate) fn copy_ranges(
    alloc: Global,
    ranges: &[(Bytes, Bytes)],
) -> Result<Vec<(Bytes, Bytes)>, AllocError>
    ensures { IfOk result (λ v. v.items ≡ ranges.now) }
{
    let mut copies = Vec::with_capacity(alloc, ranges.len())?;
    for (low, high) in ranges {
        copies.push((low.try_copy(alloc)?, high.try_copy(alloc)?))?;
    }
    Ok(copies)
}
