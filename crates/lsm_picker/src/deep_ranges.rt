//! The ranges of the files two or more levels below a level.

ghost use Rattle.std.specs.Prelude.{◌≡◌, ◌≤◌, ◌++◌, IfOk, OnOk};
ghost use Rattle.lsm_picker.specs.RangesBelow.{AreRangesBelow, ranges_of};

use lsm_codec::Bytes;
use lsm_table::{Naming, Registry, Shelf, TableRef};
use lsm_version::{Version, high_of, low_of};
use std::alloc::{AllocError, Global};

/// Appends the ranges of tables.
fn push_ranges<N: Naming, S: Shelf>(
    alloc: Global,
    registry: &Registry<N, S>,
    tables: &[TableRef<N, S>],
    ranges: &mut Vec<(Bytes, Bytes)>,
) -> Result<(), AllocError>
    ensures { OnOk result (ranges.new.items ≡ ranges.old.items ++ ranges_of tables.now) }
{
    for table in tables {
        let low = Bytes::of(Vec::from_slice(alloc, low_of(registry, table))?);
        let high = Bytes::of(Vec::from_slice(alloc, high_of(registry, table))?);
        ranges.push((low, high))?;
    }
    Ok(())
}

/// The ranges of user keys, least and greatest, of all files two or more levels below a level, 0 to
/// 5: a job of that level keeps a deletion that one of them covers. `AllocError` where a growth was
/// refused.
pub fn ranges_below<N: Naming, S: Shelf>(
    alloc: Global,
    registry: &Registry<N, S>,
    version: &Version<N, S>,
    level: u8,
) -> Result<Vec<(Bytes, Bytes)>, AllocError>
    requires level { level ≤ 5 }
    ensures { IfOk result (λ ranges. AreRangesBelow version.now level ranges.items) }
{
    // That a version has seven levels is told by this call.
    let _last = version.last();
    let mut ranges = Vec::new(alloc);
    for below in usize::from(level) + 2..7 {
        push_ranges(alloc, registry, version.level(below), &mut ranges)?;
    }
    Ok(ranges)
}
