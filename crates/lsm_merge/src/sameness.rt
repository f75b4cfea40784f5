//! Whether lists of tables, or of ranges, are equal.

ghost use Rattle.std.specs.Prelude.{◌≡◌, ◌↔◌, IsTrue};

use lsm_codec::Bytes;
use lsm_table::{Naming, Registry, Shelf, TableRef};

/// Whether both are the same records one after another.
pub(crate) fn same_tables<N: Naming, S: Shelf>(
    registry: &Registry<N, S>,
    first: &[TableRef<N, S>],
    second: &[TableRef<N, S>],
) -> bool
    ensures { IsTrue result ↔ (first.now ≡ second.now) }
{
    let mut one = first;
    let mut other = second;
    while let [a, one_rest @ ..] = one {
        let [b, other_rest @ ..] = other else {
            return false;
        };
        if !registry.same(a, b) {
            return false;
        }
        one = one_rest;
        other = other_rest;
    }
    other.is_empty()
}

/// Whether both have the same ends.
fn same_range(one: &(Bytes, Bytes), other: &(Bytes, Bytes)) -> bool
    ensures { IsTrue result ↔ (one.now ≡ other.now) }
{
    one.0.as_slice() == other.0.as_slice() && one.1.as_slice() == other.1.as_slice()
}

/// Whether both are the same ranges one after another.
pub(crate) fn same_ranges(first: &[(Bytes, Bytes)], second: &[(Bytes, Bytes)]) -> bool
    ensures { IsTrue result ↔ (first.now ≡ second.now) }
{
    let mut one = first;
    let mut other = second;
    while let [a, one_rest @ ..] = one {
        let [b, other_rest @ ..] = other else {
            return false;
        };
        if !same_range(a, b) {
            return false;
        }
        one = one_rest;
        other = other_rest;
    }
    other.is_empty()
}
