//! The wires of the channels.

ghost use Rattle.std.specs.Prelude.{◌≡◌, ◌+◌, ◌≤◌, ◌^◌, ◌++◌, [], IfOk, OnErr, OnOk, map};
ghost use Rattle.std.specs.Prelude.{true, false, vec_capacity, vec_len};
ghost use Rattle.lsm_channels.specs.Opening.{AreOpen, HasClosed};
ghost use Rattle.lsm_channels.specs.Serving.{end, ends_from, opened_from};

use lsm_wire::Descriptors;
use std::alloc::{AllocError, Global};

/// Whether so many descriptors, from this one on, are open. A file that is opened takes the lowest
/// number that is free: an answer over a channel that is not open would go into a table or a
/// manifest.
pub(crate) fn are_open<D: Descriptors>(descriptors: &D, first: u32, count: usize) -> bool
    requires numbers { first + count ≤ 2 ^ 31 }
    ensures open { result ≡ true → AreOpen D.says first count }
    ensures closed { result ≡ false → HasClosed D.says first count }
{
    for number in 0..count {
        if !descriptors.is_open((first as usize + number) as i32) {
            return false;
        }
    }
    true
}

/// Makes a wire of so many descriptors, from this one on, for which there is room.
fn open_all<D: Descriptors>(
    descriptors: &mut D,
    first: u32,
    count: usize,
    wires: Vec<D::Wire>,
) -> Vec<D::Wire>
    requires numbers { first + count ≤ 2 ^ 31 }
    requires none { (wires.items ≡ []) × (vec_len wires ≡ 0) }
    requires room { count ≤ vec_capacity wires }
    ensures wires { map (λ w. end (D.Wire.descriptor w) (D.Wire.happened w)) result.items
        ≡ ends_from first count }
    ensures opened { D.opened descriptors.new
        ≡ opened_from first count ++ D.opened descriptors.old }
    ensures len { vec_len result ≡ count }
{
    let mut wires = wires;
    for number in 0..count {
        let wire = descriptors.wire((first as usize + number) as i32);
        let Ok(()) = wires.push(wire) else {
            unreachable!()
        };
    }
    wires
}

/// Makes a wire of so many descriptors, from this one on.
pub(crate) fn open_wires<D: Descriptors>(
    alloc: Global,
    descriptors: &mut D,
    first: u32,
    count: usize,
) -> Result<Vec<D::Wire>, AllocError>
    requires numbers { first + count ≤ 2 ^ 31 }
    ensures wires { IfOk result (λ v. map (λ w. end (D.Wire.descriptor w) (D.Wire.happened w))
        v.items ≡ ends_from first count) }
    ensures opened { OnOk result (D.opened descriptors.new
        ≡ opened_from first count ++ D.opened descriptors.old) }
    ensures none { OnErr result (D.opened descriptors.new ≡ D.opened descriptors.old) }
    ensures len { IfOk result (λ v. vec_len v ≡ count) }
{
    let wires = Vec::with_capacity(alloc, count)?;
    Ok(open_all(descriptors, first, count, wires))
}
