//! The plain table of a table's bytes.

ghost use Rattle.std.specs.Prelude.{◌≡◌, ◌⊎◌, ◌≤◌, ◌^◌, length, Ok, Some, IfOk, IfErr};
ghost use Rattle.lsm_inflate.specs.PackedReading.{inflated_at};
ghost use Rattle.lsm_mirror.specs.Refusals.{IsNotMadePlain};
ghost use Rattle.lsm_mirror.specs.Shown.{usual};

use lsm_inflate::{InflateFault, inflate};
use lsm_shelf::{MAX_IMAGE, ShelfFault};
use lsm_table::{TableFault, TableOptions};
use std::alloc::Global;

/// The plain table of these bytes. `Device` where none of 1 GiB at most is made of them.
pub(crate) fn plain_of(alloc: Global, packed: &[u8]) -> Result<Vec<u8>, ShelfFault>
    ensures plain { IfOk result (λ v. inflated_at usual packed.now ≡ Ok (Some v.items)) }
    ensures limit { IfOk result (λ v. length v.items ≤ 2 ^ 30) }
    ensures refused { IfErr result (λ e. (e ≡ ShelfFault.OutOfMemory)
        ⊎ ((e ≡ ShelfFault.Device) × IsNotMadePlain packed.now)) }
{
    match inflate(alloc, TableOptions::usual(), packed) {
        Ok(Some(plain)) => {
            if plain.bytes.len() > MAX_IMAGE {
                return Err(ShelfFault::Device);
            }
            Ok(plain.bytes)
        }
        Err(InflateFault::Table(TableFault::OutOfMemory)) => Err(ShelfFault::OutOfMemory),
        Ok(None) | Err(_) => Err(ShelfFault::Device),
    }
}
