//! The keys of tables that come.

ghost use Rattle.std.specs.Prelude.{◌≡◌, ℕ};
ghost use Rattle.lsm_codec.specs.Lists.{Has};
ghost use Rattle.lsm_table.specs.Registry.{Table};
ghost use Rattle.lsm_manifest.specs.EditFit.{FitsKey};
ghost use Rattle.lsm_version.specs.Versions.{IsWhole};

use lsm_table::{Naming, Registry, Shelf, TableReceipt, TableRef};

/// The keys of tables that come fit, as `VersionChange::new` asks of its caller: those of each
/// record that stands for a table. A key is not longer than its table's image, which has at most 1
/// GiB, as its receipt says.
pub fn added_keys_fit<N: Naming, S: Shelf>(
    registry: &Registry<N, S>,
    added: &[(usize, TableRef<N, S>)],
)
    ensures { (n : ℕ) (t : Table) → Has added.now (n, t) → IsWhole t
        → FitsKey t.smallest × FitsKey t.largest }
{
    for one in added {
        // What holds of the record is told by this call.
        let _size = registry.record(&one.1).receipt.size();
    }
}
