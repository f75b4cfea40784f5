//! Which images the tables of a version have.

ghost use Rattle.std.specs.Prelude.{All};
ghost use Rattle.lsm_cmd_import.specs.Copying.{AreGiven};
ghost use Rattle.lsm_shelf.specs.Stored.{Stored};

use lsm_table::{Naming, Registry, Shelf, TableRef};
use lsm_version::Version;

/// Looks these tables up: each one's record tells that the shelf gave its image.
fn level_is_given<N: Naming, S: Shelf>(registry: &Registry<N, S>, tables: &[TableRef<N, S>])
    ensures { All (λ t. Stored S.Receipt (S.is_of N.place) S.Receipt.number S.Receipt.image t.number
        t.image) tables.now }
{
    for table in tables {
        let _record = registry.record(table);
    }
}

/// Looks the tables of a version up. The shelf gave the image of each of them.
pub(crate) fn tables_are_given<N: Naming, S: Shelf>(version: &Version<N, S>)
    ensures { AreGiven (Stored S.Receipt (S.is_of N.place) S.Receipt.number S.Receipt.image)
        version.now }
{
    let levels = version.levels();
    for level in levels {
        level_is_given(version.registry(), level.as_slice());
    }
}
