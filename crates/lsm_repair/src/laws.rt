//! What a new manifest comes to.

ghost use Rattle.std.specs.Prelude.{◌∷◌, [], ◌+◌, ◌≤◌, ℕ, List};
ghost use Rattle.lsm_codec.specs.Entries.{Entry};
ghost use Rattle.lsm_codec.specs.Lists.{Has};
ghost use Rattle.lsm_table.specs.Table.{IsImage};
ghost use Rattle.lsm_table.specs.TableImage.{Imaged};
ghost use Rattle.lsm_manifest.specs.Shape.{IsReplayed};
ghost use Rattle.lsm_version.specs.Versions.{IsSound};
ghost use Rattle.lsm_repair.specs.Mending.{edit_of, file_at, levels_of, shape_of};
ghost use Rattle.lsm_repair.specs.declared.old_logs.OldLogs.{OldLogs};

use lsm_manifest::whole_edit_replays;
use lsm_table::entries_are;
use lsm_version::{tables_are_whole, whole_tables_fit};

/// A law: the edit that names the table of these entries, at level 6, comes to the shape that has
/// just it; and where none is above the last sequence, the version that has just it is sound.
pub fn mended_is_sound()
    ensures replayed { (number last : ℕ) (logs : OldLogs) (image : Imaged)
        → IsReplayed (edit_of (file_at number image) logs (number + 2) last ∷ [])
        (shape_of number image logs last) }
    ensures sound { (number last : ℕ) (made : List Entry) (image : Imaged)
        → IsImage made image.smallest image.largest image.bytes
        → ((e : Entry) → Has made e → e.seq ≤ last) → IsSound (levels_of number image last) }
{
    whole_edit_replays();
    entries_are();
    tables_are_whole();
    whole_tables_fit();
}
