//! Laws of what a manifest records. Each function's contract is one law; its body is empty.

ghost use Rattle.std.specs.Prelude.{◌≡◌, ◌<◌, ◌≤◌, ◌^◌, ℕ, List, length};
ghost use Rattle.lsm_manifest.specs.Edit.{IsEdit};
ghost use Rattle.lsm_manifest.specs.EditWriting.{edit_text};
ghost use Rattle.lsm_table.specs.Registry.{Table};
ghost use Rattle.lsm_manifest.specs.EditFit.{FitsKey};
ghost use Rattle.lsm_manifest.specs.Shape.{Form};
ghost use Rattle.lsm_verify.specs.CheckRefusal.{IsOfShape};
ghost use Rattle.lsm_version.specs.FileNumbers.{AreDistinct, numbers_of};
ghost use Rattle.lsm_version.specs.Versions.{IsWhole, Levels};
ghost use Rattle.lsm_journal.specs.HeldManifest.{HeldManifest};
ghost use Rattle.lsm_journal.specs.Recorded.{FitsLevels, IsRecorded};
ghost use Rattle.lsm_journal.specs.Difference.{Difference, FitsDifference, LeadsTo};
ghost use Rattle.lsm_journal.specs.Finding.{IsNamedBy};
ghost use Rattle.lsm_journal.specs.Recovering.{IsRecovered};
ghost use Rattle.lsm_journal.specs.Sending.{with_front};
ghost use Rattle.lsm_journal.specs.Writing.{change_edit, record_of};

use lsm_verify::shapes_in_order;
use lsm_version::changed_tables;

/// The manifest that was read records each version of its shape.
pub fn recovered_is_recorded()
    ensures { (rest : ℕ) (h : HeldManifest) (shape : Form) (v : Levels) → IsRecovered h shape rest
        → IsOfShape shape v → AreDistinct (numbers_of shape.levels)
        → IsRecorded rest h v shape.next }
{
    shapes_in_order();
}

/// It records each version whose tables are those that the shape names, whatever they hold: for
/// that no table has to be read.
pub fn named_is_recorded()
    ensures { (rest : ℕ) (h : HeldManifest) (shape : Form) (v : Levels) → IsRecovered h shape rest
        → IsNamedBy shape v → AreDistinct (numbers_of shape.levels)
        → IsRecorded rest h v shape.next }
{}

/// The keys of a recorded version fit: each is an internal key, and its length fits 32 bits.
pub fn recorded_keys_fit()
    ensures { (rest : ℕ) (h : HeldManifest) (v : Levels) (next : ℕ) → IsRecorded rest h v next
        → FitsLevels v }
{}

/// So do those of the version after a change.
pub fn differences_fit()
    ensures { (h : HeldManifest) (d : Difference) (w : Levels) (next : ℕ) → FitsDifference d
        → LeadsTo h d w next → FitsLevels w }
{
    changed_tables();
}

/// The keys of a record that stands for a table fit where its image is not above 1 GiB, as that of
/// each receipt is: a key is not longer than the table's bytes.
pub fn whole_keys_fit()
    ensures { (t : Table) → IsWhole t → length t.image ≤ 2 ^ 30
        → FitsKey t.smallest × FitsKey t.largest }
{}

/// An append that failed, or that a crash cut at any byte: while the record of a change is torn,
/// the manifest records the version before the change, and what was written of it is the rest; once
/// it is whole, the manifest records the version after it, with no rest.
pub fn torn_changes_record_one_of_two()
    ensures torn { (h : HeldManifest) (d : Difference) (v : Levels) (next m : ℕ)
        → IsRecorded 0 h v next → m < length (record_of h.bytes (change_edit h d next))
        → IsRecorded m (with_front h (change_edit h d next) m) v next }
    ensures whole { (h : HeldManifest) (d : Difference) (w : Levels) (next m : ℕ)
        → FitsDifference d → LeadsTo h d w next
        → IsEdit (edit_text (change_edit h d next)) (change_edit h d next)
        → length (record_of h.bytes (change_edit h d next)) ≤ m
        → IsRecorded 0 (with_front h (change_edit h d next) m) w next }
{
    changed_tables();
}
