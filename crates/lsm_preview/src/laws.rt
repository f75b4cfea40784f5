//! What a view answers.

ghost use Rattle.std.specs.Prelude.{◌≡◌, List};
ghost use Rattle.lsm_codec.specs.Entries.{Entry, answer};
ghost use Rattle.lsm_codec.specs.Keys.{UserKey};
ghost use Rattle.lsm_folder.specs.Calls.{Call};
ghost use Rattle.lsm_shelf.specs.Stored.{Stored};
ghost use Rattle.lsm_shelf.specs.Told.{Place, Told};
ghost use Rattle.lsm_directory.specs.declared.folder.folder_file.FolderFile.{FolderFile};
ghost use Rattle.lsm_import.specs.Answers.{NoneAbove, source_answer};
ghost use Rattle.lsm_mirror.specs.Shown.{shown_of};
ghost use Rattle.lsm_version.specs.Versions.{Levels};
ghost use Rattle.lsm_preview.specs.Preview.{AreBelow, IsPreview, IsReadOf, entries_of};
ghost use Rattle.lsm_preview.specs.Preview.{entries_with};
ghost use Rattle.lsm_preview.specs.declared.seen.Preview.{Preview};
ghost use Rattle.lsm_preview.specs.declared.sight.Sight.{Sight};

use lsm_import::copies_answer;
use lsm_manifest::one_manifest;
use lsm_table::{Shelf, entries_are};

/// A law: what a view answers at its last sequence. Where tables have these entries, none of them
/// above the last sequence of the manifest that was read, the view has the logs' last writes beside
/// them; and so it answers of each key the last write of the logs, or where they write none what
/// the tables answer at that sequence: what LevelDB reads of the tables with the logs.
pub fn preview_answers<S: Shelf>()
    ensures { (place : Place) (sight : Sight) (files : List FolderFile) (preview : Preview)
        (old new : List Call) (was is : Told)
        (p : IsPreview (Stored S.Receipt (S.is_of place) S.Receipt.number S.Receipt.image) sight
        files preview old new was is) (es : List Entry)
        → NoneAbove p.shape.last es → (key : UserKey)
        → answer (entries_with p.view es) key p.view.whole.last
        ≡ source_answer es p.shape.last p.batches key }
{
    copies_answer();
}

/// A law: so answers a version that was read of what a view shows. Of its tables those that lie on
/// the shelf have these entries, none of them above the last sequence of the manifest that was
/// read.
pub fn versions_answer<S: Shelf>()
    ensures { (place : Place) (sight : Sight) (files : List FolderFile) (preview : Preview)
        (old new : List Call) (was is : Told)
        (p : IsPreview (Stored S.Receipt (S.is_of place) S.Receipt.number S.Receipt.image) sight
        files preview old new was is) (v : Levels)
        → IsReadOf (Stored S.Receipt (S.is_of place) S.Receipt.number S.Receipt.image)
        (shown_of preview.view) v → (es : List Entry)
        → AreBelow (shown_of preview.view) v es → NoneAbove p.shape.last es → (key : UserKey)
        → answer (entries_of v) key v.last ≡ source_answer es p.shape.last p.batches key }
{
    copies_answer();
    one_manifest();
    entries_are();
}
