//! What holds of what is printed.

ghost use Rattle.std.specs.Prelude.{◌≡◌, ◌++◌, ◌∷◌, [], List, Option, Some, ℕ};
ghost use Rattle.base64.specs.GeneralPurpose.{IsBytes};
ghost use Rattle.lsm_codec.specs.Entries.{Entry, answer};
ghost use Rattle.lsm_codec.specs.Keys.{UserKey};
ghost use Rattle.lsm_import.specs.Answers.{NoneAbove, source_answer};
ghost use Rattle.lsm_mirror.specs.Shown.{shown_of};
ghost use Rattle.lsm_model.specs.Files.{all_entries};
ghost use Rattle.lsm_preview.specs.Preview.{AreBelow};
ghost use Rattle.lsm_version.specs.Versions.{files};
ghost use Rattle.json.specs.Json.{document};
ghost use Rattle.lsm_model.specs.Scanning.{Pair};
ghost use Rattle.lsm_folder.specs.Calls.{AreHonest};
ghost use Rattle.lsm_manifest.specs.Shape.{Form as Shape};
ghost use Rattle.lsm_admission.specs.Keeping.{KeepsTables};
ghost use Rattle.lsm_shelf.specs.Place.{Place};
ghost use Rattle.lsm_shelf.specs.Stored.{Stored};
ghost use Rattle.lsm_requests.specs.declared.directory_line.DirectoryLine.{DirectoryLine};
ghost use Rattle.lsm_directory.specs.Folders.{told_by};
ghost use Rattle.lsm_cmd_read.specs.Answers.{Asking, IsLookedIntoAsGiven, Moment};
ghost use Rattle.lsm_cmd_read.specs.JsonLines.{json_line, pair_object};
ghost use Rattle.lsm_cmd_read.specs.Looked.{LooksAtGiven, LooksQuicklyAt, kept_at};
ghost use Rattle.lsm_cmd_read.specs.Quick.{IsQuicklyLookedInto};
ghost use Rattle.lsm_cmd_read.specs.Seen.{SeesAt, version_seen};

use lsm_finding::Finding;
use lsm_folder::{FindingCalls, FolderCalls};
use lsm_preview::versions_answer;
use lsm_storage::FileShelf;

/// A law: the line of a pair is one JSON value and a newline (10); the value is the object of the
/// key and the value, and no other pair has this line.
pub fn one_object()
    ensures value { (p : Pair) → (text : List ℕ) × (json_line p ≡ text ++ 10 ∷ [])
        × (document text ≡ Some (pair_object p)) }
    ensures only { (p q : Pair) → IsBytes p.0 → IsBytes p.1 → IsBytes q.0 → IsBytes q.1
        → json_line p ≡ json_line q → p ≡ q }
{}

/// A law: where a shelf is honest and keeps the tables of the manifest that it gave, a quick
/// command did what the same command does after a judgment of every table.
pub fn quick_looks_are_whole<S: Finding>()
    ensures { (place : Place) (asked : Asking) (shape : Shape) (before after : Moment)
        (said told : Option (List ℕ)) → IsQuicklyLookedInto asked (S.keeps place)
        (Stored S.Receipt (S.is_of place) S.Receipt.number S.Receipt.image)
        (S.honest × KeepsTables (S.keeps place) shape) shape before after said told
        → S.honest → KeepsTables (S.keeps place) shape → IsLookedIntoAsGiven asked
        (Stored S.Receipt (S.is_of place) S.Receipt.number S.Receipt.image) S.honest before after
        said told }
{}

/// So of a line: where the folder is honest, and keeps the tables of the manifest that was read.
pub fn quick_lines_are_whole<C: FindingCalls>()
    ensures { (line : DirectoryLine) (old new said told : Option (List ℕ))
        (quick : LooksQuicklyAt C.FolderCalls C.Mark.Mark C.holds line old new said told)
        → AreHonest C.FolderCalls.calls
        → KeepsTables (kept_at C.FolderCalls C.Mark.Mark C.holds
        (told_by C.FolderCalls quick.begun).place) quick.done.0
        → LooksAtGiven C.FolderCalls C.Mark.Mark line old new said told }
{}

/// A law: of a line that sees logs or compressed tables, where the folder is honest, the version
/// that was looked into answers of each key what the tables with the logs have. Of its tables those
/// that lie in the folder have these entries, as they are shown, none of them above the last
/// sequence of the manifest that was read; it answers the last write of the logs, if they are seen,
/// or what these tables have. (Over tables that were written beside a log LevelDB may read others.)
pub fn seen_lines_answer<C: FolderCalls + Send + Sync>()
where
    C::Mark: Send + Sync,
    ensures { (line : DirectoryLine) (old new said told : Option (List ℕ))
        (s : SeesAt C.FolderCalls C.Mark.Mark line old new said told)
        → AreHonest C.FolderCalls.calls → (es : List Entry)
        → AreBelow (shown_of s.seen.preview.view) (version_seen C.FolderCalls C.Mark.Mark s) es
        → NoneAbove s.seen.is.shape.last es → (key : UserKey)
        → answer (all_entries (files (version_seen C.FolderCalls C.Mark.Mark s))) key
        (version_seen C.FolderCalls C.Mark.Mark s).last
        ≡ source_answer es s.seen.is.shape.last s.seen.is.batches key }
{
    versions_answer::<FileShelf<C>>();
}
