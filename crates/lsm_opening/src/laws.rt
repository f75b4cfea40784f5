//! Laws of openings. Each function's contract is one law; its body is empty.

ghost use Rattle.lsm_admission.specs.Keeping.{KeepsTables};
ghost use Rattle.lsm_directory.specs.declared.folder.folder_file.FolderFile.{FolderFile};
ghost use Rattle.lsm_manifest.specs.Shape.{Form};
ghost use Rattle.lsm_opening.specs.Quick.{OpensQuickly};
ghost use Rattle.lsm_opening.specs.Starting.{OpensWith};
ghost use Rattle.lsm_shelf.specs.Told.{Place, Told};
ghost use Rattle.lsm_state.specs.Held.{Held};
ghost use Rattle.lsm_state.specs.declared.options.Options.{Options};
ghost use Rattle.std.specs.Prelude.{List};

use lsm_finding::Finding;

/// Where a shelf is honest and keeps the tables of the manifest that it gave, a quick opening is
/// one that judges every table: the same state, beside logs that are flushed, and the same was
/// told.
pub fn quick_openings_are_whole<S: Finding>()
    ensures { (place : Place) (o : Options) (shape : Form) (logs : List FolderFile) (h : Held)
        (was is : Told) → S.honest → KeepsTables (S.keeps place) shape
        → OpensQuickly (S.keeps place) S.honest (KeepsTables (S.keeps place) shape) o shape logs h
        was is
        → OpensWith (S.honest × KeepsTables (S.keeps place) shape) o logs h was is }
{}
