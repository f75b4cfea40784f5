//! Laws of batches. Each function's contract is one law; its body is empty.

ghost use Rattle.std.specs.Prelude.{ℕ, List, Option};
ghost use Rattle.lsm_admission.specs.Keeping.{KeepsTables};
ghost use Rattle.lsm_batch.specs.declared.write.Write.{Write};
ghost use Rattle.lsm_cmd_write.specs.Ingesting.{IsBroughtIn, IsBroughtInUnder};
ghost use Rattle.lsm_directory.specs.declared.folder.folder_file.FolderFile.{FolderFile};
ghost use Rattle.lsm_manifest.specs.Shape.{Form};
ghost use Rattle.lsm_opening.specs.declared.prepared.Start.TheVariants.{Open};
ghost use Rattle.lsm_shelf.specs.Told.{Place, Told};

use lsm_finding::Finding;
use lsm_opening::quick_openings_are_whole;

/// Where a shelf is honest and keeps the tables of the manifest that it gave, a quick line brought
/// its batch in as one does that judges every table first.
pub fn quick_batches_are_whole<S: Finding>()
    ensures { (place : Place) (shape : Form) (logs : List FolderFile) (ws : List Write)
        (was is : Told) (old new : Option (List ℕ)) → S.honest → KeepsTables (S.keeps place) shape
        → IsBroughtInUnder (S.keeps place) S.honest (KeepsTables (S.keeps place) shape) shape logs
        ws was is old new
        → IsBroughtIn (S.honest × KeepsTables (S.keeps place) shape) Open logs ws was is old new }
{
    quick_openings_are_whole::<S>();
}
