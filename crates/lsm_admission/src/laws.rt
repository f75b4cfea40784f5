//! Laws of what a shelf keeps. Each function's contract is one law; its body is empty.

ghost use Rattle.std.specs.Prelude.{◌≡◌, ℕ, Option};
ghost use Rattle.lsm_codec.specs.Lists.{Has};
ghost use Rattle.lsm_manifest.specs.FileOrder.{TableFile};
ghost use Rattle.lsm_manifest.specs.Shape.{Form};
ghost use Rattle.lsm_verify.specs.CheckRefusal.{IsOfShape};
ghost use Rattle.lsm_verify.specs.Loading.{all_files};
ghost use Rattle.lsm_verify.specs.Settled.{KeepsAge};
ghost use Rattle.lsm_version.specs.FileNumbers.{AreDistinct, numbers_of};
ghost use Rattle.lsm_table.specs.ReadFault.{IsMemoryOrShelf};
ghost use Rattle.lsm_table.specs.declared.read_fault.ReadFault.{ReadFault};
ghost use Rattle.lsm_verify.specs.declared.check_fault.CheckFault.TheVariants.{Read};
ghost use Rattle.lsm_version.specs.Versions.{IsSound, Levels, files};
ghost use Rattle.lsm_journal.specs.HeldManifest.{HeldManifest};
ghost use Rattle.lsm_journal.specs.Recorded.{IsRecorded};
ghost use Rattle.lsm_journal.specs.Recovering.{IsRecovered};
ghost use Rattle.lsm_admission.specs.FoundTables.{IsFoundFrom};
ghost use Rattle.lsm_admission.specs.Indexes.{HaveIndexes, IsIndexRefusal, all_tables};
ghost use Rattle.lsm_admission.specs.KnownImages.{images_of};
ghost use Rattle.lsm_admission.specs.KnownAnswers.{KnowsTables, KnownImage};
ghost use Rattle.lsm_admission.specs.Keeping.{KeepsOnly, ImagesOf, KeepsTables};

use crate::known::KnownTables;
use lsm_finding::Finding;
use lsm_journal::named_is_recorded;
use lsm_table::{Naming, Shelf};

/// What a judgment found is kept: where a version is of a shape and its ages are in order, as
/// `lsm_verify::check` gives one over an honest shelf, and the shelf keeps, for each of its tables,
/// of images of that length the one that was judged alone, it keeps the tables of the shape.
pub fn judged_tables_are_kept<N: Naming, S: Finding>()
    ensures { (shape : Form) (v : Levels) → IsOfShape shape v → KeepsAge (files v)
        → KeepsOnly (S.keeps N.place) v
        → KeepsTables (S.keeps N.place) shape }
{}

/// So the premise can be met, by each version that a judgment can give: its own images keep the
/// tables of its shape.
pub fn versions_keep_their_tables()
    ensures { (shape : Form) (v : Levels) → IsOfShape shape v
        → AreDistinct (numbers_of shape.levels) → KeepsAge (files v)
        → KeepsTables (ImagesOf v) shape }
{}

/// What a program knows is kept: where its images are the tables of a version that a judgment can
/// give, each shape of that version is kept by them, whatever lies on the shelf.
pub fn known_tables_are_kept<K: KnownTables>()
    ensures { (shape : Form) → KnowsTables K.images shape
        → KeepsTables (KnownImage K.images) shape }
{}

/// A shelf that keeps any image under any number, as one in memory does, keeps the tables of no
/// shape with a file: there the premise is met by nothing.
pub fn any_image_keeps_no_file()
    ensures { (shape : Form) (file : TableFile) → Has (all_files shape.levels) file
        → KeepsTables (λ number image. Unit {0}) shape → ⊥ }
{}

/// What a program has to know can be met: each version that a judgment can give has images by which
/// its tables are known.
pub fn versions_can_be_known()
    ensures { (shape : Form) (v : Levels) → IsOfShape shape v
        → AreDistinct (numbers_of shape.levels) → KeepsAge (files v)
        → KnowsTables (images_of v.tables) shape }
{}

/// The manifest that was read records the version whose tables were found for it, whatever they
/// hold: so a state may begin with it.
pub fn found_is_recorded<N: Naming, S: Finding>()
    ensures { (rest : ℕ) (h : HeldManifest) (shape : Form) (v : Levels)
        → IsRecovered h shape rest → IsFoundFrom (S.keeps N.place) shape v
        → IsRecorded rest h v shape.next }
{
    named_is_recorded();
}

/// Where a version is sound, each of its tables has an index; and over an honest shelf a refusal to
/// read their indexes is the shelf's, or for want of memory.
pub fn sound_tables_have_indexes<N: Naming, S: Shelf>()
    ensures indexes { (v : Levels) → IsSound v → HaveIndexes (all_tables v.tables) }
    ensures refused { (v : Levels) (number : Option ℕ) (fault : ReadFault) → S.honest → IsSound v
        → IsIndexRefusal (S.refuses N.place) S.honest (all_tables v.tables) (Read number fault)
        → IsMemoryOrShelf fault }
{}
