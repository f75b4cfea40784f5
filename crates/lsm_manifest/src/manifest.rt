//! The bytes of a manifest (LevelDB's `doc/impl.md`): laws of a record log whose records are
//! version edits.

ghost use Rattle.std.specs.Prelude.{◌≡◌, ◌++◌, [], ◌∷◌, ◌%◌, ◌<◌, ℕ, List, length, take};
ghost use Rattle.lsm_manifest.specs.Edit.{IsEdit};
ghost use Rattle.lsm_manifest.specs.EditFit.{Change};
ghost use Rattle.lsm_manifest.specs.LogWriting.{record_text};
ghost use Rattle.lsm_manifest.specs.Manifest.{IsManifest, SpellsFirst};

/// A law: at most one list of edits and one rest fit a manifest's bytes.
pub fn one_manifest()
    ensures { (bytes : List ℕ) (es fs : List Change) (m n : ℕ) → IsManifest bytes es m
        → IsManifest bytes fs n → (es ≡ fs) × (m ≡ n) }
{}

/// A law: no byte spells no edit, and a manifest with no rest goes on with the record of one edit
/// more, at the place in a block where it ends. While that record is torn, the manifest spells the
/// edits before it, and the rest is just what was written.
pub fn manifest_grows()
    ensures none { IsManifest [] [] 0 }
    ensures grown { (bytes own : List ℕ) (es : List Change) (e : Change) → IsManifest bytes es 0
        → IsEdit own e
        → IsManifest (bytes ++ record_text (length bytes % 32768) own) (es ++ e ∷ []) 0 }
    ensures torn { (bytes own : List ℕ) (es : List Change) (m : ℕ) → IsManifest bytes es 0
        → m < length (record_text (length bytes % 32768) own)
        → IsManifest (bytes ++ take m (record_text (length bytes % 32768) own)) es m }
{}

/// A law: the first bytes of a manifest with no rest, however many, spell the first of its edits,
/// and a rest.
pub fn first_edits()
    ensures { (bytes : List ℕ) (es : List Change) → IsManifest bytes es 0 → (n : ℕ)
        → SpellsFirst (take n bytes) es }
{}
