//! Laws of lines, and of writes that are cut into batches, as contracts of functions that do
//! nothing.

ghost use Rattle.std.specs.Prelude.{◌≡◌, ℕ, List, Some};
ghost use Rattle.base64.specs.GeneralPurpose.{IsBytes};
ghost use Rattle.lsm_codec.specs.Keys.{UserKey};
ghost use Rattle.lsm_batch.specs.declared.write.Write.{Write};
ghost use Rattle.lsm_lines.specs.Cuts.{IsCut, joined};
ghost use Rattle.lsm_lines.specs.LastWrites.{last_write};
ghost use Rattle.lsm_lines.specs.Objects.{IsPutObject, object_text};

/// What batches write of a key last is what the writes that were cut into them write of it last.
pub fn a_cut_keeps_the_last()
    ensures { (ws : List Write) (batches : List (List Write)) → IsCut ws batches
        → (key : UserKey) → last_write key (joined batches) ≡ last_write key ws }
{}

/// The object that is printed of a key and its value, of any bytes, is read as the put of this key
/// and value, and as no other write.
pub fn what_is_printed_is_read()
    ensures put { (w : Write) (value : List ℕ) → IsBytes w.key → IsBytes value
        → w.value ≡ Some value → IsPutObject (object_text w.key value) w }
    ensures only { (line : List ℕ) (v w : Write) → IsPutObject line v → IsPutObject line w
        → v ≡ w }
{}
