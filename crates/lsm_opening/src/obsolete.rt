//! Which files of a folder are obsolete, by their names and by what `CURRENT` holds.

ghost use Rattle.std.specs.Prelude.{◌≡◌, ℕ, IfErr, IfOk, MatchBool, MatchOption, map, string_bytes};
ghost use Rattle.lsm_opening.specs.Names.{Among, IsManifestName};
ghost use Rattle.lsm_opening.specs.Tidying.{IsNamedBy, IsObsolete};
ghost use Rattle.lsm_storage.specs.FileNames.{current_text};

use crate::names::{is_temporary, manifest_in};
use lsm_storage::manifest_file;
use std::alloc::{AllocError, Global};

/// Whether a file of this name is obsolete beside the manifest of this number: it is another
/// manifest, or a temporary file.
pub fn is_obsolete(manifest: u64, name: &str) -> bool
    ensures { MatchBool result (IsObsolete manifest name.now) (IsObsolete manifest name.now → ⊥) }
{
    if let Some(number) = manifest_in(name) {
        return number != manifest;
    }
    is_temporary(name)
}

/// Whether one of these files is.
pub(crate) fn has_obsolete(manifest: u64, names: &[String]) -> bool
    ensures { MatchBool result (Among (map string_bytes names.now) (IsObsolete manifest))
        (Among (map string_bytes names.now) (IsObsolete manifest) → ⊥) }
{
    for name in names {
        if is_obsolete(manifest, name.as_str()) {
            return true;
        }
    }
    false
}

/// What `CURRENT` holds where it names the manifest of this number.
fn text_of_current(alloc: Global, number: u64) -> Result<String, AllocError>
    ensures { IfOk result (λ s. string_bytes s ≡ current_text number) }
{
    let file = manifest_file(alloc, number)?;
    format!(in alloc; "{file}\n")
}

/// The number of the manifest of this name, where `CURRENT` names it by this text.
fn named_by(alloc: Global, text: &[u8], name: &str) -> Result<Option<u64>, AllocError>
    ensures { IfOk result (λ o. MatchOption o (IsNamedBy text.now name.now → ⊥)
        (λ n. IsManifestName n name.now × (text.now ≡ current_text n))) }
{
    let Some(number) = manifest_in(name) else {
        return Ok(None);
    };
    let current = text_of_current(alloc, number)?;
    if current.as_bytes() == text {
        return Ok(Some(number));
    }
    Ok(None)
}

/// The number of that manifest among these files which `CURRENT` names by this text; none where it
/// names none of them.
pub(crate) fn current_among(
    alloc: Global,
    text: &[u8],
    names: &[String],
) -> Result<Option<u64>, AllocError>
    ensures { IfOk result (λ o. MatchOption o
        (Among (map string_bytes names.now) (IsNamedBy text.now) → ⊥)
        (λ n. Among (map string_bytes names.now) (IsManifestName n)
        × (text.now ≡ current_text n))) }
{
    for name in names {
        if let Some(number) = named_by(alloc, text, name.as_str())? {
            return Ok(Some(number));
        }
    }
    Ok(None)
}
