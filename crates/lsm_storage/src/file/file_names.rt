//! The names of a database's files, as LevelDB's `doc/impl.md` gives them.

ghost use Rattle.std.specs.Prelude.{◌≡◌, ◌≤◌, IfOk, length, string_bytes};
ghost use Rattle.lsm_storage.specs.FileNames.{padded, table_name, manifest_name, temporary_name};
ghost use Rattle.lsm_storage.specs.FileNames.{current_text, longest_current, IsNumberOf};

use std::alloc::{AllocError, Global};

/// The number in decimal, with zeros in front to at least six digits.
fn digits_of(alloc: Global, number: u64) -> Result<String, AllocError>
    ensures { IfOk result (λ s. string_bytes s ≡ padded number) }
{
    format!(in alloc; "{number:06}")
}

/// The name of a table's file: `N.ldb`.
pub(crate) fn table_file(alloc: Global, number: u64) -> Result<String, AllocError>
    ensures { IfOk result (λ s. string_bytes s ≡ table_name number) }
{
    format!(in alloc; "{number:06}.ldb")
}

/// The name of a manifest's file: `MANIFEST-N`.
pub fn manifest_file(alloc: Global, number: u64) -> Result<String, AllocError>
    ensures { IfOk result (λ s. string_bytes s ≡ manifest_name number) }
{
    let digits = digits_of(alloc, number)?;
    format!(in alloc; "MANIFEST-{digits}")
}

/// The name of the file that becomes `CURRENT`: `N.dbtmp`.
pub(crate) fn temporary_file(alloc: Global, number: u64) -> Result<String, AllocError>
    ensures { IfOk result (λ s. string_bytes s ≡ temporary_name number) }
{
    let digits = digits_of(alloc, number)?;
    format!(in alloc; "{digits}.dbtmp")
}

/// The most bytes that a `CURRENT` has that names a manifest: `MANIFEST-`, 20 digits, a newline.
pub(crate) const LONGEST_CURRENT: usize = 30;

/// What `CURRENT` holds where it names this manifest.
pub(crate) fn text_of_current(alloc: Global, number: u64) -> Result<String, AllocError>
    ensures text { IfOk result (λ s. string_bytes s ≡ current_text number) }
    ensures short { IfOk result (λ s. length (string_bytes s) ≤ longest_current) }
{
    let digits = digits_of(alloc, number)?;
    format!(in alloc; "MANIFEST-{digits}\n")
}

/// The number that these digits spell, where they are its name: decimal, with zeros to at least six
/// digits and no more.
fn number_in(alloc: Global, digits: &str) -> Result<Option<u64>, AllocError>
    ensures { IfOk result (IsNumberOf padded digits.now) }
{
    let Ok(number) = digits.parse::<u64>() else {
        return Ok(None);
    };
    let written = digits_of(alloc, number)?;
    if written.as_str() == digits {
        return Ok(Some(number));
    }
    Ok(None)
}

/// The number of the table of this name. Other names are no table's.
pub(crate) fn table_in(alloc: Global, name: &str) -> Result<Option<u64>, AllocError>
    ensures { IfOk result (IsNumberOf table_name name.now) }
{
    match name.strip_suffix(".ldb") {
        Some(digits) => number_in(alloc, digits),
        None => Ok(None),
    }
}

/// The number of the manifest of this name. Other names are no manifest's.
fn manifest_named(alloc: Global, name: &str) -> Result<Option<u64>, AllocError>
    ensures { IfOk result (IsNumberOf manifest_name name.now) }
{
    match name.strip_prefix("MANIFEST-") {
        Some(digits) => number_in(alloc, digits),
        None => Ok(None),
    }
}

/// The number of the manifest that a line names: its name and one newline.
fn manifest_of_line(alloc: Global, line: &str) -> Result<Option<u64>, AllocError>
    ensures { IfOk result (IsNumberOf current_text line.now) }
{
    match line.strip_suffix("\n") {
        Some(name) => manifest_named(alloc, name),
        None => Ok(None),
    }
}

/// The number of the manifest that the bytes of a `CURRENT` name. Other bytes name none.
pub(crate) fn manifest_in(alloc: Global, bytes: &[u8]) -> Result<Option<u64>, AllocError>
    ensures { IfOk result (IsNumberOf current_text bytes.now) }
{
    match std::str::from_utf8(bytes) {
        Ok(line) => manifest_of_line(alloc, line),
        Err(_) => Ok(None),
    }
}
