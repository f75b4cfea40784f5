//! What the names in a folder say of the database there.

ghost use Rattle.std.specs.Prelude.{◌≡◌, ◌≢◌, ◌++◌, ◌∷◌, [], ◌-◌, ◌^◌, List, ℕ, IfErr, IfNone};
ghost use Rattle.std.specs.Prelude.{IfOk, IfSome, MatchBool, MatchOption, codes, map, max};
ghost use Rattle.std.specs.Prelude.{string_bytes, false, true};
ghost use Rattle.lsm_directory.specs.FileNames.{IsFileName};
ghost use Rattle.lsm_directory.specs.declared.folder.file_kind.FileKind.{FileKind};
ghost use Rattle.lsm_directory.specs.declared.folder.file_kind.FileKind.TheVariants.{Other, Table};
ghost use Rattle.lsm_directory.specs.declared.folder.file_kind.FileKind.TheVariants.{Temporary};
ghost use Rattle.lsm_opening.specs.Names.{Among, HasCurrent, IsHighestManifest, IsLeastUnused};
ghost use Rattle.lsm_opening.specs.Names.{IsManifestName, IsNumbered, IsOfDatabase, Leads};
ghost use Rattle.lsm_opening.specs.Names.{LeadsNowhere};

use crate::faults::writer_fault::WriterFault;
use crate::prepared::Start;
use lsm_directory::{DirectoryFault, FileKind};

/// Whether a name is `CURRENT`.
fn is_current(name: &str) -> bool
    ensures { MatchBool result (name.now ≡ codes "CURRENT") (name.now ≡ codes "CURRENT" → ⊥) }
{
    name == "CURRENT"
}

/// Whether `CURRENT` is there.
fn has_current(names: &[String]) -> bool
    ensures { MatchBool result (HasCurrent (map string_bytes names.now))
        (HasCurrent (map string_bytes names.now) → ⊥) }
{
    for name in names {
        if is_current(name.as_str()) {
            return true;
        }
    }
    false
}

/// The file of a database that this name is of.
fn kind_of(name: &str) -> FileKind
    ensures known { result ≢ Other → IsFileName name.now result }
    ensures found { (kind : FileKind) → IsFileName name.now kind → result ≡ kind }
{
    FileKind::of(name)
}

/// Whether a name is a manifest's or a table's.
fn is_of_database(name: &str) -> bool
    ensures { MatchBool result (IsOfDatabase name.now) (IsOfDatabase name.now → ⊥) }
{
    kind_of(name).is_of_database()
}

/// Whether a manifest or a table is there.
fn has_database(names: &[String]) -> bool
    ensures { MatchBool result (Among (map string_bytes names.now) IsOfDatabase)
        (Among (map string_bytes names.now) IsOfDatabase → ⊥) }
{
    for name in names {
        if is_of_database(name.as_str()) {
            return true;
        }
    }
    false
}

/// The number in a name.
fn number_in(name: &str) -> Option<u64>
    ensures only { IfSome result (λ n. IsNumbered n name.now) }
    ensures found { (n : ℕ) → IsNumbered n name.now → result ≡ Some n }
{
    kind_of(name).number()
}

/// The least number that is unused where a file of this name is added to those among which this one
/// is it; none where the file's number is 2^64 - 1.
fn next_above(next: u64, name: &str) -> Option<u64>
    ensures some { (front : List (List ℕ)) → IsLeastUnused front next
        → IfSome result (IsLeastUnused (front ++ name.now ∷ [])) }
    ensures none { IfNone result (IsNumbered (2 ^ 64 - 1) name.now) }
{
    match number_in(name) {
        Some(u64::MAX) => None,
        Some(number) => Some(next.max(number + 1)),
        None => Some(next),
    }
}

/// The least number, from 1 on, that is above the numbers of all files; none where one of them is
/// 2^64 - 1.
fn least_unused(names: &[String]) -> Option<u64>
    ensures some { IfSome result (IsLeastUnused (map string_bytes names.now)) }
    ensures none { IfNone result (Among (map string_bytes names.now) (IsNumbered (2 ^ 64 - 1))) }
{
    let mut next = 1u64;
    for name in names {
        next = next_above(next, name.as_str())?;
    }
    Some(next)
}

/// Whether the file of this name has the last number that there is.
fn has_last_number(name: &str) -> bool
    ensures { MatchBool result (IsNumbered (2 ^ 64 - 1) name.now)
        (IsNumbered (2 ^ 64 - 1) name.now → ⊥) }
{
    match number_in(name) {
        Some(number) => number == u64::MAX,
        None => false,
    }
}

/// Whether one of these files has.
pub(crate) fn are_numbers_spent(names: &[String]) -> bool
    ensures { MatchBool result (Among (map string_bytes names.now) (IsNumbered (2 ^ 64 - 1)))
        (Among (map string_bytes names.now) (IsNumbered (2 ^ 64 - 1)) → ⊥) }
{
    for name in names {
        if has_last_number(name.as_str()) {
            return true;
        }
    }
    false
}

/// The number of the manifest of this name.
pub fn manifest_in(name: &str) -> Option<u64>
    ensures only { IfSome result (λ n. IsManifestName n name.now) }
    ensures found { (n : ℕ) → IsManifestName n name.now → result ≡ Some n }
{
    match kind_of(name) {
        FileKind::Manifest(number) => Some(number),
        _ => None,
    }
}

/// The number of the table of this name.
pub fn table_in(name: &str) -> Option<u64>
    ensures only { IfSome result (λ n. IsFileName name.now (Table n)) }
    ensures found { (n : ℕ) → IsFileName name.now (Table n) → result ≡ Some n }
{
    match kind_of(name) {
        FileKind::Table(number) => Some(number),
        _ => None,
    }
}

/// Whether a name is a temporary file's.
pub fn is_temporary(name: &str) -> bool
    ensures yes { result ≡ true → (n : ℕ) × IsFileName name.now (Temporary n) }
    ensures no { result ≡ false → (n : ℕ) → IsFileName name.now (Temporary n) → ⊥ }
{
    matches!(kind_of(name), FileKind::Temporary(_))
}

/// The higher one of a number, if there is one yet, and another.
fn higher(known: Option<u64>, number: u64) -> u64
    ensures { MatchOption known (result ≡ number) (λ k. result ≡ max k number) }
{
    match known {
        Some(known) => known.max(number),
        None => number,
    }
}

/// The highest number of a manifest where a file of this name is added.
fn highest_with(highest: Option<u64>, name: &str) -> Option<u64>
    ensures { (front : List (List ℕ)) → IsHighestManifest front highest
        → IsHighestManifest (front ++ name.now ∷ []) result }
{
    match manifest_in(name) {
        Some(number) => Some(higher(highest, number)),
        None => highest,
    }
}

/// The highest number of a manifest that is there.
fn highest_manifest(names: &[String]) -> Option<u64>
    ensures { IsHighestManifest (map string_bytes names.now) result }
{
    let mut highest = None;
    for name in names {
        highest = highest_with(highest, name.as_str());
    }
    highest
}

/// What names lead to: a database that is there is opened; else one is begun, where it is to be
/// begun in any case under the least number above those of all files, and otherwise under 1.
///
/// `LostCurrent` where no `CURRENT` is there, but a manifest or a table; where a database is to be
/// begun in any case, `NumbersSpent` where a file has the number 2^64 - 1.
pub(crate) fn start_among(names: &[String], begins: bool) -> Result<Start, WriterFault>
    ensures leads { IfOk result (Leads begins (map string_bytes names.now)) }
    ensures refused { IfErr result (LeadsNowhere begins (map string_bytes names.now)) }
{
    if has_current(names) {
        return Ok(Start::Open);
    }
    if begins {
        return match least_unused(names) {
            Some(number) => Ok(Start::Begin(number)),
            None => Err(WriterFault::Directory(DirectoryFault::NumbersSpent)),
        };
    }
    if has_database(names) {
        return Err(WriterFault::LostCurrent(highest_manifest(names)));
    }
    Ok(Start::Begin(1))
}
