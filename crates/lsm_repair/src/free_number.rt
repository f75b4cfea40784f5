//! A file number that no file of a folder has.

ghost use Rattle.std.specs.Prelude.{◌≡◌, ◌≢◌, ◌++◌, ◌∷◌, [], ◌-◌, ◌^◌, ◌<◌, ℕ, List, IfNone};
ghost use Rattle.std.specs.Prelude.{IfSome, map, string_bytes};
ghost use Rattle.lsm_directory.specs.FileNames.{IsFileName};
ghost use Rattle.lsm_directory.specs.declared.folder.file_kind.FileKind.{FileKind};
ghost use Rattle.lsm_directory.specs.declared.folder.file_kind.FileKind.TheVariants.{Other};
ghost use Rattle.lsm_opening.specs.Names.{Among, IsLeastUnused, IsNumbered};
ghost use Rattle.lsm_repair.specs.FreeNumber.{IsHigh};

use lsm_directory::FileKind;

/// The file of a database that this name is of.
pub(crate) fn kind_of(name: &str) -> FileKind
    ensures known { result ≢ Other → IsFileName name.now result }
    ensures found { (kind : FileKind) → IsFileName name.now kind → result ≡ kind }
{
    FileKind::of(name)
}

/// The number in a name.
fn number_in(name: &str) -> Option<u64>
    ensures found { (n : ℕ) → IsNumbered n name.now → result ≡ Some n }
    ensures only { IfSome result (λ n. IsNumbered n name.now) }
{
    kind_of(name).number()
}

/// The least number that is unused where a file of this name is added to those among which this one
/// is it; none where the name's leaves no two numbers.
fn next_above(next: u64, name: &str) -> Option<u64>
    requires few { next < 2 ^ 64 - 2 }
    ensures some { (front : List (List ℕ)) → IsLeastUnused front next
        → IfSome result (IsLeastUnused (front ++ name.now ∷ [])) }
    ensures few { IfSome result (λ n. n < 2 ^ 64 - 2) }
    ensures none { IfNone result (IsHigh name.now) }
{
    match number_in(name) {
        Some(number) => {
            if number >= u64::MAX - 2 {
                return None;
            }
            Some(next.max(number + 1))
        }
        None => Some(next),
    }
}

/// The least number, from 1 on, that is above those of all files of these names, where there is one
/// more behind it; none where one of theirs is too high for that.
pub(crate) fn free_number(names: &[String]) -> Option<u64>
    ensures least { IfSome result (IsLeastUnused (map string_bytes names.now)) }
    ensures few { IfSome result (λ n. n < 2 ^ 64 - 2) }
    ensures none { IfNone result (Among (map string_bytes names.now) IsHigh) }
{
    let mut next = 1u64;
    for name in names {
        next = next_above(next, name.as_str())?;
    }
    Some(next)
}
