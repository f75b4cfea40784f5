//! Numbers in the names of a database's files, as LevelDB's `db/filename.cc` reads them.

ghost use Rattle.std.specs.Prelude.{◌≡◌, ◌≢◌, ℕ, Some, get_or, MatchBool};
ghost use Rattle.lsm_directory.specs.FileNames.{IsDecimal, IsNumberBefore, IsNumberBehind};

/// Whether a text begins with a plus.
fn begins_with_plus(text: &str) -> bool
    ensures { MatchBool result (get_or text.now 0 0 ≡ 43) (get_or text.now 0 0 ≢ 43) }
{
    match text.as_bytes() {
        [first, ..] => *first == b'+',
        [] => false,
    }
}

/// The number that decimal digits spell.
fn number_in(digits: &str) -> Option<u64>
    ensures only { (n : ℕ) → result ≡ Some n → IsDecimal digits.now n }
    ensures found { (n : ℕ) → IsDecimal digits.now n → result ≡ Some n }
{
    // A number in Rust may begin with a plus, and one in LevelDB may not.
    if begins_with_plus(digits) {
        return None;
    }
    match digits.parse::<u64>() {
        Ok(number) => Some(number),
        Err(_) => None,
    }
}

/// The number before this ending.
pub(crate) fn number_before(ending: &str, name: &str) -> Option<u64>
    ensures only { (n : ℕ) → result ≡ Some n → IsNumberBefore ending.now name.now n }
    ensures found { (n : ℕ) → IsNumberBefore ending.now name.now n → result ≡ Some n }
{
    match name.strip_suffix(ending) {
        Some(digits) => number_in(digits),
        None => None,
    }
}

/// The number behind this beginning.
pub(crate) fn number_behind(beginning: &str, name: &str) -> Option<u64>
    ensures only { (n : ℕ) → result ≡ Some n → IsNumberBehind beginning.now name.now n }
    ensures found { (n : ℕ) → IsNumberBehind beginning.now name.now n → result ≡ Some n }
{
    match name.strip_prefix(beginning) {
        Some(digits) => number_in(digits),
        None => None,
    }
}
