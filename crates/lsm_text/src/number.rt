//! The number that a word writes.

ghost use Rattle.std.specs.Prelude.{◌≡◌, ◌≤◌, ◌^◌, ℕ, IfNone, IfSome};
ghost use Rattle.std.specs.Str.Parse.{AllDigits, digits_value_after};
ghost use Rattle.lsm_text.specs.Numbers.{IsNumberWord};

/// The number that digits write when they follow those of `n`.
fn digits(n: u64, word: &[u8]) -> Option<u64>
    ensures some { IfSome result (λ v. AllDigits 10 word.now
        × (digits_value_after 10 n word.now ≡ v)) }
    ensures none { IfNone result (AllDigits 10 word.now
        → 2 ^ 64 ≤ digits_value_after 10 n word.now) }
{
    match word {
        [] => Some(n),
        [byte, rest @ ..] => {
            if !(b'0'..=b'9').contains(byte) {
                return None;
            }
            let n = n.checked_mul(10)?.checked_add(u64::from(byte - b'0'))?;
            digits(n, rest)
        }
    }
}

/// The number that a word of decimal digits writes, where it is not above `most`. Zeros may stand
/// in front, a sign may not.
pub fn number_in(word: &[u8], most: u64) -> Option<u64>
    ensures some { IfSome result (IsNumberWord most word.now) }
    ensures none { IfNone result ((n : ℕ) → IsNumberWord most word.now n → ⊥) }
{
    if word.is_empty() {
        return None;
    }
    let n = digits(0, word)?;
    if n > most {
        return None;
    }
    Some(n)
}
