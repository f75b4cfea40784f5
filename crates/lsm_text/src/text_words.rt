//! Words of a text: bytes that print stand for themselves, all others are `\xNN`.

ghost use Rattle.std.specs.Prelude.{◌≡◌, ◌<◌, ◌++◌, IfNone, IfOk, IfSome, List, OnOk, Some, ℕ};
ghost use Rattle.lsm_text.specs.Spelling.{IsPart, IsTextWord, escaped, is_plain, lower_digit};
ghost use Rattle.lsm_text.specs.Spelling.{spelled_byte, text_word};

use lsm_codec::Bytes;
use std::alloc::{AllocError, Global};

/// Whether a byte stands for itself.
fn is_plain(byte: u8) -> bool
    ensures { result ≡ is_plain byte }
{
    byte.is_ascii_graphic() && !matches!(byte, b'!' | b'=' | b'@' | b'\\')
}

/// The lower-case hex digit of a value.
fn lower_digit(value: u8) -> u8
    requires { value < 16 }
    ensures { result ≡ lower_digit value }
{
    if value < 10 {
        b'0' + value
    } else {
        b'a' + (value - 10)
    }
}

/// Appends `\xNN`.
fn push_escaped(out: &mut Vec<u8>, byte: u8) -> Result<(), AllocError>
    ensures { OnOk result (out.new.items ≡ out.old.items ++ escaped byte) }
{
    out.extend_from_slice(&[b'\\', b'x', lower_digit(byte / 16), lower_digit(byte % 16)])
}

/// Appends a byte of a text.
#[tactic(auto, unfolding(crate::specs::Spelling::spelled_byte))]
fn push_byte(out: &mut Vec<u8>, byte: u8) -> Result<(), AllocError>
    ensures { OnOk result (out.new.items ≡ out.old.items ++ spelled_byte byte) }
{
    if is_plain(byte) {
        out.push(byte)?;
        return Ok(());
    }
    push_escaped(out, byte)
}

/// Appends the word for some bytes.
pub(crate) fn push_text(out: &mut Vec<u8>, bytes: &[u8]) -> Result<(), AllocError>
    ensures { OnOk result (out.new.items ≡ out.old.items ++ text_word bytes.now) }
{
    if bytes.is_empty() {
        out.push(b'.')?;
        return Ok(());
    }
    if bytes == b".".as_slice() {
        return push_escaped(out, b'.');
    }
    out.reserve(bytes.len())?;
    for byte in bytes {
        push_byte(out, *byte)?;
    }
    Ok(())
}

/// The value of a lower-case hex digit.
fn value_of(digit: u8) -> Option<u8>
    ensures some { IfSome result (λ v. (v < 16) × (lower_digit v ≡ digit)) }
    ensures none { IfNone result ((v : ℕ) → v < 16 → lower_digit v ≡ digit → ⊥) }
{
    match digit {
        b'0'..=b'9' => Some(digit - b'0'),
        b'a'..=b'f' => Some(digit - b'a' + 10),
        _ => None,
    }
}

/// The byte of `\xNN`, with which a text begins, and what follows it.
fn first_escaped(text: &[u8]) -> Option<(u8, &[u8])>
    ensures some { IfSome result (λ p. (text.now ≡ escaped p.0 ++ p.1.now) × (p.0 < 256)) }
    ensures none { IfNone result ((b : ℕ) (rest : List ℕ) → b < 256 → text.now ≡ escaped b ++ rest
        → ⊥) }
{
    let digits = text.strip_prefix(b"\\x")?;
    let [high, low, rest @ ..] = digits else {
        return None;
    };
    Some((value_of(*high)? * 16 + value_of(*low)?, rest))
}

/// The first byte of a text, and what follows its part. None where no part stands there.
pub(crate) fn first_part(text: &[u8]) -> Option<(u8, &[u8])>
    ensures some { IfSome result (λ p. (part : List ℕ) × (text.now ≡ part ++ p.1.now)
        × IsPart part p.0) }
    ensures none { IfNone result ((b : ℕ) (part rest : List ℕ) → text.now ≡ part ++ rest
        → IsPart part b → ⊥) }
{
    let [byte, rest @ ..] = text else {
        return None;
    };
    if is_plain(*byte) {
        return Some((*byte, rest));
    }
    first_escaped(text)
}

/// The bytes that a word spells; none where it spells none.
pub(crate) fn read_text(alloc: Global, word: &[u8]) -> Result<Option<Bytes>, AllocError>
    ensures only { IfOk result (λ o. IfSome o (IsTextWord word.now)) }
    ensures found { (bytes : List ℕ) → IsTextWord word.now bytes
        → IfOk result (λ o. o ≡ Some bytes) }
{
    if word == b".".as_slice() {
        return Ok(Some(Bytes::of(Vec::new(alloc))));
    }
    if word.is_empty() {
        return Ok(None);
    }
    // a part spells one byte, so that this is room for all
    let mut bytes = Vec::with_capacity(alloc, word.len())?;
    let mut rest = word;
    'parts: while !rest.is_empty() {
        let Some((byte, after)) = first_part(rest) else {
            return Ok(None);
        };
        bytes.push(byte)?;
        rest = after;
    }
    Ok(Some(Bytes::of(bytes)))
}
