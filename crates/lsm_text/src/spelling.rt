//! What the program prints of bytes and numbers.

ghost use Rattle.std.specs.Prelude.{◌≡◌, ◌+◌, ◌++◌, OnOk, decimal};
ghost use Rattle.lsm_text.specs.EntryPrinting.{bytes_word};

use std::alloc::AllocError;

/// Appends the word for some bytes: lower-case hex, or `.` for no bytes.
pub fn push_bytes(out: &mut Vec<u8>, bytes: &[u8]) -> Result<(), AllocError>
    ensures { OnOk result (out.new.items ≡ out.old.items ++ bytes_word bytes.now) }
{
    if bytes.is_empty() {
        out.push(b'.')?;
        return Ok(());
    }
    let start = out.len();
    let end = bytes
        .len()
        .checked_mul(2)
        .and_then(|len| len.checked_add(start));
    out.resize(end.ok_or(AllocError)?, 0)?;
    let _ = hex::encode_to_slice(bytes, &mut out[start..]);
    Ok(())
}

/// Appends a number in decimal digits.
#[tactic(auto, using(std::proofs::lemmas::Fmt::decimal_digit, std::proofs::lemmas::Fmt::decimal_step))]
pub fn push_decimal(out: &mut Vec<u8>, n: u64) -> Result<(), AllocError>
    ensures { OnOk result (out.new.items ≡ out.old.items ++ decimal n) }
{
    if n < 10 {
        out.push(b'0' + n as u8)?;
        return Ok(());
    }
    push_decimal(out, n / 10)?;
    out.push(b'0' + (n % 10) as u8)?;
    Ok(())
}
