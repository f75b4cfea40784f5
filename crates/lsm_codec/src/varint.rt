//! Numbers in groups of seven bits, the lowest group first, the high bit set on each byte but the
//! last (varint32 and varint64 of LevelDB's `util/coding.h`).

ghost use Rattle.std.specs.Prelude.{◌≡◌, ℕ, ◌+◌, ◌-◌, ◌^◌, ◌<◌, ◌≤◌, ◌↔◌, ◌⊎◌, ◌++◌, List, length};
ghost use Rattle.std.specs.Prelude.{take, drop, IfOk, IfErr, OnOk, OnErr, MatchResult, Ok, Err};
ghost use Rattle.std.specs.Prelude.{vec_len};
ghost use Rattle.lsm_codec.specs.Varint.{IsVarint32, IsVarint64, IsCut, GetsVarint, Reads};
ghost use Rattle.lsm_codec.specs.Varint.{IsShortest, varint_at, varint32_at, varint64_at, shortest};
ghost use Rattle.lsm_codec.specs.Varint.{varint32, varint64};

use crate::fault::CodecFault;
use std::alloc::AllocError;

/// Reads a number of at most so many groups and at most `max`: its value, and how many bytes spell
/// it.
#[tactic(auto, unfolding(crate::specs::Varint::varint_at))]
fn varint(bytes: &[u8], most: u32, max: u64) -> Result<(u64, usize), CodecFault>
    requires { 127 ≤ max }
    ensures within { IfOk result (λ r. r.0 ≤ max) }
    ensures fault { IfErr result (λ e. (e ≡ CodecFault.Cut) ⊎ (e ≡ CodecFault.TooBig)) }
    ensures reads { Reads bytes.now result (varint_at most max bytes.now) }
{
    if most == 0 {
        return Err(CodecFault::TooBig);
    }
    match bytes {
        [] => Err(CodecFault::Cut),
        [byte, rest @ ..] => {
            if *byte < 128 {
                return Ok((*byte as u64, 1));
            }
            let low = (*byte % 128) as u64;
            let (high, used) = varint(rest, most - 1, max)?;
            if high > max / 128 || low > max - 128 * high {
                return Err(CodecFault::TooBig);
            }
            Ok((low + 128 * high, used + 1))
        }
    }
}

/// Reads the varint32 at the front of the bytes: its value, and how many bytes spell it, 1 to 5.
///
/// Padded spellings are read, as `80 00` for 0, and what follows the number is not looked at.
///
/// # Errors
/// `Cut` where the bytes end within the number: there are fewer than 5, and each has its high bit
/// set. `TooBig` where the fifth byte still has its high bit, or the value is above 2^32 - 1.
/// (LevelDB's reader drops the bits above that, and its writer never makes them.)
pub fn get_varint32(bytes: &[u8]) -> Result<(u32, usize), CodecFault>
    ensures gets { GetsVarint 5 (2 ^ 32 - 1) bytes.now result }
    ensures reads { Reads bytes.now result (varint32_at bytes.now) }
{
    match varint(bytes, 5, u32::MAX as u64) {
        Ok((n, used)) => Ok((n as u32, used)),
        Err(fault) => Err(fault),
    }
}

/// Reads the varint64 at the front of the bytes: its value, and how many bytes spell it, 1 to 10.
///
/// Padded spellings are read, and what follows the number is not looked at.
///
/// # Errors
/// `Cut` where the bytes end within the number: there are fewer than 10, and each has its high bit
/// set. `TooBig` where the tenth byte still has its high bit, or the value is above 2^64 - 1.
pub fn get_varint64(bytes: &[u8]) -> Result<(u64, usize), CodecFault>
    ensures gets { GetsVarint 10 (2 ^ 64 - 1) bytes.now result }
    ensures reads { Reads bytes.now result (varint64_at bytes.now) }
{
    varint(bytes, 10, u64::MAX)
}

/// Adds the groups of a number. After an `Err` some of them may stand there.
fn push_groups(out: &mut Vec<u8>, n: u64) -> Result<(), AllocError>
    ensures ok { OnOk result ((most : ℕ) → 0 < most → n < 128 ^ most
        → out.new.items ≡ out.old.items ++ shortest most n) }
    ensures front { take (vec_len out.old) out.new.items ≡ out.old.items }
{
    if n < 128 {
        out.push(n as u8)?;
        return Ok(());
    }
    out.push((n % 128) as u8 + 128)?;
    push_groups(out, n / 128)
}

/// Adds the groups of a number. An `Err` leaves the contents as they were.
fn put_groups(out: &mut Vec<u8>, n: u64) -> Result<(), AllocError>
    ensures ok { OnOk result ((most : ℕ) → 0 < most → n < 128 ^ most
        → out.new.items ≡ out.old.items ++ shortest most n) }
    ensures err { OnErr result (out.new.items ≡ out.old.items) }
{
    let len = out.len();
    match push_groups(out, n) {
        Ok(()) => Ok(()),
        Err(error) => {
            out.truncate(len);
            Err(error)
        }
    }
}

/// Appends a number as a varint32, in its shortest spelling of 1 to 5 bytes.
///
/// # Errors
/// `AllocError` where the growth of `out` was refused: its contents are then as before.
#[tactic(auto, using(crate::proofs::Varints::is_shortest))]
pub fn put_varint32(out: &mut Vec<u8>, n: u32) -> Result<(), AllocError>
    ensures ok { OnOk result (out.new.items ≡ out.old.items ++ varint32 n) }
    ensures least { IsShortest 5 (2 ^ 32 - 1) (varint32 n) n }
    ensures err { OnErr result (out.new.items ≡ out.old.items) }
{
    put_groups(out, n as u64)
}

/// Appends a number as a varint64, in its shortest spelling of 1 to 10 bytes.
///
/// # Errors
/// `AllocError` where the growth of `out` was refused: its contents are then as before.
#[tactic(auto, using(crate::proofs::Varints::is_shortest))]
pub fn put_varint64(out: &mut Vec<u8>, n: u64) -> Result<(), AllocError>
    ensures ok { OnOk result (out.new.items ≡ out.old.items ++ varint64 n) }
    ensures least { IsShortest 10 (2 ^ 64 - 1) (varint64 n) n }
    ensures err { OnErr result (out.new.items ≡ out.old.items) }
{
    put_groups(out, n)
}
