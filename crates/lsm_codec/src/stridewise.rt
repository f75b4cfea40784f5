//! The register of the checksum moved on by a stride of 32 bytes a step: four words of 64 bits side
//! by side, so that no word waits for the one before it.

ghost use Rattle.std.specs.Prelude.{◌≡◌, [], ◌∷◌, ◌++◌, ◌<◌, ◌≤◌, ◌^◌, ℕ, List, length, bit_xor};
ghost use Rattle.lsm_codec.specs.Crc.{register_after, crc_of, crc_after};
ghost use Rattle.lsm_codec.specs.Turns.{turns};
ghost use Rattle.lsm_codec.specs.Words.{after_parts};

use crate::byte_tables::{at_0, at_1, at_2, at_3, at_4, at_5, at_6, at_7};
use crate::stride_tables::{skip_0, skip_1, skip_2, skip_3, skip_4, skip_5, skip_6, skip_7};
use crate::wordwise::absorb_words;

/// A word moved on by itself.
fn near(word: u64) -> u32
    ensures { result ≡ turns 64 word }
{
    at_7((word & 0xff) as u8)
        ^ (at_6(((word >> 8) & 0xff) as u8)
            ^ (at_5(((word >> 16) & 0xff) as u8)
                ^ (at_4(((word >> 24) & 0xff) as u8)
                    ^ (at_3(((word >> 32) & 0xff) as u8)
                        ^ (at_2(((word >> 40) & 0xff) as u8)
                            ^ (at_1(((word >> 48) & 0xff) as u8) ^ at_0((word >> 56) as u8)))))))
}

/// A word moved on by a stride.
fn far(word: u64) -> u32
    ensures { result ≡ turns 256 word }
{
    skip_7((word & 0xff) as u8)
        ^ (skip_6(((word >> 8) & 0xff) as u8)
            ^ (skip_5(((word >> 16) & 0xff) as u8)
                ^ (skip_4(((word >> 24) & 0xff) as u8)
                    ^ (skip_3(((word >> 32) & 0xff) as u8)
                        ^ (skip_2(((word >> 40) & 0xff) as u8)
                            ^ (skip_1(((word >> 48) & 0xff) as u8)
                                ^ skip_0((word >> 56) as u8)))))))
}

/// Eight bytes as a word, the lowest first.
fn word(bytes: &[u8]) -> u64
    requires { length bytes.now ≡ 8 }
    ensures { (register : ℕ)
        → register_after register bytes.now ≡ turns 64 (bit_xor register result) }
{
    u64::from_le_bytes([
        bytes[0], bytes[1], bytes[2], bytes[3], bytes[4], bytes[5], bytes[6], bytes[7],
    ])
}

/// Four words that stand one after another.
#[derive(Clone, Copy)]
struct Words {
    first: u64,
    second: u64,
    third: u64,
    fourth: u64,
}

/// The words of a stride.
fn read(block: &[u8]) -> Words
    requires { length block.now ≡ 32 }
    ensures { (register : ℕ) → register_after register block.now
        ≡ after_parts 64 register (result.first ∷ result.second ∷ result.third ∷ result.fourth ∷ []) }
{
    let (first, after) = block.split_at(8);
    let (second, later) = after.split_at(8);
    let (third, fourth) = later.split_at(8);
    Words {
        first: word(first),
        second: word(second),
        third: word(third),
        fourth: word(fourth),
    }
}

/// The words after one more stride: each moves on by itself, and takes in the word in its place.
fn stride(state: Words, block: &[u8]) -> Words
    requires { length block.now ≡ 32 }
    ensures { register_after
        (after_parts 64 0 (state.first ∷ state.second ∷ state.third ∷ state.fourth ∷ [])) block.now
        ≡ after_parts 64 0 (result.first ∷ result.second ∷ result.third ∷ result.fourth ∷ []) }
{
    let new = read(block);
    Words {
        first: far(state.first) as u64 ^ new.first,
        second: far(state.second) as u64 ^ new.second,
        third: far(state.third) as u64 ^ new.third,
        fourth: far(state.fourth) as u64 ^ new.fourth,
    }
}

/// The words that stand for a register and the first stride.
fn start(register: u32, block: &[u8]) -> Words
    requires { length block.now ≡ 32 }
    ensures { register_after register block.now
        ≡ after_parts 64 0 (result.first ∷ result.second ∷ result.third ∷ result.fourth ∷ []) }
{
    let new = read(block);
    Words {
        first: register as u64 ^ new.first,
        second: new.second,
        third: new.third,
        fourth: new.fourth,
    }
}

/// The register that four words stand for.
fn joined(state: Words) -> u32
    ensures { result
        ≡ after_parts 64 0 (state.first ∷ state.second ∷ state.third ∷ state.fourth ∷ []) }
{
    let first = near(state.first);
    let second = near(first as u64 ^ state.second);
    let third = near(second as u64 ^ state.third);
    near(third as u64 ^ state.fourth)
}

/// The register after the bytes.
pub(crate) fn absorb_strides(register: u32, bytes: &[u8]) -> u32
    ensures { result ≡ register_after register bytes.now }
{
    if bytes.len() < 32 {
        return absorb_words(register, bytes);
    }
    let (head, after) = bytes.split_at(32);
    let mut state = start(register, head);
    let mut rest = after;
    while rest.len() >= 32 {
        let (block, after) = rest.split_at(32);
        state = stride(state, block);
        rest = after;
    }
    absorb_words(joined(state), rest)
}
