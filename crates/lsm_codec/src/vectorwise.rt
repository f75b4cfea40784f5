//! The register of the checksum moved on by a vector of 32 bytes a step. Four vectors stand for all
//! bytes so far: a step takes the first of them away, and what each of its bytes comes to goes into
//! the byte at the same place of the other three and of the one that comes in. What that is, stands
//! in tables of 16 bytes: a pair of them for each of the four, one for the lower half of the byte,
//! one for the upper. A vector reads such a table at all its bytes at once.

ghost use Rattle.std.specs.Prelude.{◌≡◌, ◌<◌, ◌/◌, ◌%◌, ℕ, length, map, slice_index};
ghost use Rattle.lsm_codec.specs.Crc.{register_after};
ghost use Rattle.lsm_codec.specs.Turns.{turns};
ghost use Rattle.lsm_codec.specs.Words.{after_parts, after_vectors, spread};

use crate::stridewise::absorb_strides;
use crate::wordwise::absorb_words;
use std::simd::prelude::*;

const LOW_0: [u8; 16] = [
    0, 81, 187, 234, 75, 26, 240, 161, 135, 214, 60, 109, 204, 157, 119, 38,
];

const HIGH_0: [u8; 16] = [
    0, 128, 53, 181, 115, 243, 70, 198, 85, 213, 96, 224, 38, 166, 19, 147,
];

const LOW_1: [u8; 16] = [
    0, 218, 215, 13, 187, 97, 108, 182, 56, 226, 239, 53, 131, 89, 84, 142,
];

const HIGH_1: [u8; 16] = [
    0, 233, 234, 3, 183, 94, 93, 180, 226, 11, 8, 225, 85, 188, 191, 86,
];

const LOW_2: [u8; 16] = [
    0, 190, 79, 241, 250, 68, 181, 11, 16, 174, 95, 225, 234, 84, 165, 27,
];

const HIGH_2: [u8; 16] = [
    0, 28, 139, 151, 37, 57, 174, 178, 18, 14, 153, 133, 55, 43, 188, 160,
];

const LOW_3: [u8; 16] = [
    0, 70, 141, 203, 242, 180, 127, 57, 158, 216, 19, 85, 108, 42, 225, 167,
];

const HIGH_3: [u8; 16] = [
    0, 75, 5, 78, 11, 64, 14, 69, 137, 194, 140, 199, 130, 201, 135, 204,
];

/// A table twice, as a look-up within blocks of 16 bytes asks for it.
fn twice(table: &[u8; 16]) -> u8x32
    ensures { (k : ℕ) → k < 32 → slice_index result k ≡ slice_index table.now (k % 16) }
{
    u8x16::from_slice(table).swizzle([
        0, 1, 2, 3, 4, 5, 6, 7, 8, 9, 10, 11, 12, 13, 14, 15, 0, 1, 2, 3, 4, 5, 6, 7, 8, 9, 10, 11,
        12, 13, 14, 15,
    ])
}

/// What a table has at the lower half of each byte.
fn at_low(table: &[u8; 16], bytes: u8x32) -> u8x32
    ensures { result ≡ map (λ byte. slice_index table.now (byte % 16)) bytes }
{
    twice(table).swizzle_dyn_within::<16>(bytes & u8x32::splat(15))
}

/// What a table has at the upper half of each byte.
fn at_high(table: &[u8; 16], bytes: u8x32) -> u8x32
    ensures { result ≡ map (λ byte. slice_index table.now (byte / 16)) bytes }
{
    twice(table).swizzle_dyn_within::<16>(bytes >> u8x32::splat(4))
}

/// What each byte comes to by two tables.
fn spread(low: &[u8; 16], high: &[u8; 16], bytes: u8x32) -> u8x32
    ensures { result ≡ map (spread low.now high.now) bytes }
{
    at_low(low, bytes) ^ at_high(high, bytes)
}

/// Four vectors that stand one after another.
#[derive(Clone, Copy)]
struct Window {
    first: u8x32,
    second: u8x32,
    third: u8x32,
    fourth: u8x32,
}

/// The vector of 32 bytes.
fn load(block: &[u8]) -> u8x32
    requires { length block.now ≡ 32 }
    ensures { result ≡ block.now }
{
    u8x32::from_slice(block)
}

/// The four vectors after 32 more bytes.
fn slide(first: u8x32, second: u8x32, third: u8x32, fourth: u8x32, block: &[u8]) -> Window
    requires { length block.now ≡ 32 }
    ensures { register_after (after_vectors first second third fourth) block.now
        ≡ after_vectors result.first result.second result.third result.fourth }
{
    Window {
        first: second ^ spread(&LOW_0, &HIGH_0, first),
        second: third ^ spread(&LOW_1, &HIGH_1, first),
        third: fourth ^ spread(&LOW_2, &HIGH_2, first),
        fourth: load(block) ^ spread(&LOW_3, &HIGH_3, first),
    }
}

/// A vector that stands for a register.
fn seed(register: u32) -> u8x32
    ensures value { after_parts 8 0 result ≡ turns 256 register }
    ensures long { length result ≡ 32 }
{
    let bytes = register.to_le_bytes();
    u8x32::from_array([
        bytes[0], bytes[1], bytes[2], bytes[3], 0, 0, 0, 0, 0, 0, 0, 0, 0, 0, 0, 0, 0, 0, 0, 0, 0,
        0, 0, 0, 0, 0, 0, 0, 0, 0, 0, 0,
    ])
}

/// The four vectors that stand for a register and the first 128 bytes.
fn start(register: u32, head: &[u8]) -> Window
    requires { length head.now ≡ 128 }
    ensures { register_after register head.now
        ≡ after_vectors result.first result.second result.third result.fourth }
{
    let (first, after) = head.split_at(32);
    let (second, later) = after.split_at(32);
    let (third, fourth) = later.split_at(32);
    Window {
        first: seed(register) ^ load(first),
        second: load(second),
        third: load(third),
        fourth: load(fourth),
    }
}

/// The register that four vectors stand for.
fn joined(first: u8x32, second: u8x32, third: u8x32, fourth: u8x32) -> u32
    ensures { result ≡ after_vectors first second third fourth }
{
    let near = absorb_strides(0, &first.to_array());
    let far = absorb_strides(near, &second.to_array());
    let farther = absorb_strides(far, &third.to_array());
    absorb_strides(farther, &fourth.to_array())
}

/// The register after the bytes.
pub(crate) fn absorb_vectors(register: u32, bytes: &[u8]) -> u32
    ensures { result ≡ register_after register bytes.now }
{
    if bytes.len() < 256 {
        return absorb_strides(register, bytes);
    }
    let (head, after) = bytes.split_at(128);
    let mut state = start(register, head);
    let mut rest = after;
    while rest.len() >= 32 {
        let (block, after) = rest.split_at(32);
        state = slide(state.first, state.second, state.third, state.fourth, block);
        rest = after;
    }
    absorb_words(
        joined(state.first, state.second, state.third, state.fourth),
        rest,
    )
}
