//! The register of the checksum moved on by eight bytes a step, over eight tables.

ghost use Rattle.std.specs.Prelude.{◌≡◌, [], ◌∷◌, ◌++◌, ◌<◌, ◌^◌, ℕ, List, length};
ghost use Rattle.lsm_codec.specs.Crc.{register_after, crc_of, crc_after};
ghost use Rattle.lsm_codec.specs.Turns.{turns};

use crate::byte_tables::{at_0, at_1, at_2, at_3, at_4, at_5, at_6, at_7};
use crate::bytewise::absorb_bytes;

fn near(word: u32) -> u32
    ensures { result ≡ turns 32 word }
{
    at_3((word & 0xff) as u8)
        ^ at_2(((word >> 8) & 0xff) as u8)
        ^ at_1(((word >> 16) & 0xff) as u8)
        ^ at_0((word >> 24) as u8)
}

fn far(word: u32) -> u32
    ensures { result ≡ turns 64 word }
{
    at_7((word & 0xff) as u8)
        ^ at_6(((word >> 8) & 0xff) as u8)
        ^ at_5(((word >> 16) & 0xff) as u8)
        ^ at_4((word >> 24) as u8)
}

fn block_step(register: u32, block: &[u8]) -> u32
    requires { length block.now ≡ 8 }
    ensures { result ≡ register_after register block.now }
{
    let first = u32::from_le_bytes([block[0], block[1], block[2], block[3]]);
    let second = u32::from_le_bytes([block[4], block[5], block[6], block[7]]);
    far(register ^ first) ^ near(second)
}

pub(crate) fn absorb_words(register: u32, bytes: &[u8]) -> u32
    ensures { result ≡ register_after register bytes.now }
{
    let mut now = register;
    let mut rest = bytes;
    while rest.len() >= 8 {
        let (block, after) = rest.split_at(8);
        now = block_step(now, block);
        rest = after;
    }
    absorb_bytes(now, rest)
}
