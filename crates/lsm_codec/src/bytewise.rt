//! The register of the checksum moved on by one byte a step, over one table. Ends what the wider
//! steps leave, and is what tests compare them with.

ghost use Rattle.std.specs.Prelude.{◌≡◌, [], ◌∷◌, ◌++◌, ◌<◌, ◌^◌, ℕ, List};
ghost use Rattle.lsm_codec.specs.Crc.{register_after, crc_of, crc_after};

use crate::byte_tables::at_0;

fn byte_step(register: u32, byte: u8) -> u32
    ensures { result ≡ register_after register (byte ∷ []) }
{
    at_0(((register ^ byte as u32) & 0xff) as u8) ^ (register >> 8)
}

pub(crate) fn absorb_bytes(register: u32, bytes: &[u8]) -> u32
    ensures { result ≡ register_after register bytes.now }
{
    let mut register = register;
    for byte in bytes {
        register = byte_step(register, *byte);
    }
    register
}
