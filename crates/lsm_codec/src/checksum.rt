//! CRC-32C, and the mask under which files store it.

ghost use Rattle.std.specs.Prelude.{◌≡◌, ◌++◌, ℕ, List};
ghost use Rattle.lsm_codec.specs.Crc.{crc_of, crc_after};
ghost use Rattle.lsm_codec.specs.Mask.{masked, unmasked};

use crate::vectorwise::absorb_vectors;

/// The CRC-32C of the bytes: Castagnoli's polynomial 0x82F63B78, reflected, start 0xFFFFFFFF, final
/// inversion (LevelDB's `util/crc32c.h`, RFC 3720). Takes time in proportion to the length, 32
/// bytes a step.
pub fn crc32c(bytes: &[u8]) -> u32
    ensures { result ≡ crc_of bytes.now }
{
    !absorb_vectors(!0, bytes)
}

/// The CRC-32C of a text whose front has the checksum so far, and which goes on with the bytes
/// (`Extend` of LevelDB's `util/crc32c.h`).
pub fn crc_extend(checksum: u32, bytes: &[u8]) -> u32
    ensures value { result ≡ crc_after checksum bytes.now }
    ensures joins { (front : List ℕ) → checksum ≡ crc_of front
        → result ≡ crc_of (front ++ bytes.now) }
{
    !absorb_vectors(!checksum, bytes)
}

/// A checksum as files store it: turned right by 15 bits, and a constant added modulo 2^32 (`Mask`
/// of LevelDB's `util/crc32c.h`, since the checksum of bytes that hold their own checksum says
/// little).
pub fn mask(checksum: u32) -> u32
    ensures value { result ≡ masked checksum }
    ensures back { unmasked result ≡ checksum }
{
    ((checksum >> 15) + (checksum << 17)).wrapping_add(0xa282_ead8)
}

/// The checksum that a stored number stands for (`Unmask` of LevelDB's `util/crc32c.h`).
pub fn unmask(stored: u32) -> u32
    ensures value { result ≡ unmasked stored }
    ensures back { masked result ≡ stored }
{
    let turned = stored.wrapping_sub(0xa282_ead8);
    (turned >> 17) + (turned << 15)
}
