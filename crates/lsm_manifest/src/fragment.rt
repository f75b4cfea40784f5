//! The fragments of a log: their types, their checksum, and the room that a block has for them.
//!
//! ```text
//! masked CRC-32C of type and data, fixed32 | data's length, fixed16 | type, 1 byte | data
//! ```

ghost use Rattle.std.specs.Prelude.{◌≡◌, ◌∷◌, ◌==◌, ◌||◌, nat_lt, if◌then◌else◌, Some, None};
ghost use Rattle.std.specs.Option.{option_map};
ghost use Rattle.lsm_manifest.specs.Log.{left, sum_bytes, may_follow, ends};

use lsm_codec::{crc_extend, crc32c, mask};

/// The type of a fragment (LevelDB's `doc/log_format.md`): a whole record, or its first, a middle
/// or its last part.
#[derive(Clone, Copy)]
pub(crate) enum FragmentType {
    Full,
    First,
    Middle,
    Last,
}

impl FragmentType {
    ghost use Rattle.lsm_manifest.specs.LogView.{type_byte};

    /// The type that a byte names, if it names one.
    pub(crate) fn of(byte: u8) -> Option<FragmentType>
        ensures { option_map type_byte result
            ≡ (if byte == 0 || nat_lt 4 byte then None else Some byte) }
    {
        match byte {
            1 => Some(FragmentType::Full),
            2 => Some(FragmentType::First),
            3 => Some(FragmentType::Middle),
            4 => Some(FragmentType::Last),
            _ => None,
        }
    }

    pub(crate) fn byte(self) -> u8
        ensures { result ≡ type_byte self }
    {
        match self {
            FragmentType::Full => 1,
            FragmentType::First => 2,
            FragmentType::Middle => 3,
            FragmentType::Last => 4,
        }
    }

    /// Whether a fragment of this type may stand where a record is begun, or not, and has this data
    /// so far.
    #[tactic(auto, unfolding(crate::specs::Log::may_follow))]
    pub(crate) fn may_follow(self, begun: bool, before: &[u8]) -> bool
        ensures { result ≡ may_follow begun before.now (type_byte self) }
    {
        match self {
            FragmentType::Full | FragmentType::First => before.is_empty(),
            FragmentType::Middle | FragmentType::Last => begun,
        }
    }

    /// Whether a fragment of this type ends its record.
    #[tactic(auto, unfolding(crate::specs::Log::ends))]
    pub(crate) fn ends(self) -> bool
        ensures { result ≡ ends (type_byte self) }
    {
        match self {
            FragmentType::Full | FragmentType::Last => true,
            FragmentType::First | FragmentType::Middle => false,
        }
    }
}

/// How many bytes are left in the block of this offset.
pub(crate) fn room(offset: u64) -> usize
    ensures { result ≡ left offset }
{
    (32_768 - offset % 32_768) as usize
}

/// The stored checksum of a fragment: that of its type byte and its data, masked.
#[tactic(auto, unfolding(crate::specs::Log::sum_bytes))]
pub(crate) fn sum(kind: u8, body: &[u8]) -> [u8; 4]
    ensures { result ≡ sum_bytes kind body.now }
{
    mask(crc_extend(crc32c(&[kind]), body)).to_le_bytes()
}
