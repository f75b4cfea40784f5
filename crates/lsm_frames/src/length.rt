//! The length in front of a frame.

ghost use Rattle.std.specs.Prelude.{◌≡◌, ◌<◌, ◌≤◌, ◌⊎◌, IfOk, IfErr};
ghost use Rattle.std.specs.Int.{w32, from_le_bytes};

use crate::malformed::Malformed;

/// The most bytes of a request, 8 MiB: what follows the length of its frame.
pub const MOST_REQUEST: usize = 8_388_608;

/// The most bytes of an answer, 16 MiB: what follows the length of its frame.
pub const MOST_ANSWER: usize = 16_777_216;

/// How many bytes follow in the frame of a request: 1 to `MOST_REQUEST`, or `Malformed`.
pub fn request_length(front: [u8; 4]) -> Result<usize, Malformed>
    ensures found { IfOk result (λ n. (n ≡ from_le_bytes w32 front)
        × (1 ≤ n) × (n ≤ MOST_REQUEST)) }
    ensures refused { IfErr result (λ _. (from_le_bytes w32 front ≡ 0)
        ⊎ (MOST_REQUEST < from_le_bytes w32 front)) }
{
    let length = u32::from_le_bytes(front) as usize;
    if length == 0 || length > MOST_REQUEST {
        return Err(Malformed);
    }
    Ok(length)
}

/// How many bytes follow in the frame of an answer: 1 to `MOST_ANSWER`, or `Malformed`.
pub fn answer_length(front: [u8; 4]) -> Result<usize, Malformed>
    ensures found { IfOk result (λ n. (n ≡ from_le_bytes w32 front)
        × (1 ≤ n) × (n ≤ MOST_ANSWER)) }
    ensures refused { IfErr result (λ _. (from_le_bytes w32 front ≡ 0)
        ⊎ (MOST_ANSWER < from_le_bytes w32 front)) }
{
    let length = u32::from_le_bytes(front) as usize;
    if length == 0 || length > MOST_ANSWER {
        return Err(Malformed);
    }
    Ok(length)
}
