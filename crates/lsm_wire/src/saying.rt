//! What is said over a wire.

ghost use Rattle.std.specs.Prelude.{◌≡◌, ◌∷◌, MatchResult};
ghost use Rattle.lsm_wire.specs.Happenings.{IsCalledNoRequest, IsUnanswered, IsWritten, Went};
ghost use Rattle.lsm_wire.specs.Happenings.{unanswered};

use crate::wire::Wire;
use lsm_frames::unread;
use std::alloc::{AllocError, Global};

/// Says, without memory for it, that there is none for a request or for its answer. Whether all of
/// that was taken.
pub fn say_unanswered<W: Wire>(wire: &mut W) -> bool
    ensures noted { W.happened wire.new ≡ Went unanswered result ∷ W.happened wire.old }
    ensures same { W.descriptor wire.new ≡ W.descriptor wire.old }
{
    let frame = [1u8, 0, 0, 0, 204];
    wire.write(&frame)
}

/// Writes an answer, or says that there was no memory for it. Whether the channel goes on: it does
/// where all of the answer was taken.
pub fn say<W: Wire>(wire: &mut W, answer: &Result<Vec<u8>, AllocError>) -> bool
    ensures said { MatchResult answer.now
        (λ v. IsWritten v.items result (W.happened wire.old) (W.happened wire.new))
        (λ _. IsUnanswered result (W.happened wire.old) (W.happened wire.new)) }
    ensures same { W.descriptor wire.new ≡ W.descriptor wire.old }
{
    match answer {
        Ok(frame) => wire.write(frame),
        Err(_) => {
            let _is_taken = say_unanswered(wire);
            false
        }
    }
}

/// Says that what came is no request.
pub fn call_no_request<W: Wire>(alloc: Global, wire: &mut W)
    ensures said { IsCalledNoRequest (W.happened wire.old) (W.happened wire.new) }
    ensures same { W.descriptor wire.new ≡ W.descriptor wire.old }
{
    let answer = unread(alloc);
    let _goes_on = say(wire, &answer);
}
