//! The answer to a scan.

ghost use Rattle.std.specs.Prelude.{◌≡◌, ◌+◌, ◌<◌, ◌≤◌, ◌↔◌, ◌++◌, ◌∷◌, [], length, Err};
ghost use Rattle.std.specs.Prelude.{IfOk, OnOk, OnErr, false};
ghost use Rattle.std.specs.List.{flat_map};
ghost use Rattle.lsm_frames.specs.declared.answer_fault.AnswerFault.TheVariants.{TooLong};
ghost use Rattle.lsm_frames.specs.Texts.{frame};
ghost use Rattle.lsm_frames.specs.Answers.{answer_text, pair_text, IsDone, Shown};

use crate::answer_fault::AnswerFault;
use crate::frame::{begin, has_room, put_pair, seal};
use crate::length::MOST_ANSWER;
use std::alloc::{AllocError, Global};
use std::marker::Model;

/// The answer to a scan, as it grows. Contracts see it as the list of its pairs. It grows in the
/// frame that is sent.
#[derive(Debug, Drop)]
pub struct PairsAnswer {
    bytes: Vec<u8>,
}

impl Model for PairsAnswer {
    ghost use Rattle.std.specs.Prelude.{List};
    ghost use Rattle.lsm_frames.specs.Answers.{Pair, pair_text};

    ghost Value = { List Pair };

    ghost use Rattle.lsm_frames.specs.Reading.{pair_at};
    ghost use Rattle.lsm_frames.specs.Held.{FitsPair, Holds, held, pairs_head};

    ghost view = { λ a. held pair_at 6 a.bytes.items };

    ghost invariant = { λ a. Holds pair_text FitsPair pairs_head
        (held pair_at 6 a.bytes.items) a.bytes.items };
}

impl PairsAnswer {
    /// An answer without pairs yet.
    pub fn new(alloc: Global) -> Result<PairsAnswer, AllocError>
        ensures { IfOk result (λ a. a ≡ []) }
    {
        let mut bytes = begin(alloc, 0)?;
        bytes.push(0)?;
        Ok(PairsAnswer { bytes })
    }

    /// How many bytes the pairs have so far.
    pub fn size(&self) -> usize
        ensures { result ≡ length (flat_map pair_text self.now) }
    {
        self.bytes.len() - 6
    }

    /// One pair more. `TooLong` where the answer would pass `MOST_ANSWER` bytes. An `Err` changes
    /// nothing.
    pub fn pair(&mut self, key: &[u8], value: &[u8]) -> Result<(), AnswerFault>
        ensures ok { OnOk result (self.new
            ≡ self.old ++ record { key = key.now; value = value.now } ∷ []) }
        ensures err { OnErr result (self.new ≡ self.old) }
        ensures long { result ≡ Err TooLong ↔ MOST_ANSWER < length (answer_text (IsDone
            (Shown false (self.old ++ record { key = key.now; value = value.now } ∷ [])))) }
    {
        if !has_room(&self.bytes, 8, key.len(), value.len()) {
            return Err(AnswerFault::TooLong);
        }
        put_pair(&mut self.bytes, key, value)?;
        Ok(())
    }

    /// The whole frame, with whether no pair is left in the range.
    pub fn finish(self, ended: bool) -> Vec<u8>
        ensures { result.items ≡ frame (answer_text (IsDone (Shown ended self))) }
    {
        let PairsAnswer { mut bytes } = self;
        if ended {
            bytes[5] = 1;
        }
        seal(bytes)
    }
}
