//! The server's end of a channel.

ghost use Rattle.std.specs.Prelude.{◌≡◌, ℕ, ℤ, List, ◌∷◌};
ghost use Rattle.lsm_wire.specs.Happenings.{Happening, Went, IsGiven, what_came};

use crate::incoming::Incoming;
use std::alloc::Global;

/// The server's end of a channel: frames come over it, and others are written to it. Each call is
/// noted (`noted`), exactly once.
pub trait Wire: Drop {
    /// What happened at it, the latest first.
    ghost happened: { Self → List Happening };

    /// The number of its descriptor.
    ghost descriptor: { Self → ℤ };

    /// What a frame that comes over such a wire may have behind its length. No call asks for it, so
    /// that what holds of a run holds for each choice of it.
    ghost gives: { List ℕ → Type 0 };

    /// Reads the next frame.
    fn read(&mut self, alloc: Global) -> Incoming
        ensures noted { happened self.new ≡ what_came result ∷ happened self.old }
        ensures same { descriptor self.new ≡ descriptor self.old }
        ensures given { IsGiven gives result };

    /// Writes bytes. Whether all of them were taken; else the first ones may have been.
    fn write(&mut self, bytes: &[u8]) -> bool
        ensures noted { happened self.new ≡ Went bytes.now result ∷ happened self.old }
        ensures same { descriptor self.new ≡ descriptor self.old };
}
