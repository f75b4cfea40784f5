//! The descriptors of a process.

ghost use Rattle.std.specs.Prelude.{◌≡◌, ℤ, Bool, List, [], ◌∷◌};

use crate::wire::Wire;

/// The descriptors of a process, as those who talk over them see them.
pub trait Descriptors {
    /// What is made of a descriptor.
    type Wire: Wire;

    /// Of which descriptors a wire was made, the last one first.
    ghost opened: { Self → List ℤ };

    /// What holds of a number of which `is_open` says this. No call asks for it, so that what holds
    /// of a run holds for each choice of it.
    ghost says: { ℤ → Bool → Type 0 };

    /// Whether this one is open, or no file that is opened gets its number.
    fn is_open(&self, fd: i32) -> bool
        ensures said { says fd result };

    /// The wire of a descriptor, at which nothing has happened yet.
    fn wire(&mut self, fd: i32) -> Self::Wire
        ensures noted { opened self.new ≡ fd ∷ opened self.old }
        ensures descriptor { Self.Wire.descriptor result ≡ fd }
        ensures new { Self.Wire.happened result ≡ [] };
}
