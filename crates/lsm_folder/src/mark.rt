//! What a folder hands out for a file.

ghost use Rattle.std.specs.Prelude.{◌≡◌, ℕ, List};

/// What a folder hands out for a file that it made or read whole.
pub trait Mark: Drop {
    /// The file's name.
    ghost name: { Self → List ℕ };

    /// The bytes with which it was made, or that it had when it was read whole.
    ghost image: { Self → List ℕ };

    /// The same mark once more. It takes no memory.
    fn again(&self) -> Self
        ensures { result ≡ self.now };
}
