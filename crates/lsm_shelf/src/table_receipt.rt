//! What a shelf hands out for an image.

ghost use Rattle.std.specs.Prelude.{◌≡◌, ℕ, ◌≤◌, ◌^◌, List, length};

/// The most bytes that an image may have: 1 GiB.
pub const MAX_IMAGE: usize = 1 << 30;

/// What a shelf hands out for an image: it has the image's number and length, and stands for its
/// bytes.
///
/// LevelDB names a table by the number of its file; that a receipt stands for the bytes put is this
/// project's rule.
pub trait TableReceipt: Drop + Send + Sync {
    /// The number of the table's file.
    ghost number: { Self → ℕ };

    /// The bytes for which it stands.
    ghost image: { Self → List ℕ };

    /// The number under which the image was put.
    fn number(&self) -> u64
        ensures { result ≡ number self.now };

    /// The length of the image in bytes, at most 1 GiB (1,073,741,824).
    fn size(&self) -> u64
        ensures size { result ≡ length (image self.now) }
        ensures limit { result ≤ 2 ^ 30 };
}
