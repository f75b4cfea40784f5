//! Who sees the reads of a run.

ghost use Rattle.std.specs.Prelude.{◌≡◌, ◌+◌, ◌≤◌, ℕ, List, length, take, drop, IfOk, IsTrue};
ghost use Rattle.std.specs.Prelude.{IfSome, IfNone};

use std::alloc::{AllocError, Global};

/// Sees each read of a part that the system answers, before it is passed on. The folder is generic
/// in it, so what is proved of a folder is proved with each witness; what a witness that compares
/// lets through is the file's (`Images`), and the program's lets all through (`Mute`).
pub trait Witness {
    /// What it keeps of the bytes of a file that was made, read whole or found.
    type Kept: Drop;

    /// Those bytes.
    ghost image: { Self.Kept → List ℕ };

    /// In this run a read of `len` bytes at `offset` of a file of this image was answered so.
    ghost happened: { (image : List ℕ) (offset len : ℕ) (bytes : List ℕ) → Type 0 };

    /// The file of this name in the folder of this path holds these bytes, of which none was read.
    ghost holds: { (folder name image : List ℕ) → Type 0 };

    /// Keeps a file's bytes.
    fn keep(alloc: Global, bytes: &[u8]) -> Result<Self::Kept, AllocError>
        ensures { IfOk result (λ k. image k ≡ bytes.now) };

    /// What it keeps of a file that was only measured: it stands for so many bytes, which the file
    /// holds. `None` where it needs the bytes; it says then of each list that the file holds it.
    fn unread(folder: &str, name: &str, size: u64) -> Option<Self::Kept>
        ensures size { IfSome result (λ k. length (image k) ≡ size) }
        ensures held { IfSome result (λ k. holds folder.now name.now (image k)) }
        ensures needed { IfNone result
            ((bytes : List ℕ) → holds folder.now name.now bytes) };

    /// Whether the answer to a read is passed on. What is passed on happened, and what is that part
    /// of the file's bytes is passed on.
    fn saw(kept: &Self::Kept, offset: usize, len: usize, bytes: &[u8]) -> bool
        requires inside { offset + len ≤ length (image kept.now) }
        ensures seen { IsTrue result → happened (image kept.now) offset len bytes.now }
        ensures passed { bytes.now ≡ take len (drop offset (image kept.now)) → IsTrue result };
}
