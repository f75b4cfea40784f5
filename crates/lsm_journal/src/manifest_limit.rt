//! From how many bytes on a new manifest is due.

ghost use Rattle.std.specs.Prelude.{◌≡◌};
ghost use Rattle.lsm_journal.specs.HeldManifest.{grown, no_limit};

/// From how many bytes on a new manifest is due, and whether that grows with the version. LevelDB
/// appends to a manifest as long as a database is open; a new one by size is this project's rule.
#[derive(Clone, Copy, Debug, PartialEq, Eq)]
pub struct ManifestLimit {
    /// A manifest of so many bytes is followed by a new one at the next change.
    pub bytes: u64,
    /// Whether a new manifest raises it to twice its own bytes, so that as many come in again
    /// before the next one is written.
    pub grows: bool,
}

impl ManifestLimit {
    /// No manifest reaches it: for a journal that nothing is sent through.
    pub fn none() -> ManifestLimit
        ensures { result ≡ no_limit }
    {
        ManifestLimit {
            bytes: u64::MAX,
            grows: false,
        }
    }

    /// The limit once a manifest of this size was begun.
    pub(crate) fn grown(self, size: usize) -> ManifestLimit
        ensures { result ≡ grown self size }
    {
        if self.grows {
            ManifestLimit {
                bytes: self.bytes.max(2 * (size.min(268_435_456) as u64)),
                grows: true,
            }
        } else {
            self
        }
    }
}
