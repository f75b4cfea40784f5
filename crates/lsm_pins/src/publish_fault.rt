//! Why a publication is refused.

ghost use Rattle.std.specs.Prelude.{◌≡◌, codes};

use thiserror::Error;

/// Why a publication is refused.
#[derive(Clone, Copy, Debug, Drop, Error, PartialEq, Eq)]
pub enum PublishFault {
    /// The current id is 2^28 - 1, the last one.
    #[error("VersionsSpent")]
    VersionsSpent,
}

impl PublishFault {
    /// The number of the refusal in docs/FORMATS.md.
    pub fn number(&self) -> u8
        ensures { result ≡ 49 }
    {
        match self {
            PublishFault::VersionsSpent => 49,
        }
    }

    /// The name of the refusal in docs/FORMATS.md.
    pub fn name(&self) -> &'static str
        ensures { result.now ≡ codes "VersionsSpent" }
    {
        match self {
            PublishFault::VersionsSpent => "VersionsSpent",
        }
    }
}
