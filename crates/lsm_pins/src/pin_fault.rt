//! Why a pin is refused.

ghost use Rattle.std.specs.Prelude.{◌≡◌, codes};

use thiserror::Error;

/// Why a pin is refused.
#[derive(Clone, Copy, Debug, Drop, Error, PartialEq, Eq)]
pub enum PinFault {
    /// This pinner has made 2^24 pins of the id that it saw last.
    #[error("PinsSpent")]
    PinsSpent,
}

impl PinFault {
    /// The number of the refusal in docs/FORMATS.md.
    pub fn number(&self) -> u8
        ensures { result ≡ 50 }
    {
        match self {
            PinFault::PinsSpent => 50,
        }
    }

    /// The name of the refusal in docs/FORMATS.md.
    pub fn name(&self) -> &'static str
        ensures { result.now ≡ codes "PinsSpent" }
    {
        match self {
            PinFault::PinsSpent => "PinsSpent",
        }
    }
}
