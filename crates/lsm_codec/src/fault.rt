//! What is wrong with bytes that should spell a number or an internal key.

ghost use Rattle.std.specs.Prelude.{◌≡◌};
ghost use Rattle.lsm_codec.specs.Fault.{number_of, name_of};

use thiserror::Error;

/// Why a number or an internal key could not be read.
#[derive(Clone, Copy, Debug, Drop, Error, PartialEq, Eq)]
pub enum CodecFault {
    /// The input ends within a number.
    #[error("Cut")]
    Cut,
    /// A number is spelled in more bytes than its form allows, or is above the greatest of its
    /// form.
    #[error("TooBig")]
    TooBig,
    /// An internal key has fewer than eight bytes.
    #[error("ShortKey")]
    ShortKey,
    /// The kind of an internal key, which this is, is above 1.
    #[error("BadKind {0}")]
    BadKind(u8),
}

impl CodecFault {
    /// The number of the refusal in docs/FORMATS.md.
    pub fn number(&self) -> u8
        ensures { result ≡ number_of self.now }
    {
        match self {
            CodecFault::Cut => 2,
            CodecFault::TooBig => 3,
            CodecFault::ShortKey => 4,
            CodecFault::BadKind(_) => 5,
        }
    }

    /// The name of the refusal in docs/FORMATS.md. The fields are not in it; `Display` adds them.
    pub fn name(&self) -> &'static str
        ensures { result.now ≡ name_of self.now }
    {
        match self {
            CodecFault::Cut => "Cut",
            CodecFault::TooBig => "TooBig",
            CodecFault::ShortKey => "ShortKey",
            CodecFault::BadKind(_) => "BadKind",
        }
    }
}
