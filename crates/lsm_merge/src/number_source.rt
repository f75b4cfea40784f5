//! Where the numbers of outputs come from.

ghost use Rattle.std.specs.Prelude.{◌≡◌};
ghost use Rattle.lsm_merge.specs.NumberFault.{IsOfTicket, number_of, name_of};
ghost use Rattle.lsm_merge.specs.declared.number_source.NumberFault.TheVariants.{OutOfMemory};

use std::alloc::{AllocError, Global};
use std::sync::Wait;
use thiserror::Error;

/// Why no number was drawn.
#[derive(Clone, Copy, Debug, Drop, Error, PartialEq, Eq)]
pub enum NumberFault {
    /// A growth of memory was refused.
    #[error("OutOfMemory")]
    OutOfMemory,
    /// No live job has this ticket.
    #[error("UnknownTicket {0}")]
    UnknownTicket(u64),
    /// The next file number would pass 2^64 - 2.
    #[error("NumbersSpent")]
    NumbersSpent,
}

impl NumberFault {
    /// The number of the refusal in docs/FORMATS.md.
    pub fn number(&self) -> u8
        ensures { result ≡ number_of self.now }
    {
        match self {
            NumberFault::OutOfMemory => 1,
            NumberFault::UnknownTicket(_) => 45,
            NumberFault::NumbersSpent => 46,
        }
    }

    /// The name of the refusal in docs/FORMATS.md, without its fields.
    pub fn name(&self) -> &'static str
        ensures { result.now ≡ name_of self.now }
    {
        match self {
            NumberFault::OutOfMemory => "OutOfMemory",
            NumberFault::UnknownTicket(_) => "UnknownTicket",
            NumberFault::NumbersSpent => "NumbersSpent",
        }
    }
}

impl From<AllocError> for NumberFault {
    ghost from_gives = { λ _ e. e ≡ OutOfMemory };

    fn from(_error: AllocError) -> NumberFault {
        NumberFault::OutOfMemory
    }
}

/// Where the numbers of outputs come from. It promises nothing of them: whoever installs the
/// outputs tests their numbers. It tells only what it answered.
pub trait NumberSource {
    ghost use Rattle.std.specs.Prelude.{ℕ, List, IfOk, IfErr, OnOk, OnErr, ◌∷◌};

    /// The numbers that it gave, the last first.
    ghost drew: { Self → List ℕ };

    /// The numbers of its refusals, the last first.
    ghost refused: { Self → List ℕ };

    /// The tickets for which it was asked, the last first.
    ghost asked: { Self → List ℕ };

    /// What has to hold of the source before it is asked; each answer keeps it. A source that asks
    /// for nothing says `Unit {0}`.
    ghost ready: { Self → Type 0 };

    /// A number for an output of the job of this ticket.
    fn draw<R: Wait>(&mut self, rt: &R, alloc: Global, ticket: u64) -> Result<u64, NumberFault>
        requires ready { ready self.old }
        ensures ok { IfOk result (λ n. drew self.new ≡ n ∷ drew self.old) }
        ensures answered { OnOk result (refused self.new ≡ refused self.old) }
        ensures err { OnErr result (drew self.new ≡ drew self.old) }
        ensures why { IfErr result (λ e. refused self.new ≡ number_of e ∷ refused self.old) }
        ensures asked { asked self.new ≡ ticket ∷ asked self.old }
        ensures named { IfErr result (λ e. IsOfTicket e ticket) }
        ensures ready { ready self.new };
}
