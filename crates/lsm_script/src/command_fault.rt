//! Why a command was refused.

ghost use Rattle.std.specs.Prelude.{◌≡◌};
ghost use Rattle.lsm_script.specs.CommandFault.{name_of, number_of};

use lsm_merge::MergeFault;
use lsm_state::StateFault;
use thiserror::Error;

/// Why a command was refused.
#[derive(Clone, Copy, Debug, Drop, Error, PartialEq, Eq)]
pub enum CommandFault {
    /// The state refused; `UnknownTicket` where the script has no job or no result of the ticket.
    #[error("{0}")]
    State(StateFault),
    /// The merge was refused.
    #[error("{0}")]
    Merge(MergeFault),
}

impl CommandFault {
    /// The number of the refusal in docs/FORMATS.md.
    pub fn number(&self) -> u8
        ensures { result ≡ number_of self.now }
    {
        match self {
            CommandFault::State(fault) => fault.number(),
            CommandFault::Merge(fault) => fault.number(),
        }
    }

    /// The name of the refusal in docs/FORMATS.md, without its fields.
    pub fn name(&self) -> &'static str
        ensures { result.now ≡ name_of self.now }
    {
        match self {
            CommandFault::State(fault) => fault.name(),
            CommandFault::Merge(fault) => fault.name(),
        }
    }
}
