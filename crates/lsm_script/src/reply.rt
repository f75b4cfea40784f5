//! What a command is answered.

ghost use Rattle.std.specs.Prelude.{◌≡◌};
ghost use Rattle.lsm_script.specs.Scripts.{ends_list};
ghost use Rattle.lsm_script.specs.declared.reply.Reply.TheVariants.{Refused};
ghost use Rattle.lsm_script.specs.declared.command_fault.CommandFault.TheVariants.{State};
ghost use Rattle.lsm_state.specs.declared.state_fault.StateFault.TheVariants.{OutOfMemory};
ghost use Rattle.lsm_state.specs.declared.state_fault.StateFault.TheVariants.{UnknownTicket};

use crate::command_fault::CommandFault;
use lsm_codec::{Bytes, List};
use lsm_manifest::FileMeta;
use lsm_state::{Ingested, StateFault};

/// A compaction that was reserved.
#[derive(Debug, Drop)]
pub struct Reserved {
    /// Its ticket.
    pub ticket: u64,
    /// Its level, 0 to 5.
    pub level: usize,
    /// The numbers of its inputs: those of its level, then those of the next, each in the order of
    /// its level. Of a move its one input.
    pub inputs: List<u64>,
}

/// What a command is answered.
#[derive(Debug, Drop)]
pub enum Reply {
    /// The batch came in.
    Ingested(Ingested),
    /// The key has this value.
    Value(Bytes),
    /// The key has no value.
    Absent,
    /// The id of the snapshot that was taken, and its sequence.
    Snapshot(u64, u64),
    /// The snapshot was given up.
    Released,
    /// A merge was reserved.
    Job(Reserved),
    /// A move was reserved.
    Move(Reserved),
    /// There is nothing to reserve.
    NoJob,
    /// The job of this ticket was merged, and so many tables were put.
    Merged(u64, usize),
    /// The result was installed; its outputs have these numbers, in order.
    Installed(List<u64>),
    /// The live job was given up.
    Cancelled,
    /// The version of this id was pinned.
    Pinned(u32),
    /// A pin was given back.
    Unpinned,
    /// The tables of these numbers were removed, ascending.
    Removed(List<u64>),
    /// The files of the current version, each with its level, by level, then in the order of the
    /// level.
    Files(List<(u8, FileMeta)>),
    /// The command was refused.
    Refused(CommandFault),
}

impl Reply {
    /// Whether it ends a list of commands: memory was refused.
    pub fn ends_list(&self) -> bool
        ensures { result ≡ ends_list self.now }
    {
        match self {
            Reply::Refused(refusal) => refusal.number() == 1,
            _ => false,
        }
    }

    // The state refused.
    pub(crate) fn refused(fault: StateFault) -> Reply
        ensures { result ≡ Refused (State fault) }
    {
        Reply::Refused(CommandFault::State(fault))
    }

    // A growth was refused.
    pub(crate) fn out_of_memory() -> Reply
        ensures { result ≡ Refused (State OutOfMemory) }
    {
        Reply::refused(StateFault::OutOfMemory)
    }

    // The script has no job, or no result, of this ticket.
    pub(crate) fn unknown(ticket: u64) -> Reply
        ensures { result ≡ Refused (State (UnknownTicket ticket)) }
    {
        Reply::refused(StateFault::UnknownTicket(ticket))
    }
}
