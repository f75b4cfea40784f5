//! How a run of the server ended.

use crate::door::Door;
use lsm_folder::FolderCalls;
use lsm_wire::Wire;

/// How a run ended. Wires come back as they are at the end, the first channel's first.
#[derive(Drop)]
pub enum Ended<C: FolderCalls, O: Door<C>, W: Wire> {
    /// No opening came, or none that names a channel. Nothing was done: the door is left.
    Unopened(O),
    /// The opening was refused, and that was said over this wire of its first channel. The others
    /// are those of its other channels, where they were made. The door is left where no folder was
    /// asked for.
    Refused(W, Vec<W>, Option<O>),
    /// Channels were served, each to its end: the folder, whose lock is still held, and their
    /// wires, in their order; none of a channel whose thread could not be made.
    Served(C, Vec<Option<W>>),
}
