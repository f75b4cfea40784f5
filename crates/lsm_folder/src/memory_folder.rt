//! A folder in memory.

ghost use Rattle.lsm_folder.specs.Calls.{LastIsTrue, LastIsTrue-prop};

use crate::log::Log;
use crate::memory_files::MemoryFiles;
use crate::memory_lock::MemoryLock;
use std::alloc::Global;
use std::sync::Arc;

/// A folder in memory, which forks share. Each of its answers is true.
#[derive(Drop)]
pub struct MemoryFolder {
    pub(crate) alloc: Global,
    pub(crate) files: Arc<MemoryFiles>,
    pub(crate) held: Option<MemoryLock>,
    pub(crate) log: Log,
    ghost honest: { LastIsTrue log.calls } by { LastIsTrue-prop log.calls },
}
