//! A lock of a file in memory.

use crate::file_life::FileLife;
use crate::lock_kind::LockKind;
use std::sync::Arc;

/// A lock of a file in memory, which a drop lets go.
pub struct MemoryLock {
    life: Arc<FileLife>,
    kind: LockKind,
}

impl MemoryLock {
    /// `None` where another has a lock that forbids it.
    pub(crate) fn take(life: Arc<FileLife>, kind: LockKind) -> Option<MemoryLock> {
        if life.lock(kind) {
            Some(MemoryLock { life, kind })
        } else {
            None
        }
    }
}

impl Drop for MemoryLock {
    fn drop(self) {
        let Self { life, kind } = self;
        life.unlock(kind);
    }
}
