//! At which call a folder in memory stops.

ghost use Rattle.std.specs.Prelude.{◌≡◌, ◌⊎◌, Ok, Err, IfOk, IfErr};

use crate::folder_fault::FolderFault;
use std::sync::atomic::{AtomicBool, AtomicU64, Ordering};

/// Counts the calls of all forks. The call that is cut, and each after it, fails.
#[derive(Drop)]
pub(crate) struct Stops {
    asked: AtomicU64,
    limit: AtomicU64,
    takes_effect: AtomicBool,
}

/// A call that acts. The one that is cut answers that it failed, whatever it did.
#[derive(Drop)]
pub(crate) struct Turn {
    cut: bool,
}

impl Stops {
    /// Never.
    pub(crate) fn never() -> Stops {
        Stops {
            asked: AtomicU64::new(0),
            limit: AtomicU64::new(u64::MAX),
            takes_effect: AtomicBool::new(false),
        }
    }

    /// Lets this many calls through, and cuts the next.
    pub(crate) fn after(&self, calls: u64, takes_effect: bool) {
        let asked = self.asked.load(Ordering::SeqCst);
        self.takes_effect.store(takes_effect, Ordering::SeqCst);
        self.limit
            .store(asked.saturating_add(calls), Ordering::SeqCst);
    }

    /// Begins a call. `Failed` where the folder has stopped, or stops before this call acts.
    pub(crate) fn begin(&self) -> Result<Turn, FolderFault>
        ensures { IfErr result (λ e. e ≡ FolderFault.Failed) }
    {
        let number = self.asked.fetch_add(1, Ordering::SeqCst);
        let limit = self.limit.load(Ordering::SeqCst);
        let cut = number == limit;
        if number > limit || (cut && !self.takes_effect.load(Ordering::SeqCst)) {
            return Err(FolderFault::Failed);
        }
        Ok(Turn { cut })
    }
}

impl Turn {
    /// Ends a call that acted, with this answer; one that was cut is `Failed` in place of `Ok`.
    pub(crate) fn end<T: Drop>(self, answer: Result<T, FolderFault>) -> Result<T, FolderFault>
        ensures ok { IfOk result (λ v. answer ≡ Ok v) }
        ensures err { IfErr result (λ e. (e ≡ FolderFault.Failed) ⊎ (answer ≡ Err e)) }
    {
        if self.cut && answer.is_ok() {
            return Err(FolderFault::Failed);
        }
        answer
    }
}
