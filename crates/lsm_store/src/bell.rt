//! The bell of workers that run beside a program.

ghost use Rattle.std.specs.Prelude.{◌≡◌, IfNone, false, true};

use std::sync::{Condvar, Mutex, Wait};

/// How often the bell was rung, and how many workers have nothing to do.
#[derive(Drop)]
struct Rung {
    // How often it was rung. The count wraps.
    rings: u64,
    // How often a result was installed, or files were gathered. The count wraps.
    installs: u64,
    // How many workers have not ended.
    working: usize,
    // How many of these have found nothing to do since it was rung last.
    idle: usize,
    // Whether workers are to end.
    closed: bool,
}

impl Rung {
    // It rings: whoever waits looks again.
    fn ring(&mut self) {
        self.rings = self.rings.wrapping_add(1);
        self.idle = 0;
    }
}

/// A bell that is rung after each change by which there may be more to do, or room at level 0.
/// Workers sleep until it rings, and so do writers that found level 0 full.
///
/// Nothing here takes the lock of the store; a writer rings while it holds it. Whoever waits has
/// read before its last look at the state how often the bell was rung, and waits only while that is
/// still so. So no ring is missed; and where a writer found level 0 full, and each worker has found
/// nothing to do since the last ring, that was after the last batch which the writer saw.
#[derive(Drop)]
pub(crate) struct Bell {
    // Whether workers go on until nothing is left: it is closed once all of them are idle.
    pub(crate) to_the_end: bool,
    rung: Mutex<Rung>,
    changed: Condvar,
}

impl Bell {
    fn of(workers: usize, to_the_end: bool) -> Bell
        ensures { result.to_the_end ≡ to_the_end }
    {
        Bell {
            to_the_end,
            rung: Mutex::new(Rung {
                rings: 0,
                installs: 0,
                working: workers,
                idle: 0,
                closed: false,
            }),
            changed: Condvar::new(),
        }
    }

    /// A bell for so many workers, which go on until it is closed. Each of them leaves it once.
    pub(crate) fn new(workers: usize) -> Bell
        ensures { result.to_the_end ≡ false }
    {
        Bell::of(workers, false)
    }

    /// A bell for so many workers, which is closed once all of them are idle.
    pub(crate) fn closing_when_idle(workers: usize) -> Bell
        ensures { result.to_the_end ≡ true }
    {
        Bell::of(workers, true)
    }

    /// Rings. How often it was rung, with this time.
    pub(crate) fn ring<R: Wait>(&self, rt: &R) -> u64 {
        let mut rung = self.rung.lock(rt);
        rung.ring();
        self.changed.notify_all();
        rung.rings
    }

    /// Rings after a version became current, by an install or a gather.
    pub(crate) fn installed<R: Wait>(&self, rt: &R) {
        let mut rung = self.rung.lock(rt);
        rung.installs = rung.installs.wrapping_add(1);
        rung.ring();
        self.changed.notify_all();
    }

    /// One worker more, which leaves the bell once, and is not idle until then.
    pub(crate) fn enter<R: Wait>(&self, rt: &R) {
        let mut rung = self.rung.lock(rt);
        rung.working = rung.working.saturating_add(1);
    }

    /// A worker ends. The others are to look again: its job may be left to them.
    pub(crate) fn leave<R: Wait>(&self, rt: &R) {
        let mut rung = self.rung.lock(rt);
        rung.working = rung.working.saturating_sub(1);
        rung.ring();
        self.changed.notify_all();
    }

    /// Workers are to end.
    pub(crate) fn close<R: Wait>(&self, rt: &R) {
        let mut rung = self.rung.lock(rt);
        rung.closed = true;
        self.changed.notify_all();
    }

    /// How often it was rung. None where it was closed before the end: then a worker ends, whatever
    /// is left.
    pub(crate) fn rings<R: Wait>(&self, rt: &R) -> Option<u64>
        ensures { IfNone result (self.now.to_the_end ≡ false) }
    {
        let rung = self.rung.lock(rt);
        if rung.closed && !self.to_the_end {
            return None;
        }
        Some(rung.rings)
    }

    /// A worker has found nothing to do since the bell had rung so often. It waits until it
    /// rings again: true; or is closed: false.
    pub(crate) fn wait_for_work<R: Wait>(&self, rt: &R, rings: u64) -> bool {
        let mut rung = self.rung.lock(rt);
        if rung.rings == rings {
            rung.idle = rung.idle.saturating_add(1);
            if self.to_the_end && rung.idle >= rung.working {
                rung.closed = true;
            }
            self.changed.notify_all();
        }
        for _ in rt.forever() {
            if rung.closed {
                return false;
            }
            if rung.rings != rings {
                return true;
            }
            rung = self.changed.wait(rt, rung);
        }
        unreachable!()
    }

    /// A writer has found level 0 full since the bell had rung so often. It waits until it rings
    /// again: how often it was rung then. None where each worker is idle, or has ended.
    pub(crate) fn wait_for_room<R: Wait>(&self, rt: &R, rings: u64) -> Option<u64> {
        let mut rung = self.rung.lock(rt);
        for _ in rt.forever() {
            if rung.rings != rings {
                return Some(rung.rings);
            }
            if rung.idle >= rung.working {
                return None;
            }
            rung = self.changed.wait(rt, rung);
        }
        unreachable!()
    }

    /// So many installs are known. Waits until there are others: how many there are then. None
    /// where none will come: it is closed, and each worker has ended.
    pub(crate) fn wait_for_installs<R: Wait>(&self, rt: &R, known: u64) -> Option<u64> {
        let mut rung = self.rung.lock(rt);
        for _ in rt.forever() {
            if rung.installs != known {
                return Some(rung.installs);
            }
            if rung.closed && rung.working == 0 {
                return None;
            }
            rung = self.changed.wait(rt, rung);
        }
        unreachable!()
    }

    /// Waits until each worker is idle, or has ended.
    pub(crate) fn wait_until_idle<R: Wait>(&self, rt: &R) {
        let mut rung = self.rung.lock(rt);
        for _ in rt.forever() {
            if rung.idle >= rung.working {
                return;
            }
            rung = self.changed.wait(rt, rung);
        }
        unreachable!()
    }
}
