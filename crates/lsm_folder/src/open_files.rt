//! The files of a folder of the system that stay open between two reads. No contract says what
//! these do; they are to be read.

use crate::system_files::text_of;
use std::alloc::{AllocError, Global};
use std::fs::{File, Files};
use std::io;
use std::sync::Arc;
use std::sync::atomic::{AtomicUsize, Ordering};

/// The most files that one value keeps open: what LevelDB's option `max_open_files` is when it is
/// not set.
const MAX_OPEN_FILES: usize = 1000;

/// How many descriptors the process is taken to have where the system does not tell.
const UNTOLD: usize = 64;

/// The errors of a system that has no descriptor left, for the process (`EMFILE`) or for all
/// (`ENFILE`).
const NO_DESCRIPTOR: [i32; 2] = [24, 23];

/// What the values on one folder know of each other's open files.
#[derive(Drop)]
struct Shared {
    /// How many descriptors the process may have.
    descriptors: usize,
    /// How many files the values keep open together.
    open: AtomicUsize,
    /// How often a file was removed.
    removals: AtomicUsize,
}

/// The right to keep one file open, which a drop gives back.
struct Seat {
    shared: Arc<Shared>,
}

impl Seat {
    /// `None` where all values together keep a quarter of the process's descriptors open.
    fn take(shared: &Arc<Shared>) -> Option<Seat> {
        let shared = Arc::try_clone(shared).ok()?;
        let open = shared.open.fetch_add(1, Ordering::SeqCst);
        let most = shared.descriptors / 4;
        let seat = Seat { shared };
        if open < most { Some(seat) } else { None }
    }
}

impl Drop for Seat {
    fn drop(self) {
        let Self { shared } = self;
        shared.open.fetch_sub(1, Ordering::SeqCst);
    }
}

/// An open file, with the index of the mark with which it was read.
#[derive(Drop)]
struct Kept {
    mark: usize,
    file: File,
    _seat: Seat,
}

/// The files that one value on a folder keeps open, each in the slot that its mark's index gives.
/// No two marks of a folder have one index. A drop closes them.
#[derive(Drop)]
pub(crate) struct OpenFiles {
    slots: Vec<Option<Kept>>,
    /// How often a file had been removed when the slots were last looked through.
    removals: usize,
    shared: Arc<Shared>,
}

impl OpenFiles {
    /// None is open yet. Refused only for want of memory.
    pub(crate) fn new<R: Files<File = File> + AllocGlobal>(rt: &R) -> io::Result<OpenFiles> {
        let limits = text_of(rt, "/proc/self/limits")?;
        let shared = Shared {
            descriptors: descriptors_in(limits.as_str()),
            open: AtomicUsize::new(0),
            removals: AtomicUsize::new(0),
        };
        Ok(OpenFiles {
            slots: Vec::new(rt.alloc()),
            removals: 0,
            shared: Arc::new(rt.alloc(), shared)?,
        })
    }

    /// Those of another value on the folder: none yet.
    pub(crate) fn fork(&self, alloc: Global) -> Result<OpenFiles, AllocError> {
        Ok(OpenFiles {
            slots: Vec::new(alloc),
            removals: self.removals,
            shared: Arc::try_clone(&self.shared)?,
        })
    }

    /// The slot of a mark. One value has as many as a sixteenth of the process's descriptors, at
    /// least one, and at most `MAX_OPEN_FILES`.
    fn slot_of(&self, mark: usize) -> usize {
        let most = (self.shared.descriptors / 16).min(MAX_OPEN_FILES);
        mark.checked_rem(most).unwrap_or(0)
    }

    /// The open file of a mark, where it is kept. All are closed where a file was removed since:
    /// it may be one of them, and an open file takes room on the device.
    pub(crate) fn of(&mut self, mark: usize) -> Option<&File> {
        let removals = self.shared.removals.load(Ordering::SeqCst);
        if removals != self.removals {
            self.close();
            self.removals = removals;
        }
        match self.slots.get(self.slot_of(mark)) {
            Some(Some(kept)) if kept.mark == mark => Some(&kept.file),
            _ => None,
        }
    }

    /// Closes the file that is in the slot of this mark.
    pub(crate) fn make_room(&mut self, mark: usize) {
        let slot = self.slot_of(mark);
        if let Some(kept) = self.slots.get_mut(slot) {
            *kept = None;
        }
    }

    /// Keeps the file of a mark open, in place of the one that is in its slot. Where there is no
    /// memory for the slot, or no seat, it is closed.
    pub(crate) fn keep(&mut self, mark: usize, file: File) {
        let slot = self.slot_of(mark);
        self.make_room(mark);
        if self.slots.len() <= slot
            && self
                .slots
                .resize_with(slot.saturating_add(1), || None)
                .is_err()
        {
            return;
        }
        if let Some(kept) = self.slots.get_mut(slot) {
            *kept = Seat::take(&self.shared).map(|_seat| Kept { mark, file, _seat });
        }
    }

    /// Closes all, and has the other values close theirs before they read again.
    pub(crate) fn removed(&mut self) {
        self.close();
        self.shared.removals.fetch_add(1, Ordering::SeqCst);
    }

    /// Closes all.
    fn close(&mut self) {
        self.slots.clear();
    }

    /// Whether a call was refused for want of a descriptor: then all files are closed, and it is
    /// worth another try.
    pub(crate) fn give_way(&mut self, error: &io::Error) -> bool {
        let wanted = match error.raw_os_error() {
            Some(code) => NO_DESCRIPTOR.contains(&code),
            None => false,
        };
        if wanted {
            self.close();
        }
        wanted
    }
}

/// How many descriptors the process may have, as the system's list of its limits tells:
/// `Max open files            1024                 4096                 files`.
fn descriptors_in(limits: &str) -> usize {
    let line = limits
        .lines()
        .find(|line| line.starts_with("Max open files"));
    match line.and_then(|line| line.split_ascii_whitespace().nth(3)) {
        None => UNTOLD,
        Some("unlimited") => usize::MAX,
        Some(word) => word.parse::<usize>().unwrap_or(UNTOLD),
    }
}
