//! What the system answered where it refused a call, and what was read, for people.

use std::alloc::{AllocError, Global};
use std::fmt::{self, Debug, Formatter};
use std::io::{self, Write};
use std::sync::{Arc, Mutex};

/// A refusal of the system.
#[derive(Drop)]
struct Reason {
    call: &'static str,
    path: String,
    error: io::Error,
}

/// What was last refused, and the path of the file that was last read whole.
#[derive(Drop)]
struct Last {
    refused: Option<Reason>,
    read: Option<String>,
}

/// What the system answered where it last refused a call, and which file was last read whole, of
/// all the folders that note it here. No contract says what it holds: it is for people.
#[derive(Drop)]
pub struct Reasons {
    last: Arc<Mutex<Last>>,
}

impl Reasons {
    /// Nothing was refused or read yet.
    pub fn new(alloc: Global) -> Result<Reasons, AllocError> {
        let none = Last {
            refused: None,
            read: None,
        };
        Ok(Reasons {
            last: Arc::new(alloc, Mutex::new(none))?,
        })
    }

    /// Another value for the same.
    pub fn again(&self) -> Result<Reasons, AllocError> {
        Ok(Reasons {
            last: Arc::try_clone(&self.last)?,
        })
    }

    /// Keeps this refusal in place of the last one. It does not wait: where another is noted or
    /// written at the same time, or memory is refused, it is not kept.
    pub(crate) fn note(
        &self,
        call: &'static str,
        path: Result<String, AllocError>,
        error: io::Error,
    ) {
        let Ok(path) = path else {
            return;
        };
        if let Some(mut last) = self.last.try_lock() {
            last.refused = Some(Reason { call, path, error });
        }
    }

    /// Keeps the path of a file that was read whole, as `note` keeps a refusal.
    pub(crate) fn note_read(&self, path: Result<String, AllocError>) {
        let Ok(path) = path else {
            return;
        };
        if let Some(mut last) = self.last.try_lock() {
            last.read = Some(path);
        }
    }

    /// Forgets the last refusal, as a caller does that expected it.
    pub fn forget(&self) {
        if let Some(mut last) = self.last.try_lock() {
            last.refused = None;
        }
    }

    /// Writes the last refusal as a line, `CALL PATH: REASON`; nothing where there was none.
    pub fn write_last<W: Write>(&self, out: &mut W) -> io::Result<()> {
        let Some(last) = self.last.try_lock() else {
            return Ok(());
        };
        match &last.refused {
            None => Ok(()),
            Some(reason) => writeln!(out, "{} {}: {}", reason.call, reason.path, reason.error),
        }
    }

    /// Writes the file that was last read whole as a line, `in PATH`; nothing where there was none.
    pub fn write_read<W: Write>(&self, out: &mut W) -> io::Result<()> {
        let Some(last) = self.last.try_lock() else {
            return Ok(());
        };
        match &last.read {
            None => Ok(()),
            Some(path) => writeln!(out, "in {path}"),
        }
    }
}

impl Debug for Reasons {
    fn fmt<W: fmt::Write>(&self, f: &mut Formatter<W>) -> fmt::Result {
        f.debug_struct("Reasons").finish_non_exhaustive()
    }
}
