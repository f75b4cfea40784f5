//! How far long work is, in lines on standard error.

ghost use Rattle.std.specs.Prelude.{IsFalse};
ghost use Rattle.std.specs.Io.KnownBytes.{Keeps};

use lsm_verify::Watch;
use std::io::{self, Write};
use std::sync::{Mutex, Wait};

/// A scan says how far it is each time that it has passed so many keys.
const KEYS: u64 = 100_000;

/// Writes a line: `scanned 200000 keys`.
fn write_keys<E: Write>(err: &mut E, keys: u64) -> io::Result<()> {
    writeln!(err, "scanned {keys} keys")
}

/// Writes a line: `checked 3 of 17 files`.
fn write_files<E: Write>(err: &mut E, done: u64, all: u64) -> io::Result<()> {
    writeln!(err, "checked {done} of {all} files")
}

/// Says how many keys were passed, where that is asked for and it is a round number. What can't be
/// written is left out.
#[tactic(auto, using(lsm_directory::proofs::CallerLemmas::keeps_same))]
pub(crate) fn tell_keys<E: Write>(err: &mut E, asked: bool, keys: u64)
    ensures quiet { IsFalse asked → Keeps (E.contents err.old) (E.contents err.new) }
{
    if asked && keys % KEYS == 0 {
        let _ = write_keys(err, keys);
        let _ = err.flush();
    }
}

/// What was said of files, and where.
#[derive(Drop)]
struct Said<'a, E: Write> {
    err: &'a mut E,
    files: u64,
}

impl<'a, E: Write> Said<'a, E> {
    /// One more file is done, of so many. What can't be written is left out.
    fn tell(&mut self, all: usize) {
        self.files = self.files.saturating_add(1);
        let _ = write_files(&mut *self.err, self.files, all as u64);
        let _ = self.err.flush();
    }
}

/// Says on standard error how many files are judged, a line for each; threads share it. What can't
/// be written is left out.
#[derive(Drop)]
pub(crate) struct FileTeller<'a, R: Wait + Sync, E: Write> {
    rt: &'a R,
    said: Mutex<Said<'a, E>>,
}

impl<'a, R: Wait + Sync, E: Write> FileTeller<'a, R, E> {
    /// One that writes there.
    pub(crate) fn new(rt: &'a R, err: &'a mut E) -> FileTeller<'a, R, E> {
        FileTeller {
            rt,
            said: Mutex::new(Said { err, files: 0 }),
        }
    }
}

impl<'a, R: Wait + Sync, E: Write> Watch for FileTeller<'a, R, E> {
    fn judged(&self, all: usize) {
        self.said.lock(self.rt).tell(all);
    }
}
