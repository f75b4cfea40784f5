//! How far a compaction is, in lines on standard error.

ghost use Rattle.std.specs.Prelude.{IsFalse};
ghost use Rattle.std.specs.Io.KnownBytes.{Keeps};

use lsm_slots::Boarded;
use lsm_state::State;
use lsm_table::Shelf;
use std::io::{self, Write};

/// How many files a version has, and at how many levels.
#[derive(Clone, Copy)]
struct Census {
    files: u64,
    levels: u64,
}

/// Counts the files of a state's current version.
fn census_of<N: Boarded, S: Shelf>(state: &State<N, S>) -> Census {
    let mut census = Census {
        files: 0,
        levels: 0,
    };
    for level in 0..7usize {
        let files = state.current().1.level(level).len() as u64;
        census.files = census.files.saturating_add(files);
        if files > 0 {
            census.levels = census.levels.saturating_add(1);
        }
    }
    census
}

/// Writes a line: `opened 17 files at 3 levels`.
fn write_opened<E: Write>(err: &mut E, files: u64, levels: u64) -> io::Result<()> {
    writeln!(err, "opened {files} files at {levels} levels")
}

/// Writes a line: `worker 1 begins job 5`.
pub(crate) fn write_job<E: Write>(err: &mut E, worker: usize, ticket: u64) -> io::Result<()> {
    writeln!(err, "worker {worker} begins job {ticket}")
}

/// Writes a line: `installed 4 results`.
fn write_installed<E: Write>(err: &mut E, results: u32) -> io::Result<()> {
    writeln!(err, "installed {results} results")
}

/// Writes a line: `removed 12 files`.
fn write_removed<E: Write>(err: &mut E, files: usize) -> io::Result<()> {
    writeln!(err, "removed {files} files")
}

/// Says what the current version of a state has, where that is asked for. What can't be written is
/// left out.
#[tactic(auto, using(lsm_directory::proofs::CallerLemmas::keeps_same))]
pub(crate) fn tell_opened<N: Boarded, S: Shelf, E: Write>(
    state: &State<N, S>,
    asked: bool,
    err: &mut E,
)
    ensures quiet { IsFalse asked → Keeps (E.contents err.old) (E.contents err.new) }
{
    if asked {
        let census = census_of(state);
        let _ = write_opened(err, census.files, census.levels);
        let _ = err.flush();
    }
}

/// Says how many results workers have installed, where that is asked for. What can't be written is
/// left out.
#[tactic(auto, using(lsm_directory::proofs::CallerLemmas::keeps_same))]
pub(crate) fn tell_installed<E: Write>(results: u32, asked: bool, err: &mut E)
    ensures quiet { IsFalse asked → Keeps (E.contents err.old) (E.contents err.new) }
{
    if asked {
        let _ = write_installed(err, results);
        let _ = err.flush();
    }
}

/// Says how many files were removed, where that is asked for. What can't be written is left out.
#[tactic(auto, using(lsm_directory::proofs::CallerLemmas::keeps_same))]
pub(crate) fn tell_removed<E: Write>(files: usize, asked: bool, err: &mut E)
    ensures quiet { IsFalse asked → Keeps (E.contents err.old) (E.contents err.new) }
{
    if asked {
        let _ = write_removed(err, files);
        let _ = err.flush();
    }
}
