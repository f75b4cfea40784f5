//! Which range of files below level 0 is joined, so that small files become larger ones.

ghost use Rattle.std.specs.Prelude.{◌≡◌, ◌+◌, ◌≤◌, ◌↔◌, IsTrue, MatchOption, length};
ghost use Rattle.std.specs.Prelude.{option_copied};
ghost use Rattle.lsm_table.specs.Registry.{Table, bytes_of};
ghost use Rattle.lsm_version.specs.Versions.{level_in};
ghost use Rattle.lsm_picker.specs.Joining.{Falls, Goes, GoesFirst, HasNoRun, IsInnermost};
ghost use Rattle.lsm_picker.specs.Joining.{IsJoined, IsOverInnermost, IsRun, IsSettled, LeavesOne};
ghost use Rattle.lsm_picker.specs.Joining.{NoRunBefore, NoRunBehind};

use crate::outermost::{foremost, is_stair};
use crate::span::Span;
use lsm_table::{Naming, Registry, Shelf, TableReceipt, TableRef};
use lsm_version::{Version, high_of, low_of};

// How many neighbours a run has.
const RUN: usize = 12;

/// The bytes of tables.
fn bytes_of<N: Naming, S: Shelf>(registry: &Registry<N, S>, tables: &[TableRef<N, S>]) -> u128
    ensures { result ≡ bytes_of tables.now }
{
    let mut bytes = 0;
    for table in tables {
        bytes += u128::from(registry.record(table).receipt.size());
    }
    bytes
}

/// Whether a run begins at an index.
fn is_run<N: Naming, S: Shelf>(
    registry: &Registry<N, S>,
    tables: &[TableRef<N, S>],
    at: usize,
    target_size: u64,
) -> bool
    requires { at + 12 ≤ length tables.now }
    ensures { IsTrue result ↔ IsRun target_size tables.now at }
{
    bytes_of(registry, &tables[at..at + RUN]) <= 3 * u128::from(target_size)
}

/// The index at which the first run of a level begins; none where there is no run.
fn first_run<N: Naming, S: Shelf>(
    registry: &Registry<N, S>,
    tables: &[TableRef<N, S>],
    target_size: u64,
) -> Option<usize>
    ensures { MatchOption result (HasNoRun target_size tables.now) (λ at.
        IsRun target_size tables.now at × NoRunBefore target_size tables.now at) }
{
    for end in RUN..=tables.len() {
        let at = end - RUN;
        if is_run(registry, tables, at, target_size) {
            return Some(at);
        }
    }
    None
}

/// The index at which the last run of a level begins; none where there is no run.
fn last_run<N: Naming, S: Shelf>(
    registry: &Registry<N, S>,
    tables: &[TableRef<N, S>],
    target_size: u64,
) -> Option<usize>
    ensures { MatchOption result (HasNoRun target_size tables.now) (λ at.
        IsRun target_size tables.now at × NoRunBehind target_size tables.now at) }
{
    for rest in RUN..=tables.len() {
        let at = tables.len() - rest;
        if is_run(registry, tables, at, target_size) {
            return Some(at);
        }
    }
    None
}

/// Whether a level's first file is newer than its last one.
fn falls<N: Naming, S: Shelf>(registry: &Registry<N, S>, tables: &[TableRef<N, S>]) -> bool
    ensures { IsTrue result ↔ Falls tables.now }
{
    match (tables.first(), tables.last()) {
        (Some(first), Some(last)) => {
            registry.record(first).number() > registry.record(last).number()
        }
        _ => false,
    }
}

/// The index at which the innermost run of a level begins, the last one where the level falls, else
/// the first one; none where there is no run.
fn innermost_run<N: Naming, S: Shelf>(
    registry: &Registry<N, S>,
    tables: &[TableRef<N, S>],
    target_size: u64,
) -> Option<usize>
    ensures { MatchOption result (HasNoRun target_size tables.now) (λ at.
        IsInnermost target_size tables.now at) }
{
    if falls(registry, tables) {
        last_run(registry, tables, target_size)
    } else {
        first_run(registry, tables, target_size)
    }
}

/// Whether a level rises; else it falls.
#[tactic(auto, using(crate::proofs::JoiningLaws::goes_so))]
fn rises<N: Naming, S: Shelf>(registry: &Registry<N, S>, tables: &[TableRef<N, S>]) -> bool
    ensures { Goes tables.now result }
{
    !falls(registry, tables)
}

/// Whether a file of a level lies further in than the run that begins at an index.
fn leaves_one<N: Naming, S: Shelf>(tables: &[TableRef<N, S>], rising: bool, at: usize) -> bool
    requires { at + 12 ≤ length tables.now }
    ensures { IsTrue result ↔ LeavesOne tables.now rising at }
{
    if rising {
        at > 0
    } else {
        at + RUN < tables.len()
    }
}

/// The innermost file of a level that lies beyond all deeper ones, where the run that begins at an
/// index leaves it; none where the level is no such one, or the run leaves none.
#[tactic(auto, using(crate::proofs::JoiningLaws::first_left, crate::proofs::JoiningLaws::none_left))]
fn file_before<'a, N: Naming, S: Shelf>(
    registry: &Registry<N, S>,
    version: &'a Version<N, S>,
    level: usize,
    at: usize,
) -> Option<&'a TableRef<N, S>>
    requires level { level ≤ 5 }
    requires inside { at + 12 ≤ length (level_in version.now.tables level) }
    ensures { MatchOption (option_copied result)
        ((t : Table) → GoesFirst version.now level at t → ⊥) (λ t.
        GoesFirst version.now level at t) }
{
    let tables = version.level(level);
    let rising = rises(registry, tables);
    if !leaves_one(tables, rising, at) {
        return None;
    }
    if !is_stair(registry, version, rising, level) {
        return None;
    }
    foremost(!rising, tables)
}

/// The range of the innermost run of a level, or of the file that goes before it.
fn over_innermost<'a, N: Naming, S: Shelf>(
    registry: &'a Registry<N, S>,
    version: &Version<N, S>,
    level: usize,
    target_size: u64,
) -> Option<(&'a [u8], &'a [u8])>
    requires { level ≤ 5 }
    ensures { MatchOption result (HasNoRun target_size (level_in version.now.tables level)) (λ r.
        IsOverInnermost version.now target_size level r.0.now r.1.now) }
{
    let tables = version.level(level);
    let at = innermost_run(registry, tables, target_size)?;
    if let Some(table) = file_before(registry, version, level, at) {
        return Some((low_of(registry, table), high_of(registry, table)));
    }
    let from = low_of(registry, &tables[at]);
    let to = high_of(registry, &tables[at + (RUN - 1)]);
    Some((from, to))
}

/// The files that are joined next, so that small files become larger ones; none where no file wants
/// to be joined: the range of the innermost run, twelve neighbours with at most three target sizes
/// of bytes together, of the first level from 1 to 5 that has one. Innermost is the last run of a
/// level that falls, whose first file is newer than its last one, and the first run of any other.
/// Where that run leaves a file further in, and the level lies beyond all deeper ones, it is the
/// range of the innermost file, which goes down first: nothing that is deeper meets it.
///
/// Where keys only fall, the newest files of a level are its first ones, where they only rise its
/// last ones: what is joined lies next to the deeper files, so that levels stay the stairs that
/// `outermost_span` asks for.
///
/// Live jobs are not looked at: a plan that conflicts with one has to wait.
pub fn span_to_join<'a, N: Naming, S: Shelf>(
    registry: &'a Registry<N, S>,
    version: &Version<N, S>,
    target_size: u64,
) -> Option<Span<'a>>
    // Whatever the shelf is.
    ensures { MatchOption result (IsSettled version.now target_size) (λ s.
        IsJoined version.now target_size s) }
{
    for level in 1..6u8 {
        let there = usize::from(level);
        if let Some((from, to)) = over_innermost(registry, version, there, target_size) {
            return Some(Span { level, from, to });
        }
    }
    None
}
