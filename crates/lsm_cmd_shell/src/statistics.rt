//! How much a database has.

ghost use Rattle.std.specs.Prelude.{◌≡◌, ◌+◌, ◌++◌, IfSome, OnOk};
ghost use Rattle.lsm_table.specs.Registry.{bytes_of};
ghost use Rattle.lsm_cmd_shell.specs.Statistics.{level_line, lower_lines, number_line, statistics_text};
ghost use Rattle.lsm_cmd_shell.specs.Statistics.{upper_lines};

use lsm_slots::Boarded;
use lsm_state::State;
use lsm_table::{Naming, Registry, Shelf, TableRef};
use lsm_text::push_decimal;
use lsm_version::Version;
use std::alloc::AllocError;

/// There is no memory for the text, or a level has more bytes than a number counts.
#[derive(Clone, Copy, Debug)]
pub(crate) struct Uncounted;

impl From<AllocError> for Uncounted {
    fn from(_error: AllocError) -> Uncounted {
        Uncounted
    }
}

/// How many bytes tables have. No shelf holds more than a number counts.
#[tactic(auto, using(crate::proofs::Sums::sum_more, crate::proofs::Sums::sum_all))]
fn bytes_of<N: Naming, S: Shelf>(
    registry: &Registry<N, S>,
    tables: &[TableRef<N, S>],
) -> Option<u64>
    ensures size { IfSome result (λ n. n ≡ bytes_of tables.now) }
{
    let mut bytes = 0u64;
    for table in tables {
        bytes = bytes.checked_add(registry.record(table).size())?;
    }
    Some(bytes)
}

/// Appends a word, a number and a newline.
#[tactic(auto, unfolding(crate::specs::Statistics::number_line))]
fn push_line(out: &mut Vec<u8>, word: &[u8], n: u64) -> Result<(), AllocError>
    ensures { OnOk result (out.new.items ≡ out.old.items ++ number_line word.now n) }
{
    out.extend_from_slice(word)?;
    push_decimal(out, n)?;
    out.push(b'\n')?;
    Ok(())
}

/// Appends the line of a level.
#[tactic(auto, unfolding(crate::specs::Statistics::level_line))]
fn push_level<N: Naming, S: Shelf>(
    out: &mut Vec<u8>,
    registry: &Registry<N, S>,
    level: u64,
    tables: &[TableRef<N, S>],
) -> Result<(), Uncounted>
    ensures { OnOk result (out.new.items ≡ out.old.items ++ level_line level tables.now) }
{
    let Some(bytes) = bytes_of(registry, tables) else {
        return Err(Uncounted);
    };
    out.extend_from_slice(b"level ")?;
    push_decimal(out, level)?;
    out.extend_from_slice(b" files ")?;
    push_decimal(out, tables.len() as u64)?;
    push_line(out, b" bytes ", bytes)?;
    Ok(())
}

/// Appends the lines of levels 0 to 3.
#[tactic(auto, unfolding(crate::specs::Statistics::upper_lines))]
fn push_upper<N: Naming, S: Shelf>(
    out: &mut Vec<u8>,
    version: &Version<N, S>,
) -> Result<(), Uncounted>
    ensures { OnOk result (out.new.items ≡ out.old.items ++ upper_lines version.now.tables) }
{
    let registry = version.registry();
    push_level(out, registry, 0, version.level(0))?;
    push_level(out, registry, 1, version.level(1))?;
    push_level(out, registry, 2, version.level(2))?;
    push_level(out, registry, 3, version.level(3))
}

/// Appends the lines of levels 4 to 6.
#[tactic(auto, unfolding(crate::specs::Statistics::lower_lines))]
fn push_lower<N: Naming, S: Shelf>(
    out: &mut Vec<u8>,
    version: &Version<N, S>,
) -> Result<(), Uncounted>
    ensures { OnOk result (out.new.items ≡ out.old.items ++ lower_lines version.now.tables) }
{
    let registry = version.registry();
    push_level(out, registry, 4, version.level(4))?;
    push_level(out, registry, 5, version.level(5))?;
    push_level(out, registry, 6, version.level(6))
}

/// Appends how much a state has: the files and bytes of each level, the last sequence, and how many
/// snapshots are live.
#[tactic(auto, unfolding(crate::specs::Statistics::statistics_text))]
pub(crate) fn push_statistics<N: Boarded, S: Shelf>(
    out: &mut Vec<u8>,
    state: &State<N, S>,
) -> Result<(), Uncounted>
    ensures { OnOk result (out.new.items ≡ out.old.items ++ statistics_text state.now) }
{
    let (_id, version) = state.current();
    push_upper(out, version)?;
    push_lower(out, version)?;
    push_line(out, b"last ", version.last())?;
    push_line(out, b"snapshots ", state.live().len() as u64)?;
    out.extend_from_slice(b"end\n")?;
    Ok(())
}
