//! What a check prints of a version.

ghost use Rattle.std.specs.Prelude.{◌≡◌, ◌++◌, IfOk, OnOk};
ghost use Rattle.lsm_cmd_read.specs.Listing.{check_text, count_of, counts_line, labelled};
ghost use Rattle.lsm_cmd_read.specs.Listing.{level_line};

use crate::counting::{count_at, size_of_level};
use crate::opened::Opened;
use lsm_table::{Naming, Registry, Shelf, TableRef};
use lsm_text::{push_decimal, push_number};
use std::alloc::{AllocError, Global};

/// What is counted of a level.
#[derive(Clone, Copy)]
struct Counts {
    files: u64,
    bytes: u64,
    entries: u64,
}

/// Appends a word and a number.
#[tactic(auto, unfolding(crate::specs::Listing::labelled))]
fn push_labelled(out: &mut Vec<u8>, word: &[u8], n: u64) -> Result<(), AllocError>
    ensures { OnOk result (out.new.items ≡ out.old.items ++ labelled word.now n) }
{
    out.extend_from_slice(word)?;
    push_decimal(out, n)
}

/// Appends the line of a level.
fn push_counts(out: &mut Vec<u8>, level: usize, counts: Counts) -> Result<(), AllocError>
    ensures { OnOk result (out.new.items
        ≡ out.old.items ++ counts_line level counts.files counts.bytes counts.entries) }
{
    push_labelled(out, b"level ", level as u64)?;
    push_labelled(out, b" files ", counts.files)?;
    push_labelled(out, b" bytes ", counts.bytes)?;
    push_labelled(out, b" entries ", counts.entries)?;
    out.push(b'\n')?;
    Ok(())
}

/// Appends the line of a level with so many entries.
#[tactic(auto, unfolding(crate::specs::Listing::level_line))]
fn push_level<N: Naming, S: Shelf>(
    out: &mut Vec<u8>,
    registry: &Registry<N, S>,
    level: usize,
    tables: &[TableRef<N, S>],
    entries: u64,
) -> Result<(), AllocError>
    requires entries { entries ≡ count_of tables.now }
    ensures { OnOk result (out.new.items ≡ out.old.items ++ level_line level tables.now) }
{
    let counts = Counts {
        files: tables.len() as u64,
        bytes: size_of_level(registry, tables)?,
        entries,
    };
    push_counts(out, level, counts)
}

/// A line for each level, the last sequence, and how many bytes at the end of the manifest hold no
/// whole record.
#[tactic(auto, unfolding(crate::specs::Listing::check_text), using(crate::proofs::LevelLaws::level_more, crate::proofs::LevelLaws::levels_none))]
pub(crate) fn describe<N: Naming, S: Shelf>(
    alloc: Global,
    registry: &Registry<N, S>,
    opened: &Opened<N, S>,
) -> Result<Vec<u8>, AllocError>
    ensures { IfOk result (λ text.
        text.items ≡ check_text opened.now.version opened.now.manifest.rest) }
{
    let version = &opened.version;
    let counts = opened.counts.as_slice();
    let mut text = Vec::new(alloc);
    for level in 0..7 {
        let entries = count_at(counts, level);
        push_level(&mut text, registry, level, version.level(level), entries)?;
    }
    push_number(&mut text, b"last ", version.last())?;
    push_number(&mut text, b"rest ", opened.manifest.rest)?;
    Ok(text)
}
