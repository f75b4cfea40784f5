//! The files of a version, as lines.

ghost use Rattle.std.specs.Prelude.{◌≡◌, ◌++◌, IfOk, OnOk};
ghost use Rattle.lsm_cmd_read.specs.Listing.{file_line, file_lines, list_text, number_word};

use lsm_table::{Naming, Registry, Shelf, TableRef};
use lsm_text::{Form, push_decimal};
use lsm_version::Version;
use std::alloc::{AllocError, Global};

/// Appends a number and a space.
#[tactic(auto, unfolding(crate::specs::Listing::number_word))]
fn push_word(out: &mut Vec<u8>, number: u64) -> Result<(), AllocError>
    ensures { OnOk result (out.new.items ≡ out.old.items ++ number_word number) }
{
    push_decimal(out, number)?;
    out.push(b' ')?;
    Ok(())
}

/// Appends the line of a file.
#[tactic(auto, unfolding(crate::specs::Listing::file_line))]
fn push_file<N: Naming, S: Shelf>(
    out: &mut Vec<u8>,
    form: Form,
    registry: &Registry<N, S>,
    level: usize,
    table: &TableRef<N, S>,
) -> Result<(), AllocError>
    ensures { OnOk result (out.new.items ≡ out.old.items ++ file_line form level table.now) }
{
    let record = registry.record(table);
    push_word(out, level as u64)?;
    push_word(out, record.number())?;
    push_word(out, record.size())?;
    form.push_key(out, record.smallest.as_slice())?;
    out.push(b' ')?;
    form.push_key(out, record.largest.as_slice())?;
    out.push(b'\n')?;
    Ok(())
}

/// Appends the lines of the files of a level.
#[tactic(auto, unfolding(crate::specs::Listing::file_lines), using(crate::proofs::LevelLaws::line_more, crate::proofs::LevelLaws::lines_all))]
fn push_files<N: Naming, S: Shelf>(
    out: &mut Vec<u8>,
    form: Form,
    registry: &Registry<N, S>,
    level: usize,
    tables: &[TableRef<N, S>],
) -> Result<(), AllocError>
    ensures { OnOk result (out.new.items ≡ out.old.items ++ file_lines form level tables.now) }
{
    for table in tables {
        push_file(out, form, registry, level, table)?;
    }
    Ok(())
}

/// The files of a version, level by level, and `end`.
#[tactic(auto, unfolding(crate::specs::Listing::list_text), using(crate::proofs::LevelLaws::level_more, crate::proofs::LevelLaws::levels_none))]
pub(crate) fn list_files<N: Naming, S: Shelf>(
    alloc: Global,
    form: Form,
    registry: &Registry<N, S>,
    version: &Version<N, S>,
) -> Result<Vec<u8>, AllocError>
    ensures { IfOk result (λ text. text.items ≡ list_text form version.now) }
{
    let mut text = Vec::new(alloc);
    for level in 0..7 {
        push_files(&mut text, form, registry, level, version.level(level))?;
    }
    text.extend_from_slice(b"end\n")?;
    Ok(text)
}
