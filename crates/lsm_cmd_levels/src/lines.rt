//! The levels of a shape, and what is due, as lines.

ghost use Rattle.std.specs.Prelude.{◌≡◌, ◌++◌, ◌<◌, IfOk, OnOk, codes, decimal};
ghost use Rattle.std.specs.List.{flat_map};
ghost use Rattle.lsm_cmd_levels.specs.Lines.{due_line, due_words, end_lines, file_line, files_text};
ghost use Rattle.lsm_cmd_levels.specs.Lines.{folder_line, input_words, spread_words, tables_line};
ghost use Rattle.lsm_cmd_levels.specs.Lines.{labelled, last_words, level_line, level_lines};
ghost use Rattle.lsm_cmd_levels.specs.Lines.{level_words, levels_text, number_word, score_words};
ghost use Rattle.lsm_cmd_levels.specs.Lines.{taken_word, taken_words, two_decimals};

use crate::due::{Due, is_taken};
use crate::folder_sums::FolderSums;
use crate::sums::{all_bytes, all_files, bytes_of, files_at, product_of, weight};
use crate::totals::Totals;
use lsm_manifest::{FileMeta, Shape};
use lsm_picker::limit;
use lsm_text::Form;
use std::alloc::{AllocError, Global};

/// Appends a number in decimal digits.
#[tactic(auto, using(std::proofs::lemmas::Fmt::decimal_digit))]
pub(crate) fn push_decimal(out: &mut Vec<u8>, n: u128) -> Result<(), AllocError>
    ensures { OnOk result (out.new.items ≡ out.old.items ++ decimal n) }
{
    if n < 10 {
        out.push(b'0' + n as u8)?;
        return Ok(());
    }
    push_decimal(out, n / 10)?;
    out.push(b'0' + (n % 10) as u8)?;
    Ok(())
}

/// Appends a word and a number.
#[tactic(auto, unfolding(crate::specs::Lines::labelled))]
pub(crate) fn push_labelled(out: &mut Vec<u8>, word: &[u8], n: u128) -> Result<(), AllocError>
    ensures { OnOk result (out.new.items ≡ out.old.items ++ labelled word.now n) }
{
    out.extend_from_slice(word)?;
    push_decimal(out, n)
}

/// Appends a number and a space.
#[tactic(auto, unfolding(crate::specs::Lines::number_word))]
fn push_word(out: &mut Vec<u8>, n: u128) -> Result<(), AllocError>
    ensures { OnOk result (out.new.items ≡ out.old.items ++ number_word n) }
{
    push_decimal(out, n)?;
    out.push(b' ')?;
    Ok(())
}

/// Appends hundredths, with two decimals.
#[tactic(auto, unfolding(crate::specs::Lines::two_decimals))]
fn push_hundredths(out: &mut Vec<u8>, n: u128) -> Result<(), AllocError>
    ensures { OnOk result (out.new.items ≡ out.old.items ++ two_decimals n) }
{
    push_decimal(out, n / 100)?;
    out.push(b'.')?;
    push_decimal(out, n % 100 / 10)?;
    push_decimal(out, n % 10)
}

/// Appends the score of a level, if it has one.
fn push_score(out: &mut Vec<u8>, level: usize, files: &[FileMeta]) -> Result<(), AllocError>
    ensures { OnOk result (out.new.items ≡ out.old.items ++ score_words level files.now) }
{
    if level > 5 {
        return Ok(());
    }
    let parts = product_of(weight(level, files)?, 100)?;
    out.extend_from_slice(b" score ")?;
    push_hundredths(out, parts / limit(5))
}

/// Appends what a level counts.
#[tactic(auto, unfolding(crate::specs::Lines::level_words))]
pub(crate) fn push_level_words(
    out: &mut Vec<u8>,
    level: usize,
    files: &[FileMeta],
) -> Result<(), AllocError>
    ensures { OnOk result (out.new.items ≡ out.old.items ++ level_words level files.now) }
{
    push_labelled(out, b"level ", level as u128)?;
    push_labelled(out, b" files ", files.len() as u128)?;
    push_labelled(out, b" bytes ", bytes_of(files)?)?;
    push_score(out, level, files)
}

/// Appends the line of a level.
#[tactic(auto, unfolding(crate::specs::Lines::level_line))]
fn push_level(out: &mut Vec<u8>, level: usize, files: &[FileMeta]) -> Result<(), AllocError>
    ensures { OnOk result (out.new.items ≡ out.old.items ++ level_line level files.now) }
{
    push_level_words(out, level, files)?;
    out.push(b'\n')?;
    Ok(())
}

/// Appends the line of a file.
#[tactic(auto, unfolding(crate::specs::Lines::file_line))]
fn push_file(out: &mut Vec<u8>, form: Form, level: usize, file: &FileMeta) -> Result<(), AllocError>
    ensures { OnOk result (out.new.items ≡ out.old.items ++ file_line form level file.now) }
{
    push_word(out, level as u128)?;
    push_word(out, u128::from(file.number))?;
    push_word(out, u128::from(file.size))?;
    form.push_key(out, file.smallest.as_slice())?;
    out.push(b' ')?;
    form.push_key(out, file.largest.as_slice())?;
    out.push(b'\n')?;
    Ok(())
}

/// Appends the lines of files of a level.
#[tactic(auto, using(crate::proofs::LoopLaws::line_more, crate::proofs::LoopLaws::lines_all))]
fn push_files(
    out: &mut Vec<u8>,
    form: Form,
    level: usize,
    files: &[FileMeta],
) -> Result<(), AllocError>
    ensures { OnOk result
        (out.new.items ≡ out.old.items ++ flat_map (file_line form level) files.now) }
{
    for file in files {
        push_file(out, form, level, file)?;
    }
    Ok(())
}

/// Appends the line of a level, and those of its files.
#[tactic(auto, unfolding(crate::specs::Lines::level_lines))]
fn push_level_files(
    out: &mut Vec<u8>,
    form: Form,
    level: usize,
    files: &[FileMeta],
) -> Result<(), AllocError>
    ensures { OnOk result (out.new.items ≡ out.old.items ++ level_lines form level files.now) }
{
    push_level(out, level, files)?;
    push_files(out, form, level, files)
}

/// Appends the least and the mean size of the tables of a shape, where it has one.
#[tactic(auto, unfolding(crate::specs::Lines::spread_words))]
fn push_spread(out: &mut Vec<u8>, shape: &Shape, least: Option<u64>) -> Result<(), AllocError>
    ensures { OnOk result (out.new.items ≡ out.old.items ++ spread_words shape.now least) }
{
    let Some(least) = least else {
        return Ok(());
    };
    let mean = all_bytes(&shape.levels)? / all_files(&shape.levels)?.max(1);
    push_labelled(out, b" least ", u128::from(least))?;
    push_labelled(out, b" mean ", mean)
}

/// Appends the line of the tables.
#[tactic(auto, unfolding(crate::specs::Lines::tables_line))]
fn push_tables(out: &mut Vec<u8>, shape: &Shape, least: Option<u64>) -> Result<(), AllocError>
    ensures { OnOk result (out.new.items ≡ out.old.items ++ tables_line shape.now least) }
{
    push_labelled(out, b"tables ", all_files(&shape.levels)?)?;
    push_labelled(out, b" bytes ", all_bytes(&shape.levels)?)?;
    push_spread(out, shape, least)?;
    out.push(b'\n')?;
    Ok(())
}

/// Appends the line of the folder.
#[tactic(auto, unfolding(crate::specs::Lines::folder_line))]
fn push_folder(out: &mut Vec<u8>, sums: FolderSums) -> Result<(), AllocError>
    ensures { OnOk result (out.new.items ≡ out.old.items ++ folder_line sums) }
{
    push_labelled(out, b"folder tables ", sums.tables)?;
    push_labelled(out, b" manifests ", sums.manifests)?;
    push_labelled(out, b" others ", sums.others)?;
    push_labelled(out, b" bytes ", sums.bytes)?;
    out.push(b'\n')?;
    Ok(())
}

/// Appends a space and the number of a file, if it is taken.
#[tactic(auto, unfolding(crate::specs::Lines::taken_word))]
fn push_taken_one(
    out: &mut Vec<u8>,
    due: Option<Due<'_>>,
    level: usize,
    file: &FileMeta,
) -> Result<(), AllocError>
    ensures { OnOk result (out.new.items ≡ out.old.items ++ taken_word due.entry level file.now) }
{
    if is_taken(due, level, file) {
        push_labelled(out, b" ", u128::from(file.number))?;
    }
    Ok(())
}

/// Appends the numbers of those files of a level that are taken.
#[tactic(auto, using(crate::proofs::LoopLaws::line_more, crate::proofs::LoopLaws::lines_all))]
fn push_taken_of(
    out: &mut Vec<u8>,
    due: Option<Due<'_>>,
    level: usize,
    files: &[FileMeta],
) -> Result<(), AllocError>
    ensures { OnOk result
        (out.new.items ≡ out.old.items ++ flat_map (taken_word due.entry level) files.now) }
{
    for file in files {
        push_taken_one(out, due, level, file)?;
    }
    Ok(())
}

/// Appends the numbers of all files that are taken.
#[tactic(auto, unfolding(crate::specs::Lines::taken_words), using(crate::proofs::LoopLaws::text_more, crate::proofs::LoopLaws::text_none))]
fn push_taken(out: &mut Vec<u8>, shape: &Shape, due: Option<Due<'_>>) -> Result<(), AllocError>
    ensures { OnOk result (out.new.items ≡ out.old.items ++ taken_words shape.now due.entry) }
{
    for level in 0..7 {
        push_taken_of(out, due, level, files_at(shape, level))?;
    }
    Ok(())
}

/// Appends whether a compaction is due, and of which level.
#[tactic(auto, unfolding(crate::specs::Lines::due_words))]
pub(crate) fn push_due_words(out: &mut Vec<u8>, due: Option<Due<'_>>) -> Result<(), AllocError>
    ensures { OnOk result (out.new.items ≡ out.old.items ++ due_words due.entry) }
{
    match due {
        Some(due) => push_labelled(out, b"due level ", u128::from(due.level)),
        None => Ok(out.extend_from_slice(b"due none")?),
    }
}

/// Appends what is taken, if a level is due.
#[tactic(auto, unfolding(crate::specs::Lines::input_words))]
fn push_inputs(out: &mut Vec<u8>, shape: &Shape, due: Option<Due<'_>>) -> Result<(), AllocError>
    ensures { OnOk result (out.new.items ≡ out.old.items ++ input_words shape.now due.entry) }
{
    match due {
        None => Ok(()),
        Some(due) => {
            out.extend_from_slice(b" inputs")?;
            push_taken(out, shape, Some(due))
        }
    }
}

/// Appends the line of what is due.
#[tactic(auto, unfolding(crate::specs::Lines::due_line))]
fn push_due(out: &mut Vec<u8>, shape: &Shape, due: Option<Due<'_>>) -> Result<(), AllocError>
    ensures { OnOk result (out.new.items ≡ out.old.items ++ due_line shape.now due.entry) }
{
    push_due_words(out, due)?;
    push_inputs(out, shape, due)?;
    out.push(b'\n')?;
    Ok(())
}

/// Appends the last sequence, and how many bytes at the manifest's end hold no whole record.
#[tactic(auto, unfolding(crate::specs::Lines::last_words))]
pub(crate) fn push_last_words(out: &mut Vec<u8>, shape: &Shape, rest: u64) -> Result<(), AllocError>
    ensures { OnOk result (out.new.items ≡ out.old.items ++ last_words shape.now rest) }
{
    push_labelled(out, b"last ", u128::from(shape.last))?;
    push_labelled(out, b" rest ", u128::from(rest))
}

/// Appends the last four lines.
#[tactic(auto, unfolding(crate::specs::Lines::end_lines))]
fn push_end(
    out: &mut Vec<u8>,
    shape: &Shape,
    rest: u64,
    due: Option<Due<'_>>,
    totals: Totals,
) -> Result<(), AllocError>
    ensures { OnOk result
        (out.new.items ≡ out.old.items ++ end_lines shape.now rest due.entry totals) }
{
    push_tables(out, shape, totals.least)?;
    push_folder(out, totals.folder)?;
    push_last_words(out, shape, rest)?;
    out.push(b'\n')?;
    push_due(out, shape, due)
}

/// A line a level, the sums, and what is due.
#[tactic(auto, unfolding(crate::specs::Lines::levels_text), using(crate::proofs::LoopLaws::level_more, crate::proofs::LoopLaws::levels_none))]
pub(crate) fn levels_text(
    alloc: Global,
    shape: &Shape,
    rest: u64,
    due: Option<Due<'_>>,
    totals: Totals,
) -> Result<Vec<u8>, AllocError>
    ensures { IfOk result (λ text. text.items ≡ levels_text shape.now rest due.entry totals) }
{
    let mut text = Vec::new(alloc);
    for level in 0..7 {
        push_level(&mut text, level, files_at(shape, level))?;
    }
    push_end(&mut text, shape, rest, due, totals)?;
    Ok(text)
}

/// A line a level with those of its files, the sums, and what is due.
#[tactic(auto, unfolding(crate::specs::Lines::files_text), using(crate::proofs::LoopLaws::level_more, crate::proofs::LoopLaws::levels_none))]
pub(crate) fn files_text(
    alloc: Global,
    form: Form,
    shape: &Shape,
    rest: u64,
    due: Option<Due<'_>>,
    totals: Totals,
) -> Result<Vec<u8>, AllocError>
    ensures { IfOk result (λ text. text.items ≡ files_text form shape.now rest due.entry totals) }
{
    let mut text = Vec::new(alloc);
    for level in 0..7 {
        push_level_files(&mut text, form, level, files_at(shape, level))?;
    }
    push_end(&mut text, shape, rest, due, totals)?;
    Ok(text)
}
