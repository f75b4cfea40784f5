//! The picture of a shape.

ghost use Rattle.std.specs.Prelude.{◌≡◌, ◌≤◌, ◌++◌, IfOk, OnOk};
ghost use Rattle.lsm_cmd_levels.specs.Drawing.{attribute, bar, bars_from, class_words, escaped};
ghost use Rattle.lsm_cmd_levels.specs.Drawing.{escaped_byte, foot_words, head_words, height_of};
ghost use Rattle.lsm_cmd_levels.specs.Drawing.{left_of, level_picture, picture_text, place_words};
ghost use Rattle.lsm_cmd_levels.specs.Drawing.{rise, row_of, size_words, text_line, title_words};
ghost use Rattle.lsm_cmd_levels.specs.Drawing.{top_of, width_of};
ghost use Rattle.lsm_cmd_levels.specs.Lines.{level_texts, level_words};
ghost use Rattle.lsm_cmd_levels.specs.Sums.{files_at};
ghost use Rattle.lsm_cmd_levels.specs.declared.drawing.TheConstants.{OPENING, STYLE};
ghost use Rattle.lsm_text.specs.ManifestPrinting.{key_word_in};

use crate::axis::{across, begin_of, end_of};
use crate::due::{Due, is_taken};
use crate::lines::{push_due_words, push_labelled, push_last_words, push_level_words};
use crate::span::user_of;
use crate::sums::{files_at, product_of, sum_of};
use lsm_manifest::{FileMeta, Shape};
use lsm_text::Form;
use std::alloc::{AllocError, Global};

/// How a picture begins.
const OPENING: &[u8] = b"<svg xmlns=\"http://www.w3.org/2000/svg\" width=\"1040\"";

/// Colours, and the ground.
const STYLE: &[u8] = b"<style>
text{font:1300px sans-serif;fill:#222}
.kept{fill:#4a78b5}
.due{fill:#d9601a}
.odd{fill-opacity:.7}
</style>
<rect x=\"-2000\" width=\"104000\" height=\"100%\" fill=\"#fff\"/>
";

/// What is drawn.
#[derive(Clone, Copy, Debug)]
pub(crate) struct Sheet<'a> {
    pub shape: &'a Shape,
    pub due: Option<Due<'a>>,
    pub form: Form,
}

/// Appends a byte as XML spells it.
fn push_escaped_byte(out: &mut Vec<u8>, byte: u8) -> Result<(), AllocError>
    ensures { OnOk result (out.new.items ≡ out.old.items ++ escaped_byte byte) }
{
    match byte {
        b'&' => out.extend_from_slice(b"&amp;")?,
        b'<' => out.extend_from_slice(b"&lt;")?,
        b'>' => out.extend_from_slice(b"&gt;")?,
        _ => out.push(byte)?,
    }
    Ok(())
}

/// Appends a text as XML spells it.
#[tactic(auto, unfolding(crate::specs::Drawing::escaped), using(crate::proofs::LoopLaws::line_more, crate::proofs::LoopLaws::lines_all))]
fn push_escaped(out: &mut Vec<u8>, text: &[u8]) -> Result<(), AllocError>
    ensures { OnOk result (out.new.items ≡ out.old.items ++ escaped text.now) }
{
    for byte in text {
        push_escaped_byte(out, *byte)?;
    }
    Ok(())
}

/// Appends a key as XML spells it.
fn push_key(alloc: Global, out: &mut Vec<u8>, form: Form, key: &[u8]) -> Result<(), AllocError>
    ensures { OnOk result (out.new.items ≡ out.old.items ++ escaped (key_word_in form key.now)) }
{
    let mut word = Vec::new(alloc);
    form.push_key(&mut word, key)?;
    push_escaped(out, word.as_slice())
}

/// How high a level of so many files is, with its words.
fn height_of(level: usize, count: usize) -> Result<u128, AllocError>
    ensures { IfOk result (λ n. n ≡ height_of level count) }
{
    if count == 0 {
        return Ok(0);
    }
    let rows = if level == 0 { count as u128 } else { 1 };
    sum_of(2_400, product_of(rows, 2_000)?)
}

/// How high the levels above one are.
#[tactic(auto, using(crate::proofs::DrawingLaws::top_more, crate::proofs::DrawingLaws::top_none))]
fn top_of(shape: &Shape, end: usize) -> Result<u128, AllocError>
    ensures { IfOk result (λ n. n ≡ top_of shape.now end) }
{
    let mut top = 0;
    for level in 0..end {
        top = sum_of(top, height_of(level, files_at(shape, level).len())?)?;
    }
    Ok(top)
}

/// Where a file's bar begins.
fn left_of(shape: &Shape, file: &FileMeta) -> Result<u128, AllocError>
    ensures { IfOk result (λ n. n ≡ left_of shape.now file.now) }
{
    across(shape, begin_of(shape, user_of(file.smallest.as_slice()))?)
}

/// How wide it is.
fn width_of(shape: &Shape, taken: bool, file: &FileMeta, left: u128) -> Result<u128, AllocError>
    requires left { left ≡ left_of shape.now file.now }
    ensures { IfOk result (λ n. n ≡ width_of shape.now taken file.now) }
{
    let right = across(shape, end_of(shape, user_of(file.largest.as_slice()))?)?;
    let least = if taken { 200 } else { 40 };
    Ok(right.saturating_sub(left).max(least))
}

/// How far it stands out of its row.
fn rise(taken: bool) -> u128
    ensures result { result ≡ rise taken }
    ensures small { result ≤ 300 }
{
    if taken { 300 } else { 0 }
}

/// Where the row of the file of this index is.
fn row_of(shape: &Shape, level: usize, index: usize) -> Result<u128, AllocError>
    ensures { IfOk result (λ n. n ≡ row_of shape.now level index) }
{
    let below = if level == 0 {
        product_of(index as u128, 2_000)?
    } else {
        0
    };
    sum_of(top_of(shape, level)?, sum_of(2_000, below)?)
}

/// Appends a name, with what stands before a number, and that number.
#[tactic(auto, unfolding(crate::specs::Drawing::attribute))]
fn push_attribute(out: &mut Vec<u8>, name: &[u8], n: u128) -> Result<(), AllocError>
    ensures { OnOk result (out.new.items ≡ out.old.items ++ attribute name.now n) }
{
    push_labelled(out, name, n)?;
    out.push(b'"')?;
    Ok(())
}

/// Appends how the bar of a file begins, with its colour.
fn push_class(out: &mut Vec<u8>, taken: bool, index: usize) -> Result<(), AllocError>
    ensures { OnOk result (out.new.items ≡ out.old.items ++ class_words taken index) }
{
    if taken {
        out.extend_from_slice(b"<rect class=\"due")?;
    } else {
        out.extend_from_slice(b"<rect class=\"kept")?;
    }
    if index % 2 == 0 {
        out.extend_from_slice(b"\"")?;
    } else {
        out.extend_from_slice(b" odd\"")?;
    }
    Ok(())
}

/// Appends where the bar of a file is.
#[tactic(auto, unfolding(crate::specs::Drawing::place_words))]
fn push_place(
    out: &mut Vec<u8>,
    shape: &Shape,
    level: usize,
    index: usize,
    taken: bool,
    file: &FileMeta,
) -> Result<(), AllocError>
    ensures { OnOk result
        (out.new.items ≡ out.old.items ++ place_words shape.now level index taken file.now) }
{
    let left = left_of(shape, file)?;
    let row = row_of(shape, level, index)?;
    push_attribute(out, b" x=\"", left)?;
    push_attribute(out, b" y=\"", row.saturating_sub(rise(taken)))?;
    push_attribute(out, b" width=\"", width_of(shape, taken, file, left)?)?;
    push_attribute(out, b" height=\"", 1_600 + 2 * rise(taken))
}

/// Appends what the title of a bar says.
#[tactic(auto, unfolding(crate::specs::Drawing::title_words))]
fn push_title(
    alloc: Global,
    out: &mut Vec<u8>,
    form: Form,
    file: &FileMeta,
) -> Result<(), AllocError>
    ensures { OnOk result (out.new.items ≡ out.old.items ++ title_words form file.now) }
{
    push_labelled(out, b"file ", u128::from(file.number))?;
    push_labelled(out, b" bytes ", u128::from(file.size))?;
    out.push(b' ')?;
    push_key(alloc, out, form, file.smallest.as_slice())?;
    out.extend_from_slice(b" to ")?;
    push_key(alloc, out, form, file.largest.as_slice())
}

/// Appends the bar of a file.
#[tactic(auto, unfolding(crate::specs::Drawing::bar_as))]
fn push_bar(
    alloc: Global,
    out: &mut Vec<u8>,
    sheet: Sheet<'_>,
    level: usize,
    index: usize,
    file: &FileMeta,
) -> Result<(), AllocError>
    ensures { OnOk result (out.new.items ≡ out.old.items
        ++ bar sheet.entry.form sheet.entry.shape.now sheet.entry.due level index file.now) }
{
    let taken = is_taken(sheet.due, level, file);
    push_class(out, taken, index)?;
    push_place(out, sheet.shape, level, index, taken, file)?;
    out.extend_from_slice(b"><title>")?;
    push_title(alloc, out, sheet.form, file)?;
    out.extend_from_slice(b"</title></rect>\n")?;
    Ok(())
}

/// Appends the bars of the files of a level.
#[tactic(auto, using(crate::proofs::DrawingLaws::bars_more, crate::proofs::DrawingLaws::bars_all))]
fn push_bars(
    alloc: Global,
    out: &mut Vec<u8>,
    sheet: Sheet<'_>,
    level: usize,
    files: &[FileMeta],
) -> Result<(), AllocError>
    ensures { OnOk result (out.new.items ≡ out.old.items
        ++ bars_from sheet.entry.form sheet.entry.shape.now sheet.entry.due level 0 files.now) }
{
    for (index, file) in files.iter().enumerate() {
        push_bar(alloc, out, sheet, level, index, file)?;
    }
    Ok(())
}

/// Appends the words of a level, as a line.
#[tactic(auto, unfolding(crate::specs::Drawing::text_line))]
fn push_level_line(
    out: &mut Vec<u8>,
    place: u128,
    level: usize,
    files: &[FileMeta],
) -> Result<(), AllocError>
    ensures { OnOk result
        (out.new.items ≡ out.old.items ++ text_line place (level_words level files.now)) }
{
    push_attribute(out, b"<text y=\"", place)?;
    out.push(b'>')?;
    push_level_words(out, level, files)?;
    out.extend_from_slice(b"</text>\n")?;
    Ok(())
}

/// Appends the picture of a level.
#[tactic(auto, unfolding(crate::specs::Drawing::level_picture))]
fn push_level(
    alloc: Global,
    out: &mut Vec<u8>,
    sheet: Sheet<'_>,
    level: usize,
    files: &[FileMeta],
) -> Result<(), AllocError>
    ensures { OnOk result (out.new.items ≡ out.old.items
        ++ level_picture sheet.entry.form sheet.entry.shape.now sheet.entry.due level files.now) }
{
    if files.is_empty() {
        return Ok(());
    }
    let place = sum_of(top_of(sheet.shape, level)?, 1_300)?;
    push_level_line(out, place, level, files)?;
    push_bars(alloc, out, sheet, level, files)
}

/// Appends how high the picture is, and which part of the plane it shows.
#[tactic(auto, unfolding(crate::specs::Drawing::size_words))]
fn push_size(out: &mut Vec<u8>, height: u128) -> Result<(), AllocError>
    ensures { OnOk result (out.new.items ≡ out.old.items ++ size_words height) }
{
    push_attribute(out, b" height=\"", height / 100)?;
    push_attribute(out, b" viewBox=\"-2000 0 104000 ", height)
}

/// Appends how the picture begins.
#[tactic(auto, unfolding(crate::specs::Drawing::head_words))]
fn push_head(out: &mut Vec<u8>, height: u128) -> Result<(), AllocError>
    ensures { OnOk result (out.new.items ≡ out.old.items ++ head_words height) }
{
    out.extend_from_slice(OPENING)?;
    push_size(out, height)?;
    out.extend_from_slice(b">\n")?;
    out.extend_from_slice(STYLE)?;
    Ok(())
}

/// Appends how it ends.
#[tactic(auto, unfolding(crate::specs::Drawing::foot_words, crate::specs::Drawing::text_line))]
fn push_foot(out: &mut Vec<u8>, sheet: Sheet<'_>, rest: u64) -> Result<(), AllocError>
    ensures { OnOk result
        (out.new.items ≡ out.old.items ++ foot_words sheet.entry.shape.now rest sheet.entry.due) }
{
    let place = sum_of(top_of(sheet.shape, 7)?, 1_600)?;
    push_attribute(out, b"<text y=\"", place)?;
    out.push(b'>')?;
    push_last_words(out, sheet.shape, rest)?;
    out.push(b' ')?;
    push_due_words(out, sheet.due)?;
    out.extend_from_slice(b"</text>\n")?;
    out.extend_from_slice(b"</svg>\n")?;
    Ok(())
}

/// Appends the pictures of all levels.
#[tactic(auto, using(crate::proofs::LoopLaws::text_more, crate::proofs::LoopLaws::text_none))]
fn push_levels(alloc: Global, out: &mut Vec<u8>, sheet: Sheet<'_>) -> Result<(), AllocError>
    ensures { OnOk result (out.new.items ≡ out.old.items ++ level_texts (λ n.
        level_picture sheet.entry.form sheet.entry.shape.now sheet.entry.due n
        (files_at sheet.entry.shape.now n)) 7) }
{
    for level in 0..7 {
        push_level(alloc, out, sheet, level, files_at(sheet.shape, level))?;
    }
    Ok(())
}

/// The picture of a shape.
#[tactic(auto, unfolding(crate::specs::Drawing::picture_text))]
pub(crate) fn picture_text(
    alloc: Global,
    sheet: Sheet<'_>,
    rest: u64,
) -> Result<Vec<u8>, AllocError>
    ensures { IfOk result (λ text. text.items
        ≡ picture_text sheet.entry.form sheet.entry.shape.now rest sheet.entry.due) }
{
    let mut text = Vec::new(alloc);
    push_head(&mut text, sum_of(top_of(sheet.shape, 7)?, 2_400)?)?;
    push_levels(alloc, &mut text, sheet)?;
    push_foot(&mut text, sheet, rest)?;
    Ok(text)
}
