//! What the program prints of version edits.

ghost use Rattle.std.specs.Prelude.{◌≡◌, ◌++◌, OnOk};
ghost use Rattle.std.specs.List.{flat_map};
ghost use Rattle.lsm_text.specs.ManifestPrinting.{key_word, number_line, name_line};
ghost use Rattle.lsm_text.specs.ManifestPrinting.{comparator_line, field_line, pointer_line};
ghost use Rattle.lsm_text.specs.ManifestPrinting.{deleted_line, file_words, added_line};
ghost use Rattle.lsm_text.specs.ManifestPrinting.{number_lines, list_lines, edit_lines};

use crate::form::Form;
use crate::spelling::{push_bytes, push_decimal};
use lsm_codec::Bytes;
use lsm_manifest::{AddedFile, CompactPointer, DeletedFile, Edit, FileMeta};
use std::alloc::AllocError;

/// Appends an internal key, in hex.
#[tactic(auto, unfolding(crate::specs::ManifestPrinting::key_word))]
pub fn push_key(out: &mut Vec<u8>, key: &[u8]) -> Result<(), AllocError>
    ensures { OnOk result (out.new.items ≡ out.old.items ++ key_word key.now) }
{
    Form::Hex.push_key(out, key)
}

/// Appends a line of a word, which ends in a space, and a number.
#[tactic(auto, unfolding(crate::specs::ManifestPrinting::number_line))]
pub fn push_number(out: &mut Vec<u8>, word: &[u8], n: u64) -> Result<(), AllocError>
    ensures { OnOk result (out.new.items ≡ out.old.items ++ number_line word.now n) }
{
    out.extend_from_slice(word)?;
    push_decimal(out, n)?;
    out.extend_from_slice(b"\n")
}

#[tactic(auto, unfolding(crate::specs::ManifestPrinting::field_line))]
fn push_field(out: &mut Vec<u8>, word: &[u8], value: Option<u64>) -> Result<(), AllocError>
    ensures { OnOk result (out.new.items ≡ out.old.items ++ field_line word.now value) }
{
    match value {
        Some(n) => push_number(out, word, n),
        None => Ok(()),
    }
}

#[tactic(auto, unfolding(crate::specs::ManifestPrinting::name_line))]
fn push_name(out: &mut Vec<u8>, name: &[u8]) -> Result<(), AllocError>
    ensures { OnOk result (out.new.items ≡ out.old.items ++ name_line name.now) }
{
    out.extend_from_slice(b"comparator ")?;
    push_bytes(out, name)?;
    out.push(b'\n')?;
    Ok(())
}

#[tactic(auto, unfolding(crate::specs::ManifestPrinting::comparator_line))]
fn push_comparator(out: &mut Vec<u8>, name: &Option<Bytes>) -> Result<(), AllocError>
    ensures { OnOk result (out.new.items ≡ out.old.items ++ comparator_line name.now) }
{
    match name {
        Some(name) => push_name(out, name.as_slice()),
        None => Ok(()),
    }
}

#[tactic(auto, unfolding(crate::specs::ManifestPrinting::pointer_line))]
fn push_pointer(out: &mut Vec<u8>, pointer: &CompactPointer) -> Result<(), AllocError>
    ensures { OnOk result (out.new.items ≡ out.old.items ++ pointer_line pointer.now) }
{
    out.extend_from_slice(b"pointer ")?;
    push_decimal(out, pointer.level as u64)?;
    out.push(b' ')?;
    push_key(out, pointer.key.as_slice())?;
    out.extend_from_slice(b"\n")
}

#[tactic(auto, unfolding(crate::specs::ManifestPrinting::deleted_line))]
fn push_deleted(out: &mut Vec<u8>, deleted: &DeletedFile) -> Result<(), AllocError>
    ensures { OnOk result (out.new.items ≡ out.old.items ++ deleted_line deleted.now) }
{
    out.extend_from_slice(b"delete ")?;
    push_decimal(out, deleted.level as u64)?;
    out.push(b' ')?;
    push_decimal(out, deleted.number)?;
    out.extend_from_slice(b"\n")
}

/// Appends the words of a file: its number, its size, its smallest and its largest key.
#[tactic(auto, unfolding(crate::specs::ManifestPrinting::file_words))]
pub fn push_file_words(out: &mut Vec<u8>, file: &FileMeta) -> Result<(), AllocError>
    ensures { OnOk result (out.new.items ≡ out.old.items ++ file_words file.now) }
{
    push_decimal(out, file.number)?;
    out.push(b' ')?;
    push_decimal(out, file.size)?;
    out.push(b' ')?;
    push_key(out, file.smallest.as_slice())?;
    out.push(b' ')?;
    push_key(out, file.largest.as_slice())
}

#[tactic(auto, unfolding(crate::specs::ManifestPrinting::added_line))]
fn push_added(out: &mut Vec<u8>, added: &AddedFile) -> Result<(), AllocError>
    ensures { OnOk result (out.new.items ≡ out.old.items ++ added_line added.now) }
{
    out.extend_from_slice(b"add ")?;
    push_decimal(out, added.level as u64)?;
    out.push(b' ')?;
    push_file_words(out, &added.file)?;
    out.extend_from_slice(b"\n")
}

fn push_pointers(out: &mut Vec<u8>, pointers: &[CompactPointer]) -> Result<(), AllocError>
    ensures { OnOk result (out.new.items ≡ out.old.items ++ flat_map pointer_line pointers.now) }
{
    for pointer in pointers {
        push_pointer(out, pointer)?;
    }
    Ok(())
}

fn push_all_deleted(out: &mut Vec<u8>, deleted: &[DeletedFile]) -> Result<(), AllocError>
    ensures { OnOk result (out.new.items ≡ out.old.items ++ flat_map deleted_line deleted.now) }
{
    for file in deleted {
        push_deleted(out, file)?;
    }
    Ok(())
}

fn push_all_added(out: &mut Vec<u8>, added: &[AddedFile]) -> Result<(), AllocError>
    ensures { OnOk result (out.new.items ≡ out.old.items ++ flat_map added_line added.now) }
{
    for file in added {
        push_added(out, file)?;
    }
    Ok(())
}

#[tactic(auto, unfolding(crate::specs::ManifestPrinting::number_lines))]
fn push_numbers(out: &mut Vec<u8>, edit: &Edit) -> Result<(), AllocError>
    ensures { OnOk result (out.new.items ≡ out.old.items ++ number_lines edit.now) }
{
    push_field(out, b"log ", edit.log)?;
    push_field(out, b"prev ", edit.prev_log)?;
    push_field(out, b"next ", edit.next)?;
    push_field(out, b"last ", edit.last)
}

#[tactic(auto, unfolding(crate::specs::ManifestPrinting::list_lines))]
fn push_lists(out: &mut Vec<u8>, edit: &Edit) -> Result<(), AllocError>
    ensures { OnOk result (out.new.items ≡ out.old.items ++ list_lines edit.now) }
{
    push_pointers(out, edit.pointers.as_slice())?;
    push_all_deleted(out, edit.deleted.as_slice())?;
    push_all_added(out, edit.added.as_slice())
}

/// Appends the lines of the edit of this number.
#[tactic(auto, unfolding(crate::specs::ManifestPrinting::edit_lines))]
pub fn push_edit(out: &mut Vec<u8>, number: u64, edit: &Edit) -> Result<(), AllocError>
    ensures { OnOk result (out.new.items ≡ out.old.items ++ edit_lines number edit.now) }
{
    push_number(out, b"edit ", number)?;
    push_comparator(out, &edit.comparator)?;
    push_numbers(out, edit)?;
    push_lists(out, edit)
}
