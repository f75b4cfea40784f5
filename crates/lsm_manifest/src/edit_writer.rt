//! Writing an edit: its fields in the order of the format's table.

ghost use Rattle.std.specs.Prelude.{◌≡◌, ◌++◌, ◌^◌, ◌<◌, ℕ, List, [], ◌∷◌, length, take, map};
ghost use Rattle.std.specs.Prelude.{vec_len, OnOk, OnErr, IfSome};
ghost use Rattle.std.specs.List.{All};
ghost use Rattle.lsm_manifest.specs.Edit.{Comparator, Log, Prev, Next, Last};
ghost use Rattle.lsm_manifest.specs.EditFit.{FitsPointer, FitsDeleted, FitsAdded, IsFit};
ghost use Rattle.lsm_manifest.specs.EditWriting.{FitsField, optional, pointer_field, deleted_field};
ghost use Rattle.lsm_manifest.specs.EditWriting.{added_field, fields_in, AddsFields};
ghost use Rattle.lsm_manifest.specs.LentView.{lent_field};

use crate::edit::Edit;
use crate::field_writer::LentField;
use crate::parts::{AddedFile, CompactPointer, DeletedFile};
use lsm_codec::Bytes;
use std::alloc::AllocError;

/// Appends the bytes of an edit. After an `Err` some of them may stand there.
pub(crate) fn push_edit(out: &mut Vec<u8>, edit: &Edit) -> Result<(), AllocError>
    requires { IsFit edit.now }
    ensures ok { OnOk result (AddsFields out.old.items (fields_in edit.now) out.new.items) }
    ensures front { take (vec_len out.old) out.new.items ≡ out.old.items }
{
    push_optional(out, &comparator(&edit.comparator))?;
    push_optional(out, &log(edit.log))?;
    push_optional(out, &prev_log(edit.prev_log))?;
    push_optional(out, &next(edit.next))?;
    push_optional(out, &last(edit.last))?;
    push_pointers(out, edit.pointers.as_slice())?;
    push_deleted(out, edit.deleted.as_slice())?;
    push_added(out, edit.added.as_slice())
}

fn comparator(name: &Option<Bytes>) -> Option<LentField<'_>>
    ensures field { optional lent_field result ≡ optional Comparator name.now }
    ensures fits { IfSome name.now (λ x. length x < 2 ^ 32)
        → IfSome result (λ f. FitsField (lent_field f)) }
{
    match name {
        Some(name) => Some(LentField::Comparator(name.as_slice())),
        None => None,
    }
}

fn log(number: Option<u64>) -> Option<LentField<'static>>
    ensures field { optional lent_field result ≡ optional Log number }
    ensures fits { IfSome result (λ f. FitsField (lent_field f)) }
{
    match number {
        Some(number) => Some(LentField::Log(number)),
        None => None,
    }
}

fn prev_log(number: Option<u64>) -> Option<LentField<'static>>
    ensures field { optional lent_field result ≡ optional Prev number }
    ensures fits { IfSome result (λ f. FitsField (lent_field f)) }
{
    match number {
        Some(number) => Some(LentField::PrevLog(number)),
        None => None,
    }
}

fn next(number: Option<u64>) -> Option<LentField<'static>>
    ensures field { optional lent_field result ≡ optional Next number }
    ensures fits { IfSome result (λ f. FitsField (lent_field f)) }
{
    match number {
        Some(number) => Some(LentField::Next(number)),
        None => None,
    }
}

fn last(number: Option<u64>) -> Option<LentField<'static>>
    ensures field { optional lent_field result ≡ optional Last number }
    ensures fits { IfSome result (λ f. FitsField (lent_field f)) }
{
    match number {
        Some(number) => Some(LentField::Last(number)),
        None => None,
    }
}

/// Appends the bytes of a field that the edit may lack.
fn push_optional(out: &mut Vec<u8>, field: &Option<LentField<'_>>) -> Result<(), AllocError>
    requires { IfSome field.now (λ f. FitsField (lent_field f)) }
    ensures ok { OnOk result
        (AddsFields out.old.items (optional lent_field field.now) out.new.items) }
    ensures front { take (vec_len out.old) out.new.items ≡ out.old.items }
{
    match field {
        Some(field) => field.push(out),
        None => Ok(()),
    }
}

fn push_pointers(out: &mut Vec<u8>, pointers: &[CompactPointer]) -> Result<(), AllocError>
    requires { All FitsPointer pointers.now }
    ensures ok { OnOk result
        (AddsFields out.old.items (map pointer_field pointers.now) out.new.items) }
    ensures front { take (vec_len out.old) out.new.items ≡ out.old.items }
{
    for pointer in pointers {
        LentField::Pointer(pointer).push(out)?;
    }
    Ok(())
}

fn push_deleted(out: &mut Vec<u8>, deleted: &[DeletedFile]) -> Result<(), AllocError>
    requires { All FitsDeleted deleted.now }
    ensures ok { OnOk result
        (AddsFields out.old.items (map deleted_field deleted.now) out.new.items) }
    ensures front { take (vec_len out.old) out.new.items ≡ out.old.items }
{
    for file in deleted {
        LentField::Deleted(file).push(out)?;
    }
    Ok(())
}

fn push_added(out: &mut Vec<u8>, added: &[AddedFile]) -> Result<(), AllocError>
    requires { All FitsAdded added.now }
    ensures ok { OnOk result (AddsFields out.old.items (map added_field added.now) out.new.items) }
    ensures front { take (vec_len out.old) out.new.items ≡ out.old.items }
{
    for file in added {
        LentField::Added(file).push(out)?;
    }
    Ok(())
}
