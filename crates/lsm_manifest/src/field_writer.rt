//! Writing the fields of an edit.

ghost use Rattle.std.specs.Prelude.{◌≡◌, ◌++◌, ◌^◌, ◌<◌, ℕ, List, length, take, vec_len, OnOk};
ghost use Rattle.lsm_codec.specs.Varint.{varint32, varint64};
ghost use Rattle.lsm_manifest.specs.Edit.{FieldText, tag_of};
ghost use Rattle.lsm_manifest.specs.EditWriting.{bytes_text, body_text, field_text, FitsField};
ghost use Rattle.lsm_manifest.specs.EditWriting.{FitNumbers};

use crate::file_meta::FileMeta;
use crate::parts::{AddedFile, CompactPointer, DeletedFile};
use lsm_codec::{put_varint32, put_varint64};
use std::alloc::AllocError;

/// A field of an edit that is lent to be written.
#[derive(Clone, Copy)]
pub(crate) enum LentField<'a> {
    Comparator(&'a [u8]),
    Log(u64),
    PrevLog(u64),
    Next(u64),
    Last(u64),
    Pointer(&'a CompactPointer),
    Deleted(&'a DeletedFile),
    Added(&'a AddedFile),
}

ghost use Rattle.lsm_manifest.specs.LentView.{lent_field};

impl LentField<'_> {
    /// Appends the bytes of the field. After an `Err` some of them may stand there.
    #[tactic(auto, unfolding(crate::specs::EditWriting::field_text), using(crate::proofs::EditWriterLaws::field_written))]
    pub(crate) fn push(&self, out: &mut Vec<u8>) -> Result<(), AllocError>
        requires { FitsField (lent_field self.now) }
        ensures ok { OnOk result (out.new.items
            ≡ out.old.items ++ field_text (lent_field self.now)) }
        ensures spelled { OnOk result
            (FieldText (lent_field self.now) (field_text (lent_field self.now))) }
        ensures front { take (vec_len out.old) out.new.items ≡ out.old.items }
    {
        put_varint32(out, self.tag())?;
        self.push_body(out)
    }

    fn tag(&self) -> u32
        ensures { result ≡ tag_of (lent_field self.now) }
    {
        match self {
            LentField::Comparator(_) => 1,
            LentField::Log(_) => 2,
            LentField::PrevLog(_) => 9,
            LentField::Next(_) => 3,
            LentField::Last(_) => 4,
            LentField::Pointer(_) => 5,
            LentField::Deleted(_) => 6,
            LentField::Added(_) => 7,
        }
    }

    #[tactic(auto, unfolding(crate::specs::EditWriting::body_text))]
    fn push_body(&self, out: &mut Vec<u8>) -> Result<(), AllocError>
        requires { FitsField (lent_field self.now) }
        ensures ok { OnOk result (out.new.items
            ≡ out.old.items ++ body_text (lent_field self.now)) }
        ensures numbers { OnOk result (FitNumbers (lent_field self.now)) }
        ensures front { take (vec_len out.old) out.new.items ≡ out.old.items }
    {
        match self {
            LentField::Comparator(name) => put_bytes(out, name),
            LentField::Log(n) => put_varint64(out, *n),
            LentField::PrevLog(n) => put_varint64(out, *n),
            LentField::Next(n) => put_varint64(out, *n),
            LentField::Last(n) => put_varint64(out, *n),
            LentField::Pointer(pointer) => {
                put_varint32(out, pointer.level as u32)?;
                put_bytes(out, pointer.key.as_slice())
            }
            LentField::Deleted(file) => {
                put_varint32(out, file.level as u32)?;
                put_varint64(out, file.number)
            }
            LentField::Added(added) => {
                put_varint32(out, added.level as u32)?;
                put_file(out, &added.file)
            }
        }
    }
}

/// Appends a length, and so many bytes.
#[tactic(auto, unfolding(crate::specs::EditWriting::bytes_text))]
fn put_bytes(out: &mut Vec<u8>, bytes: &[u8]) -> Result<(), AllocError>
    requires { length bytes.now < 2 ^ 32 }
    ensures ok { OnOk result (out.new.items ≡ out.old.items ++ bytes_text bytes.now) }
    ensures front { take (vec_len out.old) out.new.items ≡ out.old.items }
{
    put_varint32(out, bytes.len() as u32)?;
    out.extend_from_slice(bytes)?;
    Ok(())
}

fn put_file(out: &mut Vec<u8>, file: &FileMeta) -> Result<(), AllocError>
    requires smallest { length file.now.smallest < 2 ^ 32 }
    requires largest { length file.now.largest < 2 ^ 32 }
    ensures ok { OnOk result (out.new.items
        ≡ out.old.items ++ (varint64 file.now.number ++ (varint64 file.now.size
        ++ (bytes_text file.now.smallest ++ bytes_text file.now.largest)))) }
    ensures number { OnOk result (file.now.number < 2 ^ 64) }
    ensures size { OnOk result (file.now.size < 2 ^ 64) }
    ensures front { take (vec_len out.old) out.new.items ≡ out.old.items }
{
    put_varint64(out, file.number)?;
    put_varint64(out, file.size)?;
    put_bytes(out, file.smallest.as_slice())?;
    put_bytes(out, file.largest.as_slice())?;
    Ok(())
}
