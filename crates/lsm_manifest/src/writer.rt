//! Writing a record log (LevelDB's `doc/log_format.md`).

ghost use Rattle.std.specs.Prelude.{◌≡◌, [], ◌∷◌, ◌++◌, ◌+◌, ◌-◌, ◌%◌, ◌<◌, ◌≤◌, ◌↔◌, ℕ, List};
ghost use Rattle.std.specs.Prelude.{length, take, drop, OnOk, OnErr, vec_len};
ghost use Rattle.lsm_manifest.specs.Log.{left, sum_bytes, fragment, AreRecords, IsLog};
ghost use Rattle.lsm_manifest.specs.LogView.{type_byte};
ghost use Rattle.lsm_manifest.specs.LogWriting.{pieces, begun_text, record_text, Written};
ghost use Rattle.lsm_manifest.specs.LogWriting.{SpellsPrefix};

use crate::fragment::{FragmentType, room, sum};
use std::alloc::AllocError;
use std::marker::Model;

#[tactic(auto, unfolding(crate::specs::Log::fragment))]
fn push_fragment(out: &mut Vec<u8>, kind: FragmentType, body: &[u8]) -> Result<(), AllocError>
    requires { length body.now < 65536 }
    ensures ok { OnOk result (out.new.items ≡ out.old.items ++ fragment (type_byte kind) body.now) }
    ensures front { take (vec_len out.old) out.new.items ≡ out.old.items }
{
    let byte = kind.byte();
    out.extend_from_slice(sum(byte, body).as_slice())?;
    out.extend_from_slice((body.len() as u16).to_le_bytes().as_slice())?;
    out.push(byte)?;
    out.extend_from_slice(body)?;
    Ok(())
}

/// Adds what is left of a record, at the start of a block.
fn push_pieces(out: &mut Vec<u8>, rest: &[u8]) -> Result<(), AllocError>
    ensures ok { OnOk result ((count : ℕ) → length rest.now ≤ count
        → out.new.items ≡ out.old.items ++ pieces count rest.now) }
    ensures front { take (vec_len out.old) out.new.items ≡ out.old.items }
{
    let mut later = rest;
    while later.len() > 32_761 {
        let (piece, after) = later.split_at(32_761);
        push_fragment(out, FragmentType::Middle, piece)?;
        later = after;
    }
    push_fragment(out, FragmentType::Last, later)?;
    Ok(())
}

#[tactic(auto, unfolding(crate::specs::LogWriting::begun_text))]
fn push_begun(out: &mut Vec<u8>, place: u64, whole: &[u8]) -> Result<(), AllocError>
    requires { 7 ≤ left place }
    ensures ok { OnOk result (out.new.items ≡ out.old.items ++ begun_text place whole.now) }
    ensures front { take (vec_len out.old) out.new.items ≡ out.old.items }
{
    let left = room(place);
    if whole.len() <= left - 7 {
        push_fragment(out, FragmentType::Full, whole)?;
        return Ok(());
    }
    let (first, rest) = whole.split_at(left - 7);
    push_fragment(out, FragmentType::First, first)?;
    push_pieces(out, rest)
}

#[tactic(auto, unfolding(crate::specs::LogWriting::record_text))]
fn push_record(out: &mut Vec<u8>, place: u64, whole: &[u8]) -> Result<(), AllocError>
    ensures ok { OnOk result (out.new.items ≡ out.old.items ++ record_text place whole.now) }
    ensures front { take (vec_len out.old) out.new.items ≡ out.old.items }
{
    let left = room(place);
    if left < 7 {
        let zeros = [0, 0, 0, 0, 0, 0];
        let (end, _) = zeros.as_slice().split_at(left);
        out.extend_from_slice(end)?;
        return push_begun(out, 0, whole);
    }
    push_begun(out, place, whole)
}

/// Writes records, one after the other. Contracts see it as its offset in a block, in bytes.
#[derive(Debug, Drop)]
pub struct LogWriter {
    place: u64,
}

impl Model for LogWriter {
    ghost Value = { ℕ };

    ghost view = { λ w. w.place };

    ghost invariant = { λ w. w.place < 32768 };
}

impl LogWriter {
    /// A writer that goes on at the end of a log of this length, in bytes.
    pub fn at(offset: u64) -> LogWriter
        ensures { result ≡ offset % 32768 }
    {
        LogWriter {
            place: offset % 32_768,
        }
    }

    /// Appends the bytes of a record.
    pub fn append(&mut self, out: &mut Vec<u8>, whole: &[u8]) -> Result<(), AllocError>
        // An `Err` leaves the contents and the writer as they were.
        ensures err { OnErr result ((out.new.items ≡ out.old.items) × (self.new ≡ self.old)) }

        // These bytes are added.
        ensures bytes { OnOk result (out.new.items
            ≡ out.old.items ++ record_text self.old whole.now) }
        ensures place { OnOk result (self.new
            ≡ (self.old + length (record_text self.old whole.now)) % 32768) }

        // Where the log so far was written and ends at this place, what is written now is the log
        // with the record.
        ensures log { OnOk result ((bytes : List ℕ) (records : List (List ℕ))
            → Written bytes records self.old → Written (bytes ++ record_text self.old whole.now)
            (records ++ (whole.now ∷ [])) self.new) }

        // Cut anywhere, it is a log of a prefix of its records.
        ensures cut { OnOk result ((bytes : List ℕ) (records : List (List ℕ))
            → Written bytes records self.old → (n : ℕ) → SpellsPrefix
            (take n (bytes ++ record_text self.old whole.now)) (records ++ (whole.now ∷ []))) }
    {
        let len = out.len();
        match push_record(out, self.place, whole) {
            Ok(()) => {
                self.place = (self.place + ((out.len() - len) % 32_768) as u64) % 32_768;
                Ok(())
            }
            Err(error) => {
                out.truncate(len);
                Err(error)
            }
        }
    }
}

/// A law: what a writer wrote of one more record, cut before its end, is the log of the records
/// before it, and the rest is just what was written; whole, it is the log of all, and nothing is
/// left.
pub fn torn_record()
    ensures torn { (bytes : List ℕ) (records : List (List ℕ)) (place : ℕ) (whole : List ℕ)
        → Written bytes records place → (m : ℕ) → m < length (record_text place whole)
        → IsLog (bytes ++ take m (record_text place whole)) records m }
    ensures done { (bytes : List ℕ) (records : List (List ℕ)) (place : ℕ)
        → Written bytes records place → IsLog bytes records 0 }
    ensures again { (bytes : List ℕ) (records : List (List ℕ)) → IsLog bytes records 0
        → Written bytes records (length bytes % 32768) }
{}

/// A law: whole records, one after another, are a log that nothing follows, and such a log is
/// nothing else.
pub fn whole_log()
    ensures { (bytes : List ℕ) (records : List (List ℕ)) → AreRecords 0 bytes records
        ↔ IsLog bytes records 0 }
{}

/// A law: the first bytes of a text of whole records, however many, spell a prefix of the records
/// and a rest.
pub fn prefixes()
    ensures { (bytes : List ℕ) (records : List (List ℕ)) → AreRecords 0 bytes records → (n : ℕ)
        → SpellsPrefix (take n bytes) records }
{}
