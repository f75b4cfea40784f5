//! Requests as the bytes of a frame.

ghost use Rattle.std.specs.Prelude.{◌≡◌, ◌^◌, ◌<◌, ◌≤◌, ◌++◌, ◌∷◌, [], length, Err, IfOk, OnOk};
ghost use Rattle.std.specs.Option.{option_map};
ghost use Rattle.lsm_frames.specs.Texts.{frame, number32, text, optional};
ghost use Rattle.lsm_frames.specs.Requests.{IsRequest, FitsWhen, spelled, when_text};
ghost use Rattle.lsm_frames.specs.Spelling.{Spells, Adds, IsEmpty};
ghost use Rattle.lsm_frames.specs.declared.request_fault.RequestFault.TheVariants.{Empty, TooLong};
ghost use Rattle.lsm_frames.specs.Views.{asked_of, between_of, stretch_of};
ghost use Rattle.lsm_frames.specs.Requests as asked;

use crate::bounds::Bounds;
use crate::frame::{begin, put_absent, put_number, put_text, put_value, seal};
use crate::keys::Keys;
use crate::length::MOST_REQUEST;
use crate::range::Range;
use crate::request::Request;
use crate::request_fault::RequestFault;
use crate::when::When;
use crate::writes::Writes;
use std::alloc::{AllocError, Global};

impl Request<'_> {
    /// The frame of the request. `Empty` for a write without writes and a read without keys,
    /// `TooLong` where its content would pass `MOST_REQUEST` bytes.
    pub fn encode(&self, alloc: Global) -> Result<Vec<u8>, RequestFault>
        ensures ok { IfOk result (λ v. v.items ≡ frame (spelled (asked_of self.now))) }
        ensures is { IfOk result (λ _.
            IsRequest (spelled (asked_of self.now)) (asked_of self.now)) }
        ensures short { IfOk result (λ _. length (spelled (asked_of self.now)) ≤ MOST_REQUEST) }
        ensures empty { result ≡ Err Empty → IsEmpty (asked_of self.now) }
        ensures long { result ≡ Err TooLong
            → MOST_REQUEST < length (spelled (asked_of self.now)) }
    {
        let bytes = self.spell(alloc)?;
        if bytes.len() > MOST_REQUEST + 4 {
            return Err(RequestFault::TooLong);
        }
        Ok(seal(bytes))
    }

    /// Its bytes, behind room for their length.
    #[tactic(auto, unfolding(crate::specs::Requests::spelled))]
    fn spell(&self, alloc: Global) -> Result<Vec<u8>, RequestFault>
        ensures ok { IfOk result (λ v. Spells v.items (asked_of self.now)) }
        ensures empty { result ≡ Err Empty → IsEmpty (asked_of self.now) }
        ensures long { result ≡ Err TooLong
            → MOST_REQUEST < length (spelled (asked_of self.now)) }
    {
        match self {
            Request::Write(writes) => spell_writes(alloc, writes),
            Request::Read(when, keys) => spell_read(alloc, *when, keys),
            Request::Scan(range) => spell_scan(alloc, range),
            Request::Snapshot => Ok(begin(alloc, 4)?),
            Request::Release(number) => spell_release(alloc, *number),
            Request::Compact => Ok(begin(alloc, 6)?),
            Request::CompactRange(bounds) => spell_compact(alloc, bounds),
            Request::Collect => Ok(begin(alloc, 7)?),
            Request::Statistics => Ok(begin(alloc, 8)?),
        }
    }
}

#[tactic(auto, unfolding(crate::specs::Requests::spelled))]
fn spell_writes(alloc: Global, writes: &Writes<'_>) -> Result<Vec<u8>, RequestFault>
    ensures ok { IfOk result (λ v. Spells v.items (asked.Writes writes.now)) }
    ensures empty { result ≡ Err Empty → IsEmpty (asked.Writes writes.now) }
    ensures long { result ≡ Err TooLong
        → MOST_REQUEST < length (spelled (asked.Writes writes.now)) }
{
    let text = writes.text();
    if text.is_empty() {
        return Err(RequestFault::Empty);
    }
    let mut bytes = begin(alloc, 1)?;
    bytes.extend_from_slice(text)?;
    Ok(bytes)
}

#[tactic(auto, unfolding(crate::specs::Requests::spelled))]
fn spell_read(alloc: Global, when: When, keys: &Keys<'_>) -> Result<Vec<u8>, RequestFault>
    ensures ok { IfOk result (λ v. Spells v.items (asked.Reads when keys.now)) }
    ensures empty { result ≡ Err Empty → IsEmpty (asked.Reads when keys.now) }
    ensures long { result ≡ Err TooLong
        → MOST_REQUEST < length (spelled (asked.Reads when keys.now)) }
{
    let text = keys.text();
    if text.is_empty() {
        return Err(RequestFault::Empty);
    }
    let mut bytes = begin(alloc, 2)?;
    put_when(&mut bytes, when)?;
    bytes.extend_from_slice(text)?;
    Ok(bytes)
}

#[tactic(auto, unfolding(crate::specs::Requests::spelled))]
fn spell_scan(alloc: Global, range: &Range<'_>) -> Result<Vec<u8>, RequestFault>
    ensures ok { IfOk result (λ v. Spells v.items (asked.Scans (stretch_of range.now))) }
    ensures empty { result ≡ Err Empty → IsEmpty (asked.Scans (stretch_of range.now)) }
    ensures long { result ≡ Err TooLong
        → MOST_REQUEST < length (spelled (asked.Scans (stretch_of range.now))) }
{
    let mut bytes = begin(alloc, 3)?;
    put_when(&mut bytes, range.when)?;
    put_key(&mut bytes, range.from)?;
    put_bound(&mut bytes, range.to)?;
    bytes.extend_from_slice(&range.limit.to_le_bytes())?;
    Ok(bytes)
}

#[tactic(auto, unfolding(crate::specs::Requests::spelled))]
fn spell_release(alloc: Global, number: u64) -> Result<Vec<u8>, RequestFault>
    ensures ok { IfOk result (λ v. Spells v.items (asked.Releases number)) }
    ensures empty { result ≡ Err Empty → IsEmpty (asked.Releases number) }
    ensures long { result ≡ Err TooLong → MOST_REQUEST < length (spelled (asked.Releases number)) }
{
    let mut bytes = begin(alloc, 5)?;
    put_number(&mut bytes, number)?;
    Ok(bytes)
}

#[tactic(auto, unfolding(crate::specs::Requests::spelled))]
fn spell_compact(alloc: Global, bounds: &Bounds<'_>) -> Result<Vec<u8>, RequestFault>
    ensures ok { IfOk result (λ v. Spells v.items (asked.CompactsRange (between_of bounds.now))) }
    ensures empty { result ≡ Err Empty → IsEmpty (asked.CompactsRange (between_of bounds.now)) }
    ensures long { result ≡ Err TooLong
        → MOST_REQUEST < length (spelled (asked.CompactsRange (between_of bounds.now))) }
{
    let mut bytes = begin(alloc, 6)?;
    put_key(&mut bytes, bounds.from)?;
    put_bound(&mut bytes, bounds.to)?;
    Ok(bytes)
}

fn put_when(out: &mut Vec<u8>, when: When) -> Result<(), AllocError>
    ensures ok { OnOk result (out.new.items ≡ out.old.items ++ when_text when) }
    ensures fits { FitsWhen when }
{
    match when {
        When::Now => put_absent(out),
        When::Snapshot(number) => {
            out.push(1)?;
            put_number(out, number)
        }
    }
}

fn put_key(out: &mut Vec<u8>, key: &[u8]) -> Result<(), RequestFault>
    ensures ok { OnOk result ((out.new.items ≡ out.old.items ++ text key.now)
        × (length key.now < 2 ^ 32)) }
    ensures empty { result ≡ Err Empty → ⊥ }
    ensures long { result ≡ Err TooLong → MOST_REQUEST < length key.now }
{
    if key.len() > MOST_REQUEST {
        return Err(RequestFault::TooLong);
    }
    put_text(out, key)?;
    Ok(())
}

fn put_bound(out: &mut Vec<u8>, to: Option<&[u8]>) -> Result<(), RequestFault>
    ensures ok { OnOk result (Adds out.old.items out.new.items (option_map (λ k. k.now) to.entry)) }
    ensures empty { result ≡ Err Empty → ⊥ }
    ensures long { result ≡ Err TooLong
        → MOST_REQUEST < length (optional (option_map (λ k. k.now) to.entry)) }
{
    let Some(key) = to else {
        put_absent(out)?;
        return Ok(());
    };
    if key.len() > MOST_REQUEST {
        return Err(RequestFault::TooLong);
    }
    put_value(out, key)?;
    Ok(())
}
