//! A put that a JSON object spells.

ghost use Rattle.std.specs.Prelude.{◌≡◌, ◌∷◌, [], ℕ, List, IfNone, IfOk, IfSome, false, true};
ghost use Rattle.json.specs.Token.{begin_object, end_object, key, string};
ghost use Rattle.lsm_batch.specs.declared.write.Write.{Write};
ghost use Rattle.lsm_lines.specs.Objects.{BeginsNo, HasNoMember, HasNoText, IsNoObject};
ghost use Rattle.lsm_lines.specs.Objects.{IsPutObject, IsPutText, SpellsBytes, SpellsPut};
ghost use Rattle.lsm_lines.specs.Objects.{object_of};

use base64::DecodeAllocError;
use base64::engine::general_purpose::STANDARD;
use json::{Reader, Scratch, Token};
use lsm_batch::Write;
use lsm_codec::Bytes;
use std::alloc::{AllocError, Global};

/// A member of an object that is a string: its name, and the text.
#[derive(Clone, Copy, Debug)]
pub(crate) struct Member<'a> {
    pub(crate) name: &'a str,
    pub(crate) text: &'a str,
}

/// Takes the string that comes next. None where no string does.
#[tactic(auto, using(crate::proofs::ObjectLaws::text_first, crate::proofs::ObjectLaws::other_than_text, crate::proofs::ObjectLaws::none_first))]
fn take_text<'a>(reader: &mut Reader<'a>) -> Option<&'a str>
    ensures some { IfSome result (λ s. reader.old ≡ string s.now ∷ reader.new) }
    ensures none { IfNone result (HasNoText reader.old) }
{
    let Some(token) = reader.next() else {
        return None;
    };
    match token {
        Token::String(text) => Some(text),
        _ => None,
    }
}

/// Takes the member that comes next. None where no member does, or its value is no string.
#[tactic(auto, using(crate::proofs::ObjectLaws::member_read, crate::proofs::ObjectLaws::no_key, crate::proofs::ObjectLaws::end_first, crate::proofs::ObjectLaws::no_text_behind))]
pub(crate) fn take_member<'a>(reader: &mut Reader<'a>) -> Option<Member<'a>>
    ensures some { IfSome result (λ m.
        reader.old ≡ key m.name.now ∷ string m.text.now ∷ reader.new) }
    ensures none { IfNone result (HasNoMember reader.old) }
{
    let name = match reader.next_key() {
        Ok(Some(name)) => name,
        Ok(None) => return None,
        Err(_) => return None,
    };
    match take_text(reader) {
        Some(text) => Some(Member { name, text }),
        None => None,
    }
}

/// Takes the brace that opens an object. `false` where none does.
#[tactic(auto, using(crate::proofs::ObjectLaws::brace_first, crate::proofs::ObjectLaws::other_than_brace, crate::proofs::ObjectLaws::none_first))]
pub(crate) fn take_brace(reader: &mut Reader<'_>) -> bool
    ensures some { result ≡ true → reader.old ≡ begin_object ∷ reader.new }
    ensures none { result ≡ false → BeginsNo begin_object reader.old }
{
    let Some(token) = reader.next() else {
        return false;
    };
    match token {
        Token::BeginObject => true,
        _ => false,
    }
}

/// Whether nothing is left but the brace that closes an object.
#[tactic(auto, using(crate::proofs::ObjectLaws::end_read, crate::proofs::ObjectLaws::no_end_read, crate::proofs::ObjectLaws::key_no_end, crate::proofs::ObjectLaws::end_not_last))]
fn closes(reader: &mut Reader<'_>) -> bool
    ensures some { result ≡ true → reader.old ≡ end_object ∷ [] }
    ensures none { result ≡ false → reader.old ≡ end_object ∷ [] → ⊥ }
{
    match reader.next_key() {
        Ok(None) => match reader.next() {
            None => true,
            Some(_) => false,
        },
        Ok(Some(_)) => false,
        Err(_) => false,
    }
}

/// The two members of the object that is left, and nothing else. None where something else is.
#[tactic(auto, using(crate::proofs::ObjectLaws::object_read, crate::proofs::ObjectLaws::no_object, crate::proofs::ObjectLaws::no_first, crate::proofs::ObjectLaws::no_second, crate::proofs::ObjectLaws::no_close))]
fn members_in<'a>(reader: &mut Reader<'a>) -> Option<(Member<'a>, Member<'a>)>
    ensures some { IfSome result (λ m.
        reader.old ≡ object_of m.0.name.now m.0.text.now m.1.name.now m.1.text.now) }
    ensures none { IfNone result (IsNoObject reader.old) }
{
    if !take_brace(reader) {
        return None;
    }
    let Some(first) = take_member(reader) else {
        return None;
    };
    let Some(second) = take_member(reader) else {
        return None;
    };
    if !closes(reader) {
        return None;
    }
    Some((first, second))
}

/// The bytes that a member spells: those of its text, or under the other name those of which it is
/// base64. None where it has neither name, or is no base64.
#[tactic(auto, using(crate::proofs::ObjectLaws::no_name, crate::proofs::ObjectLaws::no_code))]
pub(crate) fn bytes_of(
    alloc: Global,
    member: Member<'_>,
    name: &str,
    other: &str,
) -> Result<Option<Bytes>, AllocError>
    ensures some { IfOk result (λ o.
        IfSome o (SpellsBytes name.now other.now member.entry.name.now member.entry.text.now)) }
    ensures none { IfOk result (λ o. IfNone o ((bytes : List ℕ)
        → SpellsBytes name.now other.now member.entry.name.now member.entry.text.now bytes → ⊥)) }
{
    if member.name == name {
        return Ok(Some(Bytes::of(Vec::from_slice(alloc, member.text.as_bytes())?)));
    }
    if member.name != other {
        return Ok(None);
    }
    match STANDARD.decode(alloc, member.text.as_bytes()) {
        Ok(bytes) => Ok(Some(Bytes::of(bytes))),
        Err(DecodeAllocError::DecodeError(_)) => Ok(None),
        Err(DecodeAllocError::OutOfMemory) => Err(AllocError),
    }
}

/// The put of a key and a value. None where one of the members spells no bytes.
#[tactic(auto, using(crate::proofs::ObjectLaws::no_key_spelled, crate::proofs::ObjectLaws::no_value_spelled))]
fn put_of(alloc: Global, first: Member<'_>, second: Member<'_>) -> Result<Option<Write>, AllocError>
    ensures some { IfOk result (λ o. IfSome o
        (SpellsPut first.entry.name.now first.entry.text.now second.entry.name.now
        second.entry.text.now)) }
    ensures none { IfOk result (λ o. IfNone o ((w : Write)
        → SpellsPut first.entry.name.now first.entry.text.now second.entry.name.now
        second.entry.text.now w → ⊥)) }
{
    let key = match bytes_of(alloc, first, "key", "key_base64")? {
        Some(key) => key,
        None => return Ok(None),
    };
    match bytes_of(alloc, second, "value", "value_base64")? {
        Some(value) => Ok(Some(Write {
            key,
            value: Some(value),
        })),
        None => Ok(None),
    }
}

/// The put that a text spells. None where it spells none.
#[tactic(auto, using(crate::proofs::ObjectLaws::put_text, crate::proofs::ObjectLaws::no_put, crate::proofs::ObjectLaws::no_spelling))]
fn put_in_text(alloc: Global, text: &str) -> Result<Option<Write>, AllocError>
    ensures some { IfOk result (λ o. IfSome o (IsPutText text.now)) }
    ensures none { IfOk result (λ o. IfNone o ((w : Write) → IsPutText text.now w → ⊥)) }
{
    let mut scratch = Scratch::new(alloc);
    let mut reader = Reader::new(text, &mut scratch)?;
    let Some((first, second)) = members_in(&mut reader) else {
        return Ok(None);
    };
    match put_of(alloc, first, second)? {
        Some(write) => Ok(Some(write)),
        None => Ok(None),
    }
}

/// The put that the object of a line spells. None for another line.
pub(crate) fn put_in(alloc: Global, line: &[u8]) -> Result<Option<Write>, AllocError>
    ensures some { IfOk result (λ o. IfSome o (IsPutObject line.now)) }
    ensures none { IfOk result (λ o. IfNone o ((w : Write) → IsPutObject line.now w → ⊥)) }
{
    match str::from_utf8(line) {
        Ok(text) => put_in_text(alloc, text),
        Err(_) => Ok(None),
    }
}
