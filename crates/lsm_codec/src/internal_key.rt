//! Internal keys: a user key, then eight bytes, the fixed64 of `sequence * 256 + kind`
//! (the internal keys of LevelDB's `db/dbformat.h`).

ghost use Rattle.std.specs.Prelude.{◌≡◌, ℕ, ◌-◌, ◌^◌, ◌<◌, ◌≤◌, ◌↔◌, ◌⊎◌, ◌++◌, List, length};
ghost use Rattle.std.specs.Prelude.{slice_index, true, IfOk, IfErr, IsOk, OnOk, OnErr, MatchResult};
ghost use Rattle.std.specs.Prelude.{Ok, Err};
ghost use Rattle.lsm_codec.specs.Keys.{InternalKey, IsKey, IsBadKind, packed, key_bytes, key_cmp};
ghost use Rattle.lsm_codec.specs.Keys.{is_internal, user_part, packed_part};

use crate::bytes::Bytes;
use crate::fault::CodecFault;
use crate::kind::Kind;
use std::alloc::{AllocError, Global};
use std::cmp::Ordering;

/// The greatest sequence, 2^56 - 1: a sequence and a kind share 64 bits (`kMaxSequenceNumber` of
/// LevelDB's `db/dbformat.h`).
pub const MAX_SEQ: u64 = 72_057_594_037_927_935;

/// An internal key, whose user key lies in other bytes.
#[derive(Clone, Copy)]
pub struct KeyRef<'a> {
    /// The key that users see, any bytes.
    pub user: &'a [u8],
    /// The sequence of the write, at most `MAX_SEQ`.
    pub seq: u64,
    /// What the write did.
    pub kind: Kind,
    ghost seq_fits: { seq < 2 ^ 56 },
}

impl<'a> KeyRef<'a> {
    ghost use Rattle.lsm_codec.specs.KeyRef.{key_of};

    /// The parts of an internal key.
    ///
    /// # Errors
    /// `ShortKey` where there are fewer than 8 bytes. `BadKind` with the kind's byte, the eighth
    /// from the end, where that is above 1.
    pub fn split(bytes: &'a [u8]) -> Result<KeyRef<'a>, CodecFault>
        ensures found { IfOk result (λ k. IsKey bytes.now (key_of k)) }
        ensures only { (key : InternalKey) → IsKey bytes.now key
            → IfOk result (λ k. key_of k ≡ key) × IsOk result }
        ensures short { result ≡ Err CodecFault.ShortKey ↔ length bytes.now < 8 }
        ensures bad_kind { (kind : ℕ) → result ≡ Err (CodecFault.BadKind kind)
            ↔ IsBadKind bytes.now kind }
        ensures kind { IfErr result (λ e. (e ≡ CodecFault.ShortKey)
            ⊎ (e ≡ CodecFault.BadKind (slice_index bytes.now (length bytes.now - 8)))) }
    {
        if bytes.len() < 8 {
            return Err(CodecFault::ShortKey);
        }
        let (user, tail) = bytes.split_at(bytes.len() - 8);
        let packed = u64::from_le_bytes([
            tail[0], tail[1], tail[2], tail[3], tail[4], tail[5], tail[6], tail[7],
        ]);
        let kind = match tail[0] {
            0 => Kind::Deletion,
            1 => Kind::Value,
            other => return Err(CodecFault::BadKind(other)),
        };
        let seq = packed >> 8;
        Ok(KeyRef { user, seq, kind })
    }

    /// The sequence and the kind in one number, `sequence * 256 + kind`: what the last eight bytes
    /// of the key spell.
    pub fn packed(&self) -> u64
        ensures { result ≡ packed (key_of self.now) }
    {
        self.seq * 256 + self.kind as u64
    }

    /// The order of internal keys: user keys ascending bytewise, a proper prefix first, and of one
    /// user key the greater `sequence * 256 + kind` first, so that the newest write comes first.
    pub fn compare(&self, other: &KeyRef<'_>) -> Ordering
        ensures { result ≡ key_cmp (key_of self.now) (key_of other.now) }
    {
        match self.user.cmp(other.user) {
            Ordering::Less => Ordering::Less,
            Ordering::Greater => Ordering::Greater,
            Ordering::Equal => other.packed().cmp(&self.packed()),
        }
    }

    /// The bytes of the internal key. `AllocError` where a growth was refused.
    pub fn to_bytes(&self, alloc: Global) -> Result<Bytes, AllocError>
        ensures { IfOk result (λ b. IsKey b (key_of self.now)) }
    {
        let mut bytes = Vec::new(alloc);
        push_key(&mut bytes, self.user, self.seq, self.kind)?;
        Ok(Bytes::of(bytes))
    }
}

/// Appends the bytes of an internal key: the user key, and eight bytes of the sequence and the
/// kind.
///
/// # Errors
/// `AllocError` where a growth of `out` was refused: its contents are then as before.
pub fn push_key(out: &mut Vec<u8>, user: &[u8], seq: u64, kind: Kind) -> Result<(), AllocError>
    requires { seq ≤ MAX_SEQ }
    ensures ok { OnOk result (out.new.items
        ≡ out.old.items ++ key_bytes record { user = user.now; seq = seq; kind = kind }) }
    ensures is_key { IsKey (key_bytes record { user = user.now; seq = seq; kind = kind })
        record { user = user.now; seq = seq; kind = kind } }
    ensures err { OnErr result (out.new.items ≡ out.old.items) }
{
    let len = out.len();
    out.extend_from_slice(user)?;
    match out.extend_from_slice(&(seq * 256 + kind as u64).to_le_bytes()) {
        Ok(()) => Ok(()),
        Err(error) => {
            out.truncate(len);
            Err(error)
        }
    }
}

/// Whether bytes are an internal key: eight at least, and the kind, the eighth from the end, is 0
/// or 1.
#[tactic(auto, unfolding(crate::specs::Keys::is_internal))]
pub fn is_internal_key(bytes: &[u8]) -> bool
    ensures value { result ≡ is_internal bytes.now }
    // So it is just where some key is spelled by these bytes.
    ensures spelled { result ≡ true ↔ ((key : InternalKey) × IsKey bytes.now key) }
{
    bytes.len() >= 8 && bytes[bytes.len() - 8] <= 1
}

/// The user key of an internal key, and the number of its last eight bytes, `sequence * 256 +
/// kind`. Fewer than eight bytes are all a user key, and the number is then 0.
#[tactic(auto, unfolding(crate::specs::Keys::user_part, crate::specs::Keys::packed_part))]
pub fn key_parts(bytes: &[u8]) -> (&[u8], u64)
    ensures user { result.0.now ≡ user_part bytes.now }
    ensures packed { result.1 ≡ packed_part bytes.now }
    // Of the bytes of a key these are that key's.
    ensures key { (key : InternalKey) → IsKey bytes.now key
        → (result.0.now ≡ key.user) × (result.1 ≡ packed key) }
{
    if bytes.len() < 8 {
        return (bytes, 0);
    }
    let (user, tail) = bytes.split_at(bytes.len() - 8);
    let packed = u64::from_le_bytes([
        tail[0], tail[1], tail[2], tail[3], tail[4], tail[5], tail[6], tail[7],
    ]);
    (user, packed)
}
