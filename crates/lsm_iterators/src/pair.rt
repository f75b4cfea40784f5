//! A user key with its value.

ghost use Rattle.std.specs.Prelude.{◌≡◌, IfOk};

use lsm_codec::Bytes;
use std::alloc::{AllocError, Global};
use std::marker::Model;

/// A user key and its value.
#[derive(Debug, Drop)]
pub struct Pair {
    user: Bytes,
    value: Bytes,
}

impl Model for Pair {
    ghost use Rattle.lsm_model.specs.Scanning.{Pair};

    ghost Value = { Pair };

    ghost view = { λ p. (p.user, p.value) };
}

impl Pair {
    /// A copy of both.
    pub(crate) fn of(alloc: Global, user: &[u8], value: &[u8]) -> Result<Pair, AllocError>
        ensures { IfOk result (λ p. p ≡ (user.now, value.now)) }
    {
        Ok(Pair {
            user: Bytes::of(Vec::from_slice(alloc, user)?),
            value: Bytes::of(Vec::from_slice(alloc, value)?),
        })
    }

    /// The user key.
    pub fn user(&self) -> &[u8]
        ensures { result.now ≡ self.now.0 }
    {
        self.user.as_slice()
    }

    /// Its value.
    pub fn value(&self) -> &[u8]
        ensures { result.now ≡ self.now.1 }
    {
        self.value.as_slice()
    }
}
