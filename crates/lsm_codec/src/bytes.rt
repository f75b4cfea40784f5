//! Bytes that contracts see as a list of numbers.

ghost use Rattle.std.specs.Prelude.{◌≡◌, List, ℕ, IfOk};

use std::alloc::{AllocError, Global};
use std::marker::Model;

/// A string of bytes, in memory of its own.
#[derive(Debug, Drop)]
pub struct Bytes {
    items: Vec<u8>,
}

impl Model for Bytes {
    ghost Value = { List ℕ };

    ghost view = { λ b. b.items.items };
}

impl Bytes {
    /// The bytes of a vector.
    pub fn of(items: Vec<u8>) -> Bytes
        ensures { result ≡ items.items }
    {
        Bytes { items }
    }

    /// Lends the bytes.
    pub fn as_slice(&self) -> &[u8]
        ensures { result.now ≡ self.now }
    {
        &self.items
    }

    /// A copy of the bytes, in memory of its own.
    ///
    /// # Errors
    /// `AllocError` where the memory was refused.
    pub fn try_copy(&self, alloc: Global) -> Result<Bytes, AllocError>
        ensures { IfOk result (λ b. b ≡ self.now) }
    {
        Ok(Bytes {
            items: Vec::from_slice(alloc, &self.items)?,
        })
    }

    /// Hands the vector back.
    pub fn into_vec(self) -> Vec<u8>
        ensures { result.items ≡ self }
    {
        let Bytes { items } = self;
        items
    }
}
