//! A list that contracts see as a list.

ghost use Rattle.std.specs.Prelude.{◌≡◌, List, IfOk};

use std::alloc::{AllocError, Global};
use std::marker::Model;

/// A list, in memory of its own.
#[derive(Debug, Drop)]
pub struct List<T> {
    items: Vec<T>,
}

impl<T> Model for List<T> {
    ghost Value = { List T };

    ghost view = { λ b. b.items.items };
}

impl<T> List<T> {
    /// The elements of a vector.
    pub fn of(items: Vec<T>) -> List<T>
        ensures { result ≡ items.items }
    {
        List { items }
    }

    /// Lends the elements.
    pub fn as_slice(&self) -> &[T]
        ensures { result.now ≡ self.now }
    {
        &self.items
    }

    /// A copy of the elements, in memory of its own.
    ///
    /// # Errors
    /// `AllocError` where the memory was refused.
    pub fn try_copy(&self, alloc: Global) -> Result<List<T>, AllocError>
    where
        T: Copy,
        ensures { IfOk result (λ b. b ≡ self.now) }
    {
        Ok(List {
            items: Vec::from_slice(alloc, &self.items)?,
        })
    }

    /// Hands the vector back.
    pub fn into_vec(self) -> Vec<T>
        ensures { result.items ≡ self }
    {
        let List { items } = self;
        items
    }
}
