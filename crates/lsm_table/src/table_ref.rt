//! An index of the registry.

ghost use Rattle.std.specs.Prelude.{◌≡◌};

use crate::naming::Naming;
use crate::table_record::TableRecord;
use boxcar::Pushed;
use lsm_shelf::Shelf;
use std::marker::{Model, PhantomData};

/// An index of the registry of the name `N`, with what shows the record there. Contracts see it as
/// that record, with the image for which the record's receipt stands.
pub struct TableRef<N: Naming, S: Shelf> {
    pub(crate) token: Pushed<TableRecord<S::Receipt>>,
    pub(crate) of: PhantomData<N>,
}

impl<N: Naming, S: Shelf> Drop for TableRef<N, S> {
    fn drop(self) {
        let Self { token: _, of: _ } = self;
    }
}

impl<N: Naming, S: Shelf> Model for TableRef<N, S> {
    ghost use Rattle.boxcar.specs.Table.{Shows};
    ghost use Rattle.lsm_table.specs.Registry.{Table};

    ghost Value = { Table };

    ghost view = { λ t. record {
      index = t.token.index;
      number = S.Receipt.number t.token.value.receipt;
      smallest = t.token.value.smallest;
      largest = t.token.value.largest;
      image = S.Receipt.image t.token.value.receipt;
    } };

    ghost invariant = { λ t. Shows N.registry t.token × S.is_of N.place t.token.value.receipt };
}

impl<N: Naming, S: Shelf> TableRef<N, S> {
    /// Another reference to the same record. It takes no memory.
    pub fn again(&self) -> TableRef<N, S>
        ensures { result ≡ self.now }
    {
        TableRef {
            token: self.token.again(),
            of: PhantomData,
        }
    }
}
