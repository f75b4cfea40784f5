//! The name of one history.

ghost use Rattle.std.specs.Prelude.{[]};

use std::marker::Brand;

/// Names one history: a type that stands for it in the types of its keeper and of all that is
/// remembered of it. So a memory can't be brought to the keeper of another history.
pub trait Historied {
    ghost use Rattle.atomic_table.specs.Seated.{TableId};

    ghost history: { TableId };
}

impl Historied for Brand {
    ghost history = { record {
      words = 0;
      slots = 0;
      views_name = 0;
      atom = 0;
      block = 0;
      offset = 0;
      slot_names = [];
    } };
}
