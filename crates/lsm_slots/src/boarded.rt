//! A name for one registry, one shelf's contents, one board and one history.

ghost use Rattle.std.specs.Prelude.{[]};

use lsm_history::Historied;
use lsm_table::Naming;
use std::marker::Brand;

/// Stands for a board of pins and for a history too. A program picks it once both are made, and
/// what is generic in it is of that board and that history.
pub trait Boarded: Naming + Historied {
    ghost use Rattle.atomic_table.specs.Seated.{TableId};

    /// The board: the identity of its table of words.
    ghost board: { TableId };
}

impl Boarded for Brand {
    ghost board = { record {
      words = 0;
      slots = 0;
      views_name = 0;
      atom = 0;
      block = 0;
      offset = 0;
      slot_names = [];
    } };
}
