//! The rule that the board's table keeps.

use crate::view::View;
use atomic_table::{Table, TableRule};
use std::alloc::Global;

/// What a board begins with.
#[derive(Clone, Copy)]
pub struct Start {
    /// How many slots it has.
    pub slots: usize,
    /// The id that is current in slot 0.
    pub id: u32,
}

/// The rule of a board: how its words and the views of its seats belong together.
pub struct BoardRule;

impl TableRule<(), View, Start> for BoardRule {
    ghost use Rattle.lsm_pins.specs.Rule.{BoardHolds};
    ghost use Rattle.lsm_pins.specs.View.{first_view};

    ghost holds = { BoardHolds };

    ghost first = { first_view };
}

/// The words of a board: the head, and for each slot how many pins of it were given back.
pub type Words = Table<(), View, Start, BoardRule, Global>;
