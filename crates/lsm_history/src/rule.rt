//! The rule that a history's table keeps.

use crate::history::History;
use crate::view::View;
use atomic_table::{Table, TableRule};
use std::alloc::Global;

/// The rule of a history: one seat at most knows all of it, and what any other seat remembers was
/// all of it once.
pub struct HistoryRule;

impl TableRule<History, View, ()> for HistoryRule {
    ghost use Rattle.lsm_history.specs.Rule.{IsKept, knowing, nothing};

    ghost holds = { λ _ s. IsKept s };

    ghost first = { λ _. knowing nothing };
}

/// The table of a history: one word, which stays 0, and no slot. What the seats know is for
/// contracts alone, so a history takes no more memory however much comes into it.
pub type Words = Table<History, View, (), HistoryRule, Global>;
