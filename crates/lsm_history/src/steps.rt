//! The kinds of step at a history, each with what it tells the one who made it.

use crate::history::History;
use crate::view::View;
use atomic_table::{Join, Play, Split};

/// The keeper brings in the entries that the step is told of.
pub(crate) struct Grows;

impl Play<History, View> for Grows {
    ghost use Rattle.lsm_history.specs.Rule.{Grown};

    ghost then = { Grown };
}

/// The keeper brings in the editions that the step is told of.
pub(crate) struct Lists;

impl Play<History, View> for Lists {
    ghost use Rattle.lsm_history.specs.Rule.{Listed};

    ghost then = { Listed };
}

/// The keeper compares what it took from another seat with all that it knows.
pub(crate) struct Compares;

impl Play<History, View> for Compares {
    ghost use Rattle.lsm_history.specs.Rule.{Compared};

    ghost then = { Compared };
}

/// Cuts the seat of a memory from the keeper's.
pub(crate) struct Remembers;

impl Split<View> for Remembers {
    ghost use Rattle.lsm_history.specs.Rule.{remembering};

    ghost left = { λ v. v };

    ghost right = { λ v. remembering v.seen };
}

/// The keeper takes the seat of a memory.
pub(crate) struct Asks;

impl Join<View> for Asks {
    ghost use Rattle.lsm_history.specs.Rule.{asking, nothing, remembering};

    ghost both = { asking };

    ghost spent = { remembering nothing };
}
