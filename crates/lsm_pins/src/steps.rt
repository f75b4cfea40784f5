//! The kinds of step at a board, each with what it tells the one who made it.

use crate::view::View;
use atomic_table::{Join, Play, Split};

/// Adds one to the head: a pin.
pub(crate) struct Pins;

impl Play<(), View> for Pins {
    ghost use Rattle.lsm_pins.specs.Step.{Pinned};

    ghost then = { Pinned };
}

/// Adds one to the word of the slot held: the pin is given back.
pub(crate) struct Unpins;

impl Play<(), View> for Unpins {
    ghost use Rattle.lsm_pins.specs.Step.{Unpinned};

    ghost then = { Unpinned };
}

/// Loads the word of a slot.
pub(crate) struct Looks;

impl Play<(), View> for Looks {
    ghost use Rattle.lsm_pins.specs.Step.{Looked};

    ghost then = { Looked };
}

/// Swaps the head: a publication.
pub(crate) struct Publishes;

impl Play<(), View> for Publishes {
    ghost use Rattle.lsm_pins.specs.Step.{Published};

    ghost then = { Published };
}

/// Loads the head, to learn the current id.
pub(crate) struct Learns;

impl Play<(), View> for Learns {
    ghost use Rattle.lsm_pins.specs.Step.{Learnt};

    ghost then = { Learnt };
}

/// Loads the head, to compare what a reader had seen with the publisher's id.
pub(crate) struct ChecksNote;

impl Play<(), View> for ChecksNote {
    ghost use Rattle.lsm_pins.specs.Step.{NoteChecked};

    ghost then = { NoteChecked };
}

/// Loads the head, to find a reader's pin in the records that it was told of.
pub(crate) struct ChecksPin;

impl Play<(), View> for ChecksPin {
    ghost use Rattle.lsm_pins.specs.Step.{PinChecked};

    ghost then = { PinChecked };
}

/// Cuts a new reader's seat from the publisher's.
pub(crate) struct MakesReader;

impl Split<View> for MakesReader {
    ghost use Rattle.lsm_pins.specs.View.{view_less_one_part, reader_view};

    ghost left = { view_less_one_part };

    ghost right = { reader_view };
}

/// Copies a seat.
pub(crate) struct Copies;

impl Split<View> for Copies {
    ghost use Rattle.lsm_pins.specs.View.{copied_view};

    ghost left = { λ v. v };

    ghost right = { copied_view };
}

/// The publisher takes a reader's copy.
pub(crate) struct Notes;

impl Join<View> for Notes {
    ghost use Rattle.lsm_pins.specs.View.{noted_view, spent_view};

    ghost both = { noted_view };

    ghost spent = { spent_view };
}

/// A reader takes the publisher's copy.
pub(crate) struct Tells;

impl Join<View> for Tells {
    ghost use Rattle.lsm_pins.specs.View.{told_view, spent_view};

    ghost both = { told_view };

    ghost spent = { spent_view };
}
