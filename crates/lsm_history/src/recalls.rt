//! Entries and editions of other values.

ghost use Rattle.std.specs.Prelude.{List};
ghost use Rattle.lsm_codec.specs.Entries.{Entry};
ghost use Rattle.lsm_history.specs.History.{Edition};

/// How entries and editions are read off a value of another type, for contracts alone.
pub trait Recalls<X> {
    ghost entries: { X → List Entry };

    ghost editions: { X → List Edition };
}
