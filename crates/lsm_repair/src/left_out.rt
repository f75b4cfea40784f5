//! Why a table is left out.

ghost use Rattle.std.specs.Prelude.{◌≡◌};
ghost use Rattle.lsm_repair.specs.LeftOut.{name_of, number_of};

use lsm_inflate::InflateFault;

/// A table that is left out, by its number: its bytes are no table, with this first fault.
#[derive(Clone, Copy, Debug, Drop, PartialEq, Eq)]
pub struct LeftOut {
    pub file: u64,
    pub fault: InflateFault,
}

impl LeftOut {
    /// The number of the refusal in docs/FORMATS.md.
    pub fn number(&self) -> u8
        ensures { result ≡ number_of self.now }
    {
        self.fault.number()
    }

    /// The name of the refusal in docs/FORMATS.md, without its fields.
    pub fn name(&self) -> &'static str
        ensures { result.now ≡ name_of self.now }
    {
        self.fault.name()
    }
}
