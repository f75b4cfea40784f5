//! What a folder of the system hands out for a file.

ghost use Rattle.std.specs.Prelude.{◌≡◌};

use crate::mark::Mark;
use crate::witness::Witness;
use boxcar::Pushed;
use boxcar::tag::Tag;

/// A file that was made or read whole: its name, for contracts alone, and what the witness keeps of
/// its bytes.
#[derive(Drop)]
pub struct Facts<W: Witness> {
    pub(crate) name: Tag,
    pub(crate) kept: W::Kept,
}

/// What a folder of the system hands out for a file. It is one index among the marks of the folder,
/// so that two marks can be compared; the name is read by contracts alone.
#[derive(Drop)]
pub struct SystemMark<W: Witness> {
    pub(crate) token: Pushed<Facts<W>>,
}

impl<W: Witness> Mark for SystemMark<W> {
    ghost name = { λ m. m.token.value.name.numbers };

    ghost image = { λ m. W.image m.token.value.kept };

    fn again(&self) -> SystemMark<W> {
        SystemMark {
            token: self.token.again(),
        }
    }
}
