//! What a folder in memory hands out for a file.

ghost use Rattle.std.specs.Prelude.{◌≡◌};

use crate::image::Image;
use crate::mark::Mark;
use crate::tags::tag_again;
use boxcar::Pushed;
use boxcar::tag::Tag;

/// What a folder in memory hands out for a file: its name, for contracts alone, and what shows
/// where its bytes are.
#[derive(Drop)]
pub struct MemoryMark {
    pub(crate) name: Tag,
    pub(crate) token: Pushed<Image>,
}

impl Mark for MemoryMark {
    ghost name = { λ m. m.name.numbers };

    ghost image = { λ m. m.token.value.bytes.items };

    fn again(&self) -> MemoryMark {
        MemoryMark {
            name: tag_again(&self.name),
            token: self.token.again(),
        }
    }
}
