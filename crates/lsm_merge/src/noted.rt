//! What a source of numbers keeps of its answers.

ghost use Rattle.std.specs.Prelude.{◌≡◌, ◌∷◌};

use boxcar::tag::{Names, Tag};

/// A number and what came before it.
#[derive(Drop)]
struct Latest<'a> {
    number: u64,
    before: &'a Tag,
}

struct LatestFirst;

impl<'a> Names<Latest<'a>> for LatestFirst {
    ghost numbers = { λ l. l.number ∷ l.before.now.numbers };
}

/// A number more in front of others, which clauses alone read and which takes no memory: so a
/// source tells what it drew, refused and was asked.
pub fn with_number(number: u64, before: &Tag) -> Tag
    ensures { result.numbers ≡ number ∷ before.now.numbers }
{
    Tag::of::<Latest<'_>, LatestFirst>(&Latest { number, before })
}
