//! The calls by which a shelf's value changed what lies there, kept without memory.

ghost use Rattle.std.specs.Prelude.{◌≡◌, ◌∷◌, ◌++◌};
ghost use Rattle.lsm_shelf.specs.Asked.{AppendManifest, Put, Remove, StartManifest};
ghost use Rattle.lsm_storage.specs.Changes.{call_of, calls_in, word_of};

use crate::account::{tag_of_both, tag_of_bytes, tag_of_number};
use boxcar::tag::{Names, Tag};

struct Word;

impl<'a> Names<&'a Tag> for Word {
    ghost numbers = { λ t. word_of t.now.numbers };
}

// A tag's numbers as one word.
fn tag_of_word(numbers: &Tag) -> Tag
    ensures { result.numbers ≡ word_of numbers.now.numbers }
{
    Tag::of::<&Tag, Word>(&numbers)
}

// Which call, a number, and bytes, as one word in front of others.
#[tactic(auto, using(crate::proofs::Words::calls_of_word))]
fn tag_of_call(which: u64, number: u64, bytes: &[u8], made: &Tag) -> Tag
    ensures { calls_in result.numbers
        ≡ call_of (which ∷ number ∷ bytes.now) ++ calls_in made.now.numbers }
{
    let front = tag_of_both(&tag_of_number(which), &tag_of_number(number));
    let call = tag_of_both(&front, &tag_of_bytes(bytes));
    tag_of_both(&tag_of_word(&call), made)
}

/// The calls after a put.
pub fn tag_of_put(number: u64, image: &[u8], made: &Tag) -> Tag
    ensures { calls_in result.numbers ≡ Put number image.now ∷ calls_in made.now.numbers }
{
    tag_of_call(0, number, image, made)
}

/// The calls after a removal.
pub fn tag_of_removal(number: u64, made: &Tag) -> Tag
    ensures { calls_in result.numbers ≡ Remove number ∷ calls_in made.now.numbers }
{
    tag_of_call(1, number, &[], made)
}

/// The calls after the start of a manifest.
pub fn tag_of_start(number: u64, bytes: &[u8], made: &Tag) -> Tag
    ensures { calls_in result.numbers ≡ StartManifest number bytes.now ∷ calls_in made.now.numbers }
{
    tag_of_call(2, number, bytes, made)
}

/// The calls after bytes were appended to the manifest.
pub fn tag_of_append(bytes: &[u8], made: &Tag) -> Tag
    ensures { calls_in result.numbers ≡ AppendManifest bytes.now ∷ calls_in made.now.numbers }
{
    tag_of_call(3, 0, bytes, made)
}
