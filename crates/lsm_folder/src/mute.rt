//! The witness of the program.

ghost use Rattle.std.specs.Prelude.{◌≡◌, length};
ghost use Rattle.lsm_folder.specs.Finding.{fitted};

use crate::contents::{Contents, Unsaid};
use crate::tags::tag_of;
use crate::witness::Witness;
use boxcar::tag::{Names, Tag};
use std::alloc::{AllocError, Global};
use std::marker::PhantomData;

/// Keeps no byte, compares none, and lets all through: it can't tell whether a read was true. What
/// it keeps of a file that was only measured stands for what `C` says that the file holds, cut or
/// filled to the length. So a theorem of a folder with it is one for each `C`.
pub struct Mute<C: Contents = Unsaid> {
    by: PhantomData<C>,
}

/// A file that was measured.
#[derive(Drop)]
struct Measured<'a> {
    folder: &'a [u8],
    name: &'a [u8],
    size: u64,
}

/// What it holds, as `C` says.
struct Held<C: Contents> {
    by: PhantomData<C>,
}

impl<'a, C: Contents> Names<Measured<'a>> for Held<C> {
    ghost numbers = { λ m. fitted m.size (C.Contents.contents m.folder.now m.name.now) };
}

/// Those bytes.
fn held_of<C: Contents>(folder: &[u8], name: &[u8], size: u64) -> Tag
    ensures held { result.numbers
        ≡ fitted (length result.numbers) (C.contents folder.now name.now) }
    ensures size { length result.numbers ≡ size }
{
    Tag::of::<Measured, Held<C>>(&Measured { folder, name, size })
}

impl<C: Contents> Witness for Mute<C> {
    type Kept = Tag;

    ghost image = { λ t. t.numbers };

    ghost happened = { λ _ _ _ _. Unit {0} };

    ghost holds = { λ folder name image.
        image ≡ fitted (length image) (C.Contents.contents folder name) };

    fn keep(_alloc: Global, bytes: &[u8]) -> Result<Tag, AllocError> {
        Ok(tag_of(bytes))
    }

    fn unread(folder: &str, name: &str, size: u64) -> Option<Tag> {
        Some(held_of::<C>(folder.as_bytes(), name.as_bytes(), size))
    }

    fn saw(_kept: &Tag, _offset: usize, _len: usize, _bytes: &[u8]) -> bool {
        true
    }
}
