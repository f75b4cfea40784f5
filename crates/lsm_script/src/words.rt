//! The words of a line.

ghost use Rattle.std.specs.Prelude.{◌≡◌, IfOk, map};
ghost use Rattle.lsm_script.specs.Words.{words_of};

use std::alloc::{AllocError, Global};

/// The words of a line: one space parts two.
pub fn words_in<'a>(alloc: Global, line: &'a [u8]) -> Result<Vec<&'a [u8]>, AllocError>
    ensures { IfOk result (λ words. map (λ w. w.now) words.items ≡ words_of line.now) }
{
    let mut words = Vec::new(alloc);
    let mut start = 0;
    for i in 0..line.len() {
        if line[i] == b' ' {
            words.push(&line[start..i])?;
            start = i + 1;
        }
    }
    words.push(&line[start..])?;
    Ok(words)
}
