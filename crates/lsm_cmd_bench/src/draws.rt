//! What is drawn: numbers, and values.

ghost use Rattle.std.specs.Prelude.{◌≡◌, ◌<◌, ◌≤◌, length, IfOk};
ghost use Rattle.lsm_batch.specs.Limits.{most_value};

use rand_core::utils::NextWord;
use rand_pcg::Pcg32;
use std::alloc::{AllocError, Global};
use std::marker::Model;

// How many bytes there are of which values are parts.
const POOL: usize = 1_048_576;

/// Draws numbers, and values. The same seed draws the same.
#[derive(Drop)]
pub(crate) struct Draws {
    generator: Pcg32,
    pool: Vec<u8>,
}

impl Model for Draws {
    ghost use Rattle.std.specs.Prelude.{◌≡◌, length};
    ghost use Rattle.lsm_batch.specs.Limits.{most_value};

    ghost Value = { Unit {0} };

    ghost view = { λ _. tt };

    ghost invariant = { λ d. length d.pool.items ≡ most_value };
}

/// A number below another one; 0 where that is 0.
fn draw_below(generator: &mut Pcg32, bound: u64) -> u64
    ensures below { 0 < bound → result < bound }
    ensures within { result ≤ bound }
{
    let high = u64::from(generator.next_word());
    let low = u64::from(generator.next_word());
    let word = high * 4_294_967_296 + low;
    if bound == 0 { 0 } else { word % bound }
}

/// So many drawn bytes.
fn drawn_bytes(alloc: Global, generator: &mut Pcg32, count: usize) -> Result<Vec<u8>, AllocError>
    ensures { IfOk result (λ v. length v.items ≡ count) }
{
    let mut bytes = Vec::with_capacity(alloc, count)?;
    'bytes: for _ in 0..count {
        let byte = (generator.next_word() % 256) as u8;
        bytes.push(byte)?;
    }
    Ok(bytes)
}

impl Draws {
    /// One that draws by a seed.
    pub(crate) fn new(alloc: Global, seed: u64) -> Result<Draws, AllocError> {
        let mut generator = Pcg32::new(seed, 54);
        let pool = drawn_bytes(alloc, &mut generator, POOL)?;
        Ok(Draws { generator, pool })
    }

    /// A number below another one; 0 where that is 0.
    pub(crate) fn number_below(&mut self, bound: u64) -> u64
        ensures { 0 < bound → result < bound }
    {
        draw_below(&mut self.generator, bound)
    }

    /// A value of so many bytes, 1 MiB at most: bytes of the pool from a drawn place on.
    pub(crate) fn value(&mut self, size: usize) -> &[u8]
        ensures { size ≤ most_value → length result.now ≡ size }
    {
        if size > POOL {
            return &[];
        }
        let at = draw_below(&mut self.generator, (POOL - size) as u64) as usize;
        &self.pool[at..at + size]
    }
}
