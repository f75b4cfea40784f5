//! The range that a range of user keys reaches among the files of a level.

ghost use Rattle.std.specs.Prelude.{◌≡◌, IfOk};
ghost use Rattle.lsm_cmd_levels.specs.Reaching.{IsGrown, IsReach, span_in};

use crate::span::KeySpan;
use lsm_manifest::FileMeta;
use std::alloc::AllocError;

/// A range with the files that it meets, one after another.
#[tactic(auto, using(crate::proofs::SpanLaws::grown_none, crate::proofs::SpanLaws::grown_met, crate::proofs::SpanLaws::grown_skip, crate::proofs::SpanLaws::grown_done))]
fn grow<'a>(files: &'a [FileMeta], from: KeySpan<'a>) -> KeySpan<'a>
    ensures { IsGrown files.now files.now (span_in from.entry) (span_in result) }
{
    let mut span = from;
    for file in files {
        let own = KeySpan::of(file);
        if span.meets(own) {
            span = span.with(own);
        }
    }
    span
}

/// The least range that has this one in it, and each of the files that meets it.
#[tactic(auto, using(crate::proofs::SpanLaws::reaching_none, crate::proofs::SpanLaws::reaching_more, crate::proofs::SpanLaws::reached))]
pub(crate) fn reach<'a>(files: &'a [FileMeta], from: KeySpan<'a>) -> Result<KeySpan<'a>, AllocError>
    ensures { IfOk result (λ r. IsReach files.now (span_in from.entry) (span_in r)) }
{
    let mut span = from;
    for _turn in 0..u64::MAX {
        let grown = grow(files, span);
        if grown.is(span) {
            return Ok(span);
        }
        span = grown;
    }
    // Each turn reaches one file more at least.
    Err(AllocError)
}
