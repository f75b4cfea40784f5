//! Requests.

ghost use Rattle.std.specs.Prelude.{◌≡◌, ℕ, List, IfOk, IsOk};
ghost use Rattle.std.specs.Option.{option_map};
ghost use Rattle.lsm_frames.specs.Requests.{Asked, IsRequest};
ghost use Rattle.lsm_frames.specs.Reading.{Read};
ghost use Rattle.lsm_frames.specs.RequestReading.{writes_at, reads_at, stretch_at, scan_at, whole};
ghost use Rattle.lsm_frames.specs.RequestReading.{release_at, between_at, compact_at, body_at};
ghost use Rattle.lsm_frames.specs.RequestReading.{asked_at};

use crate::bounds::Bounds;
use crate::fields::{number32, number64, optional, text, when};
use crate::keys::Keys;
use crate::malformed::Malformed;
use crate::range::Range;
use crate::when::When;
use crate::writes::Writes;

/// A request, whose keys and values lie in its frame.
#[derive(Drop)]
pub enum Request<'a> {
    /// These writes come in, as one batch.
    Write(Writes<'a>),
    /// The values of these keys.
    Read(When, Keys<'a>),
    /// The pairs of this range.
    Scan(Range<'a>),
    /// A new snapshot.
    Snapshot,
    /// The snapshot of this number is given up.
    Release(u64),
    /// Compact until there is nothing to compact.
    Compact,
    /// Compact these keys, due or not.
    CompactRange(Bounds<'a>),
    /// Remove the files of tables that no version needs any more.
    Collect,
    /// What each level has.
    Statistics,
}

ghost use Rattle.lsm_frames.specs.Views.{asked_of, between_of, stretch_of};
ghost use Rattle.lsm_frames.specs.declared.request.Request.TheVariants as request;

impl<'a> Request<'a> {
    /// The request that the content of a frame is. `Malformed` where it is in none of the forms.
    pub fn parse(content: &'a [u8]) -> Result<Request<'a>, Malformed>
        // What is read is spelled so.
        ensures found { IfOk result (λ r. IsRequest content.now (asked_of r)) }
        // What is spelled so is read.
        ensures only { (asked : Asked) → IsRequest content.now asked
            → IsOk result × IfOk result (λ r. asked_of r ≡ asked) }
    {
        match Request::read(content) {
            Some(request) => Ok(request),
            None => Err(Malformed),
        }
    }

    #[tactic(auto, unfolding(crate::specs::RequestReading::asked_at))]
    fn read(content: &'a [u8]) -> Option<Request<'a>>
        ensures { option_map asked_of result ≡ asked_at content.now }
    {
        match content {
            [] => None,
            [form, body @ ..] => Request::body(*form, body),
        }
    }

    /// What follows the first byte.
    #[tactic(auto, unfolding(crate::specs::RequestReading::body_at))]
    fn body(form: u8, body: &'a [u8]) -> Option<Request<'a>>
        ensures { option_map asked_of result ≡ body_at form body.now }
    {
        match form {
            1 => writes(body),
            2 => reads(body),
            3 => scan(body),
            4 => whole(Request::Snapshot, body),
            5 => release(body),
            6 => compact(body),
            7 => whole(Request::Collect, body),
            8 => whole(Request::Statistics, body),
            _ => None,
        }
    }
}

/// The request, where nothing follows it.
fn whole<'a>(request: Request<'a>, rest: &[u8]) -> Option<Request<'a>>
    ensures { option_map asked_of result ≡ whole (asked_of request.entry) rest.now }
{
    if !rest.is_empty() {
        return None;
    }
    Some(request)
}

#[tactic(auto, unfolding(crate::specs::RequestReading::writes_at))]
fn writes(body: &[u8]) -> Option<Request<'_>>
    ensures { option_map asked_of result ≡ writes_at body.now }
{
    Some(Request::Write(Writes::parse(body)?))
}

#[tactic(auto, unfolding(crate::specs::RequestReading::reads_at))]
fn reads(body: &[u8]) -> Option<Request<'_>>
    ensures { option_map asked_of result ≡ reads_at body.now }
{
    let (when, rest) = when(body)?;
    Some(Request::Read(when, Keys::parse(rest)?))
}

#[tactic(auto, unfolding(crate::specs::RequestReading::stretch_at))]
fn range(body: &[u8]) -> Option<(Range<'_>, &[u8])>
    ensures { option_map (λ x. (stretch_of x.0, x.1.now)) result ≡ stretch_at body.now }
{
    let (when, rest) = when(body)?;
    let (from, rest) = text(rest)?;
    let (to, rest) = optional(rest)?;
    let (limit, rest) = number32(rest)?;
    let range = Range {
        when,
        from,
        to,
        limit,
    };
    Some((range, rest))
}

#[tactic(auto, unfolding(crate::specs::RequestReading::scan_at))]
fn scan(body: &[u8]) -> Option<Request<'_>>
    ensures { option_map asked_of result ≡ scan_at body.now }
{
    let (range, rest) = range(body)?;
    whole(Request::Scan(range), rest)
}

#[tactic(auto, unfolding(crate::specs::RequestReading::release_at))]
fn release(body: &[u8]) -> Option<Request<'_>>
    ensures { option_map asked_of result ≡ release_at body.now }
{
    let (number, rest) = number64(body)?;
    whole(Request::Release(number), rest)
}

#[tactic(auto, unfolding(crate::specs::RequestReading::between_at))]
fn bounds(body: &[u8]) -> Option<(Bounds<'_>, &[u8])>
    ensures { option_map (λ x. (between_of x.0, x.1.now)) result ≡ between_at body.now }
{
    let (from, rest) = text(body)?;
    let (to, rest) = optional(rest)?;
    let bounds = Bounds { from, to };
    Some((bounds, rest))
}

/// With nothing, or with the keys that are compacted.
#[tactic(auto, unfolding(crate::specs::RequestReading::compact_at))]
fn compact(body: &[u8]) -> Option<Request<'_>>
    ensures { option_map asked_of result ≡ compact_at body.now }
{
    if body.is_empty() {
        return Some(Request::Compact);
    }
    let (bounds, rest) = bounds(body)?;
    whole(Request::CompactRange(bounds), rest)
}

/// A law: at most one request has these bytes.
pub fn one_request()
    ensures { (bytes : List ℕ) (a b : Asked) → IsRequest bytes a → IsRequest bytes b → a ≡ b }
{}
