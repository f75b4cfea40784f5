//! The options of a database that is served.

ghost use Rattle.std.specs.Prelude.{◌≡◌, ◌≤◌};
ghost use Rattle.lsm_channels.specs.Starting.{options_for};
ghost use Rattle.lsm_state.specs.Options.{Fits};

use lsm_state::Options;

/// The usual options, with a reader for each channel. Their caches hold 2,048 blocks together, but
/// each of them 64 at least.
#[tactic(auto, using(crate::proofs::OptionLaws::options_fit))]
pub(crate) fn options_for(channels: usize) -> Options
    requires some { 1 ≤ channels }
    requires few { channels ≤ 62 }
    ensures options { result ≡ options_for channels }
    ensures fits { Fits result }
{
    Options {
        readers: channels,
        cache_blocks: (2048 / channels).max(64),
        ..Options::for_programs()
    }
}
