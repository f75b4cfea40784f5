//! What was answered Ok survives crashes.

ghost use Rattle.std.specs.Prelude.{◌≡◌, ◌⊎◌, ℕ, List, [], length, Option, None, Some};
ghost use Rattle.lsm_codec.specs.Entries.{Entry};
ghost use Rattle.lsm_crash.specs.Disk.{Disk};
ghost use Rattle.lsm_crash.specs.Known.{IsSettled, IsVacant, World};
ghost use Rattle.lsm_crash.specs.Lives.{Ages, AllLeave, Answers, FromNothing, Life};
ghost use Rattle.lsm_crash.specs.States.{Shown};
ghost use Rattle.lsm_state.specs.Held.{Held};
ghost use Rattle.lsm_version.specs.Versions.{IsSound, Levels, no_levels};

use lsm_crash::states::ingests_survive_crashes;
use lsm_model::machine::Premise;

/// After any lives of a database, one after another, each of which ends with a crash in any call on
/// its folder, or without one: all that is counted on is durable, and the folder shows a version
/// whose read at the last sequence gives what it gives over all that came in, which is what every
/// ingest that was answered Ok brought, and what one that a crash cut did, whole or not at all.
///
/// So too from a folder without a database on (`new`): after tries to make one, each of which a
/// crash cut before `CURRENT` was there, then a first life, which makes it, and others. There is no
/// database, where there was no life yet; or the folder shows such a version.
pub fn ingests_survive<P: Premise>()
    ensures lives { (lives : List Life) (v : Levels) (es : List Entry) (w u : World) (d e : Disk)
        → IsSettled d w → Shown v d → length v.tables ≡ 7 → (P.holds → Answers v es)
        → Ages P.holds lives w d u e
        → IsSettled e u × ((x : Levels) × (fs : List Entry) × AllLeave lives v es x fs
        × Shown x e × (P.holds → Answers x fs)) }
    ensures new { (tries : List Held) (lives : List Life) (d e : Disk) (o : Option World)
        → IsVacant d → FromNothing P.holds tries lives d o e
        → ((o ≡ None) × (lives ≡ []) × IsVacant e) ⊎ ((u : World) × (o ≡ Some u) × IsSettled e u
        × ((x : Levels) × (fs : List Entry) × AllLeave lives no_levels [] x fs × Shown x e
        × (P.holds → Answers x fs) × (P.holds → IsSound x))) }
{
    ingests_survive_crashes::<P>();
}
