//! Laws of what the calls of a database leave of its folder. Each function's contract is one law,
//! or a few that belong together; its body is empty.

ghost use Rattle.std.specs.Prelude.{◌≡◌, ◌⊎◌, ◌↔◌, ◌++◌, ◌<◌, ◌-◌, ◌^◌, ℕ, List, [], None};
ghost use Rattle.std.specs.Prelude.{◌∷◌, Option, Some};
ghost use Rattle.std.specs.Prelude.{false, length, map};
ghost use Rattle.atomic_table.specs.Seated.{TableId};
ghost use Rattle.lsm_codec.specs.Entries.{Entry, answer};
ghost use Rattle.lsm_codec.specs.Lists.{Has};
ghost use Rattle.lsm_model.specs.Files.{File};
ghost use Rattle.lsm_model.specs.Plain as machine;
ghost use Rattle.lsm_model.specs.Plain.{Spends};
ghost use Rattle.lsm_storage.specs.FileNames.{table_name};
ghost use Rattle.lsm_shelf.specs.Asked.{Asked, Put, Remove, StartManifest};
ghost use Rattle.lsm_shelf.specs.Stored.{Stored};
ghost use Rattle.lsm_shelf.specs.Told.{Becomes, Counted, Place, Told, finding};
ghost use Rattle.lsm_batch.specs.declared.write.Write.{Write};
ghost use Rattle.lsm_merge.specs.Outputs.{putting_all};
ghost use Rattle.lsm_merge.specs.Work.{Done, puts_by};
ghost use Rattle.lsm_state.specs.Asked.{changes_by};
ghost use Rattle.lsm_state.specs.Collecting.{AreCollected, HasLookedAround, IsCollectRefusal};
ghost use Rattle.lsm_state.specs.Collecting.{IsKeptNumber};
ghost use Rattle.lsm_state.specs.Gathering.{Gathers, IsGatherRefusal};
ghost use Rattle.lsm_state.specs.Held.{Held, plain};
ghost use Rattle.lsm_state.specs.Ingesting.{FailsToChange, FailsToPut, Ingests, IsIngestRefusal};
ghost use Rattle.lsm_state.specs.Ingesting.{IsWelcome, coming_in, entries_of, last_of};
ghost use Rattle.lsm_state.specs.Ingesting.{table_bytes_of};
ghost use Rattle.lsm_state.specs.Ingesting.{with_number, with_slots};
ghost use Rattle.lsm_state.specs.Installing.{Installed, IsInstallRefusal};
ghost use Rattle.lsm_state.specs.declared.gather_fault.GatherFault.{GatherFault};
ghost use Rattle.lsm_state.specs.declared.ingest.Ingested.{Ingested};
ghost use Rattle.lsm_state.specs.declared.state_fault.StateFault.{StateFault};
ghost use Rattle.lsm_crash.specs.Disk.{Disk, Shows, empty_disk};
ghost use Rattle.lsm_crash.specs.Crash.{Found, IsFresh, IsLeft};
ghost use Rattle.lsm_crash.specs.Known.{IsHeld, IsSettled, IsVacant, Known, World};
ghost use Rattle.lsm_crash.specs.Known.{current_name, nothing};
ghost use Rattle.lsm_crash.specs.Operations.{Operation, started};
ghost use Rattle.lsm_crash.specs.Among.{CutAmong, CutDropping, DoneAmong, DoneDropping, Does};
ghost use Rattle.lsm_crash.specs.Among.{counting};
ghost use Rattle.lsm_crash.specs.States.{Describes, Finds, HasTables, IsWorldOf, Shown};
ghost use Rattle.lsm_crash.specs.Database.{AllowsAll, Asks, Deed, IsIngestOf, IsCut, IsReady};
ghost use Rattle.lsm_crash.specs.Database.{IsState, Turn};
ghost use Rattle.lsm_crash.specs.Database.{Answered, Follows, HasMade, IsMade, Opens};
ghost use Rattle.lsm_crash.specs.Database.{Ingest, SmallRun, Works, after_all, opened_world};
ghost use Rattle.lsm_crash.specs.Database.{plans_of, Refused};
ghost use Rattle.lsm_crash.specs.Database.{Builds, Collect, Gather, Install, IsDrawn, Looks};
ghost use Rattle.lsm_crash.specs.Database.{AllDone, AllFail, Stays, operations};
ghost use Rattle.lsm_crash.specs.Lives.{Ages, AllLeave, Answers, FromNothing, Life};
ghost use Rattle.lsm_crash.specs.Lives.{SmallAges, Struck, Worked, brought};
ghost use Rattle.lsm_crash.specs.Kept.{FindsShown, IsCounted, IsKept, KeepsEach, KeepsFound};
ghost use Rattle.lsm_crash.specs.Kept.{KeepsShown};
ghost use Rattle.lsm_admission.specs.Answered.{IsAnswered};
ghost use Rattle.lsm_admission.specs.Keeping.{KeepsTables};
ghost use Rattle.lsm_crash.specs.Versions.{ComesTo, Tables, Version};
ghost use Rattle.lsm_journal.specs.declared.manifest_limit.ManifestLimit.{ManifestLimit};
ghost use Rattle.lsm_journal.specs.HeldManifest.{HeldManifest};
ghost use Rattle.lsm_journal.specs.Recorded.{IsRecorded};
ghost use Rattle.lsm_journal.specs.Finding.{IsFindRefusal};
ghost use Rattle.lsm_journal.specs.declared.open_fault.OpenFault.{OpenFault};
ghost use Rattle.lsm_state.specs.Opening.{IsOpenRefusal};
ghost use Rattle.lsm_crash.specs.Refusing.{IsNotWhatWasFound, IsWantOrDevice, ReadsShown};
ghost use Rattle.lsm_version.specs.Versions.{IsSound, Levels, files, no_levels};

use lsm_finding::Finding;
use lsm_model::machine::{Premise, runs_read_all_that_came};
use lsm_table::{Naming, Shelf};
use lsm_verify::shapes_in_order;
use lsm_version::changed_tables;

/// A manifest that records a version comes to a shape, and to none but the one that describes the
/// version.
pub fn manifests_describe_their_version()
    ensures comes { (rest : ℕ) (h : HeldManifest) (v : Levels) (next : ℕ) → IsRecorded rest h v next
        → (shape : Version) × ComesTo h.bytes shape }
    ensures describes { (rest : ℕ) (h : HeldManifest) (v : Levels) (next : ℕ) (shape : Version)
        → IsRecorded rest h v next → ComesTo h.bytes shape → Describes shape v }
{}

/// Which calls of its shelf a call of the state makes: the shelf's value keeps a list of the calls
/// by which it changed what lies there, and the contract of the call of the state says by which of
/// them that list grew. An ingest puts its table, and then writes to the manifest; so does a gather
/// with the one file; an install writes to the manifest; a collect removes what is not kept; an
/// opening and the making of a new database start one manifest. A merge puts its outputs. A refused
/// ingest put its table or nothing, a refused gather some table under the next number or nothing; a
/// refused install made nothing; a refused collect removed some, and the last one perhaps not.
pub fn shelves_tell_what_was_asked<P: Premise>()
    ensures one { (xs ys : List Asked) (was is : Told) → HasMade xs was is → HasMade ys was is
        → xs ≡ ys }
    ensures ingest { (old new : Held) (ws : List Write) (r : Ingested) (was is : Told)
        → (i : Ingests old new ws r was is)
        → HasMade (Put old.next (table_bytes_of old ws)
        ∷ changes_by (with_number old i.slots) (coming_in i.table (last_of old ws)) ∷ []) was is }
    ensures gather { (old new : Held) (number : ℕ) (was is : Told)
        → (i : Gathers P.holds old new number was is)
        → HasMade (Put old.next i.table.image ∷ changes_by (with_number old i.slots) i.change ∷ [])
        was is }
    ensures install { (old new : Held) (done : Done) (was is : Told)
        → (i : Installed old new done was is)
        → HasMade (changes_by (with_slots old i.slots) i.change ∷ []) was is }
    ensures collect { (h : Held) (removed : List ℕ) (was is : Told)
        → AreCollected h removed was is → HasMade (map Remove removed) was is }
    ensures open { (limit : ManifestLimit) (h : Held) (d : Disk) → (p : Opens P.holds limit h d)
        → HasMade (StartManifest h.journal.number h.journal.bytes ∷ []) p.was p.is }
    ensures create { (h : Held) → (m : IsMade h)
        → HasMade (StartManifest h.journal.number h.journal.bytes ∷ []) m.was m.now }
    ensures merge { (done : Done) (was is : Told) → Becomes (putting_all (puts_by done) was) is
        → HasMade (map (λ p. Put p.0 p.1) (puts_by done)) was is }
    ensures none { (was is : Told) → Becomes was is → HasMade [] was is }
    ensures ingest_err { (old new : Held) (ws : List Write) (fault : StateFault) (was is : Told)
        → IsIngestRefusal old new ws fault was is
        → HasMade [] was is ⊎ HasMade (Put old.next (table_bytes_of old ws) ∷ []) was is }
    ensures gather_err { (old new : Held) (fault : GatherFault) (was is : Told)
        → IsGatherRefusal P.holds old new fault was is
        → HasMade [] was is ⊎ ((image : List ℕ) × HasMade (Put old.next image ∷ []) was is) }
    ensures collect_err { (old new : Held) (fault : StateFault) (removed : List ℕ) (was is : Told)
        → IsCollectRefusal old new fault removed was is
        → HasMade (map Remove removed) was is ⊎ ((n : ℕ) × (IsKeptNumber new n → ⊥)
        × HasMade (map Remove removed ++ Remove n ∷ []) was is) }
{}

/// What a call that is answered Ok asks of its shelf may be asked for, one after the other; and
/// what is counted on then is what the new state stands for.
pub fn calls_ask_for_what_is_allowed<P: Premise>()
    ensures { (board : TableId) (old new : Held) (deed : Deed) (asks : List Asked) (w : World)
        (v : Version)
        → IsState P.holds board old → IsState P.holds board new
        → IsWorldOf old w → ComesTo w.bytes w.version
        → Asks P.holds old new deed asks → IsReady P.holds deed w → ComesTo new.journal.bytes v
        → AllowsAll w (operations v asks) × IsWorldOf new (after_all w (operations v asks)) }
{
    changed_tables();
}

/// After any run of calls of a database, each answered Ok or refused so that the state goes on,
/// with the puts of its workers and the calls of other threads between, all that the state stands
/// for is durable. A crash between two calls leaves the current version; a crash in any call of the
/// folder, or any refusal of one, leaves the version of before the database's call or that of after
/// it.
pub fn crashes_leave_a_version<P: Premise>()
    ensures keeps { (board : TableId) (turns : List Turn) (old now : Held) (w u : World)
        (d e : Disk) → IsState P.holds board old → IsSettled d w → IsWorldOf old w
        → Works P.holds board old now turns w u d e
        → IsSettled e u × IsWorldOf now u × IsState P.holds board now }
    ensures between { (board : TableId) (turns : List Turn) (old now : Held) (w u : World)
        (d e : Disk) (found : Found) → IsState P.holds board old → IsSettled d w → IsWorldOf old w
        → Works P.holds board old now turns w u d e → IsLeft e found
        → Finds now.slots.version found }
    ensures within { (board : TableId) (turns : List Turn) (old now new : Held) (deed : Deed)
        (w u : World) (known : Known) (d mid e : Disk) (found : Found)
        → IsState P.holds board old → IsSettled d w → IsWorldOf old w
        → Works P.holds board old now turns w u d mid
        → IsCut P.holds board now new deed u known mid e → IsLeft e found
        → Finds now.slots.version found ⊎ Finds new.slots.version found }
{
    changed_tables();
}

/// A call that was refused, and after which the state is not halted, leaves manifest and version;
/// the number of a table that an ingest or a gather has put, or perhaps put, is spent.
pub fn refused_calls_keep_the_version<P: Premise>()
    ensures ingest { (old new : Held) (ws : List Write) (fault : StateFault) (was is : Told)
        → IsIngestRefusal old new ws fault was is → old.next < 2 ^ 64 → new.halted ≡ false
        → Stays old new }
    ensures not_put { (old new : Held) (ws : List Write) (fault : StateFault) (was is : Told)
        → FailsToPut old new ws fault was is → old.next < new.next }
    ensures put { (old new : Held) (ws : List Write) (fault : StateFault) (was is : Told)
        → IsWelcome old ws → new.slots.version ≡ old.slots.version
        → FailsToChange old new ws fault was is → new.halted ≡ false → old.next < new.next }
    ensures gather { (old new : Held) (fault : GatherFault) (was is : Told)
        → IsGatherRefusal P.holds old new fault was is → old.next < 2 ^ 64 → new.halted ≡ false
        → Stays old new × ((is.made ≡ was.made) ⊎ (old.next < new.next)) }
    ensures install { (old new : Held) (done : Done) (fault : StateFault) (was is : Told)
        → IsInstallRefusal old new done fault was is → old.next < 2 ^ 64 → new.halted ≡ false
        → Stays old new }
    ensures collect { (old new : Held) → new ≡ with_slots old new.slots → HasLookedAround old new
        → old.next < 2 ^ 64 → new.halted ≡ false → Stays old new }
{}

/// A database that is opened over what is durable: once its manifest was started all that its state
/// stands for is durable. A crash in any call of the folder leaves the version that is opened, and
/// that is the one that was found: it has the same files. Where a call was refused and one can't
/// tell what is durable (`unsure`), an opening without a crash opens one of the versions that are
/// known, and then it alone is, where the number of its manifest is above those that `CURRENT` may
/// name.
pub fn databases_open_on_what_was_found<P: Premise>()
    ensures opened { (board : TableId) (limit : ManifestLimit) (h : Held) (d e : Disk) (w : World)
        (v : Version) (asks : List Asked)
        → IsState P.holds board h → IsSettled d w → (p : Opens P.holds limit h d)
        → HasMade asks p.was p.is → ComesTo h.journal.bytes v
        → DoneDropping w.tables h.journal.number (plans_of p.begun.before.number asks) d e
        → IsSettled e (opened_world h v w) × IsWorldOf h (opened_world h v w) }
    ensures cut { (board : TableId) (limit : ManifestLimit) (h : Held) (d e : Disk) (w : World)
        (v : Version) (asks : List Asked) (found : Found)
        → IsState P.holds board h → IsSettled d w → (p : Opens P.holds limit h d)
        → HasMade asks p.was p.is → ComesTo h.journal.bytes v
        → CutDropping w.tables h.journal.number (plans_of p.begun.before.number asks) d e
        → IsLeft e found
        → Finds h.slots.version found }
    ensures unsure { (board : TableId) (limit : ManifestLimit) (h : Held) (d e : Disk)
        (known : Known) (v : Version) (asks : List Asked)
        → IsState P.holds board h → IsHeld d known → (p : Opens P.holds limit h d)
        → HasMade asks p.was p.is
        → ((m : ℕ) → Has known.manifests m → m < h.journal.number) → ComesTo h.journal.bytes v
        → DoneDropping known.tables h.journal.number (plans_of p.begun.before.number asks) d e
        → IsSettled e (opened_world h v (started known h.journal.number h.journal.bytes v))
        × IsWorldOf h (opened_world h v (started known h.journal.number h.journal.bytes v))
        × ((s : Version) × Has known.versions s × Describes s h.slots.version) }
    ensures same { (limit : ManifestLimit) (h : Held) (d : Disk) (v : Levels) → Shown v d
        → Opens P.holds limit h d → length v.tables ≡ 7
        → ((F : File) → Has (files v) F ↔ Has (files h.slots.version) F)
        × (v.last ≡ h.slots.version.last) }
    ensures shown { (v : Levels) (found : Found) (d : Disk) → Finds v found → IsFresh found d
        → Shown v d }
{}

/// An opening is not refused for what is found. Over an honest shelf, where the folder shows a
/// version that is sound, as the type of a version says, and the shelf gave what the folder shows:
/// a refusal says that memory ran out, that no number is left, or that the shelf refused, with a
/// count that rose (`open`; `read` of an opening for reading alone). Where the shelf counted
/// nothing that is missing or taken, what it refused was for memory or for the device (`device`).
pub fn openings_are_not_refused_for_what_is_shown<N: Naming, S: Shelf>()
    ensures open { (limit : ManifestLimit) (e : OpenFault) (v : Levels) (d : Disk) (was is : Told)
        → S.honest → IsSound v → Shown v d
        → ReadsShown (Stored S.Receipt (S.is_of N.place) S.Receipt.number S.Receipt.image) v d
        was is
        → IsOpenRefusal (Stored S.Receipt (S.is_of N.place) S.Receipt.number S.Receipt.image)
        (S.refuses N.place) S.honest limit e was is
        → IsNotWhatWasFound (λ fault. Counted fault was is) e }
    ensures device { (limit : ManifestLimit) (e : OpenFault) (v : Levels) (d : Disk) (was is : Told)
        → S.honest → IsSound v → Shown v d
        → ReadsShown (Stored S.Receipt (S.is_of N.place) S.Receipt.number S.Receipt.image) v d
        was is
        → IsOpenRefusal (Stored S.Receipt (S.is_of N.place) S.Receipt.number S.Receipt.image)
        (S.refuses N.place) S.honest limit e was is
        → was.misses < 2 ^ 64 - 1 → is.misses ≡ was.misses → IsNotWhatWasFound IsWantOrDevice e }
    ensures read { (e : OpenFault) (v : Levels) (d : Disk) (was is : Told) → S.honest → IsSound v
        → Shown v d
        → ReadsShown (Stored S.Receipt (S.is_of N.place) S.Receipt.number S.Receipt.image) v d
        was is
        → IsFindRefusal (Stored S.Receipt (S.is_of N.place) S.Receipt.number S.Receipt.image)
        (S.refuses N.place) S.honest e was is
        → IsNotWhatWasFound (λ fault. Counted fault was is) e }
{
    shapes_in_order();
}

/// A new database in a folder without `CURRENT`: once its manifest was started all that its state
/// stands for is durable. A crash in any call of the folder leaves no `CURRENT`, or the new
/// database.
pub fn databases_are_made_or_not<P: Premise>()
    ensures made { (board : TableId) (h : Held) (d e : Disk) (v : Version) (asks : List Asked)
        → IsState P.holds board h → IsVacant d → (m : IsMade h) → HasMade asks m.was m.now
        → ComesTo h.journal.bytes v
        → DoneAmong nothing.tables (plans_of m.number asks) d e
        → IsSettled e (started nothing h.journal.number h.journal.bytes v)
        × IsWorldOf h (started nothing h.journal.number h.journal.bytes v) }
    ensures cut { (board : TableId) (h : Held) (d e : Disk) (v : Version) (asks : List Asked)
        (found : Found)
        → IsState P.holds board h → IsVacant d → (m : IsMade h) → HasMade asks m.was m.now
        → ComesTo h.journal.bytes v
        → CutAmong nothing.tables (plans_of m.number asks) d e → IsLeft e found
        → (found current_name ≡ None) ⊎ Finds h.slots.version found }
{}

/// Each ingest that was answered Ok is in the version that is found, after any number of crashes.
/// After any lives of a database, one after another, each of which begins with an opening and ends
/// with a crash in any call or without one, the folder shows a version, and all that is counted on
/// is durable again. Where the shelf is honest, a read of that version at its last sequence gives
/// what it gives over all entries that came in: those of every ingest that was answered Ok in any
/// of these lives, and of one that a crash cut, whole or not at all. Where the first
/// version is sound, so is that one (`sound`), and an opening is not refused for it
/// (`openings_are_not_refused_for_what_is_shown`).
///
/// So from a folder without a database on (`new`): after tries to make one, each of which a crash
/// cut before `CURRENT` was there, then a first life, which begins with the making of the database,
/// and others, there is no database, where there was no life yet; or the folder shows a version.
/// Where the shelf is honest that is sound, and a read of it gives all that came in.
pub fn ingests_survive_crashes<P: Premise>()
    ensures lives { (lives : List Life) (v : Levels)
        (es : List Entry) (w u : World) (d e : Disk)
        → IsSettled d w → Shown v d → length v.tables ≡ 7 → (P.holds → Answers v es)
        → Ages P.holds lives w d u e
        → IsSettled e u × ((x : Levels) × (fs : List Entry) × AllLeave lives v es x fs
        × Shown x e × (P.holds → Answers x fs)) }
    ensures sound { (lives : List Life) (v : Levels) (es : List Entry) (w u : World) (d e : Disk)
        → IsSettled d w → Shown v d → length v.tables ≡ 7 → (P.holds → Answers v es)
        → (P.holds → IsSound v) → Ages P.holds lives w d u e
        → (x : Levels) × (fs : List Entry) × AllLeave lives v es x fs × Shown x e
        × (P.holds → Answers x fs) × (P.holds → IsSound x) }
    ensures new { (tries : List Held) (lives : List Life) (d e : Disk) (o : Option World)
        → IsVacant d → FromNothing P.holds tries lives d o e
        → ((o ≡ None) × (lives ≡ []) × IsVacant e) ⊎ ((u : World) × (o ≡ Some u) × IsSettled e u
        × ((x : Levels) × (fs : List Entry) × AllLeave lives no_levels [] x fs × Shown x e
        × (P.holds → Answers x fs) × (P.holds → IsSound x))) }
    ensures works { (board : TableId) (turns : List Turn) (old now : Held) (w u : World)
        (d e : Disk) (es : List Entry) → P.holds → IsState P.holds board old
        → Works P.holds board old now turns w u d e → Answers old.slots.version es
        → Answers now.slots.version (brought turns ++ es) }
    ensures made { (h : Held) → IsMade h → Answers h.slots.version [] }
    ensures one { (board : TableId) (old new : Held) (deed : Deed) (asks : List Asked)
        (es : List Entry) → P.holds → IsState P.holds board old → Asks P.holds old new deed asks
        → Follows P.holds old new (Answered deed) → Answers old.slots.version es
        → Answers new.slots.version (brought (Answered deed ∷ []) ++ es) }
{
    changed_tables();
    runs_read_all_that_came::<P>();
}

/// What the folder of a database shows is kept, where the shelf is honest: the premise of an
/// opening that reads no table, for each folder that calls of a database alone wrote. The tables of
/// a sound version keep a shape that describes it (`version`). So what a state counts on keeps what
/// its manifest comes to (`world`), and so does what is counted on where a manifest is written: the
/// first one (`makes`), that of an opening, also where a call was refused before and one can't tell
/// what is durable (`opens`), and by a call that is answered Ok, which leaves a sound version
/// (`writes`). So histories of these are some of which `what_is_shown_is_kept` speaks.
///
/// After any run of calls the folder keeps what it shows, and so does what a crash leaves of it
/// (`between`); so it is where a call is cut, in any call of the folder (`within`). So it is after
/// any lives, one after another, over a folder that shows a sound version (`lives`), and from a
/// folder without a database on (`new`).
pub fn databases_keep_what_they_show<P: Premise>()
    ensures version { (v : Levels) (bytes : List ℕ) (s : Version) (tables : Tables) → IsSound v
        → HasTables tables v → ComesTo bytes s → Describes s v → IsKept (IsCounted tables) s }
    ensures world { (board : TableId) (h : Held) (w : World) → IsState P.holds board h
        → IsSound h.slots.version → IsWorldOf h w → ComesTo w.bytes w.version
        → IsKept (IsCounted w.tables) w.version }
    ensures makes { (board : TableId) (h : Held) (v : Version) → P.holds
        → IsState P.holds board h → IsMade h → ComesTo h.journal.bytes v
        → IsKept (IsCounted nothing.tables) v }
    ensures opens { (board : TableId) (limit : ManifestLimit) (h : Held) (d : Disk) (known : Known)
        (v : Version) → P.holds → IsState P.holds board h → IsHeld d known
        → Opens P.holds limit h d → ComesTo h.journal.bytes v
        → IsKept (IsCounted known.tables) v }
    ensures writes { (board : TableId) (old new : Held) (deed : Deed) (asks : List Asked)
        (w : World) (v : Version) → P.holds → IsState P.holds board old
        → IsState P.holds board new → IsSound old.slots.version → IsWorldOf old w
        → ComesTo w.bytes w.version → Asks P.holds old new deed asks → IsReady P.holds deed w
        → ComesTo new.journal.bytes v
        → KeepsEach w (map Does (operations v asks)) × IsSound new.slots.version }
    ensures between { (board : TableId) (turns : List Turn) (old now : Held) (w u : World)
        (d e : Disk) → P.holds → IsState P.holds board old → IsSound old.slots.version
        → IsSettled d w → IsWorldOf old w → Works P.holds board old now turns w u d e
        → KeepsShown e × ((found : Found) → IsLeft e found → KeepsFound found) }
    ensures within { (board : TableId) (turns : List Turn) (old now new : Held) (deed : Deed)
        (w u : World) (known : Known) (d mid e : Disk) → P.holds → IsState P.holds board old
        → IsSound old.slots.version → IsSettled d w → IsWorldOf old w
        → Works P.holds board old now turns w u d mid
        → IsCut P.holds board now new deed u known mid e
        → KeepsShown e × ((found : Found) → IsLeft e found → KeepsFound found) }
    ensures lives { (lives : List Life) (v : Levels) (w u : World) (d e : Disk) → P.holds
        → IsSettled d w → Shown v d → length v.tables ≡ 7 → IsSound v
        → Ages P.holds lives w d u e → KeepsShown e }
    ensures new { (tries : List Held) (lives : List Life) (d e : Disk) (o : Option World)
        → P.holds → IsVacant d → FromNothing P.holds tries lives d o e → KeepsShown e }
{
    changed_tables();
    runs_read_all_that_came::<P>();
}

/// So what a user key answers without a judgment of the tables is what all that came in answers.
/// Where a database was used in any lives, over an honest shelf, and a key was read by an opening
/// that reads no table, of what the folder shows then (`FindsShown`), over an honest shelf
/// (`IsAnswered`, as `get_unjudged` of `lsm_admission` says of its answer): the answer is that of
/// what was there before (`es`; nothing in `new`), of every ingest that was answered Ok in any of
/// these lives, and of each that a crash cut, whole or not at all. In `new` no premise is over what
/// the tables are.
pub fn quick_answers_give_what_came_in<P: Premise, S: Finding>()
    ensures lives { (place : Place) (lives : List Life) (v : Levels) (es : List Entry)
        (w u : World) (d e : Disk) (shape : Version) (user : List ℕ) (a : Option (List ℕ))
        (was is : Told)
        → P.holds → S.honest → IsSettled d w → Shown v d → length v.tables ≡ 7 → Answers v es
        → IsSound v → Ages P.holds lives w d u e
        → (q : IsAnswered (S.keeps place) (S.honest × KeepsTables (S.keeps place) shape) shape
        user a was is) → FindsShown (S.keeps place) q.held shape e
        → (x : Levels) × (fs : List Entry) × AllLeave lives v es x fs
        × (a ≡ answer fs user x.last) }
    ensures new { (place : Place) (tries : List Held) (lives : List Life) (d e : Disk)
        (o : Option World) (shape : Version) (user : List ℕ) (a : Option (List ℕ)) (was is : Told)
        → P.holds → S.honest → IsVacant d → FromNothing P.holds tries lives d o e
        → (q : IsAnswered (S.keeps place) (S.honest × KeepsTables (S.keeps place) shape) shape
        user a was is) → FindsShown (S.keeps place) q.held shape e
        → (x : Levels) × (fs : List Entry) × AllLeave lives no_levels [] x fs
        × (a ≡ answer fs user x.last) }
{
    changed_tables();
    runs_read_all_that_came::<P>();
}

/// The premises of these laws can be met on a disk. What a call that is answered Ok asks of its
/// shelf can be answered Ok by the folder, where no file has the name of the next table
/// (`answered`); so can what an opening asks (`opened`). And from states of which the contracts of
/// `create` and `ingest` are supposed: in an empty folder a database can be made, the batch be put,
/// and power be cut, and then its version is found (`small`). Where a shelf holds just what the
/// folder shows, an opening is given that (`given`).
///
/// So can the premises of runs with other turns, and of lives. A call that changes nothing is a
/// turn (`looks`); a table is put whose number a live job has drawn (`builds`). Behind what was
/// answered Ok any operation may be refused so that the database goes on (`fails`), and what
/// contracts say of a refused call is a turn (`ingest_err`, `gather_err`, `install_err`,
/// `collect_err`). An
/// ingest may be cut in its first call of the folder, or behind its last (`cut`). A database is
/// opened, an ingest is answered Ok, the next one is cut, and any opening of what is left is a life
/// more, or is cut (`ages`). In an empty folder a try to make a database is cut; then it is made,
/// an ingest is answered Ok, and power is cut (`new`).
pub fn premises_of_runs_are_met<P: Premise>()
    ensures answered { (board : TableId) (old new : Held) (deed : Deed) (asks : List Asked)
        (w : World) (v : Version) (d : Disk) → IsState P.holds board new → IsSettled d w
        → IsWorldOf old w → d.names (table_name old.next) ≡ None
        → Asks P.holds old new deed asks → IsReady P.holds deed w → ComesTo new.journal.bytes v
        → Follows P.holds old new (Answered deed)
        → (u : World) × (e : Disk)
        × Works P.holds board old new (Answered deed ∷ []) w u d e }
    ensures opened { (limit : ManifestLimit) (h : Held) (d : Disk) (asks : List Asked)
        (tables : Tables) → (p : Opens P.holds limit h d) → HasMade asks p.was p.is
        → (e : Disk)
        × DoneDropping tables h.journal.number (plans_of p.begun.before.number asks) d e }
    ensures small { (board : TableId) (h new : Held) (first asks : List Asked) (ws : List Write)
        (r : Ingested) (v s : Version) → IsState P.holds board h → IsState P.holds board new
        → (m : IsMade h) → HasMade first m.was m.now → ComesTo h.journal.bytes v
        → Asks P.holds h new (Ingest ws r) asks → ComesTo new.journal.bytes s
        → Follows P.holds h new (Answered (Ingest ws r))
        → SmallRun P.holds board h new v first m.number (Ingest ws r) }
    ensures looks { (board : TableId) (h : Held) (w : World) (d : Disk) → IsState P.holds board h
        → h.halted ≡ false → h.next < 2 ^ 64 → Works P.holds board h h (Looks ∷ []) w w d d }
    ensures builds { (board : TableId) (h : Held) (number : ℕ) (image : List ℕ) (w : World)
        (d : Disk) → IsState P.holds board h → IsSettled d w → IsWorldOf h w → IsDrawn h number
        → w.tables number ≡ None → d.names (table_name number) ≡ None
        → (e : Disk) × Works P.holds board h h (Builds number image ∷ []) w
        (counting number image w) d e }
    ensures fails { (os next : List Operation) (w u : World) (d e : Disk) → AllDone w os u d e
        → (x : World) × (m : Disk) × AllFail w os next x d m }
    ensures ingest_err { (board : TableId) (old new : Held) (ws : List Write) (r : Ingested)
        (fault : StateFault) (was is : Told) (w : World) (d : Disk)
        → IsState P.holds board new → IsSettled d w → IsWorldOf old w
        → d.names (table_name old.next) ≡ None → IsIngestRefusal old new ws fault was is
        → new.halted ≡ false → Spends (plain old) (plain new)
        → (u : World) × (e : Disk)
        × Works P.holds board old new (Refused (Ingest ws r) ∷ []) w u d e }
    ensures gather_err { (board : TableId) (old new : Held) (number : ℕ) (fault : GatherFault)
        (was is : Told) (w : World) (d : Disk)
        → IsState P.holds board new → IsSettled d w → IsWorldOf old w
        → d.names (table_name old.next) ≡ None → IsGatherRefusal P.holds old new fault was is
        → new.halted ≡ false → Spends (plain old) (plain new)
        → (u : World) × (e : Disk)
        × Works P.holds board old new (Refused (Gather number) ∷ []) w u d e }
    ensures install_err { (board : TableId) (old new : Held) (done : Done) (fault : StateFault)
        (was is : Told) (w : World) (d : Disk) → IsState P.holds board new
        → IsInstallRefusal old new done fault was is → Becomes was is → new.halted ≡ false
        → Spends (plain old) (plain new)
        → (u : World) × (e : Disk)
        × Works P.holds board old new (Refused (Install done) ∷ []) w u d e }
    ensures collect_err { (board : TableId) (old new : Held) (removed : List ℕ)
        (fault : StateFault) (was is : Told) (w : World) (d : Disk) → IsState P.holds board new
        → new ≡ with_slots old new.slots → IsCollectRefusal old new fault removed was is
        → ((asks : List Asked) (number : ℕ) → HasMade asks was is → Has asks (Remove number)
        → number < 2 ^ 64) → new.halted ≡ false → Spends (plain old) (plain new)
        → (u : World) × (e : Disk)
        × Works P.holds board old new (Refused (Collect removed) ∷ []) w u d e }
    ensures cut { (board : TableId) (old new : Held) (ws : List Write) (r : Ingested)
        (was is : Told) (w : World) (d : Disk) → IsState P.holds board new → IsSettled d w
        → IsWorldOf old w → d.names (table_name old.next) ≡ None
        → IsWelcome old ws → Ingests old new ws r was is
        → machine.Ingests (plain old) (entries_of old ws) (plain new)
        → (known : Known) × (all : Known) × (e : Disk)
        × IsCut P.holds board old new (Ingest ws r) w known d d
        × IsCut P.holds board old new (Ingest ws r) w all d e }
    ensures ages { (board : TableId) (limit : ManifestLimit) (h now new : Held) (ws xs : List Write)
        (r s : Ingested) (w : World) (d : Disk) → IsIngestOf P.holds board h now ws r
        → IsIngestOf P.holds board now new xs s → IsSettled d w
        → d.names (table_name h.next) ≡ None → Opens P.holds limit h d
        → SmallAges P.holds board limit
        (Struck h now new (Answered (Ingest ws r) ∷ []) (Ingest xs s)) w d }
    ensures new { (board : TableId) (h new : Held) (ws : List Write) (r : Ingested) → IsMade h
        → IsIngestOf P.holds board h new ws r
        → (u : World) × (e : Disk) × FromNothing P.holds (h ∷ [])
        (Worked h new (Answered (Ingest ws r) ∷ []) ∷ []) empty_disk (Some u) e }
    ensures given { (v : Levels) (d : Disk) (was : Told) → (s : Shown v d)
        → ReadsShown (λ number image. Shows d (table_name number) image) v d was
        (finding s.manifest s.bytes was) }
{
    changed_tables();
}
