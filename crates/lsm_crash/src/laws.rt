//! Laws of what a crash leaves of a database. Each function's contract is one law, or a few that
//! belong together; its body is empty.

ghost use Rattle.std.specs.Prelude.{◌≡◌, ◌<◌, ◌≤◌, ◌^◌, ◌⊎◌, ◌%◌, ◌+◌, ℕ, List, [], ◌∷◌, ◌++◌};
ghost use Rattle.std.specs.Prelude.{length, take, Bool, true, Some, None, Result, Ok, Err, codes};
ghost use Rattle.lsm_codec.specs.Lists.{Has};
ghost use Rattle.lsm_folder.specs.Calls.{Answer, Call, made, wrote, appended, synced};
ghost use Rattle.lsm_folder.specs.Calls.{folder_synced, renamed, removed, loaded, locked};
ghost use Rattle.lsm_folder.specs.Finding.{fitted};
ghost use Rattle.lsm_folder.specs.declared.folder_fault.FolderFault as folder_fault;
ghost use Rattle.lsm_folder.specs.declared.lock_kind.LockKind.{LockKind};
ghost use Rattle.lsm_storage.specs.FileNames.{table_name, manifest_name, temporary_name};
ghost use Rattle.lsm_storage.specs.FileNames.{current_text};
ghost use Rattle.lsm_storage.specs.Plans.{Step as Asked, AppendStopped, PutStopped, Refused};
ghost use Rattle.lsm_storage.specs.Plans.{RemoveStopped, StartStopped, StartedFrom, append_plan};
ghost use Rattle.lsm_storage.specs.Plans.{done, manifest_measured, name_plan, put_plan};
ghost use Rattle.lsm_storage.specs.Plans.{remove_plan, start_plan};
ghost use Rattle.lsm_shelf.specs.Told.{Place};
ghost use Rattle.lsm_shelf.specs.declared.shelf_fault.ShelfFault.{ShelfFault};
ghost use Rattle.lsm_shelf.specs.declared.shelf_fault.ShelfFault.TheVariants.{OutOfMemory};
ghost use Rattle.lsm_admission.specs.Keeping.{KeepsTables};
ghost use Rattle.lsm_admission.specs.KnownAnswers.{KnownImage};
ghost use Rattle.lsm_manifest.specs.Edit.{IsEdit};
ghost use Rattle.lsm_manifest.specs.FileOrder.{TableFile};
ghost use Rattle.lsm_manifest.specs.LogWriting.{record_text};
ghost use Rattle.lsm_manifest.specs.Shape.{IsShape};
ghost use Rattle.lsm_manifest.specs.WholeEdit.{whole_edit};
ghost use Rattle.lsm_verify.specs.Loading.{all_files};
ghost use Rattle.lsm_journal.specs.HeldManifest.{HeldManifest};
ghost use Rattle.lsm_journal.specs.Recovering.{IsRecovered};
ghost use Rattle.lsm_crash.specs.Disk.{After, Disk, Leaves, Names, Shows, Step};
ghost use Rattle.lsm_crash.specs.Disk.{empty_disk};
ghost use Rattle.lsm_crash.specs.Crash.{Found, IsFresh, IsLeft, IsSpoilt, MayFind};
ghost use Rattle.lsm_crash.specs.Crash.{MayFindBoth, mixed, spoilt};
ghost use Rattle.lsm_crash.specs.Versions.{AreSmall, AreThere, ComesTo, IsNamed, LeadsTo, Tables};
ghost use Rattle.lsm_crash.specs.Versions.{Version};
ghost use Rattle.lsm_crash.specs.Known.{IsHeld, IsSettled, IsSound, IsVacant, KeepsFront, Known};
ghost use Rattle.lsm_crash.specs.Known.{Recovers, Stands, World, current_name, known_of, nothing};
ghost use Rattle.lsm_crash.specs.Known.{world_of};
ghost use Rattle.lsm_crash.specs.Operations.{Allows, Append, MayStart, Operation, Put, Remove};
ghost use Rattle.lsm_crash.specs.Operations.{Start, after, either, plan_of, started, starting};
ghost use Rattle.lsm_crash.specs.Among.{Cleans, CutAmong, CutDropping, CutOf, DoneAmong};
ghost use Rattle.lsm_crash.specs.Among.{DoneDropping, DoneOf, Event, Goes, IsAside, IsGap, Spares};
ghost use Rattle.lsm_crash.specs.History.{History, IsPhase, IsRead, Move, Phase};
ghost use Rattle.lsm_crash.specs.Kept.{AreKept, FindsShown, IsKeptPhase, KeepsAll, KeepsFound};
ghost use Rattle.lsm_crash.specs.Kept.{KeepsShown};

use lsm_admission::KnownTables;
use lsm_finding::Finding;
use lsm_folder::Contents;

/// A crash in any call of an operation, after any run of operations, among calls of other threads:
/// `CURRENT` names the manifest from before that operation or the one from after it, the whole
/// records of which come to the version of before or of after, and each table is there, whole.
pub fn crashes_leave_before_or_after()
    ensures { (es : List Event) (o : Operation) (d mid e : Disk) (w u : World) (found : Found)
        → IsSettled d w → Goes w es u d mid
        → Allows u o → CutOf u o mid e → IsLeft e found
        → Recovers (either u o) found }
{}

/// After a run of operations, each answered Ok or refused so that the database goes on, all that
/// it counts on is durable; so it is after one more that was answered Ok.
pub fn runs_are_durable()
    ensures run { (es : List Event) (d e : Disk) (w u : World) → IsSettled d w → Goes w es u d e
        → IsSettled e u }
    ensures done { (o : Operation) (d e : Disk) (w : World) → IsSettled d w → Allows w o
        → DoneOf w o d e → IsSettled e (after w o) }
{}

/// What is found after a crash is settled once the folder is used again, so the first law holds of
/// as many crashes as there are.
pub fn found_folders_are_settled()
    ensures settled { (known : Known) (found : Found) (d : Disk) → (r : Recovers known found)
        → IsFresh found d → IsSettled d (world_of known found r) }
    ensures vacant { (found : Found) (d : Disk) → found current_name ≡ None → IsFresh found d
        → IsVacant d }
{}

/// A table that was made, synced, and the folder synced, stands, whatever other calls came in
/// between that do not touch it.
pub fn tables_stand_once_put()
    ensures { (d d1 d2 d3 d4 d5 : Disk) (name image : List ℕ) (cs more : List Call) → IsSound d
        → Step d (made name image (Ok tt)) d1 → Spares name cs d1 d2
        → Step d2 (synced name (Ok tt)) d3 → Spares name more d3 d4
        → Step d4 (folder_synced (Ok tt)) d5 → Stands d5 name image }
{}

/// An operation that was refused in any call leaves no more in doubt than a crash there would: so
/// much is known, calls of other threads leave it, and all else that follows may start from that.
pub fn refused_operations_leave_before_or_after()
    ensures refused { (o : Operation) (d e : Disk) (w : World) → IsSettled d w → Allows w o
        → CutOf w o d e → IsHeld e (either w o) }
    ensures settled { (d : Disk) (w : World) → IsSettled d w → IsHeld d (known_of w) }
    ensures others { (known : Known) (d e : Disk) → IsHeld d known → IsGap known.tables d e
        → IsHeld e known }
{}

/// A manifest that is started over whatever is known, as where a folder is opened again without a
/// crash after the device failed: once that was answered Ok, it alone is known. Cut or refused in
/// any call, all is known as before; or `CURRENT` shows the new name, which may be lost.
pub fn starts_settle_what_is_known()
    ensures done { (known : Known) (number : ℕ) (bytes : List ℕ) (v : Version) (d e : Disk)
        → IsHeld d known → MayStart known number bytes v
        → DoneDropping known.tables number (start_plan number bytes) d e
        → IsSettled e (started known number bytes v) }
    ensures cut { (known : Known) (number : ℕ) (bytes : List ℕ) (v : Version) (d e : Disk)
        → IsHeld d known → MayStart known number bytes v
        → CutDropping known.tables number (start_plan number bytes) d e
        → IsHeld e known ⊎ (IsHeld e (starting known number v)
        × Shows e current_name (current_text number)) }
{}

/// What a crash finds is one of what is known.
pub fn crashes_leave_what_is_known()
    ensures { (known : Known) (d : Disk) (found : Found) → IsHeld d known → IsLeft d found
        → ((known.may_miss ≡ true) × (found current_name ≡ None)) ⊎ Recovers known found }
{}

/// So is what is read without a crash.
pub fn reads_show_what_is_known()
    ensures current { (known : Known) (number : ℕ) (d e : Disk) → IsHeld d known → number < 2 ^ 64
        → Step d (loaded current_name (Ok (current_text number))) e → Has known.manifests number }
    ensures manifest { (known : Known) (number : ℕ) (bytes : List ℕ) (d mid e : Disk)
        → IsHeld d known → number < 2 ^ 64
        → Step d (loaded current_name (Ok (current_text number))) mid
        → Step mid (loaded (manifest_name number) (Ok bytes)) e
        → (v : Version) × Has known.versions v × ComesTo bytes v }
{}

/// On a worse disk, where anything may stand behind the durable bytes of a file, `CURRENT` and the
/// tables are spared, and a front of the manifest comes to one of the versions
/// that are known. What its reader makes of the bytes behind that is not said.
pub fn garbage_spares_what_is_durable()
    ensures { (known : Known) (d : Disk) (found : Found) → IsHeld d known → IsSpoilt d found
        → ((known.may_miss ≡ true) × (found current_name ≡ None)) ⊎ KeepsFront known found }
{}

/// Through any history of runs, operations that were cut or refused, crashes, and starts over what
/// is known, as many of each as one likes, what is known stays true of the disk. So a history may
/// begin in an empty folder, and whatever it ends with may be followed by a crash.
pub fn histories_keep_what_is_known()
    ensures kept { (moves : List Move) (p q : Phase) (d e : Disk) → IsPhase p d
        → History p moves q d e → IsPhase q e }
    ensures read { (known : Known) (found : Found) (w : World) → (r : Recovers known found)
        → IsRead known found w
        → w ≡ world_of known found r }
    ensures one { (bytes : List ℕ) (u v : Version) → ComesTo bytes u → ComesTo bytes v → u ≡ v }
{}

/// The tables of the manifest that `CURRENT` shows are kept, so an opening may go without reading
/// them. Where the tables that are counted on keep each version that may be (`AreKept`), the folder
/// keeps the version that it shows (`shown`), and so does what a crash leaves of it (`found`).
/// Through any history of runs, cuts, refusals, crashes and starts that stays so, where the tables
/// that are counted on when a version is written keep it (`histories`), as those of a database do
/// (`databases_keep_what_they_show`).
pub fn what_is_shown_is_kept()
    ensures shown { (known : Known) (d : Disk) → IsHeld d known → AreKept known → KeepsShown d }
    ensures found { (known : Known) (d : Disk) (found : Found) → IsHeld d known → AreKept known
        → IsLeft d found → KeepsFound found }
    ensures histories { (moves : List Move) (p q : Phase) (d e : Disk) → IsPhase p d
        → IsKeptPhase p → KeepsAll moves → History p moves q d e
        → IsKeptPhase q × KeepsShown e
        × ((found : Found) → IsLeft e found → KeepsFound found) }
{}

/// So the premise of an opening that reads no table is met, where the manifest that was read is the
/// one that `CURRENT` shows, by a shelf that keeps, under the numbers of its files, no image of a
/// file's size but the one that the folder shows.
pub fn shelves_keep_what_is_shown<S: Finding>()
    ensures { (place : Place) (h : HeldManifest) (shape : Version) (rest : ℕ) (d : Disk)
        → KeepsShown d → h.number < 2 ^ 64 → IsRecovered h shape rest
        → FindsShown (S.keeps place) h shape d
        → KeepsTables (S.keeps place) shape }
{}

/// Such a shelf is that on a folder of the system with the program's witness, `Mute<C>`, for each
/// `C` that names what the folder shows of these files. What the witness says that a file holds is
/// what `C` names, cut or filled to the length.
pub fn contents_keep_what_is_shown<C: Contents>()
    ensures { (folder : List ℕ) (h : HeldManifest) (shape : Version) (rest : ℕ) (d : Disk)
        → KeepsShown d → h.number < 2 ^ 64 → IsRecovered h shape rest
        → Shows d current_name (current_text h.number)
        → Shows d (manifest_name h.number) h.bytes
        → ((file : TableFile) (image : List ℕ) → Has (all_files shape.levels) file
        → Shows d (table_name file.number) image
        → C.contents folder (table_name file.number) ≡ image)
        → FindsShown (λ n image.
        image ≡ fitted (length image) (C.contents folder (table_name n))) h shape d }
{}

/// And so is one whose tables a program knows (`Known<K>` of `lsm_admission`, which is honest),
/// where it knows what the folder shows of these files.
pub fn known_tables_keep_what_is_shown<K: KnownTables>()
    ensures { (h : HeldManifest) (shape : Version) (rest : ℕ) (d : Disk) → KeepsShown d
        → h.number < 2 ^ 64 → IsRecovered h shape rest
        → Shows d current_name (current_text h.number)
        → Shows d (manifest_name h.number) h.bytes
        → ((file : TableFile) (image : List ℕ) → Has (all_files shape.levels) file
        → Shows d (table_name file.number) image → K.images file.number ≡ image)
        → FindsShown (KnownImage K.images) h shape d }
{}

/// The first manifest in a folder without `CURRENT`: a crash in any of its calls leaves no
/// `CURRENT`, or the new database whole; once it was answered Ok it is durable.
pub fn a_new_database_is_there_or_not()
    ensures cut { (number : ℕ) (bytes : List ℕ) (v : Version) (d e : Disk) (found : Found)
        → IsVacant d → MayStart nothing number bytes v
        → CutAmong nothing.tables (start_plan number bytes) d e → IsLeft e found
        → (found current_name ≡ None) ⊎ Recovers (starting nothing number v) found }
    ensures done { (number : ℕ) (bytes : List ℕ) (v : Version) (d e : Disk)
        → IsVacant d → MayStart nothing number bytes v
        → DoneAmong nothing.tables (start_plan number bytes) d e
        → IsSettled e (started nothing number bytes v) }
    ensures vacant { (d : Disk) → IsVacant d → IsHeld d nothing }
{}

/// The record of one edit more leads from one version to the next, wherever it is cut.
pub fn records_lead()
    ensures whole { (bytes text : List ℕ) (old new : Version) → LeadsTo bytes text old new
        → ComesTo (bytes ++ text) new }
    ensures cut { (bytes text : List ℕ) (old new : Version) → LeadsTo bytes text old new → (k : ℕ)
        → length bytes ≤ k
        → ComesTo (take k (bytes ++ text)) old ⊎ ComesTo (take k (bytes ++ text)) new }
{}

/// The list of calls of a shelf that made a plan, or was refused in it, is the plan done on the
/// disk, or cut.
pub fn calls_of_plans()
    ensures done { (tables : Tables) (plan : List Asked) (calls : List Call) (d e : Disk)
        → After d (done plan calls) e
        → (mid : Disk) × After d calls mid × DoneAmong tables plan mid e }
    ensures refused { (tables : Tables) (plan : List Asked) (fault : folder_fault.FolderFault)
        (old new : List Call) (d e : Disk)
        → Refused plan fault old new → After d new e
        → (mid : Disk) × After d old mid × CutAmong tables plan mid e }
{}

/// What a shelf's calls leave that were answered Ok, by the shelf's own words: where all that is
/// counted on was durable after the calls so far, so it is after these. The manifest that an append
/// goes to is the one that the database means, as `CURRENT` was read.
pub fn answered_calls_of_a_shelf_are_durable()
    ensures put { (d : Disk) (old : List Call) (w : World) (number : ℕ) (image : List ℕ)
        → Leaves d old (λ e. IsSettled e w) → Allows w (Put number image)
        → Leaves d (done (put_plan number image) old)
        (λ e. IsSettled e (after w (Put number image))) }
    ensures removed { (d : Disk) (old : List Call) (w : World) (number : ℕ)
        → Leaves d old (λ e. IsSettled e w) → Allows w (Remove number)
        → Leaves d (done (remove_plan number) old) (λ e. IsSettled e (after w (Remove number))) }
    ensures appended { (d : Disk) (old : List Call) (w : World) (n len : ℕ) (text : List ℕ)
        (v : Version)
        → Leaves d old (λ e. IsSettled e w) → Allows w (Append text v)
        → Leaves d (done (append_plan n text) (manifest_measured n len old))
        (λ e. IsSettled e (after w (Append text v))) }
    ensures started { (d : Disk) (old new : List Call) (w : World) (number : ℕ) (bytes : List ℕ)
        (v : Version)
        → Leaves d old (λ e. IsSettled e w) → Allows w (Start number bytes v)
        → StartedFrom number bytes old new
        → Leaves d new (λ e. IsSettled e (after w (Start number bytes v))) }
{}

/// What a shelf's calls leave that were refused, by the shelf's own words. A put that was refused
/// changes nothing that is counted on, nor does want of memory in an append or a start; nor does a
/// removal that was refused, but that the table is no more counted on. Any other refusal of these,
/// and a crash in any call of a plan, leaves the version of before or the one of after.
pub fn refused_calls_of_a_shelf_leave_before_or_after()
    ensures put { (d : Disk) (old new : List Call) (w : World) (number : ℕ) (image : List ℕ)
        (fault : ShelfFault)
        → Leaves d old (λ e. IsSettled e w) → Allows w (Put number image)
        → PutStopped number image fault old new
        → Leaves d new (λ e. IsSettled e w) }
    ensures removed { (d : Disk) (old new : List Call) (w : World) (number : ℕ) (fault : ShelfFault)
        → Leaves d old (λ e. IsSettled e w) → Allows w (Remove number)
        → RemoveStopped number fault old new
        → Leaves d new (λ e. IsSettled e (after w (Remove number))) }
    ensures appended { (d : Disk) (old new : List Call) (w : World) (text : List ℕ) (v : Version)
        (fault : ShelfFault)
        → Leaves d old (λ e. IsSettled e w) → Allows w (Append text v)
        → AppendStopped text fault old new
        → Leaves d new (λ e. IsHeld e (either w (Append text v))) }
    ensures append_memory { (d : Disk) (old new : List Call) (w : World) (text : List ℕ)
        (v : Version)
        → Leaves d old (λ e. IsSettled e w) → Allows w (Append text v)
        → AppendStopped text OutOfMemory old new
        → Leaves d new (λ e. IsSettled e w) }
    ensures started { (d : Disk) (old new : List Call) (w : World) (number : ℕ) (bytes : List ℕ)
        (v : Version) (fault : ShelfFault)
        → Leaves d old (λ e. IsSettled e w) → Allows w (Start number bytes v)
        → StartStopped number bytes fault old new
        → Leaves d new (λ e. IsHeld e (either w (Start number bytes v))) }
    ensures start_memory { (d : Disk) (old new : List Call) (w : World) (number : ℕ)
        (bytes : List ℕ) (v : Version)
        → Leaves d old (λ e. IsSettled e w) → Allows w (Start number bytes v)
        → StartStopped number bytes OutOfMemory old new
        → Leaves d new (λ e. IsSettled e w) }
    ensures cut { (d : Disk) (old new : List Call) (w : World) (o : Operation)
        (fault : folder_fault.FolderFault)
        → Leaves d old (λ e. IsSettled e w) → Allows w o → Refused (plan_of w o) fault old new
        → Leaves d new (λ e. IsHeld e (either w o)) }
    ensures read { (d : Disk) (old : List Call) (w : World) (name : List ℕ)
        (answer : Result (List ℕ) folder_fault.FolderFault)
        → Leaves d old (λ e. IsSettled e w) → Leaves d (loaded name answer ∷ old)
        (λ e. IsSettled e w) }
{}

/// What a cleaning of a folder does may be done, as where a program was killed between an append or
/// a rename and the sync behind it: once the manifest that `CURRENT` shows and the folder were
/// synced, what is shown is durable, and its version is one that was known. Then the names of other
/// manifests, of temporary files, and of tables that are not counted on may be removed, whatever is
/// answered.
pub fn cleanings_keep_what_is_shown()
    ensures synced { (known : Known) (number : ℕ) (bytes : List ℕ) (d mid e : Disk)
        → IsHeld d known → number < 2 ^ 64 → Shows d current_name (current_text number)
        → Shows d (manifest_name number) bytes
        → Step d (synced (manifest_name number) (Ok tt)) mid → Step mid (folder_synced (Ok tt)) e
        → (v : Version) × Has known.versions v × IsSettled e (started known number bytes v) }
    ensures fewer { (d : Disk) (w : World) (tables : Tables) → IsSettled d w
        → ((number : ℕ) (image : List ℕ) → tables number ≡ Some image
        → w.tables number ≡ Some image) → AreThere w.version tables
        → IsSettled d (record w { tables = tables }) }
    ensures removed { (w : World) (names : List (List ℕ)) (d e : Disk) → IsSettled d w
        → Cleans w names d e → IsSettled e w }
{}

/// Other threads may make, sync and remove tables that are not counted on, whatever is answered,
/// and sync the folder and lock it.
pub fn calls_of_other_threads_are_aside()
    ensures made { (tables : Tables) (number : ℕ) (image : List ℕ) (answer : Answer)
        → AreSmall tables → number < 2 ^ 64
        → tables number ≡ None → IsAside tables (made (table_name number) image answer) }
    ensures synced { (tables : Tables) (number : ℕ) (answer : Answer) → AreSmall tables
        → number < 2 ^ 64
        → tables number ≡ None → IsAside tables (synced (table_name number) answer) }
    ensures removed { (tables : Tables) (number : ℕ) (answer : Answer) → AreSmall tables
        → number < 2 ^ 64
        → tables number ≡ None → IsAside tables (removed (table_name number) answer) }
    ensures folder { (tables : Tables) (answer : Answer) → IsAside tables (folder_synced answer) }
    ensures locked { (tables : Tables) (kind : LockKind)
        (answer : Result Bool folder_fault.FolderFault)
        → IsAside tables (locked (codes "LOCK") kind answer) }
{}

/// The laws are not empty: on a disk without files `CURRENT` is not there; each plan can be
/// answered Ok, that of a put where no file has the table's name; behind a start any other manifest
/// may be gone; some disk is settled; and each sound disk may crash, and what is found may be used
/// again.
pub fn premises_are_met()
    ensures vacant { IsVacant empty_disk }
    ensures start { (tables : Tables) (number : ℕ) (bytes : List ℕ) (d : Disk)
        → (e : Disk) × DoneAmong tables (start_plan number bytes) d e }
    ensures follow { (tables : Tables) (number other : ℕ) (bytes : List ℕ) (d : Disk)
        → other < 2 ^ 64 → (other ≡ number → ⊥)
        → (e : Disk) × DoneDropping tables number (start_plan number bytes) d e
        × (e.names (manifest_name other) ≡ None) }
    ensures put { (tables : Tables) (number : ℕ) (image : List ℕ) (d : Disk)
        → d.names (table_name number) ≡ None
        → (e : Disk) × DoneAmong tables (put_plan number image) d e }
    ensures append { (tables : Tables) (number : ℕ) (text : List ℕ) (d : Disk) (i : ℕ)
        → d.names (manifest_name number) ≡ Some i
        → (e : Disk) × DoneAmong tables (append_plan number text) d e }
    ensures remove { (tables : Tables) (number : ℕ) (d : Disk)
        → (e : Disk) × DoneAmong tables (remove_plan number) d e }
    ensures settled { (v : Version) (own : List ℕ) → IsShape v → IsEdit own (whole_edit v)
        → ((number : ℕ) → IsNamed v number → ⊥)
        → (d : Disk) × IsSettled d (started nothing 1 (record_text 0 own) v) }
    ensures crash { (d : Disk) → IsSound d → (found : Found) × (e : Disk) × IsLeft d found
        × IsFresh found e }
{}

/// The disk is as wide as its rule says, so that a law over it speaks of all that. After a crash
/// each name, for itself, has the file that it had at any moment since the last sync of the folder,
/// and each file its durable bytes with any beginning of those behind them. So a file that was made
/// may be lost, or empty; a removal may be undone; of a rename one half may be lost, or the other;
/// of an append any beginning may be there; a file that was written anew may have its old bytes, or
/// be missing. A call that was refused, or was cut, may have done nothing, or all, or a beginning;
/// what it made may be taken away again (`undone`), and a crash may bring that back. A lock may
/// have made its file, whatever it was answered. On a worse disk any bytes may stand behind the
/// durable ones, up to the length (`spoilt`).
pub fn disks_may()
    ensures mixed { (d : Disk) (moments : List ℕ → Names) (fronts : ℕ → ℕ)
        → ((name : List ℕ) → Has d.past (moments name)) → ((i : ℕ) → d.kept i ≤ fronts i)
        → IsLeft d (mixed d moments fronts) }
    ensures made { (d e : Disk) (name bytes : List ℕ) (k : ℕ) → IsSound d
        → Step d (made name bytes (Ok tt)) e
        → MayFind e name None × MayFind e name (Some (take k bytes)) }
    ensures removed { (d e : Disk) (name bytes : List ℕ) → IsSound d → Shows d name bytes
        → Step d (removed name (Ok tt)) e → MayFind e name None × MayFind e name (Some bytes) }
    ensures renamed { (d e : Disk) (from to bytes old : List ℕ) → IsSound d → (from ≡ to → ⊥)
        → Shows d from bytes → Shows d to old → Step d (renamed from to (Ok tt)) e
        → MayFindBoth e from to (Some bytes) (Some old)
        × MayFindBoth e from to (Some bytes) (Some bytes)
        × MayFindBoth e from to None (Some old) × MayFindBoth e from to None (Some bytes) }
    ensures appended { (d e : Disk) (name old bytes : List ℕ) (k : ℕ) → IsSound d
        → Stands d name old → Step d (appended name bytes (Ok tt)) e
        → MayFind e name (Some (old ++ take k bytes)) }
    ensures wrote { (d : Disk) (name old bytes : List ℕ) (k : ℕ) → IsSound d → Shows d name old
        → ((e : Disk) × Step d (wrote name bytes (Ok tt)) e × MayFind e name (Some old))
        × ((e : Disk) × Step d (wrote name bytes (Ok tt)) e × MayFind e name None)
        × ((e : Disk) × Step d (wrote name bytes (Ok tt)) e
        × MayFind e name (Some (take k bytes))) }
    ensures nothing { (d : Disk) (name other bytes : List ℕ) (fault : folder_fault.FolderFault)
        → Step d (made name bytes (Err fault)) d × Step d (wrote name bytes (Err fault)) d
        × Step d (appended name bytes (Err fault)) d × Step d (synced name (Err fault)) d
        × Step d (folder_synced (Err fault)) d × Step d (renamed name other (Err fault)) d
        × Step d (removed name (Err fault)) d }
    ensures all { (d e : Disk) (name other : List ℕ) (fault : folder_fault.FolderFault)
        → (Step d (synced name (Ok tt)) e → Step d (synced name (Err fault)) e)
        × (Step d (folder_synced (Ok tt)) e → Step d (folder_synced (Err fault)) e)
        × (Step d (renamed name other (Ok tt)) e → Step d (renamed name other (Err fault)) e)
        × (Step d (removed name (Ok tt)) e → Step d (removed name (Err fault)) e) }
    ensures begun { (d e : Disk) (name bytes : List ℕ) (k : ℕ) (fault : folder_fault.FolderFault)
        → (Step d (made name (take k bytes) (Ok tt)) e → Step d (made name bytes (Err fault)) e)
        × (Step d (wrote name (take k bytes) (Ok tt)) e → Step d (wrote name bytes (Err fault)) e)
        × (Step d (removed name (Ok tt)) e → Step d (wrote name bytes (Err fault)) e)
        × ((fault ≡ folder_fault.FolderFault.OutOfMemory → ⊥)
        → Step d (appended name (take k bytes) (Ok tt)) e
        → Step d (appended name bytes (Err fault)) e) }
    ensures undone { (d mid e : Disk) (name bytes : List ℕ) (k : ℕ)
        (fault : folder_fault.FolderFault) → Step mid (removed name (Ok tt)) e
        → (Step d (made name (take k bytes) (Ok tt)) mid → Step d (made name bytes (Err fault)) e)
        × (Step d (wrote name (take k bytes) (Ok tt)) mid
        → Step d (wrote name bytes (Err fault)) e) }
    ensures locked { (d e : Disk) (name : List ℕ) (kind : LockKind)
        (answer : Result Bool folder_fault.FolderFault)
        → Step d (locked name kind answer) d
        × (Step d (made name [] (Ok tt)) e → Step d (locked name kind answer) e) }
    ensures spoilt { (d : Disk) (moments : List ℕ → Names) (garbage : ℕ → List ℕ)
        → ((name : List ℕ) → Has d.past (moments name))
        → ((i : ℕ) → d.kept i + length (garbage i) ≤ length (d.bytes i))
        → IsSpoilt d (spoilt d moments garbage) }
{}

/// Other orders are not safe, so the laws say something of these: a table that is not synced may be
/// found empty, and where the folder is not synced, not at all; a record that is not synced may be
/// lost; and where a manifest gets its name before it is synced, `CURRENT` may name an empty one.
/// Where the manifest that is followed is removed before the rename is durable, `CURRENT` may name
/// it, and it may be gone.
pub fn other_orders_lose()
    ensures table { (tables : Tables) (number : ℕ) (image : List ℕ) (d : Disk)
        → d.names (table_name number) ≡ None
        → (e : Disk) × (found : Found)
        × DoneAmong tables (made (table_name number) image ∷ folder_synced ∷ []) d e
        × IsLeft e found × (found (table_name number) ≡ Some []) }
    ensures name { (tables : Tables) (number : ℕ) (image : List ℕ)
        → (e : Disk) × (found : Found)
        × DoneAmong tables (made (table_name number) image ∷ synced (table_name number) ∷ [])
        empty_disk e
        × IsLeft e found × (found (table_name number) ≡ None) }
    ensures unsynced { (tables : Tables) (w : World) (text : List ℕ) (d : Disk) → IsSettled d w
        → (e : Disk) × (found : Found)
        × DoneAmong tables (appended (manifest_name w.manifest) text ∷ []) d e
        × IsLeft e found × (found (manifest_name w.manifest) ≡ Some w.bytes) }
    ensures manifest { (tables : Tables) (number : ℕ) (bytes : List ℕ) (d : Disk) → IsSound d
        → number < 2 ^ 64
        → (e : Disk) × (found : Found)
        × DoneAmong tables (wrote (manifest_name number) bytes ∷ folder_synced ∷ name_plan number)
        d e
        × IsLeft e found × (found current_name ≡ Some (current_text number))
        × (found (manifest_name number) ≡ Some []) }
    ensures early { (tables : Tables) (w : World) (number : ℕ) (d : Disk) → IsSettled d w
        → Shows d (temporary_name number) (current_text number)
        → (e : Disk)
        × DoneAmong tables (renamed (temporary_name number) current_name
        ∷ removed (manifest_name w.manifest) ∷ []) d e
        × MayFindBoth e current_name (manifest_name w.manifest) (Some (current_text w.manifest))
        None }
{}

/// The record of the one edit that spells a shape, at the start of a manifest, comes to the shape.
pub fn whole_manifests_come_to_their_version()
    ensures { (v : Version) (own : List ℕ) → IsShape v → IsEdit own (whole_edit v)
        → ComesTo (record_text 0 own) v }
{}
