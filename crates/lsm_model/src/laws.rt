//! Laws of versions, merges and installs. Each function's contract is one law; its body is empty.
//! They hold of versions whose files lie in order of internal keys, which is the law of a version
//! here; that files apart in user keys lie so too is the first of them.

ghost use Rattle.lsm_codec.specs.Entries.{Entry, answer, is_allowed, newest, stamp};
ghost use Rattle.lsm_codec.specs.Keys.{UserKey};
ghost use Rattle.lsm_codec.specs.Lists.{Has};
ghost use Rattle.lsm_model.specs.Checking.{IsJudged, Listed, files_from};
ghost use Rattle.lsm_model.specs.Files.{Apart, File, Fits, InOrder, IsLawful, OneEach};
ghost use Rattle.lsm_model.specs.Files.{Shallower, all_entries};
ghost use Rattle.lsm_model.specs.Jobs.{AreOutputs, Changed, Conflicts, Gains, Holds, IsMove};
ghost use Rattle.lsm_model.specs.Jobs.{IsOpenIn, Job};
ghost use Rattle.lsm_model.specs.Kept.{kept_entries};
ghost use Rattle.lsm_model.specs.Merging.{AreOrdered, IsOrdered, IsSorted, Placed, entries_of};
ghost use Rattle.lsm_model.specs.Merging.{is_alike, merge_all, placed_at};
ghost use Rattle.lsm_model.specs.Plans.{IsClosed, IsJobOf, Plan};
ghost use Rattle.lsm_model.specs.Scanning.{IsScan, pairs_of};
ghost use Rattle.lsm_model.specs.Streams.{IsAscending, IsCut, IsMerge, streamed};
ghost use Rattle.std.specs.List.{filter, flat_map};
ghost use Rattle.std.specs.Prelude.{◌≡◌, ◌≤◌, ◌<◌, ℕ, List, None, Some, false, suc, true};

/// Files apart in user keys, as the outputs of a merge are, lie in order of internal keys; and two
/// files that lie in order have no internal key in common.
pub fn files_apart_lie_in_order()
    ensures apart { (F G : File) → Fits F → Fits G → Apart F G → InOrder F G }
    ensures distinct { (F G : File) (x y : Entry) → Fits F → Fits G → InOrder F G
        → Has F.entries x → Has G.entries y → x.user ≡ y.user → stamp x ≡ stamp y → ⊥ }
{}

/// A lawful version has at most one entry of a user key, a sequence and a kind.
pub fn lawful_has_one_each()
    ensures { (v : List File) → IsLawful v → OneEach (all_entries v) }
{}

/// A merge's install changes no answer from the job's floor on.
pub fn install_changes_no_answer()
    ensures { (v w outs : List File) (job : Job) → IsLawful v → IsOpenIn v job
        → AreOutputs v job (kept_entries (all_entries job.inputs) job.floor job.ranges) outs
        → Changed v job outs w → (k : UserKey) (s : ℕ) → job.floor ≤ s
        → answer (all_entries w) k s ≡ answer (all_entries v) k s }
{}

/// The install of outputs that hold a part of the inputs' entries leaves the version lawful.
pub fn install_stays_lawful()
    ensures { (v w outs : List File) (job : Job) (K : List Entry) → IsLawful v → IsOpenIn v job
        → ((e : Entry) → Has K e → Has (all_entries job.inputs) e) → AreOutputs v job K outs
        → Changed v job outs w → IsLawful w }
{}

/// An install leaves every job open that does not conflict with its own.
pub fn install_keeps_jobs_open()
    ensures { (v w outs : List File) (job other : Job) (K : List Entry) → IsLawful v
        → IsOpenIn v job → IsOpenIn v other → (Conflicts job other → ⊥)
        → ((e : Entry) → Has K e → Has (all_entries job.inputs) e) → AreOutputs v job K outs
        → Changed v job outs w → IsOpenIn w other }
{}

/// A move is the install of all that its one input holds, and changes no answer at all.
pub fn move_changes_no_answer()
    ensures outputs { (v outs : List File) (job : Job) → IsLawful v → IsOpenIn v job
        → IsMove job outs → AreOutputs v job (all_entries job.inputs) outs }
    ensures answers { (v w outs : List File) (job : Job) → IsLawful v → IsOpenIn v job
        → IsMove job outs → Changed v job outs w → (k : UserKey) (s : ℕ)
        → answer (all_entries w) k s ≡ answer (all_entries v) k s }
{}

/// An ingest leaves the version lawful and every live job open.
pub fn ingest_stays_lawful()
    ensures lawful { (v w : List File) (file : File) (last : ℕ) → IsLawful v
        → ((F : File) (e : Entry) → Has v F → Has F.entries e → e.seq ≤ last)
        → Gains v last file w → IsLawful w }
    ensures jobs { (v w : List File) (file : File) (last : ℕ) (job : Job) → IsOpenIn v job
        → ((F : File) (e : Entry) → Has v F → Has F.entries e → e.seq ≤ last)
        → Gains v last file w → IsOpenIn w job }
{}

/// The job of a closed plan is open.
pub fn plan_opens_its_job()
    ensures { (v starts : List File) (plan : Plan) (job : Job) → IsLawful v
        → IsClosed v (Has starts) plan → IsJobOf v plan job → IsOpenIn v job }
{}

/// One remembered entry is enough to drop by: over an ascending list the stream keeps just the kept
/// entries. Pieces of them, cut between user keys, are what the outputs of a merge have to be.
pub fn streaming_keeps_the_kept()
    ensures stream { (floor : ℕ) (ranges : List (UserKey × UserKey)) (merged : List Entry)
        → IsAscending merged
        → streamed floor ranges None merged ≡ kept_entries merged floor ranges }
    ensures pieces { (level floor : ℕ) (merged es : List Entry)
        (ranges : List (UserKey × UserKey)) (outs : List File) → IsMerge merged es
        → IsCut level (kept_entries merged floor ranges) outs
        → Holds level (kept_entries es floor ranges) outs }
{}

/// The merge of sorted lists is in order, has the entries of one user key, sequence and kind just
/// as the lists have them one after another, and has the lists' entries and no other. Where it
/// ascends it is the merge that installs rest on.
pub fn merges_are_in_order()
    ensures lists { (depth : ℕ) (es : List Entry) → IsSorted es → IsOrdered (placed_at depth es) }
    ensures order { (ls : List (List Placed)) → AreOrdered ls
        → IsSorted (entries_of (merge_all ls)) }
    ensures alike { (e : Entry) (ls : List (List Placed)) → AreOrdered ls
        → filter (is_alike e) (merge_all ls) ≡ flat_map (filter (is_alike e)) ls }
    ensures from { (ls : List (List Placed)) (p : Placed) → Has (merge_all ls) p
        → Has (flat_map (λ l. l) ls) p }
    ensures to { (ls : List (List Placed)) (p : Placed) → Has (flat_map (λ l. l) ls) p
        → Has (merge_all ls) p }
    ensures whole { (ls : List (List Placed)) → IsAscending (entries_of (merge_all ls))
        → IsMerge (entries_of (merge_all ls)) (entries_of (flat_map (λ l. l) ls)) }
{}

/// What a scan shows of a sorted list is each user key that has an answer, with it, ascending.
pub fn scans_show_answers()
    ensures { (s : ℕ) (es : List Entry) → IsSorted es → IsScan s es (pairs_of s None es) }
{}

/// What is judged of tables one by one, level by level, and along the merge of all their entries
/// makes a lawful version.
pub fn judged_versions_are_lawful()
    ensures { (levels : List (List Listed)) (depth : File → ℕ) (placed : List Placed)
        → IsJudged levels depth placed → IsLawful (files_from 0 levels) }
{}

/// A read goes by depths: the newest entry of a file that the read allows is the newest of the
/// version where no file of a lesser depth has an entry that the read allows, and no other file of
/// its level has one with a greater stamp.
pub fn reads_go_by_depth()
    ensures { (v : List File) (F : File) (k : UserKey) (s : ℕ) (e : Entry) → IsLawful v
        → Has v F → newest k s F.entries ≡ Some e
        → ((G : File) (y : Entry) → Has v G → Shallower G F → Has G.entries y
        → is_allowed k s y ≡ false)
        → ((G : File) (y : Entry) → Has v G → G.level ≡ F.level → 1 ≤ F.level → Has G.entries y
        → is_allowed k s y ≡ true → stamp y ≤ stamp e)
        → newest k s (all_entries v) ≡ Some e }
{}

/// The premises of the laws above can be met: here is a lawful version with a closed plan, its open
/// job, outputs that hold what the job keeps, and the version after their install; the version
/// after an ingest; and a lawful version with a user key that goes on in the next file of its
/// level.
pub fn premises_are_met()
    ensures install { (v : List File) × (starts : List File) × (plan : Plan) × (job : Job)
        × (outs : List File) × (w : List File) × IsLawful v × IsClosed v (Has starts) plan
        × IsJobOf v plan job × IsOpenIn v job
        × AreOutputs v job (kept_entries (all_entries job.inputs) job.floor job.ranges) outs
        × Changed v job outs w }
    ensures ingest { (v : List File) × (last : ℕ) × (file : File) × (w : List File) × IsLawful v
        × ((F : File) (e : Entry) → Has v F → Has F.entries e → e.seq ≤ last)
        × Gains v last file w }
    ensures wide { (v : List File) × (F : File) × (G : File) × IsLawful v × Has v F × Has v G
        × (F.number ≡ G.number → ⊥) × (F.level ≡ G.level) × (1 ≤ F.level) × (F.high ≡ G.low) }
{}
