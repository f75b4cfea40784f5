//! Premises of laws of the crates below, met.

ghost use Rattle.std.specs.Prelude.{◌≡◌, List, [], length};
ghost use Rattle.lsm_codec.specs.Entries.{Entry};
ghost use Rattle.lsm_model.specs.Checking.{IsJudged, Listed};
ghost use Rattle.lsm_model.specs.Files.{File, IsLawful, all_entries};
ghost use Rattle.lsm_model.specs.Jobs.{AreOutputs, Changed, Conflicts, IsMove, IsOpenIn, Job};
ghost use Rattle.lsm_model.specs.Kept.{kept_entries};
ghost use Rattle.lsm_model.specs.Merging.{Placed};
ghost use Rattle.lsm_model.specs.Streams.{IsCut, IsMerge};

/// What the laws of versions, merges and installs suppose can be met, beside what
/// `lsm_model::laws::premises_are_met` has. Here is a lawful version with two open jobs that do
/// not conflict, of which the first is a move, and the version after its install (`jobs`); a merge
/// that is cut into two outputs (`cut`); and a version that was judged table by table, with a table
/// at level 0 above an older one (`judged`).
pub fn premises_of_installs_are_met()
    ensures jobs { (v : List File) × (w : List File) × (outs : List File) × (job : Job)
        × (other : Job) × (job.ticket ≡ other.ticket → ⊥) × IsLawful v × IsOpenIn v job
        × IsOpenIn v other × (Conflicts job other → ⊥) × IsMove job outs
        × AreOutputs v job (all_entries job.inputs) outs × Changed v job outs w }
    ensures cut { (merged : List Entry) × (es : List Entry) × (outs : List File) × IsMerge merged es
        × IsCut 2 (kept_entries merged 2 []) outs × (length outs ≡ 2) }
    ensures judged { (levels : List (List Listed)) × (placed : List Placed)
        × IsJudged levels (λ F. F.level) placed × (length placed ≡ 2) }
{}
