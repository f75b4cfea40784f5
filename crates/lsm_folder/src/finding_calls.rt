//! Finding a file without reading it.

ghost use Rattle.std.specs.Prelude.{◌≡◌, ◌≤◌, ◌^◌, List, ℕ, length, IfOk, IfErr, MatchResult};
ghost use Rattle.lsm_folder.specs.Finding.{Found, Unfound};
ghost use Rattle.lsm_folder.specs.FolderFault.{NotExists};
ghost use Rattle.lsm_shelf.specs.Place.{Place};

use crate::folder_calls::FolderCalls;
use crate::folder_fault::FolderFault;
use std::alloc::Global;
use std::sync::Wait;

/// The calls on a folder of which files can be found without being read.
pub trait FindingCalls: FolderCalls {
    /// A file of this name in the folder holds these bytes: what is found without being read is said
    /// to. That it does is not judged, and no contract knows more of it.
    ghost holds: { Place → (name image : List ℕ) → Type 0 };

    /// A mark of a file, and how many bytes it has. It stands for that many bytes which a file of
    /// this name holds (`holds`); later reads are compared with those. A folder that has to know
    /// them reads the file whole. `Missing` where there is none, `Failed` where it has more than
    /// 1 GiB, as `load`.
    fn find<R: Wait>(
        &mut self,
        rt: &R,
        alloc: Global,
        name: &str,
    ) -> Result<(Self::Mark, u64), FolderFault>
        ensures noted { MatchResult result (λ r. Found name.now (Self.Mark.image r.0)
            (Self.calls self.old) (Self.calls self.new))
            (λ e. Unfound name.now e (Self.calls self.old) (Self.calls self.new)) }
        ensures place { Self.place self.new ≡ Self.place self.old }
        ensures mark { IfOk result (λ r. (Self.Mark.name r.0 ≡ name.now)
            × (length (Self.Mark.image r.0) ≡ r.1) × Self.is_of (Self.place self.old) r.0) }
        ensures held { IfOk result (λ r.
            holds (Self.place self.old) name.now (Self.Mark.image r.0)) }
        ensures limit { IfOk result (λ r. r.1 ≤ 2 ^ 30) }
        ensures fault { IfErr result NotExists };
}
