//! What files hold.

ghost use Rattle.std.specs.Prelude.{ℕ, List, []};

/// Names what the files of folders hold, for contracts alone. Who reads a theorem picks it: the
/// bytes that the files have in truth are one choice.
pub trait Contents {
    /// The bytes of the file of this name in the folder of this path.
    ghost contents: { (folder name : List ℕ) → List ℕ };
}

/// Names no bytes. The program is made with it; it is the same program with each `Contents`, of
/// which the code sees none, and what is proved is proved of each.
pub struct Unsaid;

impl Contents for Unsaid {
    ghost contents = { λ _ _. [] };
}
