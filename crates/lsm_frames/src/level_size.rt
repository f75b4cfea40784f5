//! What a level has.

/// How many files a level has, and how many bytes they have.
#[derive(Clone, Copy, Debug, Drop, PartialEq, Eq)]
pub struct LevelSize {
    pub files: u64,
    pub bytes: u64,
}
