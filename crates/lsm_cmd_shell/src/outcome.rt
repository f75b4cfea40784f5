//! How a line was answered.

/// How a line was answered.
#[derive(Clone, Copy, Debug)]
pub enum Outcome {
    /// What it asks for was done.
    Done,
    /// It is bad, or it was refused.
    Failed,
}
