//! What a read of a key writes on standard output.

/// What is written of a key's answer.
#[derive(Clone, Copy, Debug)]
pub enum GetOutput {
    /// A line: `value V`, or `absent`.
    Line,
    /// The bytes of the value, and nothing else.
    Raw,
    /// Nothing: whether there is a value, the exit status tells.
    Nothing,
}
