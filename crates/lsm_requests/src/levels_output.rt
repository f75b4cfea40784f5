//! What is to be shown of a folder's levels.

/// What is written of the levels on standard output.
#[derive(Clone, Copy, Debug)]
pub enum LevelsOutput {
    /// A line a level.
    Levels,
    /// A line a level, and behind it one for each of its files.
    Files,
    /// A picture of them, as an SVG file.
    Svg,
}
