//! The command `levels` of the program `lsm`: how many files and bytes each level of a LevelDB
//! folder has, its files with their ranges, or a picture of them, which compaction is due, and what
//! all tables and the folder have.
//!
//! Stands on `lsm_directory` for the folder and its names, on `lsm_journal` to read the manifest,
//! on `lsm_picker` for what scores are, and on `lsm_text` for words. It reads `CURRENT` and the
//! manifest that this names, and no table. Its contract: what is printed is the text of the shape to
//! which the manifest's edits come, and of the folder's names and sizes.
#![tactic(auto)]

// One run.
mod program;
mod showing;

// What a folder tells of its files.
mod folder_sums;
mod listing;

// What a shape says: sums, ranges, what is due.
mod due;
mod reaching;
mod span;
mod sums;
mod totals;

// What holds of that.
mod laws;

// What is printed of it.
mod axis;
mod drawing;
mod lines;

pub use due::Due;
pub use folder_sums::FolderSums;
pub use laws::scores_are_those_of_the_choice;
pub use program::run_levels;
pub use showing::{lay_out, text_of};
pub use span::KeySpan;
pub use totals::Totals;
