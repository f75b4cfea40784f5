//! What the commands of the program `lsm` are asked for: their options, and what they are to print.
//!
//! Stands on `lsm_text` for the form of keys and values. The grammar above makes these of words, and
//! each command takes its own. Its contract: which keys are within bounds, and where these end.
#![tactic(auto)]

// Of an input.
mod conversion;
mod input;

// Of a folder that is only read.
mod directory_command;
mod directory_line;
mod get_output;
mod key_bounds;
mod levels_line;
mod levels_output;
mod scan_options;
mod scan_output;

// Of one that is written.
mod clean_options;
mod compact_line;
mod compact_options;
mod compact_range;
mod import_line;
mod ingest_options;
mod load_line;
mod load_options;
mod recover_line;

// Of measurements.
mod bench_options;
mod benchmark;

pub use bench_options::BenchOptions;
pub use benchmark::Benchmark;
pub use clean_options::CleanOptions;
pub use compact_line::CompactLine;
pub use compact_options::CompactOptions;
pub use compact_range::CompactRange;
pub use conversion::Conversion;
pub use directory_command::DirectoryCommand;
pub use directory_line::DirectoryLine;
pub use get_output::GetOutput;
pub use import_line::ImportLine;
pub use ingest_options::IngestOptions;
pub use input::Input;
pub use key_bounds::KeyBounds;
pub use levels_line::LevelsLine;
pub use levels_output::LevelsOutput;
pub use load_line::LoadLine;
pub use load_options::LoadOptions;
pub use recover_line::RecoverLine;
pub use scan_options::ScanOptions;
pub use scan_output::ScanOutput;
