//! What a command line asks for.

use crate::bench_line::BenchLine;
use crate::shell_line::ShellLine;
use crate::writing_line::WritingLine;
use lsm_requests::{
    CompactLine, Conversion, DirectoryLine, ImportLine, Input, LevelsLine, LoadLine, RecoverLine,
};

/// What a command line asks for: one command of the program, with all that its words say.
#[derive(Debug, Drop)]
pub enum Request<'a> {
    /// `mktable`, `dump` or `manifest` of an input.
    Convert(Conversion, Input<'a>),
    /// `check`, `list`, `get` or `scan`.
    Look(DirectoryLine<'a>),
    /// `levels`.
    Levels(LevelsLine<'a>),
    /// `ingest`, `put`, `delete` or `clean`.
    Write(WritingLine<'a>),
    /// `load`.
    Load(LoadLine<'a>),
    /// `import`.
    Import(ImportLine<'a>),
    /// `recover`.
    Recover(RecoverLine<'a>),
    /// `repair` of a folder.
    Repair(&'a str),
    /// `compact`.
    Compact(CompactLine<'a>),
    /// `script`: the commands that an input spells.
    Script(Input<'a>),
    /// `shell`: the commands that standard input spells, on a folder.
    Shell(ShellLine<'a>),
    /// `bench`.
    Bench(BenchLine<'a>),
}
