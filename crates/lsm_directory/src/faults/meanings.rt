//! What faults of a directory mean, as lines for people.

ghost use Rattle.std.specs.Prelude.{◌≡◌};
ghost use Rattle.lsm_directory.specs.DirectoryFault.{check_meaning, damaged, edit_meaning};
ghost use Rattle.lsm_directory.specs.DirectoryFault.{log_meaning, meaning_of, read_meaning};
ghost use Rattle.lsm_directory.specs.DirectoryFault.{recover_meaning, replay_meaning};
ghost use Rattle.lsm_directory.specs.DirectoryFault.{shelf_meaning, table_meaning};

use crate::faults::directory_fault::DirectoryFault;
use lsm_journal::RecoverFault;
use lsm_manifest::{EditFault, LogFault, ReplayFault};
use lsm_table::{ReadFault, ShelfFault, TableFault};
use lsm_verify::CheckFault;

/// Of a manifest that is damaged.
fn damaged() -> &'static str
    ensures { result.now ≡ damaged }
{
    "in the manifest that CURRENT names; lsm repair DIR, or RepairDB, makes a new one\n"
}

/// Of a shelf that does not give its manifest.
fn of_shelf(fault: ShelfFault) -> &'static str
    ensures { result.now ≡ shelf_meaning fault }
{
    match fault {
        ShelfFault::Missing => {
            "to name a manifest: echo MANIFEST-N > DIR/CURRENT; where none is whole: lsm repair DIR\n"
        }
        ShelfFault::OutOfMemory | ShelfFault::Device | ShelfFault::Taken(_) => "",
    }
}

/// Of a manifest that is no log.
fn of_log(fault: LogFault) -> &'static str
    ensures { result.now ≡ log_meaning fault }
{
    match fault {
        LogFault::OutOfMemory => "",
        LogFault::LogChecksum(_) | LogFault::LogOrder(_) | LogFault::LogType(_) => damaged(),
    }
}

/// Of a record that is no edit.
fn of_edit(fault: EditFault) -> &'static str
    ensures { result.now ≡ edit_meaning fault }
{
    match fault {
        EditFault::OutOfMemory => "",
        EditFault::UnknownTag(_) => {
            "in the manifest that CURRENT names; RocksDB writes tags that LevelDB has not\n"
        }
        EditFault::BadLevel(_) | EditFault::EditCut | EditFault::BadEditKey => damaged(),
    }
}

/// Of edits that come to no shape.
fn of_replay(fault: ReplayFault) -> &'static str
    ensures { result.now ≡ replay_meaning fault }
{
    match fault {
        ReplayFault::OutOfMemory => "",
        ReplayFault::OtherComparator => {
            "in the manifest that CURRENT names; lsm manifest prints which comparator it has\n"
        }
        ReplayFault::DoubleFile(_) => {
            "in the manifest that CURRENT names; lsm repair DIR, or LevelDB without a write\n"
        }
        ReplayFault::NoNextFile | ReplayFault::NoLogNumber | ReplayFault::NoLastSequence => {
            damaged()
        }
    }
}

/// Of a manifest that could not be read.
fn of_manifest(fault: RecoverFault) -> &'static str
    ensures { result.now ≡ recover_meaning fault }
{
    match fault {
        RecoverFault::Shelf(fault) => of_shelf(fault),
        RecoverFault::Log(fault) => of_log(fault),
        RecoverFault::Edit(fault) => of_edit(fault),
        RecoverFault::Replay(fault) => of_replay(fault),
    }
}

/// Of bytes that are no table.
pub(crate) fn of_table(fault: TableFault) -> &'static str
    ensures { result.now ≡ table_meaning fault }
{
    match fault {
        TableFault::Compressed(_) => {
            "check, list, get and scan read it by --inflate; lsm import DIR NEW copies the folder\n"
        }
        TableFault::BadChecksum(_) => {
            "the block is damaged: put a copy back, or RepairDB with paranoid_checks leaves it out\n"
        }
        _ => "",
    }
}

/// Of a table that could not be read.
fn of_read(fault: ReadFault) -> &'static str
    ensures { result.now ≡ read_meaning fault }
{
    match fault {
        ReadFault::Shelf(_) => "",
        ReadFault::Table(fault) => of_table(fault),
    }
}

/// What it means that tables are no version: lines, or nothing.
pub fn check_meaning(fault: &CheckFault) -> &'static str
    ensures { result.now ≡ check_meaning fault.now }
{
    match fault {
        CheckFault::Read(_, fault) => of_read(*fault),
        CheckFault::Overlap(_) => {
            "two tables of the level overlap; lsm repair DIR, or LevelDB's RepairDB, orders them\n"
        }
        CheckFault::WrongRange(_) => {
            "not the table that the manifest tells of: put that back, lsm repair DIR, or RepairDB\n"
        }
        CheckFault::AgeOrder(_) => {
            "an older entry lies above a newer one: lsm repair DIR, or a compaction in LevelDB\n"
        }
        CheckFault::DoubleFile(_) => "",
    }
}

/// Of a directory: the line behind that of the file of a table.
pub(crate) fn meaning_of(fault: &DirectoryFault) -> &'static str
    ensures { result.now ≡ meaning_of fault.now }
{
    match fault {
        DirectoryFault::Manifest(fault) => of_manifest(*fault),
        DirectoryFault::Tables(fault) => check_meaning(fault),
        DirectoryFault::Read(fault) => of_read(*fault),
        DirectoryFault::Locked => "another program has the folder open\n",
        DirectoryFault::UnflushedLog(_) => {
            "--logs reads it, lsm recover DIR brings it in, lsm import DIR NEW copies DIR with it\n"
        }
        DirectoryFault::TornManifest(_) => {
            "a cut end may name tables, or hold writes; --accept-rest, or no --strict, lets them go\n"
        }
        DirectoryFault::LaterManifest(_) => {
            "the later manifest may name other tables; no --strict reads what CURRENT names\n"
        }
        DirectoryFault::RocksDbFiles => {
            "what RocksDB has in its logs is not read; no --strict reads the tables\n"
        }
        DirectoryFault::OutOfMemory
        | DirectoryFault::Write
        | DirectoryFault::Shelf(_)
        | DirectoryFault::NumbersSpent
        | DirectoryFault::Absent => "",
    }
}
