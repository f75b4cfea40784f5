//! A refusal as it is printed.

ghost use Rattle.std.specs.Prelude.{◌≡◌, Some, None};
ghost use Rattle.lsm_block.specs.BuildFault.{number_of as build_number, name_of as build_name};
ghost use Rattle.lsm_shelf.specs.ShelfFault.{number_of as shelf_number, name_of as shelf_name};
ghost use Rattle.lsm_table.specs.Fault.{number_of as table_number, name_of as table_name};
ghost use Rattle.lsm_table.specs.ReadFault.{number_of as read_number, name_of as read_name};
ghost use Rattle.lsm_manifest.specs.LogFault.{number_of as log_number, name_of as log_name};
ghost use Rattle.lsm_manifest.specs.EditFault.{number_of as edit_number, name_of as edit_name};
ghost use Rattle.lsm_manifest.specs.ReplayFault.{number_of as replay_number};
ghost use Rattle.lsm_manifest.specs.ReplayFault.{name_of as replay_name};
ghost use Rattle.lsm_text.specs.FaultText.{refusal_text, shelf_field, table_field, read_field};
ghost use Rattle.lsm_text.specs.FaultText.{log_field, edit_field, replay_field};

use lsm_manifest::{EditFault, LogFault, ReplayFault};
use lsm_table::{BuildFault, ReadFault, ShelfFault, TableFault};
use std::fmt;

/// A refusal as it is printed: its number and name (docs/FORMATS.md), and its field, if it has one.
#[derive(Clone, Copy)]
pub struct Refusal {
    pub number: u8,
    pub name: &'static str,
    pub field: Option<u64>,
}

impl Refusal {
    /// A refusal to build a table.
    pub(crate) fn of_build(fault: BuildFault) -> Refusal
        ensures number { result.number ≡ build_number fault }
        ensures name { result.name.now ≡ build_name fault }
        ensures field { result.field ≡ None }
    {
        Refusal {
            number: fault.number(),
            name: fault.name(),
            field: None,
        }
    }

    /// A refusal of bytes that are no table.
    pub fn of_table(fault: TableFault) -> Refusal
        ensures number { result.number ≡ table_number fault }
        ensures name { result.name.now ≡ table_name fault }
        ensures field { result.field ≡ table_field fault }
    {
        Refusal {
            number: fault.number(),
            name: fault.name(),
            field: match fault {
                TableFault::BadEntry(offset) => Some(offset),
                TableFault::OutOfOrder(offset) => Some(offset),
                TableFault::BadChecksum(offset) => Some(offset),
                TableFault::Compressed(kind) => Some(u64::from(kind)),
                TableFault::BadBlockType(kind) => Some(u64::from(kind)),
                TableFault::OutOfMemory
                | TableFault::BadRestarts
                | TableFault::ShortFile
                | TableFault::BadMagic
                | TableFault::BadHandle
                | TableFault::BadIndex => None,
            },
        }
    }

    /// A refusal of a shelf.
    pub fn of_shelf(fault: ShelfFault) -> Refusal
        ensures number { result.number ≡ shelf_number fault }
        ensures name { result.name.now ≡ shelf_name fault }
        ensures field { result.field ≡ shelf_field fault }
    {
        Refusal {
            number: fault.number(),
            name: fault.name(),
            field: match fault {
                ShelfFault::Taken(number) => Some(number),
                ShelfFault::OutOfMemory | ShelfFault::Device | ShelfFault::Missing => None,
            },
        }
    }

    /// A refusal of a table on a shelf.
    pub fn of_read(fault: ReadFault) -> Refusal
        ensures number { result.number ≡ read_number fault }
        ensures name { result.name.now ≡ read_name fault }
        ensures field { result.field ≡ read_field fault }
    {
        match fault {
            ReadFault::Shelf(fault) => Refusal::of_shelf(fault),
            ReadFault::Table(fault) => Refusal::of_table(fault),
        }
    }

    /// A refusal of bytes that are no record log.
    pub fn of_log(fault: LogFault) -> Refusal
        ensures number { result.number ≡ log_number fault }
        ensures name { result.name.now ≡ log_name fault }
        ensures field { result.field ≡ log_field fault }
    {
        Refusal {
            number: fault.number(),
            name: fault.name(),
            field: match fault {
                LogFault::LogChecksum(offset) => Some(offset),
                LogFault::LogOrder(offset) => Some(offset),
                LogFault::LogType(offset) => Some(offset),
                LogFault::OutOfMemory => None,
            },
        }
    }

    /// A refusal of a record that is no version edit.
    pub fn of_edit(fault: EditFault) -> Refusal
        ensures number { result.number ≡ edit_number fault }
        ensures name { result.name.now ≡ edit_name fault }
        ensures field { result.field ≡ edit_field fault }
    {
        Refusal {
            number: fault.number(),
            name: fault.name(),
            field: match fault {
                EditFault::UnknownTag(tag) => Some(u64::from(tag)),
                EditFault::BadLevel(level) => Some(u64::from(level)),
                EditFault::OutOfMemory | EditFault::EditCut | EditFault::BadEditKey => None,
            },
        }
    }

    /// A refusal of a row of edits.
    pub fn of_replay(fault: ReplayFault) -> Refusal
        ensures number { result.number ≡ replay_number fault }
        ensures name { result.name.now ≡ replay_name fault }
        ensures field { result.field ≡ replay_field fault }
    {
        Refusal {
            number: fault.number(),
            name: fault.name(),
            field: match fault {
                ReplayFault::DoubleFile(number) => Some(number),
                ReplayFault::OutOfMemory
                | ReplayFault::NoNextFile
                | ReplayFault::NoLogNumber
                | ReplayFault::NoLastSequence
                | ReplayFault::OtherComparator => None,
            },
        }
    }
}

impl fmt::Display for Refusal {
    ghost output = { λ r. Some (refusal_text r.number r.name.now r.field) };

    fn fmt<W: fmt::Write>(&self, f: &mut fmt::Formatter<W>) -> fmt::Result {
        let number = self.number;
        let name = self.name;
        match self.field {
            Some(field) => write!(f, "refused {number} {name} {field}"),
            None => write!(f, "refused {number} {name}"),
        }
    }
}
