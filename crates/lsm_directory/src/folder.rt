//! A folder of the system: its lock, what it tells of names and logs, and which file a name is of.

pub(crate) mod beside;
pub(crate) mod file_kind;
pub(crate) mod file_names;
pub(crate) mod folder_file;
pub(crate) mod holding;
pub(crate) mod logs;
pub(crate) mod looking;
pub(crate) mod named_manifest;
pub(crate) mod notes;
pub(crate) mod rest;
pub(crate) mod wording;
