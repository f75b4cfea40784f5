//! A file of a folder, by what the folder tells without opening it.

/// A file of a folder: its name, and its size in bytes.
#[derive(Debug, Drop)]
pub struct FolderFile {
    pub name: String,
    pub size: u64,
}
