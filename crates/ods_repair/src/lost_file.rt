//! A lost file and its name.
use ods_base::{FileId, Name};

/// A file that no directory names, with the name in its header.
#[derive(Clone, Copy, Debug, PartialEq, Eq)]
pub struct LostFile {
    /// The ID of the file.
    pub file: FileId,
    /// The name in its header, without the version.
    pub name: Name,
}
