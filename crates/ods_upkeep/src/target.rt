//! The target of a command: a directory, and a name in it if the path has one.
use ods_base::{FileId, Name};

/// The target of a command.
#[derive(Drop)]
pub(crate) struct Target {
    pub directory: FileId,
    /// The name there; without it, each file keeps its own.
    pub name: Option<Name>,
    /// Its version; without it, the next one.
    pub version: Option<u16>,
}
