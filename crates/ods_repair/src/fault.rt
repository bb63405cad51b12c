//! The reason why a repair is not done.
use crate::lost_file::LostFile;
use ods_base::{FileId, print_name, print_title, print_type};
use ods_check::Dangling;
use ods_request::Refusal;
use std::alloc::AllocError;
use thiserror::Error;

/// The reason why a repair is not done. The volume is then unchanged, unless a request is refused: then the requests before it are made.
#[derive(Clone, Copy, Debug, PartialEq, Eq, Error)]
pub enum RepairFault {
    /// This number is in use and has no valid header, so the blocks of its file are unknown.
    #[error("file number {0} is marked as used and has no header, so the blocks of its file are not known")]
    NoHeader(u16),
    /// No file reaches this extension header, so the owner of its blocks is unknown.
    #[error("header {number},{sequence} is an extension header that no file reaches, so its blocks may belong to a file", number = .0.number, sequence = .0.sequence)]
    Unreached(FileId),
    /// Out of memory.
    #[error("out of memory")]
    NoMemory,
    /// The entry is not removed, for this reason.
    #[error("{name} is not removed from directory {number},{sequence}: {1}", name = print_name(&.0.line.name, .0.line.version), number = .0.directory.number, sequence = .0.directory.sequence)]
    NotRemoved(Dangling, Refusal),
    /// The lost file is not entered, for this reason.
    #[error("file {number},{sequence} is not entered as {title}.{kind}: {1}", number = .0.file.number, sequence = .0.file.sequence, title = print_title(&.0.name), kind = print_type(&.0.name))]
    NotEntered(LostFile, Refusal),
    /// This block of the file is at a location of a home block, of the index bitmap or of headers 1 to 16.
    #[error("block {1} of file {0} is reserved for a home block, the index bitmap or headers 1 to 16")]
    FixedBlock(u16, u32),
    /// Another file also holds this block of the file.
    #[error("block {1} of file {0} belongs to another file too")]
    SharedBlock(u16, u32),
    /// The file has this block twice.
    #[error("file {0} has block {1} twice")]
    RepeatedBlock(u16, u32),
    /// The file is one of the volume's own, and its blocks do not move.
    #[error("file {0} is a reserved file, whose blocks are not moved")]
    Reserved(u16),
    /// The file has no whole chain.
    #[error("headers or blocks of file {0} are missing")]
    NoChain(u16),
    /// A file holds this block, and it is marked free.
    #[error("block {0} belongs to a file and is marked as free: 'repair used' marks it as used")]
    HeldFree(u32),
    /// There is no directory of this number with a whole chain.
    #[error("it is not a directory with an intact header chain")]
    NoDirectory,
    /// An entry of the directory is not a valid name.
    #[error("an entry of the directory has no valid name")]
    BadEntry,
    /// A name that occurs twice has no next version.
    #[error("a name that occurs twice has no next version")]
    VersionsFull,
}

impl From<AllocError> for RepairFault {
    ghost use Rattle.std.specs.Prelude.{◌≡◌};
    ghost use Rattle.ods_repair.specs.declared.fault.RepairFault.TheVariants.{NoMemory};

    ghost from_gives = { λ _ fault. fault ≡ NoMemory };

    fn from(_error: AllocError) -> RepairFault {
        RepairFault::NoMemory
    }
}
