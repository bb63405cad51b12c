//! The problems that do not prevent a mount but matter to the owner of a volume, with one line of text each.
ghost use Rattle.std.specs.Prelude.{◌≡◌};
ghost use Rattle.ods_check.specs.Findings.{file_of};

use ods_base::{FileId, Listed, print_name};
use thiserror::Error;

/// The reason why a number in use has no valid header: the first check that fails.
#[derive(Clone, Copy, Debug, PartialEq, Eq, Error)]
pub enum NoHeader {
    /// The image lacks the block of the header.
    #[error("no block")]
    NoBlock,
    /// H.CKSM is not the checksum of the words before it.
    #[error("checksum")]
    Checksum,
    /// H.FNUM is another number.
    #[error("file number")]
    Number,
    /// H.FLEV is not 401 octal.
    #[error("structure level")]
    Level,
    /// The areas or the pointers overlap, or run past the block.
    #[error("areas")]
    Areas,
    /// The pointers are not of format 1.
    #[error("pointer format")]
    Format,
}

/// A problem on a volume, whether the volume is sound or not.
#[derive(Clone, Copy, Debug, PartialEq, Eq, Error)]
pub enum Finding {
    /// The index bit of this number is set, a file may have the number, and its header is not valid.
    #[error("file number {0} is marked as used and has no header: {1}")]
    BadHeader(u16, NoHeader),
    /// Numbers in use that no file may have, and that have no valid header: their count, and the first of them.
    #[error("file numbers past the last header are marked as used: {0}, from {1} on")]
    StrayNumbers(u32, u16),
    /// The storage bit of this block marks it used, and no file holds it. Neither neighbouring block is in this state.
    #[error("block {0} is marked as used and no file holds it")]
    HeldByNone(u32),
    /// Each block from the first to the last is marked used and held by no file, and the neighbouring blocks are not.
    #[error("blocks {0} to {1} are marked as used and no file holds them")]
    RunHeldByNone(u32, u32),
    /// A name in this directory names no file.
    #[error("directory {0} has {name}, which names {number},{sequence}, and that is no file", name = print_name(&.1.name, .1.version), number = .1.file.number, sequence = .1.file.sequence)]
    NamesNone(u16, Listed),
    /// No name in any directory names this file.
    #[error("file {number},{sequence} is named by no directory", number = .0.number, sequence = .0.sequence)]
    LostFile(FileId),
    /// The header with this number and sequence number is a valid extension header, and belongs to no file.
    #[error("header {number},{sequence} is an extension header that no file reaches", number = .0.number, sequence = .0.sequence)]
    LostHeader(FileId),
    /// The end of this file is past its blocks.
    #[error("file {number},{sequence} ends past its blocks", number = .0.number, sequence = .0.sequence)]
    EndPast(FileId),
    /// Used entries are stored after the end of this directory.
    #[error("directory {0} has used entries behind its end")]
    HiddenEntries(u16),
    /// H.SCHA of this file has the bit 200 octal.
    #[error("file {number},{sequence} is marked for deletion", number = .0.number, sequence = .0.sequence)]
    MarkedDeleted(FileId),
    /// H.UCHA of this file has the bit 100 octal.
    #[error("file {number},{sequence} is locked", number = .0.number, sequence = .0.sequence)]
    Locked(FileId),
    /// The master directory has no line with the name of this file that names it. The file is INDEXF.SYS, BITMAP.SYS or 000000.DIR.
    #[error("the master directory does not name file {0} as {name}", name = system_name(*.0))]
    Unnamed(u16),
}

impl Finding {
    /// Returns the file that the finding is about, if any.
    pub fn file(&self) -> Option<u16>
        ensures { result ≡ file_of self.now }
    {
        match self {
            Finding::BadHeader(_, _) => None,
            Finding::StrayNumbers(_, _) => None,
            Finding::HeldByNone(_) => None,
            Finding::RunHeldByNone(_, _) => None,
            Finding::NamesNone(directory, _) => Some(*directory),
            Finding::LostFile(_) => None,
            Finding::LostHeader(_) => None,
            Finding::EndPast(id) => Some(id.number),
            Finding::HiddenEntries(directory) => Some(*directory),
            Finding::MarkedDeleted(id) => Some(id.number),
            Finding::Locked(id) => Some(id.number),
            Finding::Unnamed(number) => Some(*number),
        }
    }
}

/// The name of a file of the system in the master directory.
fn system_name(number: u16) -> &'static str {
    match number {
        1 => "INDEXF.SYS",
        2 => "BITMAP.SYS",
        _ => "000000.DIR",
    }
}
