//! The options of a command.
use ods_base::Uic;

/// The form in which the bytes of a host file are put.
#[derive(Clone, Copy, Debug, PartialEq, Eq)]
pub enum PutForm {
    /// As records if the same bytes come back, otherwise unchanged.
    ByContents,
    /// As records of variable length, each a line.
    Text,
    /// Unchanged, in records of 512 bytes, or with the attributes of the file given as a model.
    Binary,
    /// Unchanged, with these first four bytes of attributes: F.RTYP, F.RATT and F.RSIZ.
    Said([u8; 4]),
}

/// Where the blocks of a new file are allocated.
#[derive(Clone, Copy, Debug, PartialEq, Eq)]
pub enum Placing {
    /// In any free blocks.
    Anywhere,
    /// Consecutively, in the lowest run of free blocks that is long enough. The header marks the file as contiguous, if it has any block.
    InOnePiece,
}

/// The host file to put: the last part of its name, or `-`, and its bytes.
#[derive(Clone, Copy)]
pub struct HostFile<'a> {
    pub name: &'a str,
    pub bytes: &'a [u8],
}

/// How names are removed.
#[derive(Clone, Copy, Debug, PartialEq, Eq)]
pub struct Removal {
    /// Whether only the entry is removed, and its file stays.
    pub entry_alone: bool,
    /// Whether a path without a version selects the highest. If false, such a path is refused.
    pub newest: bool,
}

/// The options for copying files of another volume.
#[derive(Clone, Copy, Debug, PartialEq, Eq)]
pub struct CopyFrom {
    /// The user whose rights are checked on the files of the other volume. Without one, each of them may be read.
    pub reader: Option<Uic>,
    /// Where the blocks of the copies are allocated. Without a value, the blocks of a contiguous file are in one piece, and other blocks anywhere.
    pub placing: Option<Placing>,
    /// Whether each copy gets the next version of its name, instead of the version of the file.
    pub next: bool,
    /// Whether each copy keeps the owner of its file, if the user of the requests may give it. Otherwise that user owns the copies.
    pub owners: bool,
}
