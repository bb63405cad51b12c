//! Refusals of requests, with their numbers and printed names.
ghost use Rattle.ods_request.specs.Refusals.{refusal_row};

use ods_base::{Coded, Row};
use thiserror::Error;

/// The reason why a request is refused. A refused request changes nothing.
#[derive(Clone, Copy, PartialEq, Eq, Debug, Error)]
pub enum Refusal {
    /// The directory does not have the name, or not the picked version.
    #[error("NoSuchName")]
    NoSuchName,
    /// The directory already has the name in the given version.
    #[error("NameTaken")]
    NameTaken,
    /// No version is given, and 32,767 is the highest version of the name.
    #[error("VersionsFull")]
    VersionsFull,
    /// No file has this ID, which is a number and a sequence number.
    #[error("NoSuchFile")]
    NoSuchFile,
    /// The request needs to extend, truncate, delete or write one of files 1 to 5 or to set its attributes, or to read file 1 or 2.
    #[error("Reserved")]
    Reserved,
    /// The request requires a directory, and the file is not one.
    #[error("NotADirectory")]
    NotADirectory,
    /// The file is a directory.
    #[error("IsDirectory")]
    IsDirectory,
    /// A Create or an Extend of more than 65,535 blocks, an Extend of 0 blocks, or a Truncate to more blocks than the file has.
    #[error("BadCount")]
    BadCount,
    /// The protection word does not grant the right.
    #[error("Denied")]
    Denied,
    /// The file has no block with this virtual block number.
    #[error("NoSuchBlock")]
    NoSuchBlock,
    /// The directory still has names.
    #[error("NotEmpty")]
    NotEmpty,
    /// The number of entries of the list has reached its limit.
    #[error("ListFull")]
    ListFull,
    /// The volume has fewer free blocks than the request needs.
    #[error("VolumeFull")]
    VolumeFull,
    /// The volume has fewer free file numbers than the request needs.
    #[error("HeadersFull")]
    HeadersFull,
    /// The file would have more than 256 headers.
    #[error("ChainFull")]
    ChainFull,
    /// The allocator refused memory.
    #[error("NoMemory")]
    NoMemory,
}

impl Coded for Refusal {
    fn row(&self) -> Row {
        match self {
            Refusal::NoSuchName => Row(30, "NoSuchName"),
            Refusal::NameTaken => Row(31, "NameTaken"),
            Refusal::VersionsFull => Row(32, "VersionsFull"),
            Refusal::NoSuchFile => Row(40, "NoSuchFile"),
            Refusal::Reserved => Row(41, "Reserved"),
            Refusal::NotADirectory => Row(42, "NotADirectory"),
            Refusal::IsDirectory => Row(43, "IsDirectory"),
            Refusal::BadCount => Row(44, "BadCount"),
            Refusal::Denied => Row(45, "Denied"),
            Refusal::NoSuchBlock => Row(46, "NoSuchBlock"),
            Refusal::NotEmpty => Row(47, "NotEmpty"),
            Refusal::ListFull => Row(48, "ListFull"),
            Refusal::VolumeFull => Row(22, "VolumeFull"),
            Refusal::HeadersFull => Row(23, "HeadersFull"),
            Refusal::ChainFull => Row(24, "ChainFull"),
            Refusal::NoMemory => Row(49, "NoMemory"),
        }
    }

    ghost row_of = { refusal_row };
}
