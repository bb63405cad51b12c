//! The reasons why a file has no bytes, and why they were not written.
use ods_base::WriteFault;
use ods_space::ChainFault;
use thiserror::Error;

/// The reason why a number has no body.
#[derive(Clone, Copy, Debug, PartialEq, Eq, Error)]
pub enum FileFault {
    /// The number is not a file.
    #[error("NoSuchFile")]
    NoSuchFile,
    /// The chain of the file is not whole, or the allocator refused memory.
    #[error("{0}")]
    Chain(ChainFault),
}

/// The reason why the bytes of a file were not written, or not all.
#[derive(Clone, Copy, Debug, PartialEq, Eq, Error)]
pub enum CopyFault {
    /// The end of file is past the blocks. Nothing was written.
    #[error("EndPastBlocks")]
    EndPastBlocks,
    /// The writer failed.
    #[error("{0}")]
    Write(WriteFault),
}
