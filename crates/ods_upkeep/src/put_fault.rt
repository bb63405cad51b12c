//! Why a file is not put.
ghost use Rattle.ods_upkeep.specs.PutFor.{HasPutStatus};

use ods_records::RecordFault;
use ods_shell::Status;
use thiserror::Error;

/// Why a file is not put.
#[derive(Clone, Copy, Debug, PartialEq, Eq, Error)]
pub enum PutFault {
    /// The bytes are not whole records of the requested form. This is their first fault.
    #[error("not records of this form: {0}")]
    NoRecords(RecordFault),
    /// The longest record has the first number of bytes, but F.RSIZ allows only the second.
    #[error("a record has {0} bytes, and this form allows {1}")]
    LongRecord(usize, u16),
    /// The name of the host file has this character. It stands for a character of the volume that RSX cannot type.
    #[error("not a valid file name: '{0}' replaces a character that RSX cannot type; give another name in PATH")]
    Untyped(char),
    /// The longest run of free blocks has the first number of blocks. The file must be in one piece and needs the second number.
    #[error("VolumeFull: the longest run of free blocks has {0} blocks, and the file needs {1}")]
    NoRun(u32, usize),
    /// The attributes of the file are zeros, so its end is unknown.
    #[error("its attributes are zeros, so its end is not known; 'get --raw' copies all blocks")]
    NoEnd,
    /// The file has this F.RTYP, but bytes can only be appended to files with 0, 1 or 2.
    #[error("its record type (F.RTYP) is {0}: bytes can be appended only to types 0 and 1, and texts only to type 2")]
    OtherKind(u8),
    /// The end of file is past the blocks.
    #[error("its end of file is past its last block; 'get --raw' copies all blocks")]
    PastBlocks,
}

impl PutFault {
    /// Returns the exit status of a command with this refusal.
    pub fn status(&self) -> Status
        ensures { HasPutStatus self.now result }
    {
        match self {
            PutFault::NoRecords(_)
            | PutFault::LongRecord(_, _)
            | PutFault::NoRun(_, _)
            | PutFault::NoEnd
            | PutFault::OtherKind(_)
            | PutFault::PastBlocks => Status::Refused,
            PutFault::Untyped(_) => Status::Words,
        }
    }
}
