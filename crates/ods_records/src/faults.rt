//! The reasons why bytes are not valid records, and why a text is not written as records.
ghost use Rattle.std.specs.Prelude.{◌≡◌};
ghost use Rattle.ods_records.specs.declared.faults.RecordFault.TheVariants as records;
ghost use Rattle.ods_records.specs.declared.faults.TextFault.TheVariants as texts;

use std::alloc::{AllocError, AllocFailed};
use thiserror::Error;

/// The reason why bytes are not valid records of their kind. The number is the offset of the record's length, in bytes from 0.
#[derive(Clone, Copy, Debug, PartialEq, Eq, Error)]
pub enum RecordFault {
    /// The file ends after the first byte of the length.
    #[error("the length at byte {0} is cut by the end of the file")]
    CutLength(usize),
    /// The file ends before the last byte of the record. The padding byte after an odd length may be missing.
    #[error("the record at byte {0} goes past the end of the file")]
    PastEnd(usize),
    /// The length is above 32,767 bytes, and not 65,535, which marks the rest of the block as unused.
    #[error("the record at byte {0} has more than 32767 bytes")]
    TooLong(usize),
    /// The length of a sequenced record is less than the size of its header, so it has no number.
    #[error("the record at byte {0} has no number")]
    NoNumber(usize),
    /// The allocator refused memory.
    #[error("NoMemory")]
    NoMemory,
}

impl From<AllocError> for RecordFault {
    ghost from_gives = { λ _ e. e ≡ records.NoMemory };

    fn from(_error: AllocError) -> RecordFault {
        RecordFault::NoMemory
    }
}

impl<T: Drop> From<AllocFailed<T>> for RecordFault {
    ghost from_gives = { λ _ e. e ≡ records.NoMemory };

    fn from(_error: AllocFailed<T>) -> RecordFault {
        RecordFault::NoMemory
    }
}

/// The reason why a text is not written as records.
#[derive(Clone, Copy, Debug, PartialEq, Eq, Error)]
pub enum TextFault {
    /// This line, counted from 1, has more than 32,767 bytes.
    #[error("line {0} has more than 32767 bytes")]
    LineTooLong(usize),
    /// The allocator refused memory.
    #[error("NoMemory")]
    NoMemory,
}

impl From<AllocError> for TextFault {
    ghost from_gives = { λ _ e. e ≡ texts.NoMemory };

    fn from(_error: AllocError) -> TextFault {
        TextFault::NoMemory
    }
}

impl<T: Drop> From<AllocFailed<T>> for TextFault {
    ghost from_gives = { λ _ e. e ≡ texts.NoMemory };

    fn from(_error: AllocFailed<T>) -> TextFault {
        TextFault::NoMemory
    }
}
