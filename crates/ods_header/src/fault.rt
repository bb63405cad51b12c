//! Why a header line cannot be made.
ghost use Rattle.std.specs.Prelude.{◌≡◌};
ghost use Rattle.ods_header.specs.{declared.fault.LineFault.TheVariants.NoMemory, Refusals.line_row};

use crate::HeaderFault;
use ods_base::{Coded, Row};
use std::alloc::AllocError;
use thiserror::Error;

/// The reason why a header line cannot be made.
#[derive(Clone, Copy, Debug, PartialEq, Eq, Error)]
pub enum LineFault {
    /// The block at the LBN of the header is not a valid header of this number.
    #[error("{0}")]
    Header(HeaderFault),
    /// The allocator refused memory.
    #[error("NoMemory")]
    NoMemory,
}

impl Coded for LineFault {
    fn row(&self) -> Row {
        match self {
            LineFault::Header(fault) => fault.row(),
            LineFault::NoMemory => Row(49, "NoMemory"),
        }
    }

    ghost row_of = { line_row };
}

impl From<AllocError> for LineFault {
    ghost from_gives = { λ _ e. e ≡ NoMemory };

    fn from(_error: AllocError) -> LineFault {
        LineFault::NoMemory
    }
}
