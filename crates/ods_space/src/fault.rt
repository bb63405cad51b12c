//! Why a chain is not whole, and why a layout cannot be read.
ghost use Rattle.std.specs.Prelude.{◌≡◌};
ghost use Rattle.ods_space.specs.Refusals.{chain_row};

use ods_base::{Coded, Row};
use std::alloc::AllocError;
use thiserror::Error;

/// The reason why the chain of a file is not whole.
#[derive(Clone, Copy, Debug, PartialEq, Eq, Error)]
pub enum ChainFault {
    /// The link from one header of the chain to the next is broken.
    #[error("BadChain")]
    BadChain,
    /// A pointer maps this LBN, which the image lacks.
    #[error("OutsideVolume {0}")]
    OutsideVolume(u32),
    /// The allocator refused memory.
    #[error("NoMemory")]
    NoMemory,
}

impl Coded for ChainFault {
    fn row(&self) -> Row {
        match self {
            ChainFault::BadChain => Row(20, "BadChain"),
            ChainFault::OutsideVolume(_) => Row(21, "OutsideVolume"),
            ChainFault::NoMemory => Row(49, "NoMemory"),
        }
    }

    ghost row_of = { chain_row };
}

impl From<AllocError> for ChainFault {
    ghost use Rattle.ods_space.specs.declared.fault.ChainFault.TheVariants.{NoMemory};

    ghost from_gives = { λ _ e. e ≡ NoMemory };

    fn from(_error: AllocError) -> ChainFault {
        ChainFault::NoMemory
    }
}

/// The reason why a layout cannot be read.
#[derive(Clone, Copy, Debug, PartialEq, Eq, Error)]
pub enum LayoutFault {
    /// The file with this number, 1 or 2, does not exist.
    #[error("file {0} does not exist")]
    NoFile(u16),
    /// The chain of the file with this number, 1 or 2, has this fault.
    #[error("{1} {0}")]
    Chain(u16, ChainFault),
    /// The allocator refused memory.
    #[error("NoMemory")]
    NoMemory,
}
