//! Why there is no room for blocks or headers: refusals of picks, with their numbers and names.
ghost use Rattle.std.specs.Prelude.{◌≡◌};
ghost use Rattle.ods_alloc.specs.Refusals.{space_row};

use ods_base::{Coded, Row};
use std::alloc::AllocFailed;
use thiserror::Error;

/// The reason why there is no room for blocks or headers.
#[derive(Clone, Copy, Debug, PartialEq, Eq, Error)]
#[error("{}", self.name())]
pub enum SpaceFault {
    /// Fewer blocks are free than the request needs.
    VolumeFull,
    /// Fewer file numbers are free than the request needs.
    HeadersFull,
    /// The chain would have more than 256 headers.
    ChainFull,
    /// The allocator refused memory.
    NoMemory,
}

impl Coded for SpaceFault {
    fn row(&self) -> Row {
        match self {
            SpaceFault::VolumeFull => Row(22, "VolumeFull"),
            SpaceFault::HeadersFull => Row(23, "HeadersFull"),
            SpaceFault::ChainFull => Row(24, "ChainFull"),
            SpaceFault::NoMemory => Row(49, "NoMemory"),
        }
    }

    ghost row_of = { space_row };
}

impl<T: Drop> From<AllocFailed<T>> for SpaceFault {
    ghost use Rattle.ods_alloc.specs.declared.fault.SpaceFault.TheVariants.{NoMemory};

    ghost from_gives = { λ _ e. e ≡ NoMemory };

    fn from(_error: AllocFailed<T>) -> SpaceFault {
        SpaceFault::NoMemory
    }
}
