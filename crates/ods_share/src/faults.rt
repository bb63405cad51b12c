//! The reasons why a run or a settlement fails, with the numbers and names under which faults are printed.
ghost use Rattle.std.specs.Prelude.{◌≡◌};
ghost use Rattle.ods_share.specs.Refusals.{run_row, settle_row};

use ods_base::{Coded, Row};
use thiserror::Error;

/// The reason why sessions did not run to their ends. The volume is then dropped.
#[derive(Clone, Copy, PartialEq, Eq, Debug, Error)]
pub enum RunFault {
    /// The run is out of memory.
    #[error("NoMemory")]
    NoMemory,
    /// A thread could not be started.
    #[error("NoThread")]
    NoThread,
}

impl Coded for RunFault {
    fn row(&self) -> Row {
        match self {
            RunFault::NoMemory => Row(49, "NoMemory"),
            RunFault::NoThread => Row(62, "NoThread"),
        }
    }

    ghost row_of = { run_row };
}

/// The reason why the settlement of a volume's list fails.
#[derive(Clone, Copy, PartialEq, Eq, Debug, Error)]
pub enum SettleFault {
    /// The list does not consist of the sessions' calls, or another image was mounted.
    #[error("Unmatched")]
    Unmatched,
    /// The settlement is out of memory for its report. The list is settled.
    #[error("NoMemory")]
    NoMemory,
}

impl Coded for SettleFault {
    fn row(&self) -> Row {
        match self {
            SettleFault::Unmatched => Row(60, "Unmatched"),
            SettleFault::NoMemory => Row(49, "NoMemory"),
        }
    }

    ghost row_of = { settle_row };
}
