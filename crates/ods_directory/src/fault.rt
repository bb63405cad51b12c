//! The faults of a directory, and why a request on a directory is refused.
ghost use Rattle.ods_directory.specs.Refusals.{dir_row, verdict_row};

use ods_base::{Coded, Row};
use thiserror::Error;

/// The result of the check of a directory.
#[derive(Clone, Copy, Debug, PartialEq, Eq)]
pub enum Verdict {
    /// Each used entry is valid, and no two have the same name, type and version.
    Good,
    /// A used entry is not valid: a word of its name or type is 64,000 or more, its version is 0 or above 32,767, or its relative volume number is
    /// not 0.
    BadEntry,
    /// Two used entries have the same name, type and version.
    Twice,
}

/// `Good` is not a refusal, and `Twice` has no number of its own: both have 0.
impl Coded for Verdict {
    fn row(&self) -> Row {
        match self {
            Verdict::Good => Row(0, "Good"),
            Verdict::BadEntry => Row(33, "BadEntry"),
            Verdict::Twice => Row(0, "Twice"),
        }
    }

    ghost row_of = { verdict_row };
}

/// The reason why a name is not found or not entered.
#[derive(Clone, Copy, Debug, PartialEq, Eq, Error)]
#[error("{}", self.name())]
pub enum DirFault {
    /// The directory does not have the name, or not this version of it.
    NoSuchName,
    /// The directory already has the name in the given version.
    NameTaken,
    /// No version is given, and the highest version is 32,767.
    VersionsFull,
}

impl Coded for DirFault {
    fn row(&self) -> Row {
        match self {
            DirFault::NoSuchName => Row(30, "NoSuchName"),
            DirFault::NameTaken => Row(31, "NameTaken"),
            DirFault::VersionsFull => Row(32, "VersionsFull"),
        }
    }

    ghost row_of = { dir_row };
}
