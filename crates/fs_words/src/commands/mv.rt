//! `mv`: moves names.
use crate::arguments::{Argument, Row};

/// How `mv` is written.
pub(crate) const ROW: Row<'static> = Row {
    usage: "f11fs IMAGE mv [OPTIONS] PATH.. PATH",
    about: "Move or rename directory entries. The name in the header of a file stays",
    arguments: &[Argument::TwoPaths],
    conflicts: &[],
};
