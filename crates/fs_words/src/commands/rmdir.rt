//! `rmdir`: removes empty directories.
use crate::arguments::{Argument, Row};

/// How `rmdir` is written.
pub(crate) const ROW: Row<'static> = Row {
    usage: "f11fs IMAGE rmdir [OPTIONS] DIR..",
    about: "Remove empty directories",
    arguments: &[Argument::SomePaths],
    conflicts: &[],
};
