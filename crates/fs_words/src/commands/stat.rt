//! `stat`: shows what is known of files.
use crate::arguments::{Argument, Row};

/// How `stat` is written.
pub(crate) const ROW: Row<'static> = Row {
    usage: "f11fs IMAGE stat [OPTIONS] PATH..",
    about: "Show the fields of each file, one field a line",
    arguments: &[Argument::SomePaths],
    conflicts: &[],
};
