//! `df`: shows how much of the volume is used.
use crate::arguments::Row;

/// How `df` is written.
pub(crate) const ROW: Row<'static> = Row {
    usage: "f11fs IMAGE df [OPTIONS]",
    about: "Show how much of the volume is used",
    arguments: &[],
    conflicts: &[],
};
