//! `info`: shows what the home block and the layout of the volume say.
use crate::arguments::Row;

/// How `info` is written.
pub(crate) const ROW: Row<'static> = Row {
    usage: "f11fs IMAGE info [OPTIONS]",
    about: "Show the label, owner, size and layout of the volume",
    arguments: &[],
    conflicts: &[],
};
