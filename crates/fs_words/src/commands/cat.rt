//! `cat`: writes files to standard output.
use crate::arguments::{Argument, Row};
use crate::forms::{BINARY, FORMS_APART, RAW, TEXT};

/// How `cat` is written.
pub(crate) const ROW: Row<'static> = Row {
    usage: "f11fs IMAGE cat [OPTIONS] [-t|-b|--raw] PATH..",
    about: "Write files to standard output",
    arguments: &[TEXT, BINARY, RAW, Argument::SomePaths],
    conflicts: &FORMS_APART,
};
