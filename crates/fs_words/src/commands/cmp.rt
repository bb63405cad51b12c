//! `cmp`: tells how two images differ.
ghost use Rattle.fs_words.specs.Asked.{IsCmp};

use crate::actions::Action;
use crate::arguments::{Argument, Row};
use clap::ArgMatches;

/// How `cmp` is written.
pub(crate) const ROW: Row<'static> = Row {
    usage: "f11fs IMAGE cmp [OPTIONS] [--all] IMAGE2",
    about: "List files that differ from those of another image",
    arguments: &[
        Argument::Word("path", "IMAGE2", "The other image"),
        Argument::Flag("--all", "Compare IDs, dates, owners and protection, too"),
    ],
    conflicts: &[],
};

/// What its words ask for.
pub(crate) fn action<'a>(own: &ArgMatches<'a>) -> Action<'a>
    ensures { IsCmp own.now result }
{
    Action::Cmp {
        all: own.get_flag("--all"),
    }
}
