//! `rm`: removes names with their files.
ghost use Rattle.fs_words.specs.Asked.{IsRm};

use crate::actions::{Action, Change};
use crate::arguments::{Argument, Row};
use clap::ArgMatches;

/// How `rm` is written.
pub(crate) const ROW: Row<'static> = Row {
    usage: "f11fs IMAGE rm [OPTIONS] [--entry] [--newest] PATH..",
    about: "Remove names, and delete files that have no name left",
    arguments: &[
        Argument::Flag("--entry", "Remove only the names, and keep the files"),
        Argument::Flag(
            "--newest",
            "Remove the highest version if a path gives no version",
        ),
        Argument::SomePaths,
    ],
    conflicts: &[],
};

/// What its words ask for.
pub(crate) fn action<'a>(own: &ArgMatches<'a>) -> Action<'a>
    ensures { IsRm own.now result }
{
    Action::Change(Change::Rm {
        entry_alone: own.get_flag("--entry"),
        newest: own.get_flag("--newest"),
    })
}
