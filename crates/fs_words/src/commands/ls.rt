//! `ls`: lists names.
ghost use Rattle.fs_words.specs.Asked.{IsLs};

use crate::actions::Action;
use crate::arguments::{Argument, Row};
use clap::ArgMatches;

/// How `ls` is written.
pub(crate) const ROW: Row<'static> = Row {
    usage: "f11fs IMAGE ls [OPTIONS] [-l] [-R] [-i] [PATH..]",
    about: "List names",
    arguments: &[
        Argument::Flag(
            "-l",
            "Show ID, blocks, bytes, kind, owner, protection and date of each file",
        ),
        Argument::Flag("-R", "List all directories below, too"),
        Argument::Flag("-i", "Show the ID of each file"),
        Argument::Paths,
    ],
    conflicts: &[],
};

/// What its words ask for.
pub(crate) fn action<'a>(own: &ArgMatches<'a>) -> Action<'a>
    ensures { IsLs own.now result }
{
    Action::Ls {
        long: own.get_flag("-l"),
        ids: own.get_flag("-i"),
        below: own.get_flag("-R"),
    }
}
