//! `check`: tells what is wrong with an image.
ghost use Rattle.fs_words.specs.Asked.{IsCheck};

use crate::actions::Action;
use crate::arguments::{Argument, Row};
use clap::ArgMatches;

/// How `check` is written.
pub(crate) const ROW: Row<'static> = Row {
    usage: "f11fs IMAGE check [OPTIONS] [--all]",
    about: "Check the volume",
    arguments: &[Argument::Flag(
        "--all",
        "Print every fault that check looks for, and lesser problems (findings). Default: the first fault",
    )],
    conflicts: &[],
};

/// What its words ask for.
pub(crate) fn action<'a>(own: &ArgMatches<'a>) -> Action<'a>
    ensures { IsCheck own.now result }
{
    Action::Check {
        all: own.get_flag("--all"),
    }
}
