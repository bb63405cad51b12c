//! `tar`: writes an archive to standard output.
ghost use Rattle.fs_words.specs.Asked.{IsTar};

use crate::actions::Action;
use crate::arguments::{Argument, Row};
use clap::ArgMatches;

/// How `tar` is written.
pub(crate) const ROW: Row<'static> = Row {
    usage: "f11fs IMAGE tar [OPTIONS] [-t] [PATH..]",
    about: "Write an archive of files to standard output. Default: of all files",
    arguments: &[
        Argument::Flag(
            "-t",
            "Write records as lines if that is lossless. Default: the bytes up to the end of file",
        ),
        Argument::Paths,
    ],
    conflicts: &[],
};

/// What its words ask for.
pub(crate) fn action<'a>(own: &ArgMatches<'a>) -> Action<'a>
    ensures { IsTar own.now result }
{
    Action::Tar {
        text: own.get_flag("-t"),
    }
}
