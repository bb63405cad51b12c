//! `find`: finds files by paths.
ghost use Rattle.std.specs.Prelude.{IfErr, IfOk};
ghost use Rattle.fs_words.specs.{Asked.IsFind, Refused.HasReason, Refused.IsUnasked};

use crate::actions::Action;
use crate::arguments::{Argument, Row};
use crate::verbs::Verb;
use clap::ArgMatches;
use ods_words::{WordsFault, say_wrong};
use std::alloc::Global;

/// How `find` is written.
pub(crate) const ROW: Row<'static> = Row {
    usage: "f11fs IMAGE find [OPTIONS] [--lost | [--deleted [-l]] [PATH..]]",
    about: "List every file with its path, or with - if no directory names it",
    arguments: &[
        Argument::Flag("--lost", "List only files that no directory names"),
        Argument::Flag(
            "--deleted",
            "List deleted files whose headers are still there",
        ),
        Argument::Flag(
            "-l",
            "With --deleted: show size, date and what is left of each file",
        ),
        Argument::Paths,
    ],
    conflicts: &[("path", "--lost"), ("--lost", "--deleted")],
};

/// What its words ask for. `-l` does nothing alone.
pub(crate) fn action<'a>(alloc: Global, own: &ArgMatches<'a>) -> Result<Action<'a>, WordsFault>
    ensures asked { IfOk result (IsFind own.now) }
    ensures refused { IfErr result (HasReason (IsUnasked Verb.Find own.now)) }
{
    let lost = own.get_flag("--lost");
    let deleted = own.get_flag("--deleted");
    let long = own.get_flag("-l");
    if long && !deleted {
        let text = "error: -l does nothing for find without --deleted";
        return Err(say_wrong(alloc, text)?);
    }
    Ok(Action::Find {
        lost,
        deleted,
        long,
    })
}
