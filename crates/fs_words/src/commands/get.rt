//! `get`: copies files to the host.
ghost use Rattle.std.specs.Prelude.{IfErr, IfOk};
ghost use Rattle.fs_words.specs.{Asked.IsGet, Refused.HasReason, Refused.IsUnasked};

use crate::actions::Action;
use crate::arguments::{Argument, Row};
use crate::forms::{BINARY, FORMS_APART, RAW, TEXT, wanted_form};
use crate::verbs::Verb;
use clap::ArgMatches;
use ods_words::{WordsFault, say_wrong};
use std::alloc::Global;

/// How `get` is written.
pub(crate) const ROW: Row<'static> = Row {
    usage: "f11fs IMAGE get [OPTIONS] [-t|-b|--raw] [-p] [-r|[--deleted] [--partial]] PATH.. [TARGET]",
    about: "Copy files to the host",
    arguments: &[
        TEXT,
        BINARY,
        RAW,
        Argument::Flag(
            "-p",
            "Give each host file the creation date of its file as its modification time, in the local time zone",
        ),
        Argument::Flag(
            "-r",
            "Copy the files in the one directory PATH and below it, into folders with the names of the directories",
        ),
        Argument::Flag(
            "--deleted",
            "Copy deleted files. Each PATH is an ID that find --deleted shows, such as '#9,1'",
        ),
        Argument::Flag(
            "--partial",
            "Copy what is left of a file that is not whole, with zeros for blocks outside the image, and with --deleted for blocks that are used again",
        ),
        Argument::SomePaths,
    ],
    conflicts: &FORMS_APART,
};

/// What its words ask for; `out` is what `-o` says. `--partial` does nothing with `-r`, and `-r` nothing for deleted files, which are in no directory.
pub(crate) fn action<'a>(
    alloc: Global,
    own: &ArgMatches<'a>,
    out: Option<&'a str>,
) -> Result<Action<'a>, WordsFault>
    ensures asked { IfOk result (IsGet own.now out.entry) }
    ensures refused { IfErr result (HasReason (IsUnasked Verb.Get own.now)) }
{
    let wanted = wanted_form(own);
    let below = own.get_flag("-r");
    let deleted = own.get_flag("--deleted");
    let partial = own.get_flag("--partial");
    if partial && below {
        let text = "error: --partial does nothing for get with -r";
        return Err(say_wrong(alloc, text)?);
    }
    if below && deleted {
        let text = "error: -r does nothing for get with --deleted";
        return Err(say_wrong(alloc, text)?);
    }
    Ok(Action::Get {
        wanted,
        target: out,
        below,
        deleted,
        partial,
        dated: own.get_flag("-p"),
    })
}
