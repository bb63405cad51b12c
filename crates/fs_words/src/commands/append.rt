//! `append`: puts a file of the host behind the end of one of the volume.
ghost use Rattle.std.specs.Prelude.{IfErr, IfOk};
ghost use Rattle.fs_words.specs.{Asked.IsAppend, Refused.HasReason, Refused.IsUnasked};

use crate::actions::{Action, Change};
use crate::arguments::{Argument, Row};
use crate::commands::untar::word_count;
use crate::verbs::Verb;
use clap::ArgMatches;
use ods_words::{WordsFault, say_wrong};
use std::alloc::Global;

/// What the help says of the words.
const WORDS_HELP: &str =
    "PATH is the file on the volume. HOST is the host file, or - for standard input";

/// How `append` is written.
pub(crate) const ROW: Row<'static> = Row {
    usage: "f11fs IMAGE append [OPTIONS] PATH HOST",
    about: "Append a host file to a file: lines as records if the file has variable records, otherwise bytes as they are",
    arguments: &[Argument::SomeWords("PATH HOST", WORDS_HELP)],
    conflicts: &[],
};

/// What its words ask for.
pub(crate) fn action<'a>(alloc: Global, own: &ArgMatches<'_>) -> Result<Action<'a>, WordsFault>
    ensures asked { IfOk result (IsAppend own.now) }
    ensures refused { IfErr result (HasReason (IsUnasked Verb.Append own.now)) }
{
    if word_count(own) != 2 {
        let text = "error: append takes two words: a path on the volume and a host file";
        return Err(say_wrong(alloc, text)?);
    }
    Ok(Action::Change(Change::Append))
}
