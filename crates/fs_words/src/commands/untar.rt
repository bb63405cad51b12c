//! `untar`: puts the files of an archive into the volume.
ghost use Rattle.std.specs.Prelude.{◌≡◌, IfErr, IfOk, codes, length};
ghost use Rattle.fs_words.specs.{Asked.IsUntar, Asked.texts_of, Refused.HasReason, Refused.IsUnasked};

use crate::actions::{Action, Change};
use crate::arguments::{Argument, Row};
use crate::verbs::Verb;
use clap::ArgMatches;
use ods_words::{WordsFault, say_wrong};
use std::alloc::Global;

/// What the help says of the words.
const WORDS_HELP: &str =
    "FILE is a tar archive on the host, or - for standard input. Default: standard input. The files are stored below the directory DIR of the volume";

/// How `untar` is written.
pub(crate) const ROW: Row<'static> = Row {
    usage: "f11fs IMAGE untar [OPTIONS] [FILE [DIR]]",
    about: "Put the files of an archive into the volume, with the attributes, owners and protections that tar of f11fs writes",
    arguments: &[Argument::Words("FILE", WORDS_HELP)],
    conflicts: &[],
};

/// What its words ask for.
pub(crate) fn action<'a>(alloc: Global, own: &ArgMatches<'_>) -> Result<Action<'a>, WordsFault>
    ensures asked { IfOk result (IsUntar own.now) }
    ensures refused { IfErr result (HasReason (IsUnasked Verb.Untar own.now)) }
{
    if word_count(own) > 2 {
        let text = "error: untar takes at most two words: an archive and a directory";
        return Err(say_wrong(alloc, text)?);
    }
    Ok(Action::Change(Change::Untar))
}

/// How many words stand behind the command.
pub(crate) fn word_count(own: &ArgMatches<'_>) -> usize
    ensures { result ≡ length (texts_of own.now (codes "path")) }
{
    match own.get_strs("path") {
        Some(words) => words.len(),
        None => 0,
    }
}
