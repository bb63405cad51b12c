//! `purge`: removes all but the highest versions.
ghost use Rattle.std.specs.Prelude.{IfErr, IfOk};
ghost use Rattle.fs_words.specs.{Asked.IsPurge, Refused.HasReason, Refused.IsUnasked};

use crate::actions::{Action, Change};
use crate::arguments::{Argument, Row};
use crate::numbers::number_of;
use crate::verbs::Verb;
use clap::ArgMatches;
use ods_words::{WordsFault, say_wrong};
use std::alloc::Global;

/// How `purge` is written.
pub(crate) const ROW: Row<'static> = Row {
    usage: "f11fs IMAGE purge [OPTIONS] [-k N] PATH..",
    about: "Remove all but the highest version of each name, and delete files that have no name left",
    arguments: &[
        Argument::Number(
            "-k",
            "N",
            "Keep the N highest versions of each name instead of one",
        ),
        Argument::SomePaths,
    ],
    conflicts: &[],
};

/// What its words ask for.
pub(crate) fn action<'a>(alloc: Global, own: &ArgMatches<'_>) -> Result<Action<'a>, WordsFault>
    ensures asked { IfOk result (IsPurge own.now) }
    ensures refused { IfErr result (HasReason (IsUnasked Verb.Purge own.now)) }
{
    let keep = match number_of(alloc, own.get_str("-k"))? {
        Some(0) => {
            let text = "error: -k 0 would keep no version: 'rm' with ';*' removes all";
            return Err(say_wrong(alloc, text)?);
        }
        Some(keep) => keep,
        None => 1,
    };
    Ok(Action::Change(Change::Purge { keep }))
}
