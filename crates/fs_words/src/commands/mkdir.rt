//! `mkdir`: makes directories.
ghost use Rattle.std.specs.Prelude.{IfErr, IfOk};
ghost use Rattle.fs_words.specs.{Asked.IsMkdir, Refused.HasReason, Refused.IsUnasked};

use crate::actions::{Action, Change};
use crate::arguments::{Argument, Row};
use crate::numbers::number_of;
use crate::users::owner_of;
use crate::verbs::Verb;
use clap::ArgMatches;
use ods_words::WordsFault;
use std::alloc::Global;

/// How `mkdir` is written.
pub(crate) const ROW: Row<'static> = Row {
    usage: "f11fs IMAGE mkdir [OPTIONS] [--names N] [--owner OWNER] DIR..",
    about: "Make directories",
    arguments: &[
        Argument::Number("--names", "N", "Make room for N names"),
        Argument::Text(
            "--owner",
            "OWNER",
            "Give the directories this owner. Default: [1,2] for directory [1,2]; otherwise the user of -u",
        ),
        Argument::SomePaths,
    ],
    conflicts: &[],
};

/// What its words ask for.
pub(crate) fn action<'a>(alloc: Global, own: &ArgMatches<'_>) -> Result<Action<'a>, WordsFault>
    ensures asked { IfOk result (IsMkdir own.now) }
    ensures refused { IfErr result (HasReason (IsUnasked Verb.Mkdir own.now)) }
{
    let names = number_of(alloc, own.get_str("--names"))?;
    let owner = owner_of(alloc, own)?;
    Ok(Action::Change(Change::Mkdir { names, owner }))
}
