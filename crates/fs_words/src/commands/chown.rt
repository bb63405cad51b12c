//! `chown`: gives files another owner.
ghost use Rattle.std.specs.Prelude.{IfErr, IfOk};
ghost use Rattle.fs_words.specs.{Asked.IsChown, Refused.HasReason, Refused.IsUnasked};

use crate::actions::{Action, Change};
use crate::arguments::{Argument, Row};
use crate::hints::wanting;
use crate::users::new_owner_of;
use crate::verbs::Verb;
use clap::ArgMatches;
use ods_words::WordsFault;
use std::alloc::Global;

/// How `chown` is written.
pub(crate) const ROW: Row<'static> = Row {
    usage: "f11fs IMAGE chown [OPTIONS] OWNER PATH..",
    about: "Give files another owner. The path of a directory selects the file of the directory",
    arguments: &[
        Argument::Word("owner", "OWNER", "The new owner, such as [1,2]"),
        Argument::SomePaths,
    ],
    conflicts: &[],
};

/// What its words ask for.
pub(crate) fn action<'a>(alloc: Global, own: &ArgMatches<'_>) -> Result<Action<'a>, WordsFault>
    ensures asked { IfOk result (IsChown own.now) }
    ensures refused { IfErr result (HasReason (IsUnasked Verb.Chown own.now)) }
{
    let Some(text) = own.get_str("owner") else {
        return Err(wanting(alloc, false)?);
    };
    let owner = new_owner_of(alloc, text)?;
    Ok(Action::Change(Change::Chown { owner }))
}
