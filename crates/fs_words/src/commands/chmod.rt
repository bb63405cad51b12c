//! `chmod`: gives files another protection.
ghost use Rattle.std.specs.Prelude.{IfErr, IfOk};
ghost use Rattle.fs_words.specs.{Asked.IsChmod, Refused.HasReason, Refused.IsUnasked};

use crate::actions::{Action, Change};
use crate::arguments::{Argument, Row};
use crate::hints::wanting;
use crate::protections::protection_of;
use crate::verbs::Verb;
use clap::ArgMatches;
use ods_words::WordsFault;
use std::alloc::Global;

/// How `chmod` is written.
pub(crate) const ROW: Row<'static> = Row {
    usage: "f11fs IMAGE chmod [OPTIONS] WORD PATH..",
    about: "Give files another protection. The path of a directory selects the file of the directory",
    arguments: &[
        Argument::Word(
            "protection",
            "WORD",
            "The rights of system, owner, group and world, such as [RWED,RWED,RW,R], or six octal digits",
        ),
        Argument::SomePaths,
    ],
    conflicts: &[],
};

/// What its words ask for.
pub(crate) fn action<'a>(alloc: Global, own: &ArgMatches<'_>) -> Result<Action<'a>, WordsFault>
    ensures asked { IfOk result (IsChmod own.now) }
    ensures refused { IfErr result (HasReason (IsUnasked Verb.Chmod own.now)) }
{
    let Some(text) = own.get_str("protection") else {
        return Err(wanting(alloc, false)?);
    };
    let protection = protection_of(alloc, text)?;
    Ok(Action::Change(Change::Chmod { protection }))
}
