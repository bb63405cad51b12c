//! `label`: gives the volume another label.
ghost use Rattle.std.specs.Prelude.{IfErr, IfOk};
ghost use Rattle.fs_words.specs.{Asked.IsLabel, Refused.HasReason, Refused.IsUnasked};

use crate::actions::{Action, Change};
use crate::arguments::{Argument, Row};
use crate::hints::wanting;
use crate::verbs::Verb;
use clap::ArgMatches;
use ods_words::WordsFault;
use std::alloc::Global;

/// How `label` is written.
pub(crate) const ROW: Row<'static> = Row {
    usage: "f11fs IMAGE label [OPTIONS] TEXT",
    about: "Give the volume another label",
    arguments: &[Argument::Word("label", "TEXT", "At most 12 of A to Z, 0 to 9 and dots")],
    conflicts: &[],
};

/// What its words ask for.
pub(crate) fn action<'a>(alloc: Global, own: &ArgMatches<'a>) -> Result<Action<'a>, WordsFault>
    ensures asked { IfOk result (IsLabel own.now) }
    ensures refused { IfErr result (HasReason (IsUnasked Verb.Label own.now)) }
{
    let Some(text) = own.get_str("label") else {
        return Err(wanting(alloc, false)?);
    };
    Ok(Action::Change(Change::Label { text }))
}
