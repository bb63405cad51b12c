//! `du`: shows how many blocks directories have.
ghost use Rattle.std.specs.Prelude.{IfErr, IfOk};
ghost use Rattle.fs_words.specs.{Asked.IsDu, Refused.HasReason, Refused.IsUnasked};

use crate::actions::Action;
use crate::arguments::{Argument, Row};
use crate::numbers::number_of;
use crate::verbs::Verb;
use clap::ArgMatches;
use ods_words::WordsFault;
use std::alloc::Global;

/// How `du` is written.
pub(crate) const ROW: Row<'static> = Row {
    usage: "f11fs IMAGE du [OPTIONS] [--top N]",
    about: "Show how many blocks the files of each directory have",
    arguments: &[Argument::Number("--top", "N", "Show the N largest files instead")],
    conflicts: &[],
};

/// What its words ask for.
pub(crate) fn action<'a>(alloc: Global, own: &ArgMatches<'_>) -> Result<Action<'a>, WordsFault>
    ensures asked { IfOk result (IsDu own.now) }
    ensures refused { IfErr result (HasReason (IsUnasked Verb.Du own.now)) }
{
    let top = number_of(alloc, own.get_str("--top"))?;
    Ok(Action::Du { top })
}
