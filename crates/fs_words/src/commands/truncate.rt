//! `truncate`: cuts a file.
ghost use Rattle.std.specs.Prelude.{IfErr, IfOk};
ghost use Rattle.fs_words.specs.{Asked.IsTruncate, Refused.HasReason, Refused.IsUnasked};

use crate::actions::{Action, Change};
use crate::arguments::{Argument, Row};
use crate::hints::wanting;
use crate::numbers::large_number_of;
use crate::verbs::Verb;
use clap::ArgMatches;
use ods_words::WordsFault;
use std::alloc::Global;

/// How `truncate` is written.
pub(crate) const ROW: Row<'static> = Row {
    usage: "f11fs IMAGE truncate [OPTIONS] PATH BYTES",
    about: "Cut a file to its first BYTES bytes",
    arguments: &[
        Argument::Word("path", "PATH", "The file to cut"),
        Argument::LargeNumber("bytes", "BYTES", "How many bytes to keep"),
    ],
    conflicts: &[],
};

/// What its words ask for.
pub(crate) fn action<'a>(alloc: Global, own: &ArgMatches<'_>) -> Result<Action<'a>, WordsFault>
    ensures asked { IfOk result (IsTruncate own.now) }
    ensures refused { IfErr result (HasReason (IsUnasked Verb.Truncate own.now)) }
{
    let Some(text) = own.get_str("bytes") else {
        return Err(wanting(alloc, false)?);
    };
    let bytes = large_number_of(alloc, text)?;
    Ok(Action::Change(Change::Truncate { bytes }))
}
