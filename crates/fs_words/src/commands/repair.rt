//! `repair`: mends faults and findings of an image.
ghost use Rattle.std.specs.Prelude.{IfErr, IfOk, codes};
ghost use Rattle.fs_words.specs.{Asked.IsRepair, Asked.texts_of, Refused.HasReason, Refused.IsUnasked, RepairWords.AreKinds, RepairWords.HasUnknown};

use crate::actions::{Action, Repairs};
use crate::arguments::{Argument, Row};
use crate::repairs::known_kinds;
use crate::verbs::Verb;
use clap::ArgMatches;
use ods_words::{WordsFault, say_wrong};
use std::alloc::Global;

/// What the help says of the kinds.
const KINDS_HELP: &str = "What to repair, as check --all finds it:
used: mark blocks of files as used that are marked as free
share: move runs of blocks that a file shares with an earlier file to free blocks
double: give the later of two entries with the same name and version the next version
names: remove entries that name no file
free: mark blocks as free that are marked as used and belong to no file
lost: enter files that no directory names in a directory
all: all of these";

/// How `repair` is written.
pub(crate) const ROW: Row<'static> = Row {
    usage: "f11fs IMAGE repair [OPTIONS] [--into DIR] KIND..",
    about: "Repair an image, also one that f11fs refuses. Work on a copy first",
    arguments: &[
        Argument::Text(
            "--into",
            "DIR",
            "With lost: enter the files in this directory. Default: [1,3], which is made if it does not exist",
        ),
        Argument::SomeWords("KIND", KINDS_HELP),
    ],
    conflicts: &[],
};

/// What its words ask for. A directory does nothing without lost files.
pub(crate) fn action<'a>(alloc: Global, own: &ArgMatches<'a>) -> Result<Action<'a>, WordsFault>
    ensures asked { IfOk result (IsRepair own.now) }
    ensures refused { IfErr result (HasReason (IsUnasked Verb.Repair own.now)) }
{
    let kinds = kinds_of(alloc, own)?;
    let into = own.get_str("--into");
    if into.is_some() && !kinds.lost {
        let text = "error: --into does nothing for repair without lost";
        return Err(say_wrong(alloc, text)?);
    }
    Ok(Action::Repair { kinds, into })
}

/// The repairs that the words behind the command ask for.
fn kinds_of(alloc: Global, own: &ArgMatches<'_>) -> Result<Repairs, WordsFault>
    ensures asked { IfOk result (AreKinds (texts_of own.now (codes "path"))) }
    ensures refused { IfErr result (HasReason (HasUnknown (texts_of own.now (codes "path")))) }
{
    match own.get_strs("path") {
        Some(words) => known_kinds(alloc, words),
        None => known_kinds(alloc, &[]),
    }
}
