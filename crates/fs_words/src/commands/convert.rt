//! `convert`: writes a volume into another image.
ghost use Rattle.std.specs.Prelude.{IfErr, IfOk};
ghost use Rattle.fs_words.specs.{Asked.IsConvert, Refused.HasReason, Refused.IsUnasked};

use crate::actions::Action;
use crate::arguments::{Argument, Row};
use crate::layering::read_layering;
use crate::verbs::Verb;
use clap::ArgMatches;
use ods_words::WordsFault;
use std::alloc::Global;

/// How `convert` is written.
pub(crate) const ROW: Row<'static> = Row {
    usage: "f11fs IMAGE convert [OPTIONS] [--to ORDER] [--blocks-only] OUT",
    about: "Write the volume into another image, as blocks or as a floppy",
    arguments: &[
        Argument::Word("path", "OUT", "The image to make. It must not exist"),
        Argument::Text(
            "--to",
            "ORDER",
            "The order of the sectors in OUT: plain, rx01, rx02 or rx50. Default: plain",
        ),
        Argument::Flag(
            "--blocks-only",
            "Leave out the bytes after the volume, and the first track of a floppy. Default: an image with such a track is refused",
        ),
    ],
    conflicts: &[],
};

/// What its words ask for.
pub(crate) fn action<'a>(alloc: Global, own: &ArgMatches<'a>) -> Result<Action<'a>, WordsFault>
    ensures asked { IfOk result (IsConvert own.now) }
    ensures refused { IfErr result (HasReason (IsUnasked Verb.Convert own.now)) }
{
    let order = read_layering(alloc, own.get_str("--to"))?;
    Ok(Action::Convert {
        order,
        alone: own.get_flag("--blocks-only"),
    })
}
