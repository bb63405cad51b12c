//! `cp`: copies files within the volume, or from another one.
ghost use Rattle.std.specs.Prelude.{IfErr, IfOk};
ghost use Rattle.fs_words.specs.{Asked.IsCp, Refused.HasReason, Refused.IsUnasked};

use crate::actions::{Action, Change, FromWords};
use crate::arguments::{Argument, Row};
use crate::placing::contiguity;
use crate::verbs::Verb;
use clap::ArgMatches;
use ods_words::{WordsFault, say_wrong};
use std::alloc::Global;

/// How `cp` is written.
pub(crate) const ROW: Row<'static> = Row {
    usage: "f11fs IMAGE cp [OPTIONS] [--contiguous] [--from IMAGE2 [-r] [-a] [--next] [--no-contiguous]] PATH.. PATH",
    about: "Copy files within the volume, or from the volume of another image",
    arguments: &[
        Argument::Text(
            "--from",
            "IMAGE2",
            "Copy files of the volume in IMAGE2, with their dates, attributes, protection, names and versions. The last PATH is a directory of IMAGE",
        ),
        Argument::Flag(
            "-r",
            "With --from: copy all that is in a directory and below it. A directory that is made gets the date and the protection of its original",
        ),
        Argument::Flag(
            "-a",
            "With --from: keep the owners too, as far as the user may give them. Default: the user owns the copies",
        ),
        Argument::Flag(
            "--next",
            "With --from: give a copy the next version if its version is taken. Default: refuse it",
        ),
        Argument::Flag(
            "--contiguous",
            "Store each copy in consecutive blocks, and mark it contiguous. Default: with --from if the file is contiguous",
        ),
        Argument::Flag(
            "--no-contiguous",
            "With --from: store the copies in any free blocks",
        ),
        Argument::TwoPaths,
    ],
    conflicts: &[("--contiguous", "--no-contiguous")],
};

/// What its words ask for. Within the volume some options do nothing.
pub(crate) fn action<'a>(alloc: Global, own: &ArgMatches<'a>) -> Result<Action<'a>, WordsFault>
    ensures asked { IfOk result (IsCp own.now) }
    ensures refused { IfErr result (HasReason (IsUnasked Verb.Cp own.now)) }
{
    let below = own.get_flag("-r");
    let owners = own.get_flag("-a");
    let next = own.get_flag("--next");
    let contiguous = contiguity(own);
    let Some(from) = own.get_str("--from") else {
        if below || owners || next {
            let text = "error: -r, -a and --next do nothing for cp without --from";
            return Err(say_wrong(alloc, text)?);
        }
        if contiguous == Some(false) {
            let text = "error: --no-contiguous does nothing for cp without --from";
            return Err(say_wrong(alloc, text)?);
        }
        return Ok(Action::Change(Change::Cp {
            contiguous: contiguous.unwrap_or(false),
        }));
    };
    Ok(Action::Change(Change::CpFrom(FromWords {
        from,
        below,
        owners,
        next,
        contiguous,
    })))
}
