//! `put`: puts files of the host.
ghost use Rattle.std.specs.Prelude.{IfErr, IfOk};
ghost use Rattle.ods_records.specs.Forms.{IsForm};
ghost use Rattle.fs_words.specs.Values.{IsValue, value_of};
ghost use Rattle.fs_words.specs.{Asked.IsPut, Refused.HasReason, Refused.IsNoValue, Refused.IsUnasked};

use crate::actions::{Action, Change, PutWords};
use crate::arguments::{Argument, Row};
use crate::placing::contiguity;
use crate::said::wrong;
use crate::users::owner_of;
use crate::verbs::Verb;
use clap::ArgMatches;
use ods_records::parse_form;
use ods_words::{WordsFault, say_wrong};
use std::alloc::Global;

/// What the help says of forms.
const FORM_HELP: &str = "Store the bytes as they are, as records of this form.
KIND is fixed, variable, sequenced, stream or undefined.
CONTROL is none, cr, ftn or print; each may have +blk after it.
SIZE is the record size, at most 32767";

/// How `put` is written.
pub(crate) const ROW: Row<'static> = Row {
    usage: "f11fs IMAGE put [OPTIONS] [-t|-b] [--form FORM | --like PATH] [--contiguous] [--replace] [--owner OWNER] [-p] [-r [--skip]] HOST.. [PATH]",
    about: "Copy host files (- is standard input) into the volume. A file is stored as text records if that is lossless, otherwise as bytes",
    arguments: &[
        Argument::Flag("-t", "Store each line as a record"),
        Argument::Flag("-b", "Store the bytes as they are"),
        Argument::Text("--form", "KIND,CONTROL,SIZE", FORM_HELP),
        Argument::Text(
            "--like",
            "PATH",
            "Copy the record type and carriage control of this file. Use the larger record size.\nWith -b: copy all attributes of this file except the end of file",
        ),
        Argument::Flag(
            "--contiguous",
            "Store each new file in consecutive blocks, and mark it contiguous. Default: only if the file of --like, or the file that is replaced, is contiguous",
        ),
        Argument::Flag(
            "--no-contiguous",
            "Store the new files in any free blocks, even if the file of --like is contiguous",
        ),
        Argument::Flag(
            "--replace",
            "Replace the file, and keep its owner, protection and characteristics. Default: add a version",
        ),
        Argument::Text(
            "--owner",
            "OWNER",
            "Create the new files as this owner. The user of -u enters them in the directory",
        ),
        Argument::Flag(
            "-p",
            "Give each new file the modification time of its host file, in the local time zone. --stamp sets another time",
        ),
        Argument::Flag(
            "-r",
            "Copy all that is in the folder HOST and below it into the directory PATH. Make directories that are missing",
        ),
        Argument::Flag(
            "--skip",
            "With -r: leave out what has no valid name on the volume, and print its name. Default: refuse it",
        ),
        Argument::SomePaths,
    ],
    conflicts: &[
        ("-t", "-b"),
        ("-t", "--form"),
        ("-t", "--like"),
        ("--form", "--like"),
        ("--contiguous", "--no-contiguous"),
    ],
};

/// What its words ask for. `--skip` does nothing alone, and some options nothing for a folder.
pub(crate) fn action<'a>(alloc: Global, own: &ArgMatches<'a>) -> Result<Action<'a>, WordsFault>
    ensures asked { IfOk result (IsPut own.now) }
    ensures refused { IfErr result (HasReason (IsUnasked Verb.Put own.now)) }
{
    let form = form_of(alloc, own.get_str("--form"))?;
    let owner = owner_of(alloc, own)?;
    let like = own.get_str("--like");
    let replace = own.get_flag("--replace");
    let below = own.get_flag("-r");
    let skip = own.get_flag("--skip");
    if skip && !below {
        let text = "error: --skip does nothing for put without -r";
        return Err(say_wrong(alloc, text)?);
    }
    if below && (replace || like.is_some()) {
        let text = "error: --replace and --like do nothing for put with -r";
        return Err(say_wrong(alloc, text)?);
    }
    Ok(Action::Change(Change::Put(PutWords {
        text: own.get_flag("-t"),
        binary: own.get_flag("-b"),
        form,
        like,
        contiguous: contiguity(own),
        replace,
        owner,
        below,
        skip,
        dated: own.get_flag("-p"),
    })))
}

/// The form that the value of `--form` says, where there is one: the first four bytes of the attributes.
fn form_of(alloc: Global, text: Option<&str>) -> Result<Option<[u8; 4]>, WordsFault>
    ensures value { IfOk result (IsValue IsForm (value_of text.entry)) }
    ensures refused { IfErr result (HasReason (IsNoValue IsForm (value_of text.entry))) }
{
    let Some(text) = text else {
        return Ok(None);
    };
    match parse_form(text.as_bytes()) {
        Some(form) => Ok(Some(form)),
        None => Err(wrong(
            alloc,
            text,
            "is not a valid form, such as variable,cr,0; put --help lists the words",
        )?),
    }
}
