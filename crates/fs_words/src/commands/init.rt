//! `init`: makes the image of a new volume.
ghost use Rattle.std.specs.Prelude.{◌≡◌, [], IfErr, IfOk, codes, unwrap_or};
ghost use Rattle.fs_words.specs.{Asked.IsInit, Asked.IsSize, Asked.text_of, Refused.HasReason, Refused.IsUnasked, Refused.SpellsNone};

use crate::actions::Action;
use crate::arguments::{Argument, Row};
use crate::devices::{device_blocks, device_order};
use crate::numbers::number_of;
use crate::said::wrong;
use crate::verbs::Verb;
use clap::ArgMatches;
use ods_text::read_decimal;
use ods_words::WordsFault;
use std::alloc::Global;

/// What the help says of sizes.
const SIZE_HELP: &str =
    "The number of blocks, at least 40, or a device: RX01 494, RX02 988, RX50 800, RK05 4800, RL01 10240, RL02 20480,
RK06 27126, RK07 53790, RM03 131680, RP04 171798, RP06 340670, RM05 500384, RA81 891072";

/// How `init` is written.
pub(crate) const ROW: Row<'static> = Row {
    usage: "f11fs IMAGE init [OPTIONS] [--files N] [--label L] SIZE",
    about: "Make the image of an empty volume. IMAGE must not exist",
    arguments: &[
        Argument::Number(
            "--files",
            "N",
            "Make room for N files in addition to the five reserved files. Default: one for each 16 blocks",
        ),
        Argument::Text(
            "--label",
            "L",
            "Give the volume this label: at most 12 of A to Z, 0 to 9 and dots. Default: NEWVOLUME",
        ),
        Argument::Word("size", "SIZE", SIZE_HELP),
    ],
    conflicts: &[],
};

/// What its words ask for.
pub(crate) fn action<'a>(alloc: Global, own: &ArgMatches<'a>) -> Result<Action<'a>, WordsFault>
    ensures asked { IfOk result (IsInit own.now) }
    ensures refused { IfErr result (HasReason (IsUnasked Verb.Init own.now)) }
{
    let size = size_in(own);
    let blocks = size_of(alloc, size)?;
    let files = number_of(alloc, own.get_str("--files"))?;
    Ok(Action::Init {
        blocks,
        files,
        label: own.get_str("--label"),
        order: device_order(size),
    })
}

/// The word for the size.
fn size_in<'a>(own: &ArgMatches<'a>) -> &'a str
    ensures { result.now ≡ unwrap_or (text_of own.now (codes "size")) [] }
{
    own.get_str("size").unwrap_or("")
}

/// How many blocks a new volume has, by their number or by the name of a device.
fn size_of(alloc: Global, text: &str) -> Result<u32, WordsFault>
    ensures size { IfOk result (IsSize text.now) }
    ensures refused { IfErr result (HasReason (SpellsNone IsSize text.now)) }
{
    if let Some(blocks) = device_blocks(text) {
        return Ok(blocks);
    }
    match read_decimal(text.as_bytes()) {
        Some(blocks) => Ok(blocks),
        None => Err(wrong(
            alloc,
            text,
            "is neither a number of blocks nor a device that init --help lists",
        )?),
    }
}
