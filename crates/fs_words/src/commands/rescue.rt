//! `rescue`: copies files out of an image that may be refused.
ghost use Rattle.fs_words.specs.Asked.{IsRescue};

use crate::actions::Action;
use crate::arguments::{Argument, Row};
use crate::forms::PARTIAL;
use clap::ArgMatches;

/// How `rescue` is written.
pub(crate) const ROW: Row<'static> = Row {
    usage: "f11fs IMAGE rescue [OPTIONS] [--text] [--scan] [--partial] FOLDER",
    about: "Copy each file with intact headers out of a damaged or refused image into a new folder",
    arguments: &[
        Argument::Word(
            "path",
            "FOLDER",
            "The host folder to make. An existing folder must be empty",
        ),
        Argument::Flag("--text", "Write records as lines if they are intact"),
        Argument::Flag(
            "--scan",
            "Look for file headers in all blocks. Default: only if the image has no home block or no whole INDEXF.SYS",
        ),
        PARTIAL,
    ],
    conflicts: &[],
};

/// What its words ask for.
pub(crate) fn action<'a>(own: &ArgMatches<'a>) -> Action<'a>
    ensures { IsRescue own.now result }
{
    Action::Rescue {
        text: own.get_flag("--text"),
        scan: own.get_flag("--scan"),
        partial: own.get_flag("--partial"),
    }
}
