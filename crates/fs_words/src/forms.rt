//! The options of `cat`, `get` and `rescue` for the form of files, and for how much of them is read.
ghost use Rattle.fs_words.specs.Asked.{IsWanted};

use crate::arguments::Argument;
use clap::ArgMatches;
use ods_records::Wanted;

/// `-t`.
pub(crate) const TEXT: Argument<'static> = Argument::Flag(
    "-t",
    "Write records as lines. Default if it is lossless",
);

/// `-b`.
pub(crate) const BINARY: Argument<'static> = Argument::Flag(
    "-b",
    "Write the bytes up to the end of file",
);

/// `--raw`.
pub(crate) const RAW: Argument<'static> = Argument::Flag("--raw", "Write the bytes of all blocks");

/// `--partial`.
pub(crate) const PARTIAL: Argument<'static> = Argument::Flag(
    "--partial",
    "Copy damaged files too: the blocks up to the first that is missing, with zeros for blocks outside the volume",
);

/// The form options that exclude each other.
pub(crate) const FORMS_APART: [(&str, &str); 3] = [("-t", "-b"), ("-t", "--raw"), ("-b", "--raw")];

/// Returns the requested form. Clap has refused two of them.
pub(crate) fn wanted_form(own: &ArgMatches<'_>) -> Wanted
    ensures { IsWanted own.now result }
{
    if own.get_flag("-t") {
        Wanted::Text
    } else if own.get_flag("-b") {
        Wanted::Binary
    } else if own.get_flag("--raw") {
        Wanted::Raw
    } else {
        Wanted::ByKind
    }
}
