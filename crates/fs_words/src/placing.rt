//! Where the blocks of new files are allocated, according to the words.
ghost use Rattle.fs_words.specs.Asked.{IsContiguity};

use clap::ArgMatches;

/// Returns whether the new files must be in one piece, if it is specified.
pub(crate) fn contiguity(own: &ArgMatches<'_>) -> Option<bool>
    ensures { IsContiguity own.now result }
{
    if own.get_flag("--contiguous") {
        Some(true)
    } else if own.get_flag("--no-contiguous") {
        Some(false)
    } else {
        None
    }
}
