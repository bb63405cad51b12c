//! The choice of a run by the words of the command line.
ghost use Rattle.std.specs.Prelude.{◌≡◌, MatchOption, IfSome, if◌then◌else◌};
ghost use Rattle.ods_cli.specs.{Runs.IsHeaderNumber, Runs.AsksForOne, declared.runs.Run.TheVariants.SampleHeader, declared.runs.Run.TheVariants.ImageHeader, declared.runs.Run.TheVariants.Input, declared.runs.Run.TheVariants.Scripts};

use crate::Words;

/// The kind of a run.
#[derive(Clone, Copy, Debug, PartialEq, Eq)]
pub enum Run<'a> {
    /// Prints the line of this header of the sample volume.
    SampleHeader(u16),
    /// Prints the line of this header of the image at this path.
    ImageHeader(&'a str, u16),
    /// Runs one script from standard input on the sample volume.
    Input,
    /// Runs the scripts of the words on the image of the words.
    Scripts,
}

/// Returns the run that the words request. With `--header` it prints a header's line. With no word at all it runs a script from standard input.
/// Otherwise it runs the given scripts.
pub fn run_for<'a>(words: &Words<'a>) -> Run<'a>
    ensures run { MatchOption words.now.header
        (result ≡ (if words.now.is_bare then Input else Scripts))
        (λ number. MatchOption words.now.image (result ≡ SampleHeader number) (λ path. result ≡ ImageHeader path number)) }
    ensures header { IfSome words.now.header IsHeaderNumber → AsksForOne result }
{
    match (words.image, words.header) {
        (None, Some(number)) => Run::SampleHeader(number),
        (Some(path), Some(number)) => Run::ImageHeader(path, number),
        _ => {
            if words.is_bare {
                Run::Input
            } else {
                Run::Scripts
            }
        }
    }
}
