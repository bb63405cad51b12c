//! Why a command line requests no action, and the text that reports it.
ghost use Rattle.std.specs.Prelude.{IfOk};
ghost use Rattle.clap.specs.Values.{kind_of};
ghost use Rattle.ods_words.specs.Telling.{IsToldOf, IsWrong};

use clap::Error;
use clap::error::ErrorKind;
use std::alloc::{AllocError, Global};

/// The reason why a command line requests no action.
#[derive(Debug, Drop)]
pub enum WordsFault {
    /// The help or the version was requested. The text is what to print, with its last line feed.
    Help(String),
    /// The command line is not valid. The text has one or two lines that report the error, without a line feed at the end.
    Wrong(String),
    /// The allocator refused memory.
    NoMemory,
}

impl From<AllocError> for WordsFault {
    ghost use Rattle.std.specs.Prelude.{◌≡◌};
    ghost use Rattle.ods_words.specs.declared.fault.WordsFault.TheVariants.{NoMemory};

    ghost from_gives = { λ _ fault. fault ≡ NoMemory };

    fn from(_error: AllocError) -> WordsFault {
        WordsFault::NoMemory
    }
}

/// Converts an error of clap to a fault: the text of the help or version, a line that reports the error, or out of memory.
pub fn tell_error(alloc: Global, error: &Error) -> Result<WordsFault, AllocError>
    ensures { IfOk result (IsToldOf (kind_of error.now)) }
{
    match error.kind() {
        ErrorKind::OutOfMemory => Ok(WordsFault::NoMemory),
        ErrorKind::DisplayHelp | ErrorKind::DisplayVersion => {
            Ok(WordsFault::Help(format!(in alloc; "{error}")?))
        }
        kind => Ok(WordsFault::Wrong(line_of(alloc, error, kind)?)),
    }
}

/// The first line of an error. Where a word is wanting the second line names it, and stands behind.
fn line_of(alloc: Global, error: &Error, kind: ErrorKind) -> Result<String, AllocError> {
    let text = format!(in alloc; "{error}")?;
    let mut lines = text.as_str().lines();
    let mut line = String::from_str(
        alloc,
        lines
            .next()
            .unwrap_or("error: the command line is not valid"),
    )?;
    if kind == ErrorKind::MissingRequiredArgument {
        line.push(' ')?;
        line.push_str(lines.next().unwrap_or("").trim())?;
    }
    Ok(line)
}

/// Returns the fault of a command line that is not valid, with a copy of the line that reports it.
pub fn say_wrong(alloc: Global, line: &str) -> Result<WordsFault, AllocError>
    ensures { IfOk result (IsWrong line.now) }
{
    Ok(WordsFault::Wrong(String::from_str(alloc, line)?))
}
