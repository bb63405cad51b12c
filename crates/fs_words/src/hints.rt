//! The messages for words that lack a command or name an unknown one.
ghost use Rattle.std.specs.Prelude.{IfOk, if◌then◌else◌};
ghost use Rattle.ods_words.specs.Telling.{IsWrong};
ghost use Rattle.fs_words.specs.{Hints.IsMisplaced, Hints.IsUnknown, Hints.misplaced_line, Hints.near_line, Hints.strange_line, Hints.unknown_line, Hints.usage, Hints.wanting_line, Values.value_of};

use crate::verbs::{Verb, nearest};
use ods_words::{WordsFault, say_wrong};
use std::alloc::{AllocError, Global};

/// The usage of the command line.
const USAGE: &str =
    "usage: f11fs [OPTIONS] IMAGE COMMAND [WORD..]\nf11fs --help lists the commands";

/// Returns the message that words are missing: all of them, or the command.
#[tactic(auto, unfolding(crate::specs::Hints::usage, crate::specs::Hints::wanting_line))]
pub(crate) fn wanting(alloc: Global, all: bool) -> Result<WordsFault, AllocError>
    ensures { IfOk result (IsWrong (if all then usage else wanting_line)) }
{
    if all {
        return say_wrong(alloc, USAGE);
    }
    Ok(WordsFault::Wrong(format!(in alloc; "error: no command is given\n{USAGE}")?))
}

/// Returns the message that the word after the image is not a command. The image may come after it.
pub(crate) fn before_image(alloc: Global, image: &str, word: &str) -> Result<WordsFault, AllocError>
    ensures { IfOk result (IsMisplaced image.now word.now) }
{
    match Verb::of_name(image) {
        Some(_) => misplaced(alloc, image, word),
        None => no_command(alloc, word),
    }
}

/// The message that a word is not a command, and that the image comes after it.
#[tactic(auto, unfolding(crate::specs::Hints::misplaced_line))]
fn misplaced(alloc: Global, image: &str, word: &str) -> Result<WordsFault, AllocError>
    ensures { IfOk result (IsWrong (misplaced_line image.now word.now)) }
{
    Ok(WordsFault::Wrong(format!(in alloc;
        "f11fs: unknown command '{word}'; IMAGE comes first: f11fs {word} {image}"
    )?))
}

/// Returns the message that a word is not a command, and which command is near.
pub(crate) fn no_command(alloc: Global, word: &str) -> Result<WordsFault, AllocError>
    ensures { IfOk result (IsUnknown word.now) }
{
    let near = nearest(alloc, word)?;
    unknown(alloc, word, near)
}

/// The message that a word is not a command, and which command is near.
fn unknown(alloc: Global, word: &str, near: Option<&str>) -> Result<WordsFault, AllocError>
    ensures { IfOk result (IsWrong (unknown_line word.now (value_of near.entry))) }
{
    match near {
        Some(name) => say_near(alloc, word, name),
        None => say_strange(alloc, word),
    }
}

/// The message that a word is not a command, and that this one is near.
#[tactic(auto, unfolding(crate::specs::Hints::near_line))]
fn say_near(alloc: Global, word: &str, name: &str) -> Result<WordsFault, AllocError>
    ensures { IfOk result (IsWrong (near_line word.now name.now)) }
{
    let line = format!(in alloc; "f11fs: unknown command '{word}'; did you mean '{name}'?")?;
    Ok(WordsFault::Wrong(line))
}

/// The message that a word is not a command, and that none is near.
#[tactic(auto, unfolding(crate::specs::Hints::strange_line))]
fn say_strange(alloc: Global, word: &str) -> Result<WordsFault, AllocError>
    ensures { IfOk result (IsWrong (strange_line word.now)) }
{
    let line = format!(in alloc;
        "f11fs: unknown command '{word}'; f11fs --help lists the commands"
    )?;
    Ok(WordsFault::Wrong(line))
}
