//! The words in two parts: the words before the command, and the command with the words after it. An image may have any name, so only its position
//! makes a word a command.
ghost use Rattle.std.specs.Prelude.{◌≡◌, ◌-◌, IfErr, IfOk, drop, length, map, true};
ghost use Rattle.clap.specs.Simple.{app_of};
ghost use Rattle.clap.specs.Takes.{takes};
ghost use Rattle.clap.specs.Values.{kind_of};
ghost use Rattle.ods_words.specs.Telling.{IsToldOf};
ghost use Rattle.fs_words.specs.{Parses.IsKindAt, Parses.IsParseOf, Rules.choice_rule, Rules.front_app, Rules.image_rules, Rules.program_app, Rules.whole_app, Rules.with_rules, Saying.rest_among};

use crate::commands::command_of;
use crate::help::{ABOUT, AFTER_HELP};
use crate::options::{CHOICES, Choice};
use crate::verbs::{VERBS, Verb};
use clap::error::ErrorKind;
use clap::{Arg, ArgMatches, Command, Error};
use ods_words::{WordsFault, tell_error};
use std::alloc::{AllocError, Global};
use std::convert::AsStr;

/// Returns the parse of the words before the command, which begin with an image if `has_image`. The words from the name of the command on are kept
/// together, as `rest`.
pub(crate) fn first_matches<'a, S: AsStr>(
    alloc: Global,
    words: &'a [S],
    version: &'a str,
    has_image: bool,
) -> Result<ArgMatches<'a>, Error>
    ensures found { IfOk result (IsParseOf (program_app has_image) (map S.text words.entry.now)) }
    ensures refused { IfErr result (λ e. takes (program_app has_image) (map S.text words.entry.now) ≡ true → kind_of e ≡ ErrorKind.OutOfMemory) }
    ensures kinds { IfErr result (λ e. IsKindAt (program_app has_image) (map S.text words.entry.now) (kind_of e)) }
{
    let command = program(alloc, version, has_image)?;
    command.try_get_matches_from(words)
}

/// What may stand before the command, and the words from its name on.
fn program<'a>(alloc: Global, version: &'a str, has_image: bool) -> Result<Command<'a>, AllocError>
    ensures { IfOk result (λ c. app_of c ≡ program_app has_image) }
{
    let rest = Arg::new(alloc, "rest")
        .value_name("COMMAND")
        .num_args(0..)
        .trailing_var_arg(true)
        .hide(true);
    let command = front(alloc, version, has_image)?.arg(rest)?;
    Ok(command)
}

/// Returns the words from the name of the command on: the last words that were kept together.
pub(crate) fn rest_of<'a, S>(before: &ArgMatches<'a>, words: &'a [S]) -> &'a [S]
    ensures { result.now ≡ drop (length words.now - length (rest_among before.now)) words.now }
{
    let count = match before.get_strs("rest") {
        Some(rest) => rest.len(),
        None => 0,
    };
    words
        .get(words.len().saturating_sub(count)..)
        .unwrap_or(&[])
}

/// Returns the words after the first one.
pub(crate) fn behind_first<'a, S>(words: &'a [S]) -> &'a [S]
    ensures { result.now ≡ drop 1 words.now }
{
    words.get(1..).unwrap_or(&[])
}

/// Returns the parse of the words after the name of a command.
pub(crate) fn command_matches<'a, S: AsStr>(
    alloc: Global,
    verb: Verb,
    words: &'a [S],
) -> Result<ArgMatches<'a>, Error>
    ensures found { IfOk result (IsParseOf (whole_app verb) (map S.text words.entry.now)) }
    ensures refused { IfErr result (λ e. takes (whole_app verb) (map S.text words.entry.now) ≡ true → kind_of e ≡ ErrorKind.OutOfMemory) }
    ensures kinds { IfErr result (λ e. IsKindAt (whole_app verb) (map S.text words.entry.now) (kind_of e)) }
{
    let command = whole_command(alloc, verb)?;
    command.try_get_matches_from(words)
}

/// A command with its options.
fn whole_command<'a>(alloc: Global, verb: Verb) -> Result<Command<'a>, AllocError>
    ensures { IfOk result (λ c. app_of c ≡ whole_app verb) }
{
    let command = command_of(alloc, verb)?.no_binary_name(true);
    let command = with_options(alloc, command, &CHOICES, Some(verb))?;
    Ok(command)
}

/// A command with these options, whose help is that of the command `verb` where there is one.
fn with_options<'a>(
    alloc: Global,
    command: Command<'a>,
    choices: &[Choice],
    verb: Option<Verb>,
) -> Result<Command<'a>, AllocError>
    ensures { IfOk result (λ c. app_of c ≡ with_rules (map choice_rule choices.now) (app_of command.entry)) }
{
    let mut command = command;
    for choice in choices {
        command = command.arg(choice.arg(alloc, verb))?;
    }
    Ok(command)
}

/// What may stand before the command, the image where `has_image`.
fn front<'a>(alloc: Global, version: &'a str, has_image: bool) -> Result<Command<'a>, AllocError>
    ensures { IfOk result (λ c. app_of c ≡ front_app has_image) }
{
    let file = Arg::new(alloc, "commands")
        .short('f')
        .long("commands")
        .value_name("FILE")
        .help("Run the commands in FILE, one a line. - is standard input");
    let command = Command::new(alloc, "f11fs")
        .about(ABOUT)
        .after_help(AFTER_HELP)
        .version(version)
        .override_usage("f11fs [OPTIONS] IMAGE COMMAND [WORD..]")
        .no_binary_name(true)
        .disable_help_subcommand(true);
    let command = with_image(alloc, command, has_image)?;
    let command = command.arg(file)?;
    let command = with_options(alloc, command, &CHOICES, None)?;
    Ok(command)
}

/// A command with the image, where `has_image`.
fn with_image<'a>(
    alloc: Global,
    command: Command<'a>,
    has_image: bool,
) -> Result<Command<'a>, AllocError>
    ensures { IfOk result (λ c. app_of c ≡ with_rules (image_rules has_image) (app_of command.entry)) }
{
    if !has_image {
        return Ok(command);
    }
    let image = Arg::new(alloc, "image")
        .value_name("IMAGE")
        .help("The file with the disk image");
    let command = command.arg(image)?;
    Ok(command)
}

/// The help of all commands, or of the one whose name is the first word that is no option: `f11fs ls --help`.
fn help<S: AsStr>(alloc: Global, words: &[S], version: &str) -> Result<String, AllocError> {
    let first = match words.iter().find(|word| !word.as_str().starts_with('-')) {
        Some(word) => Verb::of_name(word.as_str()),
        None => None,
    };
    if let Some(verb) = first {
        return whole_command(alloc, verb)?.render_help();
    }
    let mut command = front(alloc, version, true)?;
    for verb in &VERBS {
        command = command.subcommand(command_of(alloc, *verb)?)?;
    }
    command.render_help()
}

/// Returns the message if clap accepts no words of the program. The first of `words` may name a command, whose help is requested.
pub(crate) fn tell<S: AsStr>(
    alloc: Global,
    error: &Error,
    words: &[S],
    version: &str,
) -> Result<WordsFault, AllocError>
    ensures { IfOk result (IsToldOf (kind_of error.now)) }
{
    match error.kind() {
        ErrorKind::DisplayHelp => Ok(WordsFault::Help(help(alloc, words, version)?)),
        ErrorKind::UnknownArgument => Ok(WordsFault::Wrong(unknown_line(alloc, error)?)),
        _ => tell_error(alloc, error),
    }
}

/// The line that reports a word which the command does not take. For an option it has the nearest one, if clap finds one, and names `--help`.
fn unknown_line(alloc: Global, error: &Error) -> Result<String, AllocError> {
    let text = format!(in alloc; "{error}")?;
    let mut lines = text.as_str().lines();
    let line = lines.next().unwrap_or("error: a word is unknown");
    if !line.starts_with("error: unexpected argument '-") {
        return Ok(String::from_str(alloc, line)?);
    }
    match near_option(text.as_str()) {
        Some(near) => {
            format!(in alloc; "{line}; did you mean '{near}'? --help lists the options")
        }
        None => format!(in alloc; "{line}; --help lists the options"),
    }
}

/// The option that is near to an unknown one, in the text of an error of clap.
fn near_option(text: &str) -> Option<&str> {
    let (_, behind) = text.split_once("tip: a similar argument exists: '")?;
    let (near, _) = behind.split_once("'")?;
    Some(near)
}
