//! Rows that define the syntax of a command, with its options and the words after it.
ghost use Rattle.std.specs.Prelude.{◌≡◌, ◌++◌, ◌∷◌, [], IfOk, false, map};
ghost use Rattle.clap.specs.Simple.{app_of, new_app};
ghost use Rattle.clap.specs.Walk.{rule_of};
ghost use Rattle.fs_words.specs.{Kinds.IsKindOf, Kinds.IsSpelledOf, Rules.as_flag, Rules.as_large, Rules.as_needed, Rules.as_number, Rules.as_paths, Rules.as_text, Rules.as_word, Rules.letter_in, Rules.name_of, Rules.others, Rules.rule_for, Rules.rule_in, Rules.rules_in, Rules.spelled_as, Rules.with_rules};

use clap::{Arg, ArgAction, Command, value_parser};
use std::alloc::{AllocError, Global};

/// A command: its usage, its purpose, and its own arguments.
#[derive(Clone, Copy)]
pub(crate) struct Row<'a> {
    pub usage: &'a str,
    pub about: &'a str,
    pub arguments: &'a [Argument<'a>],
    /// Which arguments cannot be used together, by their names.
    pub conflicts: &'a [(&'a str, &'a str)],
}

/// An argument of a command. The first text is its name in a parse; for an option, it is the spelling, such as `-l` or `--top`. The last text is its
/// help. The text between them names its value in the help.
#[derive(Clone, Copy)]
pub(crate) enum Argument<'a> {
    /// An option without a value.
    Flag(&'a str, &'a str),
    /// An option with a text.
    Text(&'a str, &'a str, &'a str),
    /// An option with a number of 32 bits.
    Number(&'a str, &'a str, &'a str),
    /// One word.
    Word(&'a str, &'a str, &'a str),
    /// One word that is a number of 64 bits.
    LargeNumber(&'a str, &'a str, &'a str),
    /// Any number of words that are not paths of the volume. In a parse they have the name of paths. The texts are their name in the help, and their
    /// help.
    Words(&'a str, &'a str),
    /// The same, one or more.
    SomeWords(&'a str, &'a str),
    /// Any number of paths.
    Paths,
    /// One path or more.
    SomePaths,
    /// Two paths or more.
    TwoPaths,
}

/// What the help says of paths.
const PATHS_HELP: &str = "Paths on the volume, such as '[1,2]NOTES.TXT;3' or 1,2/NOTES.TXT";

/// Returns the command of this name and row, in the form that clap takes.
pub(crate) fn command_in<'a>(
    alloc: Global,
    name: &'a str,
    row: &Row<'a>,
) -> Result<Command<'a>, AllocError>
    ensures { IfOk result (λ c. app_of c ≡ with_rules (rules_in row.now) (new_app name.entry.now)) }
{
    let mut command = Command::new(alloc, name)
        .override_usage(row.usage)
        .about(row.about);
    for argument in row.arguments {
        command = command.arg(argument_in(alloc, argument, row.conflicts)?)?;
    }
    Ok(command)
}

/// An argument as clap takes it, with those of the arguments that it cannot stand with.
fn argument_in<'a>(
    alloc: Global,
    argument: &Argument<'a>,
    conflicts: &[(&'a str, &'a str)],
) -> Result<Arg<'a>, AllocError>
    ensures rule { IfOk result (λ a. rule_of a ≡ rule_in conflicts.now argument.now) }
    ensures apart { IfOk result (λ a. map (λ s. s.now) a.conflicts.items ≡ others (name_of argument.now) conflicts.now) }
    ensures local { IfOk result (λ a. a.global ≡ false) }
{
    let id = name_in(argument);
    let arg = of_kind(Arg::new(alloc, id), argument);
    let arg = with_conflicts(arg, id, conflicts)?;
    Ok(arg)
}

/// An argument of this name with those that it cannot stand with.
fn with_conflicts<'a>(
    arg: Arg<'a>,
    id: &str,
    conflicts: &[(&'a str, &'a str)],
) -> Result<Arg<'a>, AllocError>
    ensures same { IfOk result (λ a. a ≡ record arg.entry { conflicts = a.conflicts }) }
    ensures apart { IfOk result (λ a. map (λ s. s.now) a.conflicts.items ≡ map (λ s. s.now) arg.entry.conflicts.items ++ others id.now conflicts.now) }
{
    let mut arg = arg;
    for pair in conflicts {
        arg = with_conflict(arg, id, pair)?;
    }
    Ok(arg)
}

/// An argument of this name with one of a pair, where the name is that of the other.
fn with_conflict<'a>(
    arg: Arg<'a>,
    id: &str,
    pair: &(&'a str, &'a str),
) -> Result<Arg<'a>, AllocError>
    ensures same { IfOk result (λ a. a ≡ record arg.entry { conflicts = a.conflicts }) }
    ensures apart { IfOk result (λ a. map (λ s. s.now) a.conflicts.items ≡ map (λ s. s.now) arg.entry.conflicts.items ++ others id.now (pair.now ∷ [])) }
{
    let (one, other) = *pair;
    if one != id {
        return Ok(arg);
    }
    let arg = arg.conflicts_with(other)?;
    Ok(arg)
}

/// The name of an argument in a parse.
fn name_in<'a>(argument: &Argument<'a>) -> &'a str
    ensures { result.now ≡ name_of argument.now }
{
    match *argument {
        Argument::Flag(id, _)
        | Argument::Text(id, _, _)
        | Argument::Number(id, _, _)
        | Argument::Word(id, _, _)
        | Argument::LargeNumber(id, _, _) => id,
        Argument::Words(_, _)
        | Argument::SomeWords(_, _)
        | Argument::Paths
        | Argument::SomePaths
        | Argument::TwoPaths => "path",
    }
}

/// An argument of its kind.
fn of_kind<'a>(arg: Arg<'a>, argument: &Argument<'a>) -> Arg<'a>
    ensures rule { rule_of result ≡ rule_for argument.now (rule_of arg.entry) }
    ensures same { IsKindOf arg.entry result }
{
    match *argument {
        Argument::Flag(id, help) => flag(arg, id, help),
        Argument::Text(id, value, help) => text(arg, id, value, help),
        Argument::Number(id, value, help) => number(arg, id, value, help),
        Argument::Word(_, value, help) => word(arg, value, help),
        Argument::LargeNumber(_, value, help) => large_number(arg, value, help),
        Argument::Words(value, help) => words(arg, value, help, 0),
        Argument::SomeWords(value, help) => some_words(arg, value, help, 0),
        Argument::Paths => words(arg, "PATH", PATHS_HELP, 0),
        Argument::SomePaths => some_words(arg, "PATH", PATHS_HELP, 0),
        Argument::TwoPaths => some_words(arg, "PATH", PATHS_HELP, 2),
    }
}

/// An option without a value.
fn flag<'a>(arg: Arg<'a>, option: &'a str, help: &'a str) -> Arg<'a>
    ensures rule { rule_of result ≡ as_flag option.entry.now (rule_of arg.entry) }
    ensures same { IsKindOf arg.entry result }
{
    with_spelling(arg, option)
        .help(help)
        .action(ArgAction::SetTrue)
}

/// An option with a value, and its name in the help.
fn text<'a>(arg: Arg<'a>, option: &'a str, value: &'a str, help: &'a str) -> Arg<'a>
    ensures rule { rule_of result ≡ as_text option.entry.now (rule_of arg.entry) }
    ensures same { IsKindOf arg.entry result }
{
    with_spelling(arg, option).value_name(value).help(help)
}

/// An option with a number of 32 bits, and its name in the help.
fn number<'a>(arg: Arg<'a>, option: &'a str, value: &'a str, help: &'a str) -> Arg<'a>
    ensures rule { rule_of result ≡ as_number option.entry.now (rule_of arg.entry) }
    ensures same { IsKindOf arg.entry result }
{
    text(arg, option, value, help).value_parser(value_parser!(u32))
}

/// A word that must be there, with its name in the help.
fn word<'a>(arg: Arg<'a>, value: &'a str, help: &'a str) -> Arg<'a>
    ensures rule { rule_of result ≡ as_word (rule_of arg.entry) }
    ensures same { IsKindOf arg.entry result }
{
    arg.value_name(value).required(true).help(help)
}

/// A number of 64 bits that must be there, with its name in the help.
fn large_number<'a>(arg: Arg<'a>, value: &'a str, help: &'a str) -> Arg<'a>
    ensures rule { rule_of result ≡ as_large (rule_of arg.entry) }
    ensures same { IsKindOf arg.entry result }
{
    word(arg, value, help).value_parser(value_parser!(u64))
}

/// Words that must be there, at least so many, with their name in the help.
fn some_words<'a>(arg: Arg<'a>, value: &'a str, help: &'a str, least: usize) -> Arg<'a>
    ensures rule { rule_of result ≡ as_needed least (rule_of arg.entry) }
    ensures same { IsKindOf arg.entry result }
{
    words(arg, value, help, least).required(true)
}

/// Words, at least so many where any are said, with their name in the help.
fn words<'a>(arg: Arg<'a>, value: &'a str, help: &'a str, least: usize) -> Arg<'a>
    ensures rule { rule_of result ≡ as_paths least (rule_of arg.entry) }
    ensures same { IsKindOf arg.entry result }
{
    arg.value_name(value).num_args(least..).help(help)
}

/// Adds the spelling of an option: `--` and a word, or `-` and a letter.
pub(crate) fn with_spelling<'a>(arg: Arg<'a>, option: &'a str) -> Arg<'a>
    ensures rule { rule_of result ≡ spelled_as option.entry.now (rule_of arg.entry) }
    ensures same { IsSpelledOf arg.entry result }
{
    match option.strip_prefix("--") {
        Some(word) => arg.long(word),
        None => arg.short(letter_of(option)),
    }
}

/// The letter of an option, which is ASCII.
fn letter_of(option: &str) -> char
    ensures { result ≡ letter_in option.now }
{
    match option.as_bytes().get(1) {
        Some(letter) => char::from(*letter),
        None => '-',
    }
}
