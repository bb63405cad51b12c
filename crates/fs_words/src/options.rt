//! The options of `f11fs`: their spelling, their effect, and the commands that they serve. The refusal of an option that does nothing for a command
//! and the help of the command both come from here.
ghost use Rattle.std.specs.Prelude.{◌≡◌, false, is_some};
ghost use Rattle.clap.specs.Simple.{new_rule};
ghost use Rattle.clap.specs.Walk.{rule_of};
ghost use Rattle.fs_words.specs.Options.{has_value, option_serves, option_text, prints_plans};
ghost use Rattle.fs_words.specs.Rules.{choice_rule, hides, limited, spelled_as, valued};

use crate::arguments::with_spelling;
use crate::verbs::Verb;
use clap::{Arg, ArgAction, value_parser};
use ods_base::MAX_BLOCKS;
use std::alloc::Global;

/// An option that may come before IMAGE or after the command.
#[derive(Clone, Copy, Debug, PartialEq, Eq)]
pub enum Choice {
    /// `-o`: the file of the host to write to.
    Out,
    /// `--backup`: keeps the old image.
    Backup,
    /// `--break-links`: changes an image with several hard links only under this name.
    BreakLinks,
    /// `-n`: writes nothing, and prints what would be done.
    OnlyTells,
    /// `--force`: replaces files of the host, or changes an image that another process has open.
    Force,
    /// `--json`: prints JSON, one object per line.
    Json,
    /// `--stamp`: the time of new files.
    Stamp,
    /// `-u`: the user whose rights are checked.
    User,
    /// `-q`: shows no progress, and no remarks that are not faults.
    Quiet,
    /// `--keep-going`: continues past refused commands of a file.
    KeepGoing,
    /// `--blocks`: the size of the volume in blocks, regardless of the image.
    Blocks,
    /// `--order`: how the sectors of the volume are ordered in the image.
    Order,
}

/// All options.
pub(crate) const CHOICES: [Choice; 12] = [
    Choice::Out,
    Choice::Backup,
    Choice::BreakLinks,
    Choice::OnlyTells,
    Choice::Force,
    Choice::Json,
    Choice::Stamp,
    Choice::User,
    Choice::Quiet,
    Choice::KeepGoing,
    Choice::Blocks,
    Choice::Order,
];

/// Returns whether an option may have an effect for a command.
pub fn serves(choice: Choice, verb: Verb) -> bool
    ensures { result ≡ option_serves choice verb }
{
    match choice {
        Choice::Out => verb.changes() || matches!(verb, Verb::Get | Verb::File),
        Choice::Backup | Choice::BreakLinks => verb.changes() || matches!(verb, Verb::File),
        Choice::OnlyTells => {
            verb.changes() || matches!(verb, Verb::Get | Verb::Rescue | Verb::Init | Verb::File)
        }
        Choice::Force => verb.changes() || matches!(verb, Verb::Get | Verb::File),
        Choice::Json => !matches!(verb, Verb::Cat | Verb::Tar | Verb::Repair | Verb::Convert),
        Choice::Stamp => {
            matches!(
                verb,
                Verb::Put
                    | Verb::Untar
                    | Verb::Cp
                    | Verb::Mkdir
                    | Verb::Repair
                    | Verb::Init
                    | Verb::File
            )
        }
        Choice::User => {
            !matches!(
                verb,
                Verb::Df
                    | Verb::Info
                    | Verb::Du
                    | Verb::Check
                    | Verb::Rescue
                    | Verb::Label
                    | Verb::Repair
                    | Verb::Convert
            )
        }
        Choice::Quiet | Choice::Blocks => !matches!(verb, Verb::Init),
        Choice::KeepGoing => matches!(verb, Verb::File),
        Choice::Order => true,
    }
}

/// Returns whether `--json` has an effect for a command only with `-n`. It then prints only what would be done.
pub fn prints_only_plans(verb: Verb) -> bool
    ensures { result ≡ prints_plans verb }
{
    verb.changes() || matches!(verb, Verb::Init | Verb::Get)
}

impl Choice {
    /// Returns its spelling, which is its name in a parse.
    pub(crate) fn word<'a>(self) -> &'a str
        ensures { result.now ≡ option_text self }
    {
        match self {
            Choice::Out => "-o",
            Choice::Backup => "--backup",
            Choice::BreakLinks => "--break-links",
            Choice::OnlyTells => "-n",
            Choice::Force => "--force",
            Choice::Json => "--json",
            Choice::Stamp => "--stamp",
            Choice::User => "-u",
            Choice::Quiet => "-q",
            Choice::KeepGoing => "--keep-going",
            Choice::Blocks => "--blocks",
            Choice::Order => "--order",
        }
    }

    /// Returns the name of its value, if it has one.
    pub(crate) fn value<'a>(self, verb: Option<Verb>) -> Option<&'a str>
        ensures { is_some result ≡ has_value self }
    {
        match self {
            Choice::Out if verb == Some(Verb::Get) => Some("TARGET"),
            Choice::Out => Some("FILE"),
            Choice::Stamp => Some("STAMP"),
            Choice::User => Some("USER"),
            Choice::Blocks => Some("N"),
            Choice::Order => Some("ORDER"),
            _ => None,
        }
    }

    /// Returns its effect for a command, or without one for all commands that it serves.
    fn help<'a>(self, verb: Option<Verb>) -> &'a str {
        match self {
            Choice::Out if verb == Some(Verb::Get) => {
                "Write to this host file or folder. - is standard output"
            }
            Choice::Out if verb.is_none() => {
                "Write the changed image to FILE, and leave IMAGE unchanged. FILE must not exist. For get: write to FILE"
            }
            Choice::Out => {
                "Write the changed image to FILE, and leave IMAGE unchanged. FILE must not exist"
            }
            Choice::Backup => "Keep the old image as IMAGE~",
            Choice::BreakLinks => {
                "Change an image with several hard links under this name only. Default: refuse it"
            }
            Choice::OnlyTells => "Write nothing. Print what the command would do",
            Choice::Force => force_help(verb),
            Choice::Json => json_help(verb),
            Choice::Stamp => "Give new files this time, such as 24NOV85093000. Default: now",
            Choice::User => user_help(verb),
            Choice::Quiet => "Hide progress and remarks, but not errors",
            Choice::KeepGoing => "With -f: skip a command that f11fs refuses, and go on",
            Choice::Blocks => {
                "Assume that the volume has N blocks, 1 to 1048576, whatever size the image states"
            }
            Choice::Order => order_help(verb),
        }
    }

    /// Returns the option in the form that a parse takes. The help of a command that it does not serve leaves it out.
    #[tactic(auto, unfolding(crate::specs::Rules::choice_rule))]
    pub(crate) fn arg<'a>(self, alloc: Global, verb: Option<Verb>) -> Arg<'a>
        ensures rule { rule_of result ≡ choice_rule self }
        ensures local { result.global ≡ false }
        ensures hidden { result.hide ≡ hides self verb }
    {
        let arg = new_option(alloc, self.word(), self.help(verb), is_hidden(self, verb));
        with_value(arg, self, self.value(verb))
    }
}

/// Whether the help of a command leaves an option out.
fn is_hidden(choice: Choice, verb: Option<Verb>) -> bool
    ensures { result ≡ hides choice verb }
{
    match verb {
        Some(verb) => !serves(choice, verb),
        None => false,
    }
}

/// An option that is written so, with its help.
fn new_option<'a>(alloc: Global, option: &'a str, help: &'a str, is_hidden: bool) -> Arg<'a>
    ensures rule { rule_of result ≡ spelled_as option.entry.now (new_rule option.entry.now) }
    ensures local { result.global ≡ false }
    ensures hidden { result.hide ≡ is_hidden }
    ensures help { result.help ≡ Some help.entry }
{
    with_spelling(Arg::new(alloc, option).help(help).hide(is_hidden), option)
}

/// An option with its value, where it has one.
fn with_value<'a>(arg: Arg<'a>, choice: Choice, value: Option<&'a str>) -> Arg<'a>
    ensures rule { rule_of result ≡ valued choice (is_some value.entry) (rule_of arg.entry) }
    ensures same { result ≡ record arg.entry { action = result.action; val_names = result.val_names; value_parser = result.value_parser } }
{
    match value {
        Some(value) => with_limit(arg.value_name(value), choice),
        None => arg.action(ArgAction::SetTrue),
    }
}

/// An option with the limits of its number, where it has such.
fn with_limit<'a>(arg: Arg<'a>, choice: Choice) -> Arg<'a>
    ensures rule { rule_of result ≡ limited choice (rule_of arg.entry) }
    ensures same { result ≡ record arg.entry { value_parser = result.value_parser } }
{
    match choice {
        Choice::Blocks => { arg.value_parser(value_parser!(u32).range(1..=i64::from(MAX_BLOCKS))) }
        _ => arg,
    }
}

/// What `--force` does.
fn force_help<'a>(verb: Option<Verb>) -> &'a str {
    match verb {
        Some(Verb::Get) => "Replace host files that exist",
        Some(_) => "Change the image even if another process has it open",
        None =>
            "For get: replace host files that exist. For a change: change IMAGE even if another process has it open",
    }
}

/// What `--order` does.
fn order_help<'a>(verb: Option<Verb>) -> &'a str {
    match verb {
        Some(Verb::Init) => {
            "Write the sectors of the image in this order: plain, rx01, rx02 or rx50. Default: that of RX01 or RX02, otherwise plain"
        }
        _ =>
            "Read and write the sectors of the image in this order: plain, rx01, rx02 or rx50. Default: f11fs finds it",
    }
}

/// What `--json` does.
fn json_help<'a>(verb: Option<Verb>) -> &'a str {
    match verb {
        Some(verb) if prints_only_plans(verb) => "With -n: print JSON, one object a line",
        _ => "Print JSON, one object a line",
    }
}

/// What `-u` does.
fn user_help<'a>(verb: Option<Verb>) -> &'a str {
    match verb {
        Some(Verb::Init) => "Make this user the owner of the volume, such as [1,2]. Default: [1,1]",
        Some(verb) if verb.changes() => "Act as this user, such as [1,2]. Default: [1,1]",
        Some(Verb::File) | None => {
            "Act as this user, such as [1,2]. Default: no access checks when reading; [1,1] when changing"
        }
        Some(_) => "Act as this user, such as [1,2]. Default: no access checks",
    }
}
