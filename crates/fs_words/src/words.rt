//! The request in the words of a command line, or of a line in a file of commands.
ghost use Rattle.std.specs.Prelude.{◌≡◌, ◌++◌, ◌&&◌, true, false, All, IfErr, IfOk, OnOk, codes, drop, is_some, map, not};
ghost use Rattle.ods_words.specs.Telling.{IsWrong};
ghost use Rattle.fs_words.specs.{Found.AreOfCommand, Found.AreOfFile, Found.IsFound, Found.IsSaving, Found.IsStamp, Found.PlansWhereJson, Found.ServesWhereSaid, Names.verb_text, Options.option_serves, Options.option_text, Options.options, Parts.AreWordsOf, Parts.IsLineOf, Refused.AreNoWords, Refused.HasIdle, Refused.HasReason, Refused.IsBeside, Refused.IsIdle, Refused.IsJsonAlone, Refused.IsNoCommand, Refused.IsNoFile, Refused.IsNoLine, Refused.IsNoValue, Saying.text_said, Values.IsValue};

use crate::actions::Action;
use crate::commands::action_of;
use crate::days::is_true_day;
use crate::hints::{before_image, no_command, wanting};
use crate::layering::{Layering, read_layering};
use crate::numbers::number_of;
use crate::options::{CHOICES, Choice, prints_only_plans, serves};
use crate::parse::{behind_first, command_matches, first_matches, rest_of, tell};
use crate::said::{Said, wrong};
use crate::users::said_user;
use crate::verbs::Verb;
use clap::ArgMatches;
use ods_base::Uic;
use ods_request::Stamp;
use ods_words::{WordsFault, say_wrong};
use std::alloc::{AllocError, Global};
use std::convert::AsStr;

/// The request in the words.
#[derive(Drop)]
pub struct Words<'a> {
    /// The path of the image.
    pub image: &'a str,
    pub action: Action<'a>,
    /// The words after the command: paths on the volume.
    pub paths: Vec<&'a str>,
    /// Whether a host file may be replaced.
    pub force: bool,
    /// Whether the output is JSON, an object per line.
    pub json: bool,
    /// Whether progress, and remarks that are not faults, are hidden.
    pub quiet: bool,
    /// The user. A read without one reads every file, as the keeper of the image may. A change without one is made by [1,1].
    pub user: Option<Uic>,
    /// The time of new files. Without one, the time of the host applies.
    pub stamp: Option<Stamp>,
    /// How a changed image is saved.
    pub saving: Saving<'a>,
    /// How many blocks the volume has, regardless of the image.
    pub blocks: Option<u32>,
    /// How the sectors of the volume are ordered in the image. Without a value, `f11fs` detects the order.
    pub order: Option<Layering>,
}

/// How a changed image is saved.
#[derive(Clone, Copy, Debug, PartialEq, Eq, Drop)]
pub struct Saving<'a> {
    /// The new file of the host that receives the image, instead of the image file.
    pub out: Option<&'a str>,
    /// Whether the old image is kept, under its name with a tilde.
    pub backup: bool,
    /// Whether nothing is written, and the command only prints what it would write.
    pub only_tells: bool,
    /// Whether an image with several names is changed only under this name.
    pub break_links: bool,
}

impl Saving<'_> {
    /// Returns whether no option about saving is given.
    pub fn says_nothing(&self) -> bool
        ensures { result ≡ (not (is_some self.now.out) && (not self.now.backup && (not self.now.only_tells && not self.now.break_links))) }
    {
        self.out.is_none() && !self.backup && !self.only_tells && !self.break_links
    }
}

/// Returns the request in the words after the program's name. `--version` prints `version` after the name.
pub fn parse_words<'a, S: AsStr>(
    alloc: Global,
    words: &'a [S],
    version: &'a str,
) -> Result<Words<'a>, WordsFault>
    ensures found { IfOk result (AreWordsOf (map S.text words.entry.now)) }
    ensures refused { IfErr result (HasReason (AreNoWords (map S.text words.entry.now))) }
{
    let before = match first_matches(alloc, words, version, true) {
        Ok(before) => before,
        Err(error) => return Err(tell(alloc, &error, words, version)?),
    };
    let rest = rest_of(&before, words);
    let Some(image) = before.get_str("image") else {
        return Err(wanting(alloc, words.is_empty())?);
    };
    let word = rest.first();
    match (before.get_str("commands"), word) {
        (Some(file), None) => file_words(alloc, image, file, &before),
        (None, Some(word)) => match Verb::of_name(word.as_str()) {
            Some(verb) => obeyed_words(alloc, image, verb, rest, version, Some(&before)),
            None => Err(before_image(alloc, image, word.as_str())?),
        },
        (None, None) => Err(wanting(alloc, false)?),
        (Some(_), Some(_)) => {
            let text = "error: give the commands in FILE or after IMAGE, not both";
            Err(say_wrong(alloc, text)?)
        }
    }
}

/// Returns the request in the words of a line in a file of commands for this image, or None without any word. The line has no word for the image.
pub fn parse_line<'a, S: AsStr>(
    alloc: Global,
    image: &'a str,
    words: &'a [S],
    version: &'a str,
) -> Result<Option<Words<'a>>, WordsFault>
    ensures found { IfOk result (IsLineOf image.entry (map S.text words.entry.now)) }
    ensures refused { IfErr result (HasReason (IsNoLine (map S.text words.entry.now))) }
{
    if words.is_empty() {
        return Ok(None);
    }
    let before = match first_matches(alloc, words, version, false) {
        Ok(before) => before,
        Err(error) => return Err(tell(alloc, &error, words, version)?),
    };
    if before.get_str("commands").is_some() {
        let text = "error: a file of commands cannot have -f";
        return Err(say_wrong(alloc, text)?);
    }
    let rest = rest_of(&before, words);
    let Some(name) = rest.first() else {
        return Err(wanting(alloc, false)?);
    };
    match Verb::of_name(name.as_str()) {
        Some(verb) => match obeyed_words(alloc, image, verb, rest, version, Some(&before)) {
            Ok(words) => Ok(Some(words)),
            Err(fault) => Err(fault),
        },
        None => Err(no_command(alloc, name.as_str())?),
    }
}

/// What the words ask for that name a file of commands.
fn file_words<'a>(
    alloc: Global,
    image: &'a str,
    file: &'a str,
    before: &ArgMatches<'a>,
) -> Result<Words<'a>, WordsFault>
    ensures found { IfOk result (AreOfFile image.entry file.entry before.entry) }
    ensures refused { IfErr result (HasReason (IsNoFile before.entry)) }
{
    let said = Said {
        before: Some(before),
        own: None,
    };
    let keep_going = said.flag(Choice::KeepGoing);
    let action = Action::Commands { file, keep_going };
    found_words(alloc, image, Verb::File, action, &said)
}

/// What a command asks for, by its words and those before it. The first word is its name.
fn obeyed_words<'a, S: AsStr>(
    alloc: Global,
    image: &'a str,
    verb: Verb,
    words: &'a [S],
    version: &str,
    before: Option<&ArgMatches<'a>>,
) -> Result<Words<'a>, WordsFault>
    ensures found { IfOk result (AreOfCommand image.entry verb (map S.text (drop 1 words.entry.now)) before.entry) }
    ensures refused { IfErr result (HasReason (IsNoCommand verb (map S.text (drop 1 words.entry.now)) before.entry)) }
{
    let own = match command_matches(alloc, verb, behind_first(words)) {
        Ok(own) => own,
        Err(error) => return Err(tell(alloc, &error, words, version)?),
    };
    let said = Said {
        before,
        own: Some(&own),
    };
    let action = action_of(alloc, verb, &own, said.text(Choice::Out))?;
    found_words(alloc, image, verb, action, &said)
}

/// What the words ask for, whose command is known.
fn found_words<'a>(
    alloc: Global,
    image: &'a str,
    verb: Verb,
    action: Action<'a>,
    said: &Said<'_, '_, 'a>,
) -> Result<Words<'a>, WordsFault>
    ensures found { IfOk result (IsFound image.entry said.now verb action.entry) }
    ensures serves { IfOk result (λ _. All (ServesWhereSaid said.now verb) options × PlansWhereJson said.now verb) }
    ensures refused { IfErr result (HasReason (IsBeside said.now verb)) }
{
    refuse_idle(alloc, verb, said)?;
    Ok(Words {
        image,
        action,
        paths: said.paths(alloc)?,
        force: said.flag(Choice::Force),
        json: said.flag(Choice::Json),
        quiet: said.flag(Choice::Quiet),
        user: said_user(
            alloc,
            said.text(Choice::User),
            "is not a valid user, such as [1,2]",
        )?,
        stamp: said_stamp(alloc, said)?,
        saving: how_saved(said, verb),
        blocks: number_of(alloc, said.text(Choice::Blocks))?,
        order: read_layering(alloc, said.text(Choice::Order))?,
    })
}

/// How the words say that a changed image is saved. What `-o` says of a `get` is its target.
fn how_saved<'a>(said: &Said<'_, '_, 'a>, verb: Verb) -> Saving<'a>
    ensures { IsSaving said.now verb result }
{
    Saving {
        out: match verb {
            Verb::Get => None,
            _ => said.text(Choice::Out),
        },
        backup: said.flag(Choice::Backup),
        only_tells: said.flag(Choice::OnlyTells),
        break_links: said.flag(Choice::BreakLinks),
    }
}

/// That each option that was said does something for the command.
fn refuse_idle(alloc: Global, verb: Verb, said: &Said<'_, '_, '_>) -> Result<(), WordsFault>
    ensures serves { OnOk result (All (ServesWhereSaid said.now verb) options) }
    ensures json { OnOk result (PlansWhereJson said.now verb) }
    ensures refused { IfErr result (HasReason (IsBeside said.now verb)) }
{
    refuse_among(alloc, &CHOICES, verb, said)?;
    refuse_json_alone(alloc, verb, said)
}

/// That each of these options that was said does something for the command.
fn refuse_among(
    alloc: Global,
    choices: &[Choice],
    verb: Verb,
    said: &Said<'_, '_, '_>,
) -> Result<(), WordsFault>
    ensures serves { OnOk result (All (ServesWhereSaid said.now verb) choices.now) }
    ensures refused { IfErr result (HasReason (HasIdle said.now verb choices.now)) }
{
    for choice in choices {
        refuse_where_idle(alloc, *choice, verb, said)?;
    }
    Ok(())
}

/// That an option does something for the command, where it is said.
fn refuse_where_idle(
    alloc: Global,
    choice: Choice,
    verb: Verb,
    said: &Said<'_, '_, '_>,
) -> Result<(), WordsFault>
    ensures serves { OnOk result (ServesWhereSaid said.now verb choice) }
    ensures refused { IfErr result (HasReason (IsIdle said.now verb choice)) }
{
    // A parse gives an option without a value the text `false` where it was not said.
    match choice.value(None) {
        Some(_) => refuse_said(alloc, choice, verb, said.text(choice).is_some()),
        None => refuse_said(alloc, choice, verb, said.flag(choice)),
    }
}

/// That an option does something for the command, or was not said.
fn refuse_said(alloc: Global, choice: Choice, verb: Verb, is_said: bool) -> Result<(), WordsFault>
    ensures serves { OnOk result (is_said ≡ true → option_serves choice verb ≡ true) }
    ensures refused { IfErr result (HasReason ((is_said ≡ true) × (option_serves choice verb ≡ false))) }
{
    if is_said && !serves(choice, verb) {
        return Err(idle(alloc, choice, verb, "")?);
    }
    Ok(())
}

/// That JSON of what prints only plans is asked for beside `-n`.
fn refuse_json_alone(alloc: Global, verb: Verb, said: &Said<'_, '_, '_>) -> Result<(), WordsFault>
    ensures plans { OnOk result (PlansWhereJson said.now verb) }
    ensures refused { IfErr result (HasReason (IsJsonAlone said.now verb)) }
{
    let json = said.flag(Choice::Json);
    let only_tells = said.flag(Choice::OnlyTells);
    if json && prints_only_plans(verb) && !only_tells {
        return Err(idle(alloc, Choice::Json, verb, " without -n")?);
    }
    Ok(())
}

/// The line of an option that does nothing for a command.
fn idle(alloc: Global, choice: Choice, verb: Verb, more: &str) -> Result<WordsFault, AllocError>
    ensures { IfOk result (IsWrong (codes "error: " ++ option_text choice ++ codes " does nothing for " ++ verb_text verb ++ more.now)) }
{
    let (option, name) = (choice.word(), verb.name());
    Ok(WordsFault::Wrong(format!(in alloc; "error: {option} does nothing for {name}{more}")?))
}

/// The time that `--stamp` says.
fn said_stamp(alloc: Global, said: &Said<'_, '_, '_>) -> Result<Option<Stamp>, WordsFault>
    ensures value { IfOk result (IsValue IsStamp (text_said said.now (codes "--stamp"))) }
    ensures refused { IfErr result (HasReason (IsNoValue IsStamp (text_said said.now (codes "--stamp")))) }
{
    let Some(text) = said.text(Choice::Stamp) else {
        return Ok(None);
    };
    match Stamp::parse(text.as_bytes()) {
        Some(stamp) if is_true_day(&stamp) => Ok(Some(stamp)),
        Some(_) => Err(wrong(alloc, text, "is not a valid date and time")?),
        None => Err(wrong(alloc, text, "is not a valid stamp, such as 24NOV85093000")?),
    }
}
