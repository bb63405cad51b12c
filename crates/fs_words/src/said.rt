//! The options in the words, which may come before IMAGE or after the command.
ghost use Rattle.std.specs.Prelude.{◌≡◌, ◌++◌, IfOk, codes, map};
ghost use Rattle.ods_words.specs.Telling.{IsWrong};
ghost use Rattle.fs_words.specs.{Options.option_text, Saying.IsFlag, Saying.IsSetAmong, Saying.paths_among, Saying.text_among, Saying.text_said, Values.value_of};

use crate::options::Choice;
use clap::ArgMatches;
use ods_words::WordsFault;
use std::alloc::{AllocError, Global};

/// The options before the command, if there were words before it, and the options after it. If both specify one, the latter counts.
#[derive(Clone, Copy)]
pub(crate) struct Said<'b, 'm, 'a> {
    pub before: Option<&'b ArgMatches<'a>>,
    pub own: Option<&'m ArgMatches<'a>>,
}

impl<'b, 'm, 'a> Said<'b, 'm, 'a> {
    /// Returns whether an option without a value is given.
    pub fn flag(&self, choice: Choice) -> bool
        ensures { IsFlag self.now (option_text choice) result }
    {
        is_said(self.before, choice.word()) || is_said(self.own, choice.word())
    }

    /// Returns the value of an option.
    pub fn text(&self, choice: Choice) -> Option<&'a str>
        ensures { value_of result ≡ text_said self.now (option_text choice) }
    {
        match text_in(self.own, choice.word()) {
            Some(text) => Some(text),
            None => text_in(self.before, choice.word()),
        }
    }

    /// Returns the paths after the command.
    pub fn paths(&self, alloc: Global) -> Result<Vec<&'a str>, AllocError>
        ensures { IfOk result (λ paths. map (λ s. s.now) paths.items ≡ paths_among self.now.own) }
    {
        let Some(own) = self.own else {
            return Ok(Vec::new(alloc));
        };
        match own.get_strs("path") {
            Some(given) => Vec::from_slice(alloc, given),
            None => Ok(Vec::new(alloc)),
        }
    }
}

/// Whether an option without a value is among these.
fn is_said(matches: Option<&ArgMatches<'_>>, id: &str) -> bool
    ensures { IsSetAmong matches.entry id.now result }
{
    match matches {
        Some(matches) => matches.get_flag(id),
        None => false,
    }
}

/// The value of an option among these.
fn text_in<'a>(matches: Option<&ArgMatches<'a>>, id: &str) -> Option<&'a str>
    ensures { value_of result ≡ text_among matches.entry id.now }
{
    match matches {
        Some(matches) => matches.get_str(id),
        None => None,
    }
}

/// Returns the message that a word is not valid.
pub(crate) fn wrong(alloc: Global, word: &str, why: &str) -> Result<WordsFault, AllocError>
    ensures { IfOk result (IsWrong (codes "error: '" ++ word.now ++ codes "' " ++ why.now)) }
{
    Ok(WordsFault::Wrong(format!(in alloc; "error: '{word}' {why}")?))
}
