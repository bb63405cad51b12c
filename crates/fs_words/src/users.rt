//! The names of users in words.
ghost use Rattle.std.specs.Prelude.{IfErr, IfOk, codes};
ghost use Rattle.clap.specs.Words.{first_value, found_of};
ghost use Rattle.ods_text.specs.One.{IsTheOne};
ghost use Rattle.fs_words.specs.{Refused.HasReason, Refused.IsNoValue, Refused.SpellsNone, Users.IsSaid, Values.IsValue, Values.value_of};

use crate::said::wrong;
use clap::ArgMatches;
use ods_base::Uic;
use ods_text::{read_user, read_user_in_brackets};
use ods_words::WordsFault;
use std::alloc::Global;

/// What is said of a text that is no owner.
const NO_OWNER: &str = "is not a valid owner, such as [1,2]";

/// Returns the user in a text, such as `[1,2]` or `1,2`, in octal.
pub(crate) fn user_of(text: &str) -> Option<Uic>
    ensures { IsTheOne (IsSaid text.now) result }
{
    if let Some((group, member)) = read_user_in_brackets(text.as_bytes()) {
        return Some(Uic { group, member });
    }
    let Some((group, member)) = read_user(text.as_bytes()) else {
        return None;
    };
    Some(Uic { group, member })
}

/// Returns the user in the value of an option, if there is one. `why` states what is wrong with another text.
pub(crate) fn said_user(
    alloc: Global,
    text: Option<&str>,
    why: &str,
) -> Result<Option<Uic>, WordsFault>
    ensures value { IfOk result (IsValue IsSaid (value_of text.entry)) }
    ensures refused { IfErr result (HasReason (IsNoValue IsSaid (value_of text.entry))) }
{
    let Some(text) = text else {
        return Ok(None);
    };
    match user_of(text) {
        Some(user) => Ok(Some(user)),
        None => Err(wrong(alloc, text, why)?),
    }
}

/// Returns the owner in a word, or why there is none.
pub(crate) fn new_owner_of(alloc: Global, text: &str) -> Result<Uic, WordsFault>
    ensures value { IfOk result (IsSaid text.now) }
    ensures refused { IfErr result (HasReason (SpellsNone IsSaid text.now)) }
{
    match user_of(text) {
        Some(user) => Ok(user),
        None => Err(wrong(alloc, text, NO_OWNER)?),
    }
}

/// Returns the owner in `--owner`, if it is given.
pub(crate) fn owner_of(alloc: Global, own: &ArgMatches<'_>) -> Result<Option<Uic>, WordsFault>
    ensures value { IfOk result (IsValue IsSaid (first_value (found_of own.now) (codes "--owner"))) }
    ensures refused { IfErr result (HasReason (IsNoValue IsSaid (first_value (found_of own.now) (codes "--owner")))) }
{
    said_user(alloc, own.get_str("--owner"), NO_OWNER)
}
