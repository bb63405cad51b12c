//! The words by which entries are skipped before their texts are made. They are the name and type in a path without a wildcard.
ghost use Rattle.std.specs.Prelude.{◌≡◌, ◌++◌, false, IfOk, MatchBool, MatchOption, OnOk};
ghost use Rattle.ods_base.specs.Name.{RadName, Spells, title as title_of, type_text};
ghost use Rattle.ods_base.specs.declared.name.Pick.TheVariants as Picked;
ghost use Rattle.ods_paths.specs.{Patterns.Matches, Patterns.capitals, Patterns.has_wildcard as wild, Views.files as said};
ghost use Rattle.ods_shell.specs.Choosing.{IsMatched};
ghost use Rattle.ods_shell.specs.Matched.{HasTitle, HasType, IsOnly};

use crate::choosing::is_matched;
use ods_base::{Name, parse_name};
use ods_paths::{Files, has_wildcard};
use std::alloc::{AllocError, Global};

/// Returns a name with the words of each title that the pattern matches. It is `None` if the pattern has a wildcard, or is not a valid title.
pub(crate) fn sought_title(alloc: Global, pattern: &[u8]) -> Result<Option<Name>, AllocError>
    ensures { IfOk result (HasTitle (capitals pattern.now)) }
{
    let mut text = Vec::new(alloc);
    push_capitals(&mut text, pattern)?;
    text.push(b'.')?;
    Ok(spelled(&text))
}

/// Returns a name with the type of each type that the pattern matches. It is `None` if the pattern has a wildcard, or is not a valid type.
pub(crate) fn sought_type(alloc: Global, pattern: &[u8]) -> Result<Option<Name>, AllocError>
    ensures { IfOk result (HasType (capitals pattern.now)) }
{
    let mut text = Vec::new(alloc);
    text.push(b'.')?;
    push_capitals(&mut text, pattern)?;
    Ok(spelled(&text))
}

/// Returns the only name that the patterns can match; `None` if one has a wildcard, or is not a valid title or type.
pub(crate) fn sought_name(alloc: Global, files: &Files<'_>) -> Result<Option<Name>, AllocError>
    ensures { IfOk result (IsOnly (said files.now)) }
{
    let title = sought_title(alloc, files.name)?;
    let kind = sought_type(alloc, files.kind)?;
    Ok(joined(files, &title, &kind))
}

/// The name with the words of a title and of a type.
fn joined(files: &Files<'_>, title: &Option<Name>, kind: &Option<Name>) -> Option<Name>
    requires title { HasTitle (capitals files.now.name.now) title.now }
    requires kind { HasType (capitals files.now.kind.now) kind.now }
    ensures { IsOnly (said files.now) result }
{
    let _ = files;
    match (title, kind) {
        (Some(title), Some(kind)) => Some(Name::new(title.words(), kind.ext())),
        _ => None,
    }
}

/// The name that a text without a wildcard spells.
fn spelled(text: &[u8]) -> Option<Name>
    ensures { MatchOption result (Unit {0}) (λ name. (wild text.now ≡ false) × ((n : RadName) → Spells text.now n Picked.Highest → n ≡ name)) }
{
    if has_wildcard(text) {
        return None;
    }
    match parse_name(text) {
        Ok(found) => Some(found.0),
        Err(_) => None,
    }
}

/// Appends characters as capitals.
fn push_capitals(text: &mut Vec<u8>, part: &[u8]) -> Result<(), AllocError>
    ensures { OnOk result (text.new.items ≡ text.old.items ++ capitals part.now) }
{
    for character in part {
        text.push(character.to_ascii_uppercase())?;
    }
    Ok(())
}

/// Returns whether the patterns match a name. Each title that the pattern matches has the words of `title`, and each type has the word of `kind`.
pub(crate) fn is_sought(
    name: &Name,
    files: &Files<'_>,
    title: &Option<Name>,
    kind: &Option<Name>,
) -> bool
    requires title { HasTitle (capitals files.now.name.now) title.now }
    requires kind { HasType (capitals files.now.kind.now) kind.now }
    ensures { MatchBool result (IsMatched (said files.now) name.now) (¬ IsMatched (said files.now) name.now) }
{
    may_have_title(name, files.name, title)
        && may_have_type(name, files.kind, kind)
        && is_matched(name, files)
}

/// Whether the pattern may match the title of a name, by its words.
fn may_have_title(name: &Name, pattern: &[u8], title: &Option<Name>) -> bool
    requires { HasTitle (capitals pattern.now) title.now }
    ensures { result ≡ false → ¬ Matches (capitals pattern.now) (title_of name.now) }
{
    let words = name.words();
    match title {
        Some(one) => words == one.words(),
        None => true,
    }
}

/// Whether the pattern may match the type of a name, by its word.
fn may_have_type(name: &Name, pattern: &[u8], kind: &Option<Name>) -> bool
    requires { HasType (capitals pattern.now) kind.now }
    ensures { result ≡ false → ¬ Matches (capitals pattern.now) (type_text name.now) }
{
    let word = name.ext();
    match kind {
        Some(one) => word == one.ext(),
        None => true,
    }
}
