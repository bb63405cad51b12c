//! The names of files on a host.
ghost use Rattle.std.specs.Prelude.{◌≡◌, ◌∷◌, ◌++◌, [], if◌then◌else◌, IfOk, OnOk};
ghost use Rattle.std.specs.Fmt.{decimal};
ghost use Rattle.std.specs.String.{string_bytes};
ghost use Rattle.ods_shell.specs.HostNames.{IsHostName, IsWithoutDot, before_version as name_before, placed_name, small_text, small_type};

use crate::found::{EntryPlace, Found};
use ods_base::{print_title, print_type};
use ods_header::print_ident;
use std::alloc::{AllocError, Global};

impl Found {
    /// Returns the name of the file on a host: in small letters, with its version if `with_version`. A file that a path selects by its ID has the
    /// name in its header.
    pub fn host_name(&self, alloc: Global, with_version: bool) -> Result<String, AllocError>
        ensures { IfOk result (λ text. IsHostName self.now.place self.now.facts with_version (string_bytes text)) }
    {
        let mut text = String::new(alloc);
        match (&self.place, &self.facts) {
            (Some(place), _) => push_placed(&mut text, place, with_version)?,
            (None, Some(facts)) => push_small(
                &mut text,
                name_in(print_ident(&facts.ident).as_str()),
            )?,
            (None, None) => {}
        }
        Ok(text)
    }
}

/// Appends the name of an entry in small letters, with its version where that is asked for.
fn push_placed(text: &mut String, place: &EntryPlace, with_version: bool) -> Result<(), AllocError>
    ensures { OnOk result (string_bytes text.new ≡ string_bytes text.old ++ placed_name place.now with_version) }
{
    push_small(text, print_title(&place.entry.name).as_str())?;
    push_type(text, print_type(&place.entry.name).as_str(), with_version)?;
    push_version(text, place.entry.version, with_version)
}

/// Appends a type in small letters behind a dot, where there is one or a version follows.
fn push_type(text: &mut String, kind: &str, with_version: bool) -> Result<(), AllocError>
    ensures { OnOk result (string_bytes text.new ≡ string_bytes text.old ++ small_type kind.now with_version) }
{
    if kind.is_empty() && !with_version {
        return Ok(());
    }
    text.push_str(".")?;
    push_small(text, kind)
}

/// Appends a version behind a dot, where that is asked for.
fn push_version(text: &mut String, version: u16, with_version: bool) -> Result<(), AllocError>
    ensures { OnOk result (string_bytes text.new ≡ string_bytes text.old ++ (if with_version then 46 ∷ decimal version else [])) }
{
    if with_version {
        write!(text, ".{version}")
    } else {
        Ok(())
    }
}

/// A name and type of a text with a version, without a dot at the end.
fn name_in(text: &str) -> &str
    ensures { IsWithoutDot (name_before text.now) result.now }
{
    without_dot(before_version(text))
}

/// What stands before the version of a name, or all.
#[tactic(auto, using(crate::proofs::Dots::all_before))]
fn before_version(text: &str) -> &str
    ensures { result.now ≡ name_before text.now }
{
    match text.split_once(';') {
        Some((name, _)) => name,
        None => text,
    }
}

/// A text without a dot at its end.
fn without_dot(text: &str) -> &str
    ensures { IsWithoutDot text.now result.now }
{
    match text.strip_suffix('.') {
        Some(front) => front,
        None => text,
    }
}

/// Appends a text in small letters.
pub fn push_small(text: &mut String, part: &str) -> Result<(), AllocError>
    ensures { OnOk result (string_bytes text.new ≡ string_bytes text.old ++ small_text part.now) }
{
    for character in part.chars() {
        text.push(character.to_ascii_lowercase())?;
    }
    Ok(())
}
