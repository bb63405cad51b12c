//! The part of a path that selects files.
ghost use Rattle.std.specs.Prelude.{◌≡◌, ◌↔◌, ◌⊎◌, true, IsTrue, MatchResult};
ghost use Rattle.std.specs.List.{before_first};
ghost use Rattle.ods_text.specs.{Cuts.IsFirst, Cuts.Has, Cuts.cut_of, Cuts.is, One.IsTheOne};
ghost use Rattle.ods_paths.specs.{Patterns.has_wildcard as wild, Paths.SpellsFiles, Paths.IsVersions, Paths.begins_version, Paths.kind_in, Bad.IsBadFiles, Views.files};

use crate::versions::read_version;
use crate::{BadPath, Versions, has_wildcard, is_pattern};
use ods_text::{cut_at, has_byte};

/// The most characters of a name, and of a type.
const NAME_SIZE: usize = 9;

const TYPE_SIZE: usize = 3;

/// Any type.
const ANY: &[u8] = b"*";

/// The files that a path selects: the patterns of their name and type, in either case, and their versions, if the path specifies them.
#[derive(Clone, Copy)]
pub struct Files<'a> {
    pub name: &'a [u8],
    pub kind: &'a [u8],
    pub versions: Option<Versions>,
}

/// Reads the text that selects files, such as `A*.TXT;1`.
pub(crate) fn read_files(text: &[u8]) -> Result<Files<'_>, BadPath>
    ensures { MatchResult result (λ f. SpellsFiles text.now (files f)) (IsBadFiles text.now) }
{
    let full = before_version(text);
    let (name, kind) = split_name(full);
    if !is_pattern(NAME_SIZE, name) {
        return Err(BadPath::Name);
    }
    if !is_pattern(TYPE_SIZE, kind) {
        return Err(BadPath::Type);
    }
    if !is_dotted(full) {
        return Err(BadPath::NoDot);
    }
    let Some(versions) = read_versions(text) else {
        return Err(BadPath::Version);
    };
    Ok(Files {
        name,
        kind,
        versions,
    })
}

/// The name and the type; where there is no `.` any type.
fn split_name(full: &[u8]) -> (&[u8], &[u8])
    ensures { (result.0.now ≡ before_first (is 46) full.now) × (result.1.now ≡ kind_in (cut_of 46 full.now)) }
{
    match cut_at(b'.', full) {
        Some(parts) => parts,
        None => (full, ANY),
    }
}

/// Whether there is a `.` or a wildcard.
fn is_dotted(full: &[u8]) -> bool
    ensures { IsTrue result ↔ (Has 46 full.now ⊎ (wild full.now ≡ true)) }
{
    has_byte(b'.', full) || has_wildcard(full)
}

/// What stands before the `;` or `:` of the version, or all where there is none.
fn before_version(text: &[u8]) -> &[u8]
    ensures { result.now ≡ before_first begins_version text.now }
{
    &text[..place_of_version(text)]
}

/// The versions that are said.
fn read_versions(text: &[u8]) -> Option<Option<Versions>>
    ensures { IsTheOne (IsVersions text.now) result }
{
    let place = place_of_version(text);
    if place == text.len() {
        return Some(None);
    }
    match read_version(&text[place + 1..]) {
        Some(versions) => Some(Some(versions)),
        None => None,
    }
}

/// The place of the first `;` or `:`, or the length where there is none.
fn place_of_version(text: &[u8]) -> usize
    ensures { IsFirst begins_version text.now result }
{
    text.iter()
        .position(|b| *b == b';' || *b == b':')
        .unwrap_or(text.len())
}
