//! The lines of a listing that a path chooses.
ghost use Rattle.std.specs.Prelude.{◌≡◌, ◌+◌, ◌<◌, List, IfOk, OnOk, MatchBool, IsSortedByKey, Some, length, slice_get, take, unwrap_or};
ghost use Rattle.ods_paths.specs.{Order.listing_cmp, Views.files as said};
ghost use Rattle.ods_walk.specs.Listing.{shown};
ghost use Rattle.ods_shell.specs.Choosing.{AreThose, IsChosen, IsMatched, IsOneName, IsPicked};

use ods_base::{Listed, Name, print_title, print_type};
use ods_paths::{Files, Versions, matches};
use std::alloc::{AllocError, Global};

/// Returns the lines that a path chooses, in their order. Its patterns match their names and types, and its versions, or otherwise `unsaid`, select
/// their versions. The lines belong to one directory, in the order of a listing.
pub(crate) fn chosen(
    alloc: Global,
    lines: &[Listed],
    files: &Files<'_>,
    unsaid: Versions,
) -> Result<Vec<Listed>, AllocError>
    requires { IsSortedByKey shown listing_cmp lines.now }
    ensures { IfOk result (λ found. AreThose (IsChosen (said files.now) unsaid lines.now) lines.now found.items) }
{
    let mut found = Vec::new(alloc);
    for place in 0..lines.len() {
        add_chosen(lines, place, files, unsaid, &mut found)?;
    }
    Ok(found)
}

/// Adds the line at this place, where it is chosen.
fn add_chosen(
    lines: &[Listed],
    place: usize,
    files: &Files<'_>,
    unsaid: Versions,
    found: &mut Vec<Listed>,
) -> Result<(), AllocError>
    requires sorted { IsSortedByKey shown listing_cmp lines.now }
    requires inside { place < length lines.now }
    ensures { OnOk result (AreThose (IsChosen (said files.now) unsaid lines.now) (take place lines.now) found.old.items
        → AreThose (IsChosen (said files.now) unsaid lines.now) (take (place + 1) lines.now) found.new.items) }
{
    let line = lines[place];
    if is_chosen(lines, place, &line, files, unsaid) {
        found.push(line)?;
    }
    Ok(())
}

/// Returns whether this line, at this index, is chosen.
pub(crate) fn is_chosen(
    lines: &[Listed],
    place: usize,
    line: &Listed,
    files: &Files<'_>,
    unsaid: Versions,
) -> bool
    requires sorted { IsSortedByKey shown listing_cmp lines.now }
    requires there { slice_get lines.now place ≡ Some line.now }
    ensures { MatchBool result (IsChosen (said files.now) unsaid lines.now line.now) (¬ IsChosen (said files.now) unsaid lines.now line.now) }
{
    is_matched(&line.name, files) && is_picked(lines, place, line, files.versions.unwrap_or(unsaid))
}

/// Returns whether the patterns match the name.
pub(crate) fn is_matched(name: &Name, files: &Files<'_>) -> bool
    ensures { MatchBool result (IsMatched (said files.now) name.now) (¬ IsMatched (said files.now) name.now) }
{
    matches(files.name, print_title(name).as_bytes())
        && matches(files.kind, print_type(name).as_bytes())
}

/// Returns whether the version of this line, at this index, is picked.
pub(crate) fn is_picked(lines: &[Listed], place: usize, line: &Listed, versions: Versions) -> bool
    requires sorted { IsSortedByKey shown listing_cmp lines.now }
    requires there { slice_get lines.now place ≡ Some line.now }
    ensures { MatchBool result (IsPicked versions lines.now line.now) (¬ IsPicked versions lines.now line.now) }
{
    match versions {
        Versions::Every => true,
        Versions::Exact(version) => line.version == version,
        Versions::Highest => is_highest(lines, place, line),
        Versions::Lowest => is_lowest(lines, place, line),
    }
}

/// Returns whether no line of the name has a higher version than this one, at this index. The lines of a name are consecutive, in descending order
/// of their versions.
pub(crate) fn is_highest(lines: &[Listed], place: usize, line: &Listed) -> bool
    requires sorted { IsSortedByKey shown listing_cmp lines.now }
    requires there { slice_get lines.now place ≡ Some line.now }
    ensures { MatchBool result (IsPicked Versions.Highest lines.now line.now) (¬ IsPicked Versions.Highest lines.now line.now) }
{
    let mut at = place;
    'places: while at > 0 {
        at -= 1;
        let other = lines[at];
        if !is_one_name(&other, line) {
            return true;
        }
        if line.version < other.version {
            return false;
        }
    }
    true
}

/// Whether no line of the name has a lower version than this one, which stands at this place.
fn is_lowest(lines: &[Listed], place: usize, line: &Listed) -> bool
    requires sorted { IsSortedByKey shown listing_cmp lines.now }
    requires there { slice_get lines.now place ≡ Some line.now }
    ensures { MatchBool result (IsPicked Versions.Lowest lines.now line.now) (¬ IsPicked Versions.Lowest lines.now line.now) }
{
    let mut at = place + 1;
    'places: while at < lines.len() {
        let other = lines[at];
        if !is_one_name(&other, line) {
            return true;
        }
        if other.version < line.version {
            return false;
        }
        at += 1;
    }
    true
}

/// Whether two lines show one name.
fn is_one_name(one: &Listed, other: &Listed) -> bool
    ensures { MatchBool result (IsOneName one.now other.now) (¬ IsOneName one.now other.now) }
{
    print_title(&one.name).as_bytes() == print_title(&other.name).as_bytes()
        && print_type(&one.name).as_bytes() == print_type(&other.name).as_bytes()
}
