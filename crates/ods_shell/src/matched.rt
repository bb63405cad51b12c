//! The lines of a directory that a path chooses. Lines that its patterns do not match are dropped before the rest is sorted.
ghost use Rattle.std.specs.Prelude.{◌+◌, ◌<◌, ◌++◌, ◌∷◌, List, [], IfOk, OnOk, IsSortedByKey, Some, length, take};
ghost use Rattle.ods_base.specs.declared.listed.Listed.{Listed as Entry};
ghost use Rattle.ods_mount.specs.Faults.{IsDirectoryFile};
ghost use Rattle.ods_paths.specs.{Order.listing_cmp, Patterns.capitals, Views.files as said};
ghost use Rattle.ods_walk.specs.Listing.{shown};
ghost use Rattle.ods_shell.specs.Choosing.{AreThose, IsPicked};
ghost use Rattle.ods_shell.specs.Found.{AreFoundIn};
ghost use Rattle.ods_shell.specs.Matched.{AreLikely, AreMatchedIn, HasTitle, HasType, IsMatchedLine};
ghost use Rattle.ods_space.specs.Disks.{on};

use crate::choosing::is_picked;
use crate::folders::is_directory_file;
use crate::sought::{is_sought, sought_name, sought_title, sought_type};
use ods_base::{Listed, Name};
use ods_paths::{Files, Versions};
use ods_space::Disk;
use ods_walk::{entries_of, in_order, shown_entries};
use std::alloc::{AllocError, Global};

/// Returns the lines of a directory that the files of a path choose, in the order of a listing. `unsaid` is the default version.
pub(crate) fn find_chosen(
    alloc: Global,
    disk: &Disk<'_>,
    number: u16,
    files: &Files<'_>,
    unsaid: Versions,
) -> Result<Vec<Listed>, AllocError>
    ensures { IfOk result (λ found. on AreFoundIn disk.now (Some (said files.now)) unsaid number found.items) }
{
    let lines = matched_lines(alloc, disk, number, files)?;
    pick_lines(alloc, &lines, files.versions.unwrap_or(unsaid))
}

/// The lines of a directory that the patterns match, in the order of a listing; none where the number is that of no directory.
fn matched_lines(
    alloc: Global,
    disk: &Disk<'_>,
    number: u16,
    files: &Files<'_>,
) -> Result<Vec<Listed>, AllocError>
    ensures lines { IfOk result (λ those. on AreMatchedIn disk.now (said files.now) number those.items) }
    ensures sorted { IfOk result (λ those. IsSortedByKey shown listing_cmp those.items) }
{
    if !is_directory_file(disk, number) {
        return Ok(Vec::new(alloc));
    }
    let entries = likely_entries(alloc, disk, number, files)?;
    let those = keep_matched(alloc, &entries, files)?;
    in_order(alloc, &those)
}

/// Entries of a directory, among which are all that the patterns match: where these say one name, those of that name, else all that it shows.
fn likely_entries(
    alloc: Global,
    disk: &Disk<'_>,
    number: u16,
    files: &Files<'_>,
) -> Result<Vec<Listed>, AllocError>
    requires { on IsDirectoryFile disk.now number }
    ensures { IfOk result (λ likely. on AreLikely disk.now (said files.now) number likely.items) }
{
    match sought_name(alloc, files)? {
        Some(name) => entries_of(alloc, disk, number, &name),
        None => shown_entries(alloc, disk, number),
    }
}

/// Of these entries those that the patterns match, in their order.
fn keep_matched(
    alloc: Global,
    entries: &[Listed],
    files: &Files<'_>,
) -> Result<Vec<Listed>, AllocError>
    ensures { IfOk result (λ those. AreThose (IsMatchedLine (said files.now)) entries.now those.items) }
{
    let title = sought_title(alloc, files.name)?;
    let kind = sought_type(alloc, files.kind)?;
    let mut those = Vec::new(alloc);
    for entry in entries {
        add_matched(entry, files, &title, &kind, &mut those)?;
    }
    Ok(those)
}

/// Adds an entry, where the patterns match it. A title that they match has these words, and a type that they match this one.
fn add_matched(
    entry: &Listed,
    files: &Files<'_>,
    title: &Option<Name>,
    kind: &Option<Name>,
    those: &mut Vec<Listed>,
) -> Result<(), AllocError>
    requires title { HasTitle (capitals files.now.name.now) title.now }
    requires kind { HasType (capitals files.now.kind.now) kind.now }
    ensures { OnOk result ((before : List Entry) → AreThose (IsMatchedLine (said files.now)) before those.old.items
        → AreThose (IsMatchedLine (said files.now)) (before ++ entry.now ∷ []) those.new.items) }
{
    if is_sought(&entry.name, files, title, kind) {
        those.push(*entry)?;
    }
    Ok(())
}

/// Of these lines those whose versions are picked, in their order. They are in the order of a listing.
fn pick_lines(
    alloc: Global,
    lines: &[Listed],
    versions: Versions,
) -> Result<Vec<Listed>, AllocError>
    requires { IsSortedByKey shown listing_cmp lines.now }
    ensures { IfOk result (λ found. AreThose (IsPicked versions lines.now) lines.now found.items) }
{
    let mut found = Vec::new(alloc);
    for place in 0..lines.len() {
        add_picked(lines, place, versions, &mut found)?;
    }
    Ok(found)
}

/// Adds the line at this place, where its version is picked.
fn add_picked(
    lines: &[Listed],
    place: usize,
    versions: Versions,
    found: &mut Vec<Listed>,
) -> Result<(), AllocError>
    requires sorted { IsSortedByKey shown listing_cmp lines.now }
    requires inside { place < length lines.now }
    ensures { OnOk result (AreThose (IsPicked versions lines.now) (take place lines.now) found.old.items
        → AreThose (IsPicked versions lines.now) (take (place + 1) lines.now) found.new.items) }
{
    let line = lines[place];
    if is_picked(lines, place, &line, versions) {
        found.push(line)?;
    }
    Ok(())
}
