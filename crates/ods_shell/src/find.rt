//! The lines of `find`: every file with its path, or with `-` if no walk over the directories reaches it.
ghost use Rattle.std.specs.Prelude.{◌≡◌, ◌↔◌, ◌⊎◌, ◌<◌, ◌++◌, List, map, false, true, IsTrue, IfOk, MatchOption, OnOk, slice_index_or, slice_set};
ghost use Rattle.std.specs.List.{flat_map};
ghost use Rattle.std.specs.String.{string_bytes};
ghost use Rattle.ods_base.specs.declared.file_id.FileId.{FileId as OneId};
ghost use Rattle.ods_base.specs.declared.listed.Listed.{Listed as Entry};
ghost use Rattle.ods_mount.specs.Faults.{IsDirectoryFile};
ghost use Rattle.ods_space.specs.Files.{IsFile};
ghost use Rattle.ods_space.specs.Layout.{last_number as last_of};
ghost use Rattle.ods_shell.specs.Named.{id_of};
ghost use Rattle.ods_shell.specs.Texts.{shown_path};
ghost use Rattle.ods_shell.specs.There.{AreFlags, AreNamedIds, AreUnreached, IsAmong, IsNamedByNone, IsNotAmong, IsThere, IsUnnoted, found_line, ids_in, line_path, unreached_line, unreached_text};
ghost use Rattle.ods_space.specs.Disks.{on, seen};

use crate::finding::FoundLines;
use crate::folders::{Directory, is_directory_file, lines_of};
use crate::json::pair_object;
use crate::texts::{push_id, push_path};
use ods_base::{FileId, Listed};
use ods_header::file_sequence;
use ods_space::{Disk, last_number, primary_header};
use ods_walk::Line;
use std::alloc::{AllocError, Global};

/// Returns a line with the ID and the path for each found path.
pub fn find_lines(alloc: Global, found: &FoundLines) -> Result<String, AllocError>
    ensures { IfOk result (λ text. string_bytes text ≡ flat_map (found_line found.now.directories.items) found.now.lines.items) }
{
    let mut text = String::new(alloc);
    for line in &found.lines {
        push_found(&mut text, &found.directories, line)?;
    }
    Ok(text)
}

/// The line of a path that was found.
fn push_found(text: &mut String, directories: &[Directory], line: &Line) -> Result<(), AllocError>
    ensures { OnOk result (string_bytes text.new ≡ string_bytes text.old ++ found_line directories.now line.now) }
{
    push_id(text, line.entry.file)?;
    text.push_str("  ")?;
    push_path_of(text, directories, line)?;
    text.push_str("\n")
}

/// Appends the path of a line, by the directory that contains it.
pub fn push_path_of(
    text: &mut String,
    directories: &[Directory],
    line: &Line,
) -> Result<(), AllocError>
    ensures { OnOk result (string_bytes text.new ≡ string_bytes text.old ++ line_path directories.now line.now) }
{
    match directories.get(line.directory) {
        Some(directory) => push_path_in(text, directory, &line.entry),
        None => Ok(()),
    }
}

/// The path of an entry of this directory.
fn push_path_in(text: &mut String, directory: &Directory, entry: &Listed) -> Result<(), AllocError>
    ensures { OnOk result (string_bytes text.new ≡ string_bytes text.old ++ shown_path directory.now.names.items entry.now) }
{
    push_path(text, &directory.names, entry)
}

/// Returns a line with the ID and `-` for each file whose ID is in no found line. With `json`, an object replaces the line.
pub fn unreached_lines(
    alloc: Global,
    disk: &Disk<'_>,
    found: &FoundLines,
    json: bool,
    image: &str,
) -> Result<String, AllocError>
    ensures { IfOk result (λ text. on AreUnreached disk.now
        (on IsNotAmong disk.now (ids_in found.now.lines.items)) json image.now (string_bytes text)) }
{
    let mut is_reached = vec![in alloc; false; 65_536]?;
    for line in &found.lines {
        note(disk, &line.entry, &mut is_reached);
    }
    unnamed_lines(alloc, disk, &is_reached, json, image)
}

/// Returns a line for each file that no line of any directory names. It does not matter whether a walk reaches the directory. With `json`, an
/// object replaces the line.
pub fn lost_lines(
    alloc: Global,
    disk: &Disk<'_>,
    json: bool,
    image: &str,
) -> Result<String, AllocError>
    ensures { IfOk result (λ text. on AreUnreached disk.now
        (on IsNamedByNone disk.now) json image.now (string_bytes text)) }
{
    let mut is_named = vec![in alloc; false; 65_536]?;
    for before in 0..last_number(disk.layout) {
        note_names(alloc, disk, before + 1, &mut is_named)?;
    }
    unnamed_lines(alloc, disk, &is_named, json, image)
}

/// Notes the numbers of the files that the directory with this number names, where it is one.
fn note_names(
    alloc: Global,
    disk: &Disk<'_>,
    number: u16,
    is_named: &mut Vec<bool>,
) -> Result<(), AllocError>
    ensures { OnOk result ((ids : List OneId) → AreFlags (on IsAmong disk.now ids) is_named.old.items
        → (more : List OneId) × (on AreNamedIds disk.now number more × AreFlags (on IsAmong disk.now (ids ++ more)) is_named.new.items)) }
{
    if is_directory_file(disk, number) {
        note_entries(alloc, disk, number, is_named)
    } else {
        Ok(())
    }
}

/// Notes the numbers of the files that this directory names.
fn note_entries(
    alloc: Global,
    disk: &Disk<'_>,
    number: u16,
    is_named: &mut Vec<bool>,
) -> Result<(), AllocError>
    requires { on IsDirectoryFile disk.now number }
    ensures { OnOk result ((ids : List OneId) → AreFlags (on IsAmong disk.now ids) is_named.old.items
        → (more : List OneId) × (on AreNamedIds disk.now number more × AreFlags (on IsAmong disk.now (ids ++ more)) is_named.new.items)) }
{
    let entries = lines_of(alloc, disk, number)?;
    note_all(disk, &entries, is_named);
    Ok(())
}

/// Notes the numbers of the files that these entries name.
fn note_all(disk: &Disk<'_>, entries: &[Listed], is_named: &mut Vec<bool>)
    ensures { (ids : List OneId) → AreFlags (on IsAmong disk.now ids) is_named.old.items
        → AreFlags (on IsAmong disk.now (ids ++ map (λ (e : Entry). e.file) entries.now)) is_named.new.items }
{
    for entry in entries {
        note(disk, entry, is_named);
    }
}

/// Notes the number of the file that an entry names, where it names one.
fn note(disk: &Disk<'_>, entry: &Listed, is_named: &mut Vec<bool>)
    ensures { (on IsThere disk.now entry.now.file × (is_named.new.items ≡ slice_set is_named.old.items entry.now.file.number true))
        ⊎ ((¬ on IsThere disk.now entry.now.file) × (is_named.new.items ≡ is_named.old.items)) }
{
    if is_there(disk, entry.file) {
        note_number(is_named, entry.file.number);
    }
}

/// A line for each file whose number is not noted.
fn unnamed_lines(
    alloc: Global,
    disk: &Disk<'_>,
    is_named: &[bool],
    json: bool,
    image: &str,
) -> Result<String, AllocError>
    ensures text { IfOk result (λ text. on AreUnreached disk.now
        (on IsUnnoted disk.now is_named.now) json image.now (string_bytes text)) }
    ensures few { last_of disk.now.layout.now < 65536 }
{
    let mut text = String::new(alloc);
    for before in 0..last_number(disk.layout) {
        push_if_unnoted(alloc, &mut text, disk, before + 1, is_named, json, image)?;
    }
    Ok(text)
}

/// The line of the file with this number, where there is one and it is not noted.
fn push_if_unnoted(
    alloc: Global,
    text: &mut String,
    disk: &Disk<'_>,
    number: u16,
    is_named: &[bool],
    json: bool,
    image: &str,
) -> Result<(), AllocError>
    ensures { OnOk result ((on IsUnnoted disk.now is_named.now number
        × (string_bytes text.new ≡ string_bytes text.old ++ unreached_text json image.now (seen id_of disk.now number)))
        ⊎ ((¬ on IsUnnoted disk.now is_named.now number) × (string_bytes text.new ≡ string_bytes text.old))) }
{
    match unnoted(disk, number, is_named) {
        Some(file) => push_unreached(alloc, text, file, json, image),
        None => Ok(()),
    }
}

/// The ID of the file with this number, where there is one and it is not noted.
fn unnoted(disk: &Disk<'_>, number: u16, is_named: &[bool]) -> Option<FileId>
    ensures { MatchOption result (¬ on IsUnnoted disk.now is_named.now number)
        (λ file. on IsUnnoted disk.now is_named.now number × (file ≡ seen id_of disk.now number)) }
{
    if is_noted(is_named, number) {
        return None;
    }
    id_of_file(disk, number)
}

/// Returns whether a number is noted.
pub(crate) fn is_noted(flags: &[bool], number: u16) -> bool
    ensures { result ≡ slice_index_or flags.now number false }
{
    flags.get(number as usize) == Some(&true)
}

/// Notes a number.
pub(crate) fn note_number(flags: &mut Vec<bool>, number: u16)
    ensures { flags.new.items ≡ slice_set flags.old.items number true }
{
    if let Some(flag) = flags.get_mut(number as usize) {
        *flag = true;
    }
}

/// The ID of the file with this number.
fn id_of_file(disk: &Disk<'_>, number: u16) -> Option<FileId>
    ensures { MatchOption result (¬ on IsFile disk.now number)
        (λ file. on IsFile disk.now number × (file ≡ seen id_of disk.now number)) }
{
    match primary_header(disk, number) {
        Some(header) => Some(FileId {
            number,
            sequence: file_sequence(header),
        }),
        None => None,
    }
}

/// Returns whether there is a file with this ID.
pub fn is_there(disk: &Disk<'_>, file: FileId) -> bool
    ensures { IsTrue result ↔ on IsThere disk.now file }
{
    match primary_header(disk, file.number) {
        Some(header) => file_sequence(header) == file.sequence,
        None => false,
    }
}

/// A line or an object for a file that has no path.
fn push_unreached(
    alloc: Global,
    text: &mut String,
    file: FileId,
    json: bool,
    image: &str,
) -> Result<(), AllocError>
    ensures { OnOk result (string_bytes text.new ≡ string_bytes text.old ++ unreached_text json image.now file) }
{
    if json {
        push_unreached_object(alloc, text, file, image)
    } else {
        push_unreached_line(text, file)
    }
}

/// An object for a file that has no path.
fn push_unreached_object(
    alloc: Global,
    text: &mut String,
    file: FileId,
    image: &str,
) -> Result<(), AllocError>
    ensures { OnOk result (string_bytes text.new ≡ string_bytes text.old ++ unreached_text true image.now file) }
{
    let id = format!(in alloc; "{},{}", file.number, file.sequence)?;
    text.push_str(pair_object(alloc, "image", image, "id", id.as_str())?.as_str())
}

/// A line for a file that has no path.
fn push_unreached_line(text: &mut String, file: FileId) -> Result<(), AllocError>
    ensures { OnOk result (string_bytes text.new ≡ string_bytes text.old ++ unreached_line file) }
{
    push_id(text, file)?;
    text.push_str("  -\n")
}
