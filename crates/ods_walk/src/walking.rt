//! The walk over the directories below one: depth first, in listing order, each directory entered once.
ghost use Rattle.std.specs.Prelude.{◌≡◌, ◌++◌, ◌∷◌, ℕ, List, [], length, map, IfOk, IfSome, IfNone, OnOk, MatchBool};
ghost use Rattle.ods_base.specs.declared.listed.Listed.{Listed as Entry};
ghost use Rattle.ods_mount.specs.Faults.{IsDirectoryFile};
ghost use Rattle.ods_walk.specs.{Complete.AreReached, Listing.IsListing, Paths.IsWalk, Paths.IsWalkButFor, Steps.AreEntered, Steps.IsPast, Steps.IsStop, Steps.from_top, Steps.placed, Walk.NamesDirectory, Walk.IsWalkedInto};
ghost use Rattle.ods_space.specs.Disks.{on};

use crate::ordering::listing;
use crate::tables::{Entered, Line, Walk};
use ods_base::{DIRECTORY_TYPE, Listed};
use ods_header::{file_sequence, is_directory};
use ods_space::{Disk, primary_header};
use std::alloc::{AllocError, Global};

/// Walks all lines below directory `start`. The start and the master directory count as entered. It fails only when out of memory.
pub fn walk_from(alloc: Global, disk: &Disk<'_>, start: u16) -> Result<Walk, AllocError>
    requires { on IsDirectoryFile disk.now start }
    ensures walk { IfOk result (λ walk. on IsWalk disk.now start walk) }
    ensures reached { IfOk result (λ walk. on AreReached disk.now start (4 ∷ []) walk.directories) }
{
    walk_past(alloc, disk, start, &[])
}

/// Walks all lines below directory `start`, and enters none of the closed directories. The start and the master directory count as entered. It fails
/// only when out of memory.
pub fn walk_past(
    alloc: Global,
    disk: &Disk<'_>,
    start: u16,
    closed: &[u16],
) -> Result<Walk, AllocError>
    requires { on IsDirectoryFile disk.now start }
    ensures walk { IfOk result (λ walk. on IsWalkButFor disk.now start closed.now walk) }
    ensures reached { IfOk result (λ walk. on AreReached disk.now start (4 ∷ closed.now) walk.directories) }
{
    let mut directories = Vec::new(alloc);
    let mut lines = Vec::new(alloc);
    let mut is_entered = flags_of(alloc, closed)?;
    let mut pile = Vec::new(alloc);
    is_entered[4] = true;
    is_entered[start as usize] = true;
    put_lines(alloc, disk, start, 0, &mut pile)?;
    directories.push(Entered {
        number: start,
        from: None,
    })?;
    'directories: while let Some(line) = next_directory(disk, &is_entered, &mut lines, &mut pile)? {
        let number = line.entry.file.number;
        is_entered[number as usize] = true;
        put_lines(alloc, disk, number, directories.len(), &mut pile)?;
        directories.push(Entered {
            number,
            from: Some((line.directory, line.entry.name)),
        })?;
    }
    Ok(Walk { directories, lines })
}

/// Returns the flags of all 65,536 numbers, with the flags of `numbers` set.
pub(crate) fn flags_of(alloc: Global, numbers: &[u16]) -> Result<Vec<bool>, AllocError>
    ensures { IfOk result (λ flags. AreEntered flags.items numbers.now) }
{
    let mut flags = vec![in alloc; false; 65_536]?;
    let mut left = numbers;
    'numbers: while let Some((last, before)) = left.split_last() {
        flags[*last as usize] = true;
        left = before;
    }
    Ok(flags)
}

/// Passes the lines on top of the pile, up to one that is walked into, which is passed too and given.
fn next_directory(
    disk: &Disk<'_>,
    is_entered: &[bool],
    lines: &mut Vec<Line>,
    pile: &mut Vec<Line>,
) -> Result<Option<Line>, AllocError>
    requires { length is_entered.now ≡ 65536 }
    ensures none { IfOk result (λ found. IfNone found (on IsPast disk.now is_entered.now pile.old.items lines.old.items lines.new.items)) }
    ensures some { IfOk result (λ found. IfSome found (on IsStop disk.now is_entered.now pile.old.items lines.old.items pile.new.items lines.new.items)) }
{
    'lines: while let Some(line) = pile.pop() {
        lines.push(line)?;
        if is_walked_into(disk, is_entered, &line.entry) {
            return Ok(Some(line));
        }
    }
    Ok(None)
}

/// Returns whether the walk enters the directory of an entry: the entry names a directory that is not entered yet.
pub(crate) fn is_walked_into(disk: &Disk<'_>, is_entered: &[bool], entry: &Listed) -> bool
    requires { length is_entered.now ≡ 65536 }
    ensures { (entered : List ℕ) → AreEntered is_entered.now entered
        → MatchBool result (on IsWalkedInto disk.now entered entry.now) (¬ on IsWalkedInto disk.now entered entry.now) }
{
    !is_entered[entry.file.number as usize] && names_directory(disk, entry)
}

/// Returns whether an entry names a directory: its type is DIR, and its file exists and is a directory.
pub fn names_directory(disk: &Disk<'_>, entry: &Listed) -> bool
    ensures { MatchBool result (on NamesDirectory disk.now entry.now) (¬ on NamesDirectory disk.now entry.now) }
{
    if entry.name.ext() != DIRECTORY_TYPE {
        return false;
    }
    let Some(header) = primary_header(disk, entry.file.number) else {
        return false;
    };
    file_sequence(header) == entry.file.sequence && is_directory(entry.file.number, header)
}

/// Puts the lines of a directory on the pile, the first one on top.
fn put_lines(
    alloc: Global,
    disk: &Disk<'_>,
    number: u16,
    place: usize,
    pile: &mut Vec<Line>,
) -> Result<(), AllocError>
    requires { on IsDirectoryFile disk.now number }
    ensures { OnOk result ((entries : List Entry) × on IsListing disk.now number entries
        × (from_top pile.new.items ≡ map (placed place) entries ++ from_top pile.old.items)) }
{
    let mut entries = listing(alloc, disk, number)?;
    'entries: while let Some(entry) = entries.pop() {
        pile.push(Line {
            directory: place,
            entry,
        })?;
    }
    Ok(())
}
