//! Directories and all directories below them.
ghost use Rattle.std.specs.Prelude.{◌≡◌, ◌⊎◌, ◌<◌, ◌++◌, ◌∷◌, ℕ, List, [], length, map, nat_eq, IfOk, OnOk};
ghost use Rattle.std.specs.List.{Contains, IsDistinct};
ghost use Rattle.ods_walk.specs.declared.tables.Line.{Line as Placed};
ghost use Rattle.ods_walk.specs.{Paths.path_to, Paths.number_at, Steps.AreEntered, Walk.NamesDirectory};
ghost use Rattle.ods_shell.specs.declared.folders.Directory.{Directory as One};
ghost use Rattle.ods_shell.specs.Ways.{AreAllBelow, AreMet, CountAsClosed};
ghost use Rattle.ods_space.specs.Disks.{on};

use crate::folders::{Closed, Directory, directory_of, is_directory_file};
use crate::ways::longer;
use ods_base::Name;
use ods_space::Disk;
use ods_walk::{Line, Walk, walk_past};
use std::alloc::{AllocError, Global};

/// Returns these directories and all directories below them, each once.
pub(crate) fn with_all_below(
    alloc: Global,
    disk: &Disk<'_>,
    starts: &[Directory],
    closed: &mut Closed<'_>,
) -> Result<Vec<Directory>, AllocError>
    ensures found { IfOk result (λ found. (shut : List ℕ) → CountAsClosed closed.old.numbers.now closed.new.met.items shut
        → on AreAllBelow disk.now shut starts.now found.items) }
    ensures same { closed.new.numbers ≡ closed.old.numbers }
    ensures met { OnOk result (AreMet closed.old.numbers.now closed.old.met.items closed.new.met.items) }
{
    let mut is_added = vec![in alloc; false; 65_536]?;
    gather(alloc, disk, starts, &mut is_added, closed)
}

/// These directories and all below them, where none is added yet.
fn gather(
    alloc: Global,
    disk: &Disk<'_>,
    starts: &[Directory],
    is_added: &mut [bool],
    closed: &mut Closed<'_>,
) -> Result<Vec<Directory>, AllocError>
    requires { AreEntered is_added.old [] }
    ensures found { IfOk result (λ found. (shut : List ℕ) → CountAsClosed closed.old.numbers.now closed.new.met.items shut
        → on AreAllBelow disk.now shut starts.now found.items) }
    ensures same { closed.new.numbers ≡ closed.old.numbers }
    ensures met { OnOk result (AreMet closed.old.numbers.now closed.old.met.items closed.new.met.items) }
{
    let mut found = Vec::new(alloc);
    for start in starts {
        add_walked(alloc, disk, start, is_added, &mut found, closed)?;
    }
    Ok(found)
}

/// Adds a directory and all below it, but for those that are added; of a closed one none.
fn add_walked(
    alloc: Global,
    disk: &Disk<'_>,
    start: &Directory,
    is_added: &mut [bool],
    found: &mut Vec<Directory>,
    closed: &mut Closed<'_>,
) -> Result<(), AllocError>
    requires { AreEntered is_added.old (map (λ d. d.number) found.old.items) }
    ensures flags { OnOk result (AreEntered is_added.new (map (λ d. d.number) found.new.items)) }
    ensures found { OnOk result ((shut : List ℕ) (before : List One) → CountAsClosed closed.old.numbers.now closed.new.met.items shut
        → on AreAllBelow disk.now shut before found.old.items → on AreAllBelow disk.now shut (before ++ start.now ∷ []) found.new.items) }
    ensures same { closed.new.numbers ≡ closed.old.numbers }
    ensures met { OnOk result (AreMet closed.old.numbers.now closed.old.met.items closed.new.met.items) }
{
    if closed.stops(alloc, start.number, &start.names)? {
        return Ok(());
    }
    if !is_directory_file(disk, start.number) {
        return Ok(());
    }
    let walk = walk_past(alloc, disk, start.number, closed.numbers)?;
    add_entered(alloc, start, &walk, is_added, found)?;
    note_closed(alloc, disk, start, &walk, closed)?;
    Ok(())
}

/// Adds the directories that a walk entered, but for those that are added.
fn add_entered(
    alloc: Global,
    start: &Directory,
    walk: &Walk,
    is_added: &mut [bool],
    found: &mut Vec<Directory>,
) -> Result<(), AllocError>
    requires flags { AreEntered is_added.old (map (λ d. d.number) found.old.items) }
    requires once { IsDistinct nat_eq (map (λ d. d.number) walk.now.directories) }
    ensures flags { OnOk result (AreEntered is_added.new (map (λ d. d.number) found.new.items)) }
    ensures grows { OnOk result ((n : ℕ) → Contains (map (λ d. d.number) found.old.items) n → Contains (map (λ d. d.number) found.new.items) n) }
    ensures only { OnOk result ((d : One) → Contains found.new.items d → Contains found.old.items d
        ⊎ ((place : ℕ) × (place < length walk.now.directories) × (d.number ≡ number_at walk.now.directories place)
        × (d.names.items ≡ start.now.names.items ++ path_to walk.now.directories place))) }
    ensures all { OnOk result ((place : ℕ) → place < length walk.now.directories → Contains (map (λ d. d.number) found.new.items) (number_at walk.now.directories place)) }
    ensures once { OnOk result (IsDistinct nat_eq (map (λ d. d.number) found.old.items) → IsDistinct nat_eq (map (λ d. d.number) found.new.items)) }
{
    let mut place = 0;
    'places: while let Some(entered) = walk.directory(place) {
        add_one(alloc, start, walk, place, entered.number, is_added, found)?;
        place += 1;
    }
    Ok(())
}

/// Adds the directory that a walk entered at this place, unless one with its number is added.
fn add_one(
    alloc: Global,
    start: &Directory,
    walk: &Walk,
    place: usize,
    number: u16,
    is_added: &mut [bool],
    found: &mut Vec<Directory>,
) -> Result<(), AllocError>
    requires { AreEntered is_added.old (map (λ d. d.number) found.old.items) }
    ensures word { number < 65536 }
    ensures flags { OnOk result (AreEntered is_added.new (map (λ d. d.number) found.new.items)) }
    ensures one { OnOk result ((Contains (map (λ d. d.number) found.old.items) number × (found.new.items ≡ found.old.items))
        ⊎ ((¬ Contains (map (λ d. d.number) found.old.items) number) × (d : One) × (found.new.items ≡ found.old.items ++ d ∷ []) × (d.number ≡ number)
        × (d.names.items ≡ start.now.names.items ++ path_to walk.now.directories place))) }
{
    if is_added[number as usize] {
        return Ok(());
    }
    is_added[number as usize] = true;
    let names = names_in(alloc, &start.names, walk, place)?;
    found.push(Directory { number, names })?;
    Ok(())
}

/// Notes each closed directory that a line of a walk names.
fn note_closed(
    alloc: Global,
    disk: &Disk<'_>,
    start: &Directory,
    walk: &Walk,
    closed: &mut Closed<'_>,
) -> Result<(), AllocError>
    ensures none { OnOk result (closed.new.met.items ≡ [] → (l : Placed) → Contains walk.now.lines l
        → on NamesDirectory disk.now l.entry → ¬ Contains closed.old.numbers.now l.entry.file.number) }
    ensures same { closed.new.numbers ≡ closed.old.numbers }
    ensures met { OnOk result (AreMet closed.old.numbers.now closed.old.met.items closed.new.met.items) }
{
    if closed.numbers.is_empty() {
        return Ok(());
    }
    for line in walk.lines() {
        note_line(alloc, disk, start, walk, line, closed)?;
    }
    Ok(())
}

/// Notes the directory that a line of a walk names, where it is closed.
fn note_line(
    alloc: Global,
    disk: &Disk<'_>,
    start: &Directory,
    walk: &Walk,
    line: &Line,
    closed: &mut Closed<'_>,
) -> Result<(), AllocError>
    ensures none { OnOk result (closed.new.met.items ≡ [] → on NamesDirectory disk.now line.now.entry
        → ¬ Contains closed.old.numbers.now line.now.entry.file.number) }
    ensures same { closed.new.numbers ≡ closed.old.numbers }
    ensures met { OnOk result (AreMet closed.old.numbers.now closed.old.met.items closed.new.met.items) }
{
    let Some(number) = directory_of(disk, &line.entry) else {
        return Ok(());
    };
    let names = names_in(alloc, &start.names, walk, line.directory)?;
    let path = longer(alloc, &names, &line.entry.name)?;
    closed.stops(alloc, number, &path)?;
    Ok(())
}

/// The names that lead to a place of a walk from the master directory.
fn names_in(
    alloc: Global,
    before: &[Name],
    walk: &Walk,
    place: usize,
) -> Result<Vec<Name>, AllocError>
    ensures { IfOk result (λ names. names.items ≡ before.now ++ path_to walk.now.directories place) }
{
    let mut names = Vec::new(alloc);
    names.extend_from_slice(before)?;
    names.extend_from_slice(&walk.path(alloc, place)?)?;
    Ok(names)
}
