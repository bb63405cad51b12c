//! The directories that the folder of a path selects.
ghost use Rattle.std.specs.Prelude.{◌≡◌, ◌==◌, ◌++◌, ◌∷◌, ℕ, List, [], false, true, IfOk, OnOk, MatchBool, MatchOption, IsSortedByKey};
ghost use Rattle.std.specs.List.{list_any};
ghost use Rattle.ods_paths.specs.{Order.listing_cmp, Views.folder as said_folder};
ghost use Rattle.ods_mount.specs.{Faults.IsDirectoryFile};
ghost use Rattle.ods_walk.specs.{Listing.IsListing, Listing.shown, Walk.NamesDirectory};
ghost use Rattle.ods_shell.specs.declared.folders.Directory.{Directory as One};
ghost use Rattle.ods_shell.specs.Ways.{AreMeant, AreMet, AreOpen, CountAsClosed};
ghost use Rattle.ods_space.specs.Disks.{on};

use crate::below::with_all_below;
use crate::ways::find_starts;
use ods_base::{Listed, Name};
use ods_header::is_directory;
use ods_paths::Folder;
use ods_space::{Disk, primary_header};
use ods_walk::{listing, names_directory};
use std::alloc::{AllocError, Global};

/// The number of the master directory.
pub const MASTER: u16 = 4;

/// A directory: the number of its file, and the names on the path from the master directory to it.
#[derive(Drop, Debug)]
pub struct Directory {
    pub number: u16,
    pub names: Vec<Name>,
}

/// Directories whose names are not read, and the ones that were met.
#[derive(Drop)]
pub(crate) struct Closed<'a> {
    pub numbers: &'a [u16],
    pub met: Vec<Directory>,
}

impl Closed<'_> {
    /// Returns whether the directory with this number is closed, and notes it as met in that case.
    pub fn stops(&mut self, alloc: Global, number: u16, names: &[Name]) -> Result<bool, AllocError>
        ensures value { IfOk result (λ stopped. stopped ≡ list_any (λ n. n == number) self.old.numbers.now) }
        ensures same { self.new.numbers ≡ self.old.numbers }
        ensures open { IfOk result (λ stopped. stopped ≡ false → self.new.met.items ≡ self.old.met.items) }
        ensures met { IfOk result (λ stopped. stopped ≡ true → (d : One) × (d.number ≡ number) × (self.new.met.items ≡ self.old.met.items ++ d ∷ [])) }
    {
        if !self.numbers.contains(&number) {
            return Ok(false);
        }
        let mut path = Vec::new(alloc);
        path.extend_from_slice(names)?;
        self.met.push(Directory {
            number,
            names: path,
        })?;
        Ok(true)
    }
}

/// Returns the lines of a directory, in the order of a listing. Returns none if the number is not the number of a directory.
pub fn lines_of(alloc: Global, disk: &Disk<'_>, number: u16) -> Result<Vec<Listed>, AllocError>
    ensures there { IfOk result (λ lines. on IsDirectoryFile disk.now number → on IsListing disk.now number lines.items) }
    ensures none { IfOk result (λ lines. ¬ on IsDirectoryFile disk.now number → lines.items ≡ []) }
    ensures sorted { IfOk result (λ lines. IsSortedByKey shown listing_cmp lines.items) }
{
    if !is_directory_file(disk, number) {
        return Ok(Vec::new(alloc));
    }
    listing(alloc, disk, number)
}

/// Returns whether the number belongs to a directory.
pub fn is_directory_file(disk: &Disk<'_>, number: u16) -> bool
    ensures { MatchBool result (on IsDirectoryFile disk.now number) (¬ on IsDirectoryFile disk.now number) }
{
    match primary_header(disk, number) {
        Some(header) => is_directory(number, header),
        None => false,
    }
}

/// Returns the number of the directory that an entry names; `None` if it does not name a directory.
pub(crate) fn directory_of(disk: &Disk<'_>, entry: &Listed) -> Option<u16>
    ensures { MatchOption result (¬ on NamesDirectory disk.now entry.now)
        (λ number. on NamesDirectory disk.now entry.now × (number ≡ entry.now.file.number)) }
{
    if names_directory(disk, entry) {
        Some(entry.file.number)
    } else {
        None
    }
}

/// Returns the directories that a path selects, in the order of a walk, without closed ones. Reads no names in closed directories.
pub(crate) fn directories(
    alloc: Global,
    disk: &Disk<'_>,
    folder: &Folder<'_>,
    closed: &mut Closed<'_>,
) -> Result<Vec<Directory>, AllocError>
    ensures found { IfOk result (λ found. (shut : List ℕ) → CountAsClosed closed.old.numbers.now closed.new.met.items shut
        → on AreMeant disk.now shut (said_folder folder.now) found.items) }
    ensures same { closed.new.numbers ≡ closed.old.numbers }
    ensures met { OnOk result (AreMet closed.old.numbers.now closed.old.met.items closed.new.met.items) }
{
    let starts = find_starts(alloc, disk, &folder.steps, closed)?;
    if folder.below {
        return with_all_below(alloc, disk, &starts, closed);
    }
    open_ones(alloc, starts, closed)
}

/// Of these directories the open ones, in their order.
fn open_ones(
    alloc: Global,
    starts: Vec<Directory>,
    closed: &mut Closed<'_>,
) -> Result<Vec<Directory>, AllocError>
    ensures found { IfOk result (λ found. (shut : List ℕ) → CountAsClosed closed.old.numbers.now closed.new.met.items shut
        → AreOpen shut starts.items found.items) }
    ensures same { closed.new.numbers ≡ closed.old.numbers }
    ensures met { OnOk result (AreMet closed.old.numbers.now closed.old.met.items closed.new.met.items) }
{
    let mut found = Vec::new(alloc);
    for start in starts {
        add_open(alloc, start, &mut found, closed)?;
    }
    Ok(found)
}

/// Adds a directory, unless it is closed, which is noted then.
fn add_open(
    alloc: Global,
    start: Directory,
    found: &mut Vec<Directory>,
    closed: &mut Closed<'_>,
) -> Result<(), AllocError>
    ensures found { OnOk result ((shut : List ℕ) (before : List One) → CountAsClosed closed.old.numbers.now closed.new.met.items shut
        → AreOpen shut before found.old.items → AreOpen shut (before ++ start ∷ []) found.new.items) }
    ensures same { closed.new.numbers ≡ closed.old.numbers }
    ensures met { OnOk result (AreMet closed.old.numbers.now closed.old.met.items closed.new.met.items) }
{
    if !closed.stops(alloc, start.number, &start.names)? {
        found.push(start)?;
    }
    Ok(())
}

/// Returns the master directory.
pub(crate) fn master(alloc: Global) -> Directory
    ensures number { result.number ≡ 4 }
    ensures names { result.names.items ≡ [] }
{
    Directory {
        number: MASTER,
        names: Vec::new(alloc),
    }
}
