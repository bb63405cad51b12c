//! The directory lines that a path finds.
ghost use Rattle.std.specs.Prelude.{◌≡◌, ◌++◌, ℕ, List, [], map, IfOk, OnOk};
ghost use Rattle.ods_paths.specs.Views.{folder as said_folder, said_files};
ghost use Rattle.ods_shell.specs.Found.{AreFound, AreFoundIn, placed};
ghost use Rattle.ods_shell.specs.Ways.{AreMeant, AreMet, CountAsClosed};
ghost use Rattle.ods_space.specs.Disks.{on};

use crate::folders::{Closed, Directory, directories, lines_of};
use crate::matched::find_chosen;
use ods_base::Listed;
use ods_paths::{Files, Folder, Versions};
use ods_space::Disk;
use ods_walk::Line;
use std::alloc::{AllocError, Global};

/// The result of a path: directories, and their lines in the order of the directories and of their listings. A line states its directory by the
/// index in this list.
#[derive(Drop, Debug)]
pub struct FoundLines {
    pub directories: Vec<Directory>,
    pub lines: Vec<Line>,
    /// Closed directories that are found or on the way.
    pub closed: Vec<Directory>,
}

/// Returns the lines that a path finds, or all lines of its directories if `files` is `None`. `unsaid` is the default version. No names in the
/// `closed` directories are read, so nothing is found in them or through their names.
pub fn find_open(
    alloc: Global,
    disk: &Disk<'_>,
    folder: &Folder<'_>,
    files: &Option<Files<'_>>,
    unsaid: Versions,
    closed: &[u16],
) -> Result<FoundLines, AllocError>
    ensures directories { IfOk result (λ found. (shut : List ℕ) → CountAsClosed closed.now found.closed.items shut
        → on AreMeant disk.now shut (said_folder folder.now) found.directories.items) }
    ensures lines { IfOk result (λ found. on AreFound disk.now (said_files files.now) unsaid 0 found.directories.items found.lines.items) }
    ensures met { IfOk result (λ found. AreMet closed.now [] found.closed.items) }
{
    let mut shut = Closed {
        numbers: closed,
        met: Vec::new(alloc),
    };
    let found = directories(alloc, disk, folder, &mut shut)?;
    let mut lines = Vec::new(alloc);
    for place in 0..found.len() {
        let entries = found_in(alloc, disk, found[place].number, files, unsaid)?;
        add_lines(place, &entries, &mut lines)?;
    }
    Ok(FoundLines {
        directories: found,
        lines,
        closed: shut.met,
    })
}

/// Returns the directories that a folder selects, if none is closed. Reads no names in them.
pub(crate) fn find_directories(
    alloc: Global,
    disk: &Disk<'_>,
    folder: &Folder<'_>,
) -> Result<Vec<Directory>, AllocError>
    ensures { IfOk result (λ found. on AreMeant disk.now [] (said_folder folder.now) found.items) }
{
    let mut shut = Closed {
        numbers: &[],
        met: Vec::new(alloc),
    };
    directories(alloc, disk, folder, &mut shut)
}

/// The lines that are found in one directory.
fn found_in(
    alloc: Global,
    disk: &Disk<'_>,
    number: u16,
    files: &Option<Files<'_>>,
    unsaid: Versions,
) -> Result<Vec<Listed>, AllocError>
    ensures { IfOk result (λ found. on AreFoundIn disk.now (said_files files.now) unsaid number found.items) }
{
    match files {
        Some(files) => find_chosen(alloc, disk, number, files, unsaid),
        None => lines_of(alloc, disk, number),
    }
}

/// Adds the entries of the directory at this place.
fn add_lines(place: usize, entries: &[Listed], lines: &mut Vec<Line>) -> Result<(), AllocError>
    ensures { OnOk result (lines.new.items ≡ lines.old.items ++ map (placed place) entries.now) }
{
    for entry in entries {
        lines.push(Line {
            directory: place,
            entry: *entry,
        })?;
    }
    Ok(())
}
