//! The input of a repair: each name that names no file, with its directory.
ghost use Rattle.std.specs.Prelude.{◌≡◌, ◌++◌, ◌∷◌, ◌⊎◌, [], IfOk, OnOk};
ghost use Rattle.ods_space.specs.Files.{IsLayoutOf};
ghost use Rattle.ods_check.specs.{Findings.IsIdOfFile, Repairs.AddsDangling, Repairs.AddsUnnamed, Repairs.AreDangling};
ghost use Rattle.ods_space.specs.Disks.{on};

use crate::Finding;
use crate::ids::id_of;
use crate::names::names_of;
use crate::naming::is_id_of_file;
use crate::numbers::file_end;
use ods_base::{FileId, Listed};
use ods_space::Disk;
use std::alloc::{AllocError, Global};

/// A name that names no file, and its directory.
#[derive(Clone, Copy, Debug, PartialEq, Eq)]
pub struct Dangling {
    /// The ID of the directory.
    pub directory: FileId,
    /// The name with its version, and the ID that belongs to no file.
    pub line: Listed,
}

impl Dangling {
    /// Returns the finding for this name.
    pub fn finding(&self) -> Finding
        ensures { result ≡ Finding.NamesNone self.now.directory.number self.now.line }
    {
        Finding::NamesNone(self.directory.number, self.line)
    }
}

/// Returns each name that names no file, sorted by directory number and then by name. It does not matter whether a walk reaches the directory. A
/// directory whose chain is not whole, or whose entries are not good and distinct, has no names.
pub fn find_dangling(alloc: Global, disk: &Disk<'_>) -> Result<Vec<Dangling>, AllocError>
    requires { on IsLayoutOf disk.now }
    ensures { IfOk result (λ found. on AreDangling disk.now found.items) }
{
    let mut found = Vec::new(alloc);
    for number in 0..file_end(disk) {
        push_dangling(alloc, disk, number as u16, &mut found)?;
    }
    Ok(found)
}

/// Adds each name of this directory that names no file.
fn push_dangling(
    alloc: Global,
    disk: &Disk<'_>,
    directory: u16,
    found: &mut Vec<Dangling>,
) -> Result<(), AllocError>
    requires { on IsLayoutOf disk.now }
    ensures { OnOk result (on AddsDangling disk.now directory found.old.items found.new.items) }
{
    let lines = names_of(alloc, disk, directory)?;
    push_unnamed(disk, id_of(disk, directory), &lines, found)?;
    Ok(())
}

/// Adds each of these lines of a directory that names no file.
fn push_unnamed(
    disk: &Disk<'_>,
    directory: FileId,
    lines: &[Listed],
    found: &mut Vec<Dangling>,
) -> Result<(), AllocError>
    ensures { OnOk result (on AddsUnnamed disk.now directory lines.now found.old.items found.new.items) }
{
    for i in 0..lines.len() {
        push_if_unnamed(disk, directory, &lines[i], found)?;
    }
    Ok(())
}

/// Adds a line of a directory where it names no file.
fn push_if_unnamed(
    disk: &Disk<'_>,
    directory: FileId,
    line: &Listed,
    found: &mut Vec<Dangling>,
) -> Result<(), AllocError>
    ensures { OnOk result ((on IsIdOfFile disk.now line.now.file × (found.new.items ≡ found.old.items))
        ⊎ ((¬ on IsIdOfFile disk.now line.now.file) × (found.new.items ≡ found.old.items ++ record { directory = directory; line = line.now } ∷ []))) }
{
    if is_id_of_file(disk, line.file) {
        return Ok(());
    }
    found.push(Dangling {
        directory,
        line: *line,
    })?;
    Ok(())
}
