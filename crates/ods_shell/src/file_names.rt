//! One name of each file by its number, in a directory as near to the master directory as possible.
ghost use Rattle.std.specs.Prelude.{◌≡◌, ◌≢◌, ◌⊎◌, ◌+◌, ◌<◌, [], ◌∷◌, ℕ, None, Some, IfOk, MatchOption, OnOk, length, option_map, slice_index_or, slice_set, string_bytes};
ghost use Rattle.ods_mount.specs.Faults.{IsDirectoryFile};
ghost use Rattle.ods_walk.specs.{Complete.AreReached, Listing.IsListing, Paths.number_at};
ghost use Rattle.ods_shell.specs.ByNumber.{AreNames, AreNoted, path_by, path_noted};
ghost use Rattle.ods_shell.specs.Found.{placed};
ghost use Rattle.ods_shell.specs.There.{IsThere};
ghost use Rattle.ods_space.specs.Disks.{on};

use crate::find::is_there;
use crate::folders::{MASTER, is_directory_file, lines_of};
use crate::texts::push_path;
use ods_base::Listed;
use ods_space::Disk;
use ods_walk::{Line, Walk, enter_all};
use std::alloc::{AllocError, Global};
use std::marker::Model;

/// The files that paths from the master directory reach, each with one of its names. Keeps a line for each number, whatever the volume has.
#[derive(Drop)]
pub struct FileNames {
    walk: Walk,
    first: Vec<Option<Line>>,
}

impl Model for FileNames {
    ghost use Rattle.ods_shell.specs.ByNumber.{NamedFiles};

    ghost Value = { NamedFiles };

    ghost view = { λ f. record { directories = f.walk.directories; first = f.first.items } };
}

impl FileNames {
    ghost use Rattle.std.specs.Prelude.{◌≡◌, IfOk, MatchOption, option_map, string_bytes};
    ghost use Rattle.ods_mount.specs.Faults.{IsDirectoryFile};
    ghost use Rattle.ods_shell.specs.ByNumber.{AreNames, path_by, path_noted};
    ghost use Rattle.ods_space.specs.Disks.{on};

    /// Collects the names of the files of a volume, sound or refused. Returns `None` if the volume has no master directory.
    pub fn of(alloc: Global, disk: &Disk<'_>) -> Result<Option<FileNames>, AllocError>
        ensures { IfOk result (λ found. MatchOption found (¬ on IsDirectoryFile disk.now 4) (on AreNames disk.now)) }
    {
        if !is_directory_file(disk, MASTER) {
            return Ok(None);
        }
        let walk = enter_all(alloc, disk)?;
        let mut first = none_noted(alloc)?;
        note_walk(alloc, disk, &walk, &mut first)?;
        Ok(Some(FileNames { walk, first }))
    }

    /// Returns the path of the file with this number, if one is noted.
    pub fn path(&self, alloc: Global, number: u16) -> Result<Option<String>, AllocError>
        ensures { IfOk result (λ path. option_map string_bytes path ≡ path_noted self.now number) }
    {
        match self.first.get(number as usize) {
            Some(Some(line)) => Ok(Some(self.path_of(alloc, line)?)),
            _ => Ok(None),
        }
    }

    /// The path of a line.
    fn path_of(&self, alloc: Global, line: &Line) -> Result<String, AllocError>
        ensures { IfOk result (λ path. string_bytes path ≡ path_by self.now.directories line.now) }
    {
        let names = self.walk.path(alloc, line.directory)?;
        let mut text = String::new(alloc);
        push_path(&mut text, &names, &line.entry)?;
        Ok(text)
    }
}

/// No line for any number.
fn none_noted(alloc: Global) -> Result<Vec<Option<Line>>, AllocError>
    ensures size { IfOk result (λ first. length first.items ≡ 65536) }
    ensures none { IfOk result (λ first. (n : ℕ) → slice_index_or first.items n None ≡ None) }
{
    let mut first = Vec::with_capacity(alloc, 65_536)?;
    for _at in 0..65_536usize {
        first.push(None)?;
    }
    Ok(first)
}

/// Notes of each number the first entry of the directories of a walk that names its file.
fn note_walk(
    alloc: Global,
    disk: &Disk<'_>,
    walk: &Walk,
    first: &mut Vec<Option<Line>>,
) -> Result<(), AllocError>
    requires size { length first.old.items ≡ 65536 }
    requires none { (n : ℕ) → slice_index_or first.old.items n None ≡ None }
    requires master { on IsDirectoryFile disk.now 4 }
    requires reached { on AreReached disk.now 4 (4 ∷ []) walk.now.directories }
    ensures { OnOk result (on AreNoted disk.now walk.now.directories (length walk.now.directories) first.new.items) }
{
    for place in 0..walk.directory_count() {
        note_directory(alloc, disk, walk, place, first)?;
    }
    Ok(())
}

/// Notes of each number the first entry of the directory at this place that names its file, where none is noted.
fn note_directory(
    alloc: Global,
    disk: &Disk<'_>,
    walk: &Walk,
    place: usize,
    first: &mut Vec<Option<Line>>,
) -> Result<(), AllocError>
    requires so { on AreNoted disk.now walk.now.directories place first.old.items }
    requires within { place < length walk.now.directories }
    requires directory { on IsDirectoryFile disk.now (number_at walk.now.directories place) }
    ensures { OnOk result (on AreNoted disk.now walk.now.directories (place + 1) first.new.items) }
{
    let Some(entered) = walk.directory(place) else {
        unreachable!()
    };
    let entries = lines_of(alloc, disk, entered.number)?;
    note_listing(disk, walk, place, &entries, first);
    Ok(())
}

/// Notes of each number the first of these entries that names its file, where none is noted. They are those of the directory at this place.
fn note_listing(
    disk: &Disk<'_>,
    walk: &Walk,
    place: usize,
    entries: &[Listed],
    first: &mut Vec<Option<Line>>,
)
    requires so { on AreNoted disk.now walk.now.directories place first.old.items }
    requires within { place < length walk.now.directories }
    requires listing { on IsListing disk.now (number_at walk.now.directories place) entries.now }
    ensures { on AreNoted disk.now walk.now.directories (place + 1) first.new.items }
{
    for entry in entries {
        note_entry(disk, place, entry, first);
    }
}

/// Notes an entry of the directory at this place, where it names a file for which none is noted.
fn note_entry(disk: &Disk<'_>, place: usize, entry: &Listed, first: &mut Vec<Option<Line>>)
    requires { length first.old.items ≡ 65536 }
    ensures word { entry.now.file.number < 65536 }
    ensures noted { (on IsThere disk.now entry.now.file × (slice_index_or first.old.items entry.now.file.number None ≡ None) × (first.new.items ≡ slice_set first.old.items entry.now.file.number (Some (placed place entry.now))))
        ⊎ (((¬ on IsThere disk.now entry.now.file) ⊎ (slice_index_or first.old.items entry.now.file.number None ≢ None)) × (first.new.items ≡ first.old.items)) }
{
    let number = entry.file.number as usize;
    if first[number].is_some() {
        return;
    }
    if !is_there(disk, entry.file) {
        return;
    }
    first[number] = Some(Line {
        directory: place,
        entry: *entry,
    });
}
