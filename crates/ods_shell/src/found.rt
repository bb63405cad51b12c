//! The files that a path selects, for the commands that read and the commands that change.
ghost use Rattle.std.specs.Prelude.{◌≡◌, ◌≢◌, ◌⊎◌, ◌++◌, ◌∷◌, ℕ, List, [], IfOk, IfErr, OnOk, Some, slice_get};
ghost use Rattle.ods_paths.specs.{Paths.Said, Paths.Says, Views.files as said_files, Views.folder as said_folder};
ghost use Rattle.ods_shell.specs.declared.facts.Facts.{Facts as Known};
ghost use Rattle.ods_shell.specs.Facts.{AreFacts};
ghost use Rattle.ods_shell.specs.declared.folders.Directory.{Directory as Holder};
ghost use Rattle.ods_shell.specs.declared.found.Found.{Found as One};
ghost use Rattle.ods_shell.specs.Named.{AreLines, AreNamed, AreNamedBy, AreNotNamed, AreWithin, IsEntryOf, IsFileOf, IsPathFault};
ghost use Rattle.ods_shell.specs.Passed.{is_passed_over};
ghost use Rattle.ods_shell.specs.Ways.{AreMet, CountAsClosed};
ghost use Rattle.ods_space.specs.Files.{FindsFiles};
ghost use Rattle.ods_space.specs.Disks.{on};

use crate::alone::{Unsaid, find_alone};
use crate::facts::{Facts, Kind, facts_by_id};
use crate::finding::find_open;
use crate::folders::Directory;
use crate::path_fault::PathFault;
use crate::texts::{push_id, push_path};
use ods_base::{FileId, Listed};
use ods_paths::{Files, Folder, Path, Versions, parse_path};
use ods_space::{Disk, sequence};
use ods_walk::Line;
use std::alloc::{AllocError, Global};

/// The location of an entry: the directory, and the entry.
#[derive(Clone, Copy)]
pub struct EntryPlace {
    pub directory: FileId,
    pub entry: Listed,
}

/// The selection of a path: an entry, or a file by its ID.
#[derive(Drop)]
pub struct Found {
    /// Its path, as commands show it.
    pub path: String,
    /// The entry; `None` for a file that the path selects by its ID.
    pub place: Option<EntryPlace>,
    /// The facts of the file; `None` if the entry names no file.
    pub facts: Option<Facts>,
}

impl Found {
    /// Returns the entry.
    pub fn place(&self) -> Option<EntryPlace>
        ensures { result ≡ self.now.place }
    {
        self.place
    }

    /// Returns the facts of the file.
    pub fn facts(&self) -> Option<Facts>
        ensures { result ≡ self.now.facts }
    {
        self.facts
    }

    /// Returns whether a selection of all files skips it: it is a directory, or one of the volume's own files, 1 to 5.
    pub fn is_passed_over(&self) -> bool
        ensures { result ≡ is_passed_over self.now.facts }
    {
        match self.facts {
            Some(facts) => facts.kind == Kind::Directory || facts.file.number <= LAST_OWN,
            None => false,
        }
    }
}

/// The number of the last of the volume's own files.
const LAST_OWN: u16 = 5;

/// Returns the files that a path selects, in the order of a listing. `unsaid` gives the defaults: the versions, and the selection of a path that
/// consists only of directories. A path that has to specify more is refused. No names in the `closed` directories are read, and the closed ones
/// that are on the way are returned as well.
pub fn find_path(
    alloc: Global,
    disk: &Disk<'_>,
    path: &str,
    unsaid: Unsaid,
    closed: &[u16],
) -> Result<(Vec<Found>, Vec<Directory>), PathFault>
    requires { on FindsFiles disk.now }
    ensures named { IfOk result (λ r. (says : Said) × Says path.now says
        × ((shut : List ℕ) → CountAsClosed closed.now r.1.items shut → on AreNamedBy disk.now shut says unsaid r.0.items)) }
    ensures met { IfOk result (λ r. AreMet closed.now [] r.1.items) }
    ensures some { IfOk result (λ r. r.0.items ≡ [] → r.1.items ≢ []) }
    ensures err { IfErr result (on IsPathFault disk.now path.now unsaid) }
{
    match parse_path(path.as_bytes()) {
        Ok(Path::File(file)) => Ok((find_file(alloc, disk, file)?, Vec::new(alloc))),
        Ok(Path::Within(folder, None)) => find_alone(alloc, disk, &folder, unsaid, closed),
        Ok(Path::Within(folder, Some(files))) => {
            find_names(alloc, disk, &folder, files, unsaid.versions, closed)
        }
        Err(bad) => Err(PathFault::Bad(bad)),
    }
}

/// The file with this ID.
fn find_file(alloc: Global, disk: &Disk<'_>, file: FileId) -> Result<Vec<Found>, PathFault>
    requires { on FindsFiles disk.now }
    ensures ok { IfOk result (λ found. on IsFileOf disk.now file found.items) }
    ensures err { IfErr result (λ fault. (fault ≡ PathFault.NoMemory)
        ⊎ ((fault ≡ PathFault.NoSuchFile) × ((facts : Known) → on AreFacts disk.now file.number facts → facts.file ≢ file))) }
{
    let Some(facts) = facts_by_id(disk, file) else {
        return Err(PathFault::NoSuchFile);
    };
    match named_by_id(alloc, file, facts) {
        Ok(found) => Ok(found),
        Err(AllocError) => Err(PathFault::NoMemory),
    }
}

/// The file of which this is known, by its ID.
fn named_by_id(alloc: Global, file: FileId, facts: Facts) -> Result<Vec<Found>, AllocError>
    ensures { IfOk result (λ found. (one : One) × (found.items ≡ one ∷ []) × (one.place ≡ None) × (one.facts ≡ Some facts)) }
{
    let mut path = String::new(alloc);
    push_id(&mut path, file)?;
    let mut all = Vec::new(alloc);
    all.push(Found {
        path,
        place: None,
        facts: Some(facts),
    })?;
    Ok(all)
}

/// Returns the files that file names select in these directories, as `find_path` returns them.
pub fn find_names(
    alloc: Global,
    disk: &Disk<'_>,
    folder: &Folder<'_>,
    files: Files<'_>,
    unsaid: Option<Versions>,
    closed: &[u16],
) -> Result<(Vec<Found>, Vec<Directory>), PathFault>
    requires { on FindsFiles disk.now }
    ensures named { IfOk result (λ r. (shut : List ℕ) → CountAsClosed closed.now r.1.items shut
        → on AreNamed disk.now shut (said_folder folder.now) (said_files files.entry) unsaid r.0.items) }
    ensures met { IfOk result (λ r. AreMet closed.now [] r.1.items) }
    ensures some { IfOk result (λ r. r.0.items ≡ [] → r.1.items ≢ []) }
    ensures err { IfErr result (on AreNotNamed disk.now (said_folder folder.now) (said_files files.entry) unsaid) }
{
    let Some(versions) = files.versions.or(unsaid) else {
        return Err(PathFault::NoVersion);
    };
    let found = match find_open(alloc, disk, folder, &Some(files), versions, closed) {
        Ok(found) => found,
        Err(AllocError) => return Err(PathFault::NoMemory),
    };
    if found.lines.is_empty() && found.closed.is_empty() {
        return Err(PathFault::Nothing);
    }
    match files_of(alloc, disk, &found.directories, &found.lines) {
        Ok(all) => Ok((all, found.closed)),
        Err(AllocError) => Err(PathFault::NoMemory),
    }
}

/// What these lines of these directories name, in their order.
fn files_of(
    alloc: Global,
    disk: &Disk<'_>,
    directories: &[Directory],
    lines: &[Line],
) -> Result<Vec<Found>, AllocError>
    requires { on FindsFiles disk.now }
    ensures { IfOk result (λ found. AreWithin directories.now lines.now → on AreLines disk.now directories.now lines.now found.items) }
{
    let mut all = Vec::new(alloc);
    for line in lines {
        add_line(alloc, disk, directories, line, &mut all)?;
    }
    Ok(all)
}

/// Adds what a line names, where its directory is one of these.
fn add_line(
    alloc: Global,
    disk: &Disk<'_>,
    directories: &[Directory],
    line: &Line,
    all: &mut Vec<Found>,
) -> Result<(), AllocError>
    requires { on FindsFiles disk.now }
    ensures { OnOk result ((directory : Holder) → slice_get directories.now line.now.directory ≡ Some directory
        → (one : One) × (all.new.items ≡ all.old.items ++ one ∷ []) × on IsEntryOf disk.now directory line.now.entry one) }
{
    let Some(directory) = directories.get(line.directory) else {
        return Ok(());
    };
    all.push(file_at(alloc, disk, directory, &line.entry)?)?;
    Ok(())
}

/// Returns the file that an entry of a directory names.
pub fn file_at(
    alloc: Global,
    disk: &Disk<'_>,
    directory: &Directory,
    entry: &Listed,
) -> Result<Found, AllocError>
    requires { on FindsFiles disk.now }
    ensures { IfOk result (on IsEntryOf disk.now directory.now entry.now) }
{
    let mut path = String::new(alloc);
    push_path(&mut path, &directory.names, entry)?;
    Ok(Found {
        path,
        place: Some(EntryPlace {
            directory: FileId {
                number: directory.number,
                sequence: sequence(disk, directory.number),
            },
            entry: *entry,
        }),
        facts: facts_by_id(disk, entry.file),
    })
}
