//! The files that a path selects if it consists only of directories.
ghost use Rattle.std.specs.Prelude.{◌≡◌, ◌≢◌, ◌++◌, ◌∷◌, ℕ, List, [], None, Option, IfErr, IfOk, MatchBool, OnOk};
ghost use Rattle.ods_paths.specs.Views.{folder as said_folder};
ghost use Rattle.ods_shell.specs.Choosing.{AreThose};
ghost use Rattle.ods_shell.specs.Named.{AreAlone, AreInside, AreNamed, AreNotNamed, AreThemselves, IsNoDirectory, IsNoneAlone, highest, master_file};
ghost use Rattle.ods_shell.specs.Ways.{AreMet, CountAsClosed};
ghost use Rattle.ods_shell.specs.declared.found.Found.{Found as One};
ghost use Rattle.ods_space.specs.Files.{FindsFiles};
ghost use Rattle.ods_space.specs.Disks.{on};

use crate::facts::Kind;
use crate::folders::Directory;
use crate::found::{Found, find_names};
use crate::led::find_led;
use crate::path_fault::PathFault;
use ods_paths::{Files, Folder, Versions};
use ods_space::Disk;
use std::alloc::{AllocError, Global};

/// The selection of a path that consists only of directories.
#[derive(Clone, Copy, Debug, PartialEq, Eq)]
pub enum Alone {
    /// None: such a path is refused.
    Refused,
    /// The files in the directories, without the directories among them.
    Files,
    /// The files of the directories themselves.
    Themselves,
}

/// The defaults for a path.
#[derive(Clone, Copy)]
pub struct Unsaid {
    /// The versions of files; `None` if a path has to specify them.
    pub versions: Option<Versions>,
    /// The selection of a path that consists only of directories.
    pub alone: Alone,
}

impl Unsaid {
    /// Returns the highest version as the default, and this selection for a path that consists only of directories.
    pub fn highest(alone: Alone) -> Unsaid
        ensures { result ≡ highest alone }
    {
        Unsaid {
            versions: Some(Versions::Highest),
            alone,
        }
    }
}

/// The name of the master directory.
const MASTER_FILE: &[u8] = b"000000";

/// Returns the files that a path selects if it consists only of directories, as `find_path` returns them.
pub(crate) fn find_alone(
    alloc: Global,
    disk: &Disk<'_>,
    folder: &Folder<'_>,
    unsaid: Unsaid,
    closed: &[u16],
) -> Result<(Vec<Found>, Vec<Directory>), PathFault>
    requires { on FindsFiles disk.now }
    ensures named { IfOk result (λ r. (shut : List ℕ) → CountAsClosed closed.now r.1.items shut
        → on AreAlone disk.now shut (said_folder folder.now) unsaid.versions unsaid.alone r.0.items) }
    ensures met { IfOk result (λ r. AreMet closed.now [] r.1.items) }
    ensures some { IfOk result (λ r. r.0.items ≡ [] → r.1.items ≢ []) }
    ensures err { IfErr result (on IsNoneAlone disk.now (said_folder folder.now) unsaid.versions unsaid.alone) }
{
    match unsaid.alone {
        Alone::Refused => Err(PathFault::NoName),
        Alone::Files => find_inside(alloc, disk, folder, unsaid.versions, closed),
        Alone::Themselves => find_themselves(alloc, disk, folder, closed),
    }
}

/// The files in these directories, but for the directories among them.
fn find_inside(
    alloc: Global,
    disk: &Disk<'_>,
    folder: &Folder<'_>,
    versions: Option<Versions>,
    closed: &[u16],
) -> Result<(Vec<Found>, Vec<Directory>), PathFault>
    requires { on FindsFiles disk.now }
    ensures named { IfOk result (λ r. (shut : List ℕ) → CountAsClosed closed.now r.1.items shut
        → on AreInside disk.now shut (said_folder folder.now) versions r.0.items) }
    ensures met { IfOk result (λ r. AreMet closed.now [] r.1.items) }
    ensures some { IfOk result (λ r. r.0.items ≡ [] → r.1.items ≢ []) }
    ensures err { IfErr result (on IsNoneAlone disk.now (said_folder folder.now) versions Alone.Files) }
{
    let every = Files {
        name: b"*",
        kind: b"*",
        versions: None,
    };
    let (all, met) = find_names(alloc, disk, folder, every, versions, closed)?;
    match without_directories(alloc, all) {
        Ok(files) => some_found(files, met),
        Err(AllocError) => Err(PathFault::NoMemory),
    }
}

/// Of these those that are no directories, in their order.
fn without_directories(alloc: Global, all: Vec<Found>) -> Result<Vec<Found>, AllocError>
    ensures { IfOk result (λ files. AreThose IsNoDirectory all.items files.items) }
{
    let mut files = Vec::new(alloc);
    for found in all {
        add_file(found, &mut files)?;
    }
    Ok(files)
}

/// Adds this, where it is no directory.
fn add_file(found: Found, files: &mut Vec<Found>) -> Result<(), AllocError>
    ensures { OnOk result ((before : List One) → AreThose IsNoDirectory before files.old.items → AreThose IsNoDirectory (before ++ found ∷ []) files.new.items) }
{
    if is_no_directory(&found) {
        files.push(found)?;
    }
    Ok(())
}

/// Whether what was found is no directory.
fn is_no_directory(found: &Found) -> bool
    ensures { MatchBool result (IsNoDirectory found.now) (¬ IsNoDirectory found.now) }
{
    match found.facts() {
        Some(facts) => facts.kind != Kind::Directory,
        None => true,
    }
}

/// The files of these directories themselves; those of all below are no one path's.
fn find_themselves(
    alloc: Global,
    disk: &Disk<'_>,
    folder: &Folder<'_>,
    closed: &[u16],
) -> Result<(Vec<Found>, Vec<Directory>), PathFault>
    requires { on FindsFiles disk.now }
    ensures named { IfOk result (λ r. (shut : List ℕ) → CountAsClosed closed.now r.1.items shut
        → on AreThemselves disk.now shut (said_folder folder.now) r.0.items) }
    ensures met { IfOk result (λ r. AreMet closed.now [] r.1.items) }
    ensures some { IfOk result (λ r. r.0.items ≡ [] → r.1.items ≢ []) }
    ensures err { (versions : Option Versions) → IfErr result (on IsNoneAlone disk.now (said_folder folder.now) versions Alone.Themselves) }
{
    if folder.below {
        return Err(PathFault::NoName);
    }
    let Some((before, step)) = folder.steps.split_last() else {
        return find_master(alloc, disk, folder, closed);
    };
    match find_led(alloc, disk, &before, &step, closed) {
        Ok((all, met)) => some_found(all, met),
        Err(AllocError) => Err(PathFault::NoMemory),
    }
}

/// The file of the master directory, by its name there.
fn find_master(
    alloc: Global,
    disk: &Disk<'_>,
    folder: &Folder<'_>,
    closed: &[u16],
) -> Result<(Vec<Found>, Vec<Directory>), PathFault>
    requires { on FindsFiles disk.now }
    ensures named { IfOk result (λ r. (shut : List ℕ) → CountAsClosed closed.now r.1.items shut
        → on AreNamed disk.now shut (said_folder folder.now) master_file None r.0.items) }
    ensures met { IfOk result (λ r. AreMet closed.now [] r.1.items) }
    ensures some { IfOk result (λ r. r.0.items ≡ [] → r.1.items ≢ []) }
    ensures err { IfErr result (on AreNotNamed disk.now (said_folder folder.now) master_file None) }
{
    let files = Files {
        name: MASTER_FILE,
        kind: b"DIR",
        versions: Some(Versions::Highest),
    };
    find_names(alloc, disk, folder, files, None, closed)
}

/// What was found, and the closed directories that were met; unless neither is any.
fn some_found(
    all: Vec<Found>,
    met: Vec<Directory>,
) -> Result<(Vec<Found>, Vec<Directory>), PathFault>
    ensures given { IfOk result (λ r. (r.0 ≡ all) × (r.1 ≡ met)) }
    ensures some { IfOk result (λ r. r.0.items ≡ [] → r.1.items ≢ []) }
    ensures err { IfErr result (λ fault. (fault ≡ PathFault.Nothing) × (all.items ≡ []) × (met.items ≡ [])) }
{
    if all.is_empty() && met.is_empty() {
        return Err(PathFault::Nothing);
    }
    Ok((all, met))
}
