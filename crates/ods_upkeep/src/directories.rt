//! `mkdir` and `rmdir`: create and remove directories.
ghost use Rattle.std.specs.Prelude.{◌≡◌, ◌≢◌, ◌↔◌, false, [], codes, IsTrue, Some, None, IfOk, IfErr, MatchBool, MatchResult, OnOk};
ghost use Rattle.std.specs.List.{All};
ghost use Rattle.ods_filing.specs.{Filed.IsDone, Led.IsLed};
ghost use Rattle.ods_paths.specs.{Patterns.capitals, Views.folder as said_folder, Views.steps as said_steps};
ghost use Rattle.ods_shell.specs.Named.{AreNamed, AreNotNamed};
ghost use Rattle.ods_upkeep.specs.{Emptied.AreEmptied, Emptied.IsEmptied, Emptied.IsEmptyDirectory, Emptied.IsSought, Kinds.MakesDirectories, Kinds.Removes, Made.AreMade, Made.IsMade, Made.IsNewPlace, Made.blocks_for, Made.directories_named, Meant.IsBelowAnother, Refused.IsRefusedBy, Unemptied.AreNotEmptied, Unemptied.IsNotEmptied, Unemptied.IsNotEmpty, Unemptied.IsNotSought, Unemptied.IsOneNotEmpty, Unmade.AreNotMade, Unmade.IsNoNewPlace, Unmade.IsNotMade, Unmeant.MeansNone};

use crate::Removal;
use crate::asking::{enter, make};
use crate::failure::{Failure, Why, of_path};
use crate::hidden::hides_entries;
use crate::meant::{Meant, read_meant};
use crate::names::{Names, is_directory_file};
use crate::own_files::{LAST_OWN, MASTER};
use crate::owners::owner_of;
use crate::removing::remove_all;
use crate::targets::{name_of, the_directory};
use ods_base::{FileId, Name, Uic};
use ods_filing::Filing;
use ods_mount::Mounted;
use ods_paths::{Files, Steps, Versions, has_wildcard};
use ods_request::{Answer, Refusal, Request, Stamp};
use ods_shell::mounted::{find_names, lines_of};
use ods_shell::{Found, Kind, PathFault};
use ods_text::is_text;
use std::alloc::Global;

/// Creates directories, each with room for `names` names, or one block. They are entered under version 1 in order, so a later one may be below an
/// earlier one. The owner is `owner` if given, otherwise the group and member in the name, otherwise the user. The user enters the directory.
pub fn make_directories(
    alloc: Global,
    filing: &mut Filing,
    stamp: Stamp,
    paths: &[&str],
    names: u32,
    owner: Option<Uic>,
) -> Result<(), Failure>
    // Each directory that is meant is new, and is made by Create of its owner and Enter of the user. Nothing else is done.
    ensures made { OnOk result (AreMade owner names stamp paths.now filing.old filing.new) }
    // Where the user himself is said, it is what his Create and Enter leave.
    ensures own { owner ≡ Some filing.old.user → OnOk result (IsLed MakesDirectories filing.old filing.new) }
    // Refused, it is so for a reason that holds, and of the path that the failure says. Those before it are made.
    ensures refused { IfErr result (AreNotMade owner names stamp paths.now filing.old filing.new) }
{
    for path in paths {
        if let Err(why) = make_directory(alloc, filing, stamp, path, names, owner) {
            return Err(of_path(alloc, path, why));
        }
    }
    Ok(())
}

/// Makes a directory.
fn make_directory(
    alloc: Global,
    filing: &mut Filing,
    stamp: Stamp,
    path: &str,
    names: u32,
    owner: Option<Uic>,
) -> Result<(), Why>
    ensures { MatchResult result (λ _. IsMade owner names stamp path.now filing.old filing.new) (IsNotMade owner names stamp path.now filing.old filing.new) }
{
    let (dir, name) = new_place(alloc, filing.mounted(), path)?;
    let user = filing.user();
    filing.set_user(owner_of(owner, user, dir, &name));
    let made = create(filing, name, names, stamp);
    filing.set_user(user);
    enter(filing, dir, name, Some(1), made?)
}

/// Creates the file of a directory with room for `names` names, or one block.
pub(crate) fn create(
    filing: &mut Filing,
    name: Name,
    names: u32,
    stamp: Stamp,
) -> Result<FileId, Why>
    ensures { MatchResult result (λ file. IsDone filing.old (Request.Create name 1 (blocks_for names) stamp) (Answer.Created file) filing.new)
        (λ why. IsRefusedBy filing.old (Request.Create name 1 (blocks_for names) stamp) why × (filing.new ≡ filing.old)) }
{
    let _ = filing.disk();
    let made = make(
        filing,
        Request::Create {
            name,
            version: 1,
            blocks: blocks_for(names),
            stamp,
        },
    )?;
    match made {
        Answer::Created(file) => Ok(file),
        // Create is answered by the new file.
        _ => unreachable!(),
    }
}

/// How many blocks a directory has with room for so many names.
fn blocks_for(names: u32) -> u32
    ensures { result ≡ blocks_for names }
{
    let blocks = names.div_ceil(32);
    if blocks == 0 {
        return 1;
    }
    blocks
}

/// Returns whether the path of a new directory is below another directory than the master directory; RSX does not know such directories. Fails if the
/// path specifies no directory.
pub fn is_below_another(alloc: Global, path: &str) -> Result<bool, Why>
    ensures { MatchResult result (λ below. MatchBool below (IsBelowAnother path.now) (¬ IsBelowAnother path.now)) (MeansNone path.now) }
{
    let meant = read_meant(alloc, path.as_bytes())?;
    Ok(has_steps(&meant.folder.steps))
}

/// Whether there is a step, and not the master directory alone.
fn has_steps(steps: &Steps<'_>) -> bool
    ensures { MatchBool result (said_steps steps.now ≢ []) (said_steps steps.now ≡ []) }
{
    match steps.split_first() {
        Some(_) => true,
        None => false,
    }
}

/// Where a directory is made: the directory above it, and its name, which is there in no version.
fn new_place(alloc: Global, volume: &Mounted, path: &str) -> Result<(FileId, Name), Why>
    ensures { MatchResult result (λ place. IsNewPlace volume.now.image volume.now.layout path.now place.0 place.1) (IsNoNewPlace volume.now.image volume.now.layout path.now) }
{
    let meant = read_meant(alloc, path.as_bytes())?;
    if has_wildcard(&meant.name) {
        return Err(Why::Several);
    }
    let dir = the_directory(alloc, volume, &meant.folder)?;
    let name = name_of(alloc, &meant.name, b"DIR")?;
    if is_master(dir, &meant.name) {
        return Err(Why::Request(Refusal::Reserved));
    }
    match find_meant(alloc, volume, &meant, Versions::Every) {
        Ok(_) => return Err(Why::DirectoryThere),
        Err(PathFault::Nothing) => {}
        Err(fault) => return Err(fault.into()),
    }
    if hides_entries(alloc, volume, dir.number)? {
        return Err(Why::Hidden);
    }
    Ok((dir, name))
}

/// Whether the name in this directory is that of the master directory in itself.
fn is_master(dir: FileId, name: &[u8]) -> bool
    ensures { IsTrue result ↔ ((dir.number ≡ 4) × (capitals name.now ≡ codes "000000")) }
{
    dir.number == MASTER && is_text(name, b"000000")
}

/// The entries that are meant, in these versions.
fn find_meant(
    alloc: Global,
    volume: &Mounted,
    meant: &Meant<'_>,
    versions: Versions,
) -> Result<Vec<Found>, PathFault>
    ensures named { IfOk result (λ found. AreNamed volume.now.image volume.now.layout [] (said_folder meant.now.folder)
        (directories_named (capitals meant.now.name.items) versions) None found.items) }
    ensures some { IfOk result (λ found. found.items ≢ []) }
    ensures err { IfErr result (AreNotNamed volume.now.image volume.now.layout (said_folder meant.now.folder)
        (directories_named (capitals meant.now.name.items) versions) None) }
{
    let files = Files {
        name: &meant.name,
        kind: b"DIR",
        versions: Some(versions),
    };
    let (found, _) = find_names(alloc, volume, &meant.folder, files, None, &[])?;
    Ok(found)
}

/// Removes empty directories, in order: a later one may have held an earlier one.
pub fn remove_directories(alloc: Global, filing: &mut Filing, paths: &[&str]) -> Result<(), Failure>
    // Refused or not, it is what Remove and Delete leave.
    ensures led { IsLed (Removes false) filing.old filing.new }
    // Done, each directory that is meant was empty, and its entry has gone, and it with its last entry. Nothing else was done.
    ensures done { OnOk result (AreEmptied paths.now filing.old filing.new) }
    // Refused, it is so for a reason that holds, and of the path that the failure says. Those before it have gone.
    ensures refused { IfErr result (AreNotEmptied paths.now filing.old filing.new) }
{
    for path in paths {
        remove_path(alloc, filing, path)?;
    }
    Ok(())
}

/// Removes the directories of a path.
fn remove_path(alloc: Global, filing: &mut Filing, path: &str) -> Result<(), Failure>
    ensures led { IsLed (Removes false) filing.old filing.new }
    ensures done { OnOk result (IsEmptied path.now filing.old filing.new) }
    ensures refused { IfErr result (IsNotEmptied path.now filing.old filing.new) }
{
    let all = match find_removed(alloc, filing.mounted(), path) {
        Ok(all) => all,
        Err(why) => return Err(of_path(alloc, path, why)),
    };
    let mut names = match Names::of(alloc, filing.mounted()) {
        Ok(names) => names,
        Err(error) => return Err(of_path(alloc, path, error.into())),
    };
    check_all_empty(alloc, filing.mounted(), &all)?;
    let removal = Removal {
        entry_alone: false,
        newest: false,
    };
    remove_all(alloc, filing, &all, &mut names, removal)
}

/// The entries that a path of `rmdir` means.
fn find_removed(alloc: Global, volume: &Mounted, path: &str) -> Result<Vec<Found>, Why>
    ensures { MatchResult result (λ found. IsSought volume.now.image volume.now.layout path.now found.items) (IsNotSought volume.now.image volume.now.layout path.now) }
{
    let meant = read_meant(alloc, path.as_bytes())?;
    let found = find_meant(alloc, volume, &meant, Versions::Highest)?;
    Ok(found)
}

/// Checks that these are empty directories that may go.
fn check_all_empty(alloc: Global, volume: &Mounted, all: &[Found]) -> Result<(), Failure>
    ensures { MatchResult result (λ _. All (IsEmptyDirectory volume.now.image volume.now.layout) all.now) (IsOneNotEmpty volume.now.image volume.now.layout all.now) }
{
    for found in all {
        if let Err(why) = check_empty(alloc, volume, found) {
            return Err(of_path(alloc, &found.path, why));
        }
    }
    Ok(())
}

/// Why this is no empty directory that may go.
fn check_empty(alloc: Global, volume: &Mounted, found: &Found) -> Result<(), Why>
    ensures { MatchResult result (λ _. IsEmptyDirectory volume.now.image volume.now.layout found.now) (IsNotEmpty volume.now.image volume.now.layout found.now) }
{
    let Some(facts) = found.facts() else {
        return Err(Why::Path(PathFault::NoSuchFile));
    };
    if facts.kind != Kind::Directory || !is_directory_file(volume, facts.file.number) {
        return Err(Why::Request(Refusal::NotADirectory));
    }
    if facts.file.number <= LAST_OWN {
        return Err(Why::Request(Refusal::Reserved));
    }
    let lines = lines_of(alloc, volume, facts.file.number)?;
    if !lines.is_empty() {
        return Err(Why::Request(Refusal::NotEmpty));
    }
    if hides_entries(alloc, volume, facts.file.number)? {
        return Err(Why::Hidden);
    }
    Ok(())
}
