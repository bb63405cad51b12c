//! `cp --from -r`: copies the whole files in a directory of another volume and below it into a directory of this one, and below it.
ghost use Rattle.std.specs.Prelude.{◌≡◌, ◌≢◌, ◌∷◌, ◌++◌, ◌⊎◌, [], List, None, drop, true, IfErr, IfOk, MatchResult, OnOk, if◌then◌else◌};
ghost use Rattle.ods_paths.specs.{Paths.Within, Views.folder as said_folder, Views.said, Views.said_files as said_some};
ghost use Rattle.ods_space.specs.Files.{FindsFiles};
ghost use Rattle.ods_space.specs.Disks.{on};
ghost use Rattle.ods_shell.specs.Named.{IsEntryOf};
ghost use Rattle.ods_shell.specs.Passed.{is_passed_over};
ghost use Rattle.ods_shell.specs.Ways.{AreMeant};
ghost use Rattle.ods_shell.specs.declared.found.Found.{Found as One};
ghost use Rattle.ods_base.specs.Name.{directory_type};
ghost use Rattle.ods_filing.specs.Filed.{Filed};
ghost use Rattle.ods_upkeep.specs.CopiedTree.{AreDirectoriesCopied, AreFilesIn, IsArrived, IsDirectoryBelow, IsDirectoryCopied, IsDueTo, IsMadeIn, IsNamedIn, IsPlaceBelow, IsReachedBelow, IsTree, IsTreeCopied, IsTreeSaid, IsWayTo, date_of as dated, depth_of as depth_shown};
ghost use Rattle.ods_upkeep.specs.Given.{GetTheirs};
ghost use Rattle.ods_upkeep.specs.declared.giving.Access.{Access as Given};
ghost use Rattle.ods_upkeep.specs.Hidden.{HidesEntries};
ghost use Rattle.ods_upkeep.specs.UncopiedTree.{AreNoneBelow, IsDirectoryUncopied, IsNoDirectoryBelow, IsNoPlaceBelow, IsNoTree, IsNoTreeSaid, IsNoWayTo, IsNotArrived, IsNotReachedBelow, IsShut, IsTreeUncopied, IsUncopiedBelow, StopsCopyingTree};
ghost use Rattle.ods_upkeep.specs.Unmade.{IsUnmade};

use crate::asked::CopyFrom;
use crate::asking::enter;
use crate::copying_from::{copy_each, owner_carried, stamp_for};
use crate::directories::create;
use crate::failure::{Failure, Why, of_path};
use crate::giving::{Access, give_access};
use crate::hidden::hides_entries;
use crate::looking::look_up;
use crate::owners::owner_of;
use crate::target::Target;
use crate::targets::target_of;
use ods_amend::may_give;
use ods_base::{DIRECTORY_TYPE, FileId, Listed, Name, Pick, Uic};
use ods_filing::Filing;
use ods_paths::{Files, Folder, Path, Versions, parse_path};
use ods_request::{Refusal, Stamp};
use ods_shell::{
    Directory, Facts, Found, FoundLines, PathFault, facts_of, file_at, find_open, lines_of,
};
use ods_space::Disk;
use std::alloc::{AllocError, Global};

/// Copies the files in the directories that a path selects on another volume, and below them, to a directory of this volume and below it. Each
/// directory below has one of its name here. It is created if it does not exist, with the date and the protection of that directory, and on request
/// its owner. Directories and the other volume's own files are not copied as files.
pub fn copy_tree_from(
    alloc: Global,
    filing: &mut Filing,
    other: &Disk<'_>,
    stamp: Stamp,
    how: CopyFrom,
    path: &str,
    to: &str,
) -> Result<(), Failure>
    requires { on FindsFiles other.now }
    // Done, each file of the tree is copied into the directory to which the same names lead here. Then each directory that was made received its
    // protection, and its owner if owners are kept. Nothing else was done.
    ensures done { OnOk result (on IsTreeCopied other.now how stamp path.now to.now filing.old filing.new) }
    // Refused, it is so for a reason that holds.
    ensures refused { IfErr result (on IsTreeUncopied other.now how stamp path.now to.now filing.old filing.new) }
{
    let tree = match tree_of(alloc, other, path) {
        Ok(tree) => tree,
        Err(why) => return Err(of_path(alloc, path, why)),
    };
    let target = target_of(alloc, filing.mounted(), 2, to)?;
    let depth = depth_of(&tree.directories);
    copy_and_give(
        alloc,
        filing,
        other,
        &how,
        stamp,
        path,
        &tree.directories,
        depth,
        target.directory,
    )
}

/// The directories that a path says, with all below them.
fn tree_of(alloc: Global, other: &Disk<'_>, path: &str) -> Result<FoundLines, Why>
    ensures { MatchResult result (λ tree. on IsTree other.now path.now tree.directories.items) (on IsNoTree other.now path.now) }
{
    match parse_path(path.as_bytes()) {
        Ok(says) => tree_said(alloc, other, &says),
        Err(bad) => Err(Why::Path(PathFault::Bad(bad))),
    }
}

/// The same of what a path says.
fn tree_said(alloc: Global, other: &Disk<'_>, path: &Path<'_>) -> Result<FoundLines, Why>
    ensures { MatchResult result (λ tree. on IsTreeSaid other.now (said path.now) tree.directories.items) (on IsNoTreeSaid other.now (said path.now)) }
{
    match path {
        Path::File(_) => Err(Why::Request(Refusal::NotADirectory)),
        Path::Within(folder, files) => tree_within(alloc, other, folder, files),
    }
}

/// The same of a folder with these files, or with none.
fn tree_within(
    alloc: Global,
    other: &Disk<'_>,
    folder: &Folder<'_>,
    files: &Option<Files<'_>>,
) -> Result<FoundLines, Why>
    ensures { MatchResult result (λ tree. on IsTreeSaid other.now (Within (said_folder folder.now) (said_some files.now)) tree.directories.items)
        (on IsNoTreeSaid other.now (Within (said_folder folder.now) (said_some files.now))) }
{
    match files {
        None => find_below(alloc, other, folder),
        Some(_) => Err(Why::Request(Refusal::NotADirectory)),
    }
}

/// The directories of a folder, with all below them.
fn find_below(alloc: Global, other: &Disk<'_>, folder: &Folder<'_>) -> Result<FoundLines, Why>
    ensures { MatchResult result (λ tree. on AreMeant other.now [] (record (said_folder folder.now) { below = true }) tree.directories.items)
        (on AreNoneBelow other.now (said_folder folder.now)) }
{
    let below = Folder {
        steps: folder.steps,
        below: true,
    };
    let tree = find_open(alloc, other, &below, &None, Versions::Every, &[])?;
    if tree.directories.is_empty() {
        return Err(Why::Path(PathFault::Nothing));
    }
    Ok(tree)
}

/// How many names lead to the first of these.
fn depth_of(directories: &[Directory]) -> usize
    ensures { result ≡ depth_shown directories.now }
{
    match directories.split_first() {
        Some((first, _)) => first.names.len(),
        None => 0,
    }
}

/// Copies the files of these directories, of whose names so many lead to the first. Then it gives the directories that were made what they are to
/// receive.
fn copy_and_give(
    alloc: Global,
    filing: &mut Filing,
    other: &Disk<'_>,
    how: &CopyFrom,
    stamp: Stamp,
    path: &str,
    directories: &[Directory],
    depth: usize,
    dir: FileId,
) -> Result<(), Failure>
    requires { on FindsFiles other.now }
    ensures done { OnOk result ((due : List Given) × ((filled : Filed)
        × on AreDirectoriesCopied other.now how.now stamp path.now dir depth directories.now due filing.old filled × GetTheirs due filled filing.new)) }
    ensures refused { IfErr result (on IsUncopiedBelow other.now how.now stamp path.now dir depth directories.now filing.old filing.new) }
{
    let mut due = Vec::new(alloc);
    copy_directories(
        alloc,
        filing,
        other,
        how,
        stamp,
        path,
        directories,
        depth,
        dir,
        &mut due,
    )?;
    give_access(alloc, filing, due.as_slice())
}

/// Copies the files of these directories, one after another, of whose names so many lead to the first. What is to be given to directories is added to
/// `due`.
fn copy_directories(
    alloc: Global,
    filing: &mut Filing,
    other: &Disk<'_>,
    how: &CopyFrom,
    stamp: Stamp,
    path: &str,
    directories: &[Directory],
    depth: usize,
    dir: FileId,
    due: &mut Vec<Access>,
) -> Result<(), Failure>
    requires { on FindsFiles other.now }
    ensures done { OnOk result ((more : List Given) × (due.new.items ≡ due.old.items ++ more)
        × on AreDirectoriesCopied other.now how.now stamp path.now dir depth directories.now more filing.old filing.new) }
    ensures refused { IfErr result (on StopsCopyingTree other.now how.now stamp path.now dir depth directories.now filing.old filing.new) }
{
    for directory in directories {
        copy_directory(
            alloc, filing, other, how, stamp, path, directory, depth, dir, due,
        )?;
    }
    Ok(())
}

/// Copies the files of a directory into the one to which its names behind the first ones lead.
fn copy_directory(
    alloc: Global,
    filing: &mut Filing,
    other: &Disk<'_>,
    how: &CopyFrom,
    stamp: Stamp,
    path: &str,
    directory: &Directory,
    depth: usize,
    dir: FileId,
    due: &mut Vec<Access>,
) -> Result<(), Failure>
    requires { on FindsFiles other.now }
    ensures done { OnOk result ((more : List Given) × (due.new.items ≡ due.old.items ++ more)
        × on IsDirectoryCopied other.now how.now stamp path.now dir depth directory.now more filing.old filing.new) }
    ensures refused { IfErr result (on IsDirectoryUncopied other.now how.now stamp path.now dir depth directory.now filing.old filing.new) }
{
    let names = names_behind(&directory.names, depth);
    let place = arrive(
        alloc,
        filing,
        other,
        how,
        stamp,
        path,
        directory.number,
        dir,
        names,
        due,
    )?;
    let files = match files_in(alloc, other, directory) {
        Ok(files) => files,
        Err(error) => return Err(of_path(alloc, "", error.into())),
    };
    let target = Target {
        directory: place,
        name: None,
        version: None,
    };
    copy_each(alloc, filing, other, how, &files, &target, stamp)
}

/// Returns the directory for one of the other volume, which these names reach from this one. What is to be given to it, if it is made, is added to
/// `due`.
fn arrive(
    alloc: Global,
    filing: &mut Filing,
    other: &Disk<'_>,
    how: &CopyFrom,
    stamp: Stamp,
    path: &str,
    number: u16,
    dir: FileId,
    names: &[Name],
    due: &mut Vec<Access>,
) -> Result<FileId, Failure>
    requires { on FindsFiles other.now }
    ensures done { IfOk result (λ place. (more : List Given) × (due.new.items ≡ due.old.items ++ more)
        × on IsArrived other.now how.now stamp path.now number dir names.now more filing.old place filing.new) }
    ensures refused { IfErr result (on IsNotArrived other.now stamp path.now number dir names.now filing.old filing.new) }
{
    let facts = facts_of(other, number);
    let date = date_of(&facts, stamp);
    let (place, owner) = match way_to(alloc, filing, stamp, date, dir, names) {
        Ok(reached) => reached,
        Err(why) => return Err(of_path(alloc, path, why)),
    };
    match push_due(alloc, due, how, filing.user(), path, &facts, owner, place) {
        Ok(()) => Ok(place),
        Err(error) => Err(of_path(alloc, "", error.into())),
    }
}

/// The date of creation of a file of which this is known, or else this stamp.
fn date_of(facts: &Option<Facts>, stamp: Stamp) -> Stamp
    ensures { result ≡ dated facts.now stamp }
{
    match facts {
        Some(facts) => stamp_for(facts, stamp),
        None => stamp,
    }
}

/// Adds what is to be given to a directory with this original, if it was made for an owner to whose files the user may give something.
fn push_due(
    alloc: Global,
    due: &mut Vec<Access>,
    how: &CopyFrom,
    user: Uic,
    path: &str,
    facts: &Option<Facts>,
    owner: Option<Uic>,
    file: FileId,
) -> Result<(), AllocError>
    ensures { OnOk result ((more : List Given) × (due.new.items ≡ due.old.items ++ more) × IsDueTo how.now user path.now facts.now owner file more) }
{
    let Some(facts) = facts else {
        return Ok(());
    };
    let Some(owner) = owner else {
        return Ok(());
    };
    if !may_give(&user, &owner) {
        return Ok(());
    }
    let access = Access {
        path: String::from_str(alloc, path)?,
        file,
        owner: owner_carried(how.owners, user, facts.owner),
        protection: Some(facts.protection),
    };
    due.push(access)?;
    Ok(())
}

/// The directory that these names reach from this one, and its owner if it is made: the last of them at this date, the others at the time of the run.
fn way_to(
    alloc: Global,
    filing: &mut Filing,
    run: Stamp,
    date: Stamp,
    dir: FileId,
    names: &[Name],
) -> Result<(FileId, Option<Uic>), Why>
    ensures { MatchResult result (λ r. IsWayTo run date dir names.now r.1 filing.old r.0 filing.new) (IsNoWayTo run date dir names.now filing.old filing.new) }
{
    let Some((last, before)) = names.split_last() else {
        return Ok((dir, None));
    };
    match place_below(alloc, filing, run, dir, before) {
        Ok(up) => reach_below(alloc, filing, date, up, *last),
        Err(why) => Err(why),
    }
}

/// The directory of this name in this one, which is made where it is not there. Then its owner is returned too.
fn reach_below(
    alloc: Global,
    filing: &mut Filing,
    stamp: Stamp,
    dir: FileId,
    name: Name,
) -> Result<(FileId, Option<Uic>), Why>
    ensures { MatchResult result (λ r. IsReachedBelow stamp dir name r.1 filing.old r.0 filing.new) (IsNotReachedBelow stamp dir name filing.old filing.new) }
{
    match look_up(filing, dir, name, Pick::Highest) {
        Some((file, _)) => match open_below(alloc, filing, file) {
            Ok(place) => Ok((place, None)),
            Err(why) => Err(why),
        },
        None => make_named(filing, stamp, dir, name),
    }
}

/// Makes a directory of this name in this one, and returns its owner too. Only a name of the type DIR makes one.
fn make_named(
    filing: &mut Filing,
    stamp: Stamp,
    dir: FileId,
    name: Name,
) -> Result<(FileId, Option<Uic>), Why>
    ensures { MatchResult result (λ r. IsNamedIn stamp dir name r.1 filing.old r.0 filing.new)
        (λ why. IsUnmade None 0 stamp dir name filing.old filing.new why ⊎ ((why ≡ Why.Request Refusal.NotADirectory) × (name.ext ≢ directory_type) × (filing.new ≡ filing.old))) }
{
    if name.ext() != DIRECTORY_TYPE {
        return Err(Why::Request(Refusal::NotADirectory));
    }
    let owner = owner_of(None, filing.user(), dir, &name);
    match make_below(filing, stamp, dir, name) {
        Ok(file) => Ok((file, Some(owner))),
        Err(why) => Err(why),
    }
}

/// These names behind so many.
#[tactic(auto, using(crate::proofs::CopiedTrees::none_behind, crate::proofs::CopiedTrees::all_behind))]
fn names_behind(names: &[Name], depth: usize) -> &[Name]
    ensures { result.now ≡ drop depth names.now }
{
    if names.len() < depth {
        return &[];
    }
    &names[depth..]
}

/// Returns the directory that these names reach from this one. Directories that do not exist are created.
pub(crate) fn place_below(
    alloc: Global,
    filing: &mut Filing,
    stamp: Stamp,
    dir: FileId,
    names: &[Name],
) -> Result<FileId, Why>
    ensures placed { IfOk result (λ place. IsPlaceBelow stamp dir names.now filing.old place filing.new) }
    ensures refused { IfErr result (IsNoPlaceBelow stamp dir names.now filing.old filing.new) }
{
    let mut place = dir;
    for name in names {
        let next = directory_below(alloc, filing, stamp, place, *name)?;
        place = next;
    }
    Ok(place)
}

/// The directory of this name in this one, which is made where it is not there.
fn directory_below(
    alloc: Global,
    filing: &mut Filing,
    stamp: Stamp,
    dir: FileId,
    name: Name,
) -> Result<FileId, Why>
    ensures { MatchResult result (λ file. IsDirectoryBelow stamp dir name filing.old file filing.new) (IsNoDirectoryBelow stamp dir name filing.old filing.new) }
{
    match look_up(filing, dir, name, Pick::Highest) {
        Some((file, _)) => open_below(alloc, filing, file),
        None => make_below(filing, stamp, dir, name),
    }
}

/// A directory that was found, where it hides no entries.
fn open_below(alloc: Global, filing: &Filing, file: FileId) -> Result<FileId, Why>
    ensures { MatchResult result (λ found. (found ≡ file) × ¬ HidesEntries filing.now.image filing.now.layout file.number) (IsShut filing.now file) }
{
    if hides_entries(alloc, filing.mounted(), file.number)? {
        return Err(Why::Hidden);
    }
    Ok(file)
}

/// Makes a directory of this name in this one.
fn make_below(filing: &mut Filing, stamp: Stamp, dir: FileId, name: Name) -> Result<FileId, Why>
    ensures { MatchResult result (λ file. IsMadeIn stamp dir name filing.old file filing.new) (IsUnmade None 0 stamp dir name filing.old filing.new) }
{
    let user = filing.user();
    filing.set_user(owner_of(None, user, dir, &name));
    let made = create(filing, name, 0, stamp);
    filing.set_user(user);
    let file = made?;
    enter(filing, dir, name, Some(1), file)?;
    Ok(file)
}

/// The files of a directory that are copied.
fn files_in(
    alloc: Global,
    other: &Disk<'_>,
    directory: &Directory,
) -> Result<Vec<Found>, AllocError>
    requires { on FindsFiles other.now }
    ensures { IfOk result (λ files. on AreFilesIn other.now directory.now files.items) }
{
    let entries = lines_of(alloc, other, directory.number)?;
    let mut files = Vec::new(alloc);
    for entry in &entries {
        add_file(alloc, other, directory, entry, &mut files)?;
    }
    Ok(files)
}

/// Adds the file of an entry, where it is not passed over.
fn add_file(
    alloc: Global,
    other: &Disk<'_>,
    directory: &Directory,
    entry: &Listed,
    files: &mut Vec<Found>,
) -> Result<(), AllocError>
    requires { on FindsFiles other.now }
    ensures { OnOk result ((found : One) × on IsEntryOf other.now directory.now entry.now found
        × (files.new.items ≡ (if is_passed_over found.facts then files.old.items else files.old.items ++ found ∷ []))) }
{
    let found = file_at(alloc, other, directory, entry)?;
    if !found.is_passed_over() {
        files.push(found)?;
    }
    Ok(())
}
