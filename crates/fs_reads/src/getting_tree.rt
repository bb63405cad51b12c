//! `get -r`: the files in a directory and below it, in host folders that are named like the directories.
ghost use Rattle.std.specs.Prelude.{◌≡◌, ◌⊎◌, ◌∷◌, ◌++◌, ℕ, List, Option, [], IfErr, IfOk, OnOk, if◌then◌else◌, string_bytes, true};
ghost use Rattle.std.specs.Borrow.{Bor};
ghost use Rattle.std.specs.List.{All};
ghost use Rattle.fs_reads.specs.{Ends.StopsWith, Ends.may_name, Gets.AreSaid, Targets.IsWritten, Targets.StayTaken, TreesGot.AreFilesIn, TreesGot.IsDepthOf, TreesGot.IsDirectoryGot, TreesGot.IsOwnFolder, TreesGot.IsSaidAlone, TreesGot.IsTreeGot, TreesGot.host_folder, TreesGot.target_folder};
ghost use Rattle.fs_reads.specs.declared.stop.Stop.{Stop as End};
ghost use Rattle.ods_paths.specs.Views.{folder as said_folder};
ghost use Rattle.ods_shell.specs.{Contents.IsGot, Named.IsEntryOf, Passed.is_passed_over, Ways.AreMeant, Ways.CountAsClosed};
ghost use Rattle.ods_shell.specs.declared.folders.Directory.{Directory as Holder};
ghost use Rattle.ods_shell.specs.declared.found.Found.{Found as One};
ghost use Rattle.ods_shell.specs.declared.status.Status.{Status as Code};
ghost use Rattle.ods_space.specs.Files.{FindsFiles};
ghost use Rattle.ods_space.specs.Disks.{on};

use crate::closed::{closed_to, say_closed};
use crate::getting::{Destination, How, get_each, is_folder, split_words};
use crate::printing::Reader;
use crate::progress::Progress;
use crate::rescue_tree::{folder_text, name_below};
use crate::stop::{Stop, WordFault, say_about, stop_about};
use crate::targets::Targets;
use fs_host::{HostFault, HostZone};
use fs_words::Words;
use ods_base::{Listed, Name};
use ods_paths::{Folder, Path, Versions, parse_path};
use ods_shell::{
    Directory, Found, PathFault, Status, Wanted, file_at, find_open, lines_of, push_small,
};
use ods_space::Disk;
use std::alloc::{AllocError, Global};
use std::collections::BTreeSet;
use std::fs;
use std::fs::File;
use std::rt::Files;
use std::time::Clock;

/// `get -r`: extracts the files in the one directory that the path specifies, and below it. The target is a host folder, which is created if it does
/// not exist. Each directory below has a folder in it. All versions of a name are extracted. With a zone, each host file receives the creation date
/// of its file.
pub(crate) fn get_tree<
    'a,
    R: Files<File = File> + Clock + AllocGlobal + Print + Eprint,
    T: Targets,
>(
    rt: &R,
    targets: &mut T,
    disk: &Disk<'_>,
    words: &Words<'a>,
    said: Option<&'a str>,
    wanted: Wanted,
    zone: Option<&HostZone>,
    progress: &mut Progress,
) -> Result<Status, Stop<'a>>
    requires { on FindsFiles disk.now }
    ensures status { IfOk result (λ s. may_name s ≡ true) }
    ensures done { IfOk result (λ s. s ≡ Code.Done → (path : Bor (List ℕ)) × ((target : Option (Bor (List ℕ))) × AreSaid words.now.paths.items said.entry (path ∷ []) target
        × on IsTreeGot disk.now words.now.user (IsWritten words.now.saving.only_tells (T.took targets.new) (λ n. on IsGot disk.now n wanted)) path.now)) }
{
    let (paths, target) = split_words(&words.paths, said);
    let path = one_path(rt.alloc(), paths)?;
    let root = root_of(target)?;
    let closed = closed_to(rt.alloc(), disk, words.user)?;
    let folder = folder_said(path)?;
    let depth = depth_of(rt.alloc(), disk, path, &folder, &closed)?;
    let tree = find_open(
        rt.alloc(),
        disk,
        &with_below(&folder),
        &None,
        Versions::Every,
        &closed,
    )?;
    let how = How {
        image: words.image,
        wanted,
        with_versions: false,
        force: words.force,
        partial: false,
        only_tells: words.saving.only_tells,
        json: words.json,
        reader: Reader::of(words),
        zone,
    };
    let shut = say_closed(rt, &tree.closed, words.user)?;
    let got = get_directories(
        rt,
        targets,
        disk,
        &tree.directories,
        depth,
        root,
        how,
        progress,
    )?;
    Ok(shut.or(got))
}

/// The one path of the words.
fn one_path<'a>(alloc: Global, paths: &[&'a str]) -> Result<&'a str, Stop<'a>>
    ensures ok { IfOk result (λ path. paths.now ≡ path ∷ []) }
    ensures err { IfErr result (λ stop. StopsWith stop Code.Words) }
{
    match paths {
        [path] => Ok(*path),
        [_, other, ..] => Err(Stop::Word(*other, WordFault::OneDirectory)),
        [] => Err(Stop::Lines(String::new(alloc), Status::Words)),
    }
}

/// The folder of the host that is meant: the working folder where none is said. Standard output is none.
fn root_of<'a>(target: Option<&'a str>) -> Result<&'a str, Stop<'a>>
    ensures ok { IfOk result (λ root. root.now ≡ target_folder target.entry) }
    ensures err { IfErr result (λ stop. StopsWith stop Code.Words) }
{
    match target {
        None => Ok("."),
        Some("-") => Err(Stop::Word("-", WordFault::NoFolder)),
        Some(folder) => Ok(folder),
    }
}

/// The folder of a path that says directories alone, without those below.
fn folder_said<'a>(path: &'a str) -> Result<Folder<'a>, Stop<'a>>
    ensures ok { IfOk result (λ folder. IsSaidAlone path.entry.now (said_folder folder)) }
    ensures err { IfErr result (λ stop. StopsWith stop Code.Words) }
{
    match parse_path(path.as_bytes()) {
        Ok(Path::Within(folder, None)) => Ok(Folder {
            steps: folder.steps,
            below: false,
        }),
        Ok(_) => Err(Stop::Word(path, WordFault::OneDirectory)),
        Err(bad) => Err(Stop::Path(path, PathFault::Bad(bad))),
    }
}

/// The same directories with all below them.
fn with_below<'a>(folder: &Folder<'a>) -> Folder<'a>
    ensures { said_folder result ≡ record (said_folder folder.now) { below = true } }
{
    Folder {
        steps: folder.steps,
        below: true,
    }
}

/// How many names lead to the one directory that a path says; 0 where it is closed.
fn depth_of<'a>(
    alloc: Global,
    disk: &Disk<'_>,
    path: &'a str,
    folder: &Folder<'_>,
    closed: &[u16],
) -> Result<usize, Stop<'a>>
    ensures ok { IfOk result (λ depth. (starts : List Holder) × ((met : List Holder)
        × ((shut : List ℕ) → CountAsClosed closed.now met shut → on AreMeant disk.now shut (said_folder folder.now) starts) × IsDepthOf starts depth)) }
    ensures err { IfErr result (λ stop. (StopsWith stop Code.Words ⊎ StopsWith stop Code.Nothing) ⊎ (stop ≡ End.NoMemory)) }
{
    let starts = find_open(alloc, disk, folder, &None, Versions::Every, closed)?;
    match starts.directories.as_slice() {
        [one] => Ok(one.names.len()),
        [] if starts.closed.is_empty() => Err(Stop::Path(path, PathFault::Nothing)),
        [] => Ok(0),
        _ => Err(Stop::Word(path, WordFault::OneDirectory)),
    }
}

/// Gets the files in each of these directories, of whose names so many lead to the first.
fn get_directories<'a, R: Files<File = File> + Clock + AllocGlobal + Print + Eprint, T: Targets>(
    rt: &R,
    targets: &mut T,
    disk: &Disk<'_>,
    directories: &[Directory],
    depth: usize,
    root: &str,
    how: How<'_>,
    progress: &mut Progress,
) -> Result<Status, Stop<'a>>
    requires { on FindsFiles disk.now }
    ensures status { IfOk result (λ s. may_name s ≡ true) }
    ensures done { IfOk result (λ s. s ≡ Code.Done → All (on IsDirectoryGot disk.now how.entry.reader.user (IsWritten how.entry.only_tells (T.took targets.new) (λ n. on IsGot disk.now n how.entry.wanted))) directories.now) }
    ensures stay { StayTaken (T.took targets.old) (T.took targets.new) }
{
    let mut taken = BTreeSet::new(rt.alloc());
    let mut status = Status::Done;
    for directory in directories {
        let done = get_directory(
            rt, targets, disk, directory, depth, root, how, &mut taken, progress,
        )?;
        status = status.or(done);
    }
    Ok(status)
}

/// Gets the files in a directory, in a folder of its own below `root`; with `only_tells` no folder is made. If the host does not make a folder below
/// `root`, that is said, and nothing is got from this directory.
fn get_directory<'a, R: Files<File = File> + Clock + AllocGlobal + Print + Eprint, T: Targets>(
    rt: &R,
    targets: &mut T,
    disk: &Disk<'_>,
    directory: &Directory,
    depth: usize,
    root: &str,
    how: How<'_>,
    taken: &mut BTreeSet<String>,
    progress: &mut Progress,
) -> Result<Status, Stop<'a>>
    requires { on FindsFiles disk.now }
    ensures status { IfOk result (λ s. may_name s ≡ true) }
    ensures done { IfOk result (λ s. s ≡ Code.Done → on IsDirectoryGot disk.now how.entry.reader.user (IsWritten how.entry.only_tells (T.took targets.new) (λ n. on IsGot disk.now n how.entry.wanted)) directory.now) }
    ensures stay { StayTaken (T.took targets.old) (T.took targets.new) }
{
    let files = files_in(rt.alloc(), disk, directory)?;
    let names = directory.names.get(depth..).unwrap_or(&[]);
    let said = host_folder(rt.alloc(), root, names)?;
    let folder = own_folder(rt.alloc(), said, directory.number, taken)?;
    if !how.only_tells && !make_folder(rt, folder.as_str(), names.is_empty())? {
        return Ok(Status::Host);
    }
    let to = Destination::Folder(folder.as_str());
    get_each(rt, targets, disk, &files, to, how, progress)
}

/// Returns the folder of the host for a directory: the one with this name, or if an earlier directory has it, as another version of the directory may,
/// one whose name ends with the number of the directory's file.
fn own_folder(
    alloc: Global,
    said: String,
    number: u16,
    taken: &mut BTreeSet<String>,
) -> Result<String, AllocError>
    ensures { IfOk result (λ folder. IsOwnFolder (string_bytes said) number (string_bytes folder)) }
{
    if taken.contains(&said) {
        return format!(in alloc; "{said} #{number}");
    }
    let noted = String::from_str(alloc, said.as_str())?;
    if taken.insert(noted).is_err() {
        return Err(AllocError);
    }
    Ok(said)
}

/// The folder of the host below `root` of a directory to which these names lead from the first one.
fn host_folder(alloc: Global, root: &str, names: &[Name]) -> Result<String, AllocError>
    ensures { IfOk result (λ text. string_bytes text ≡ host_folder root.now names.now) }
{
    if names.is_empty() {
        return String::from_str(alloc, root);
    }
    let mut small = String::new(alloc);
    push_small(&mut small, folder_text(alloc, names)?.as_str())?;
    name_below(alloc, root, small.as_str())
}

/// Makes a folder of the host, unless it is there, and returns whether files can be written to it. A link is a folder only if it is the root of the tree.
/// The error is for a root that the host does not make; for another folder that is said.
fn make_folder<'a, R: Files + AllocGlobal + Eprint>(
    rt: &R,
    folder: &str,
    is_root: bool,
) -> Result<bool, Stop<'a>>
    ensures { IfErr result (λ stop. StopsWith stop Code.Host ⊎ (stop ≡ End.NoMemory)) }
{
    let Err(error) = fs::create_dir(rt, folder) else {
        return Ok(true);
    };
    let found = if is_root {
        fs::metadata(rt, folder)
    } else {
        fs::symlink_metadata(rt, folder)
    };
    if is_folder(found) {
        return Ok(true);
    }
    let why = WordFault::Unmade(HostFault::of(&error));
    if is_root {
        return Err(stop_about(rt.alloc(), folder, why, Status::Host));
    }
    say_about(rt, folder, why);
    Ok(false)
}

/// The files of a directory that are got: all but those that are passed over.
fn files_in(alloc: Global, disk: &Disk<'_>, directory: &Directory) -> Result<Vec<Found>, AllocError>
    requires { on FindsFiles disk.now }
    ensures { IfOk result (λ files. on AreFilesIn disk.now directory.now files.items) }
{
    let entries = lines_of(alloc, disk, directory.number)?;
    let mut files = Vec::new(alloc);
    for entry in &entries {
        add_file(alloc, disk, directory, entry, &mut files)?;
    }
    Ok(files)
}

/// Adds the file of an entry, where it is not passed over.
fn add_file(
    alloc: Global,
    disk: &Disk<'_>,
    directory: &Directory,
    entry: &Listed,
    files: &mut Vec<Found>,
) -> Result<(), AllocError>
    requires { on FindsFiles disk.now }
    ensures { OnOk result ((found : One) × on IsEntryOf disk.now directory.now entry.now found
        × (files.new.items ≡ (if is_passed_over found.facts then files.old.items else files.old.items ++ found ∷ []))) }
{
    let found = file_at(alloc, disk, directory, entry)?;
    if !found.is_passed_over() {
        files.push(found)?;
    }
    Ok(())
}
