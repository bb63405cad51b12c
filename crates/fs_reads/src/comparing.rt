//! `cmp`: which files of two images differ.
ghost use Rattle.std.specs.Prelude.{◌≡◌, ◌⊎◌, ◌<◌, ◌∷◌, ◌++◌, [], IfErr, IfOk, IfSome, IsPermutation, None, OnOk, length, map, slice_get, string_bytes};
ghost use Rattle.std.specs.List.{HoldsAt};
ghost use Rattle.std.specs.Ordering.{nat_cmp};
ghost use Rattle.std.specs.Cmp.Lexicographic.{slice_cmp};
ghost use Rattle.std.specs.Option.{option_copied};
ghost use Rattle.fs_reads.specs.{Alike.AreCompared, Alike.IsTold, Alike.has_path, Alike.held, Ends.EndsCompare, Ends.StopsWith, Shown.Extends};
ghost use Rattle.fs_reads.specs.Paths.{AreAllPaths, AreInOrder, LacksPath, path_and_file, paths_found};
ghost use Rattle.ods_shell.specs.{Texts.shown_path, There.path_in};
ghost use Rattle.fs_reads.specs.declared.stop.Stop.{Stop as End};
ghost use Rattle.ods_shell.specs.declared.status.Status.{Status as Code};
ghost use Rattle.ods_space.specs.Files.{FindsFiles};
ghost use Rattle.ods_space.specs.Disks.{on};

use crate::closed::{closed_to, stop_at_closed};
use crate::finding::find_all;
use crate::progress::Progress;
use crate::readable::{Readable, open_readable};
use crate::reading::check_right;
use crate::stop::{Stop, send, stop_about, stop_at_own_output};
use fs_host::Layers;
use fs_words::Words;
use ods_base::{FileId, Listed, Uic};
use ods_mount::Mounted;
use ods_shell::{
    Directory, Facts, FormFault, FoundLines, Kind, Status, facts_by_id, have_same_bytes,
    pair_object, push_path,
};
use ods_space::Disk;
use std::alloc::{AllocError, Global};
use std::cmp::Ordering;
use std::fs::File;
use std::rt::Files;
use std::time::Clock;

/// A path of a volume, and the ID of its file.
#[derive(Drop)]
pub struct Known {
    pub path: String,
    pub file: FileId,
}

/// Compares the volume with the image at the first path (`cmp`).
pub(crate) fn compare_all<'a, R: Files<File = File> + Clock + AllocGlobal + Print + Eprint>(
    rt: &R,
    disk: &Disk<'_>,
    words: &Words<'a>,
    all: bool,
    progress: &mut Progress,
) -> Result<Status, Stop<'a>>
    requires { on FindsFiles disk.now }
    ensures { IfOk result EndsCompare }
{
    let Some(path) = words.paths.first() else {
        return Ok(Status::Words);
    };
    stop_at_own_output(rt, *path)?;
    let opened = open_readable(rt, *path, None, Layers::Found, false)?;
    compare_with(rt, disk, &opened, words, all, progress)
}

/// Compares the volume with this one, and prints what differs.
fn compare_with<'a, R: Clock + AllocGlobal + Print + Eprint>(
    rt: &R,
    disk: &Disk<'_>,
    opened: &Readable,
    words: &Words<'a>,
    all: bool,
    progress: &mut Progress,
) -> Result<Status, Stop<'a>>
    requires { on FindsFiles disk.now }
    ensures { IfOk result EndsCompare }
{
    let text = differences(rt, disk, &opened.disk(), words, all, progress)?;
    if text.is_empty() {
        return Ok(end_comparison(opened, true));
    }
    print_differences(rt, text.as_str(), words.json)?;
    Ok(end_comparison(opened, false))
}

/// The lines of what differs between two volumes.
fn differences<'a, R: Clock + AllocGlobal + Eprint>(
    rt: &R,
    disk: &Disk<'_>,
    other: &Disk<'_>,
    words: &Words<'a>,
    all: bool,
    progress: &mut Progress,
) -> Result<String, Stop<'a>>
    requires one { on FindsFiles disk.now }
    requires other { on FindsFiles other.now }
{
    let alloc = rt.alloc();
    let ours = all_paths(alloc, disk, words.user)?;
    let theirs = all_paths(alloc, other, words.user)?;
    let mut text = String::new(alloc);
    push_of_first(
        rt, disk, &ours, other, &theirs, words, all, progress, &mut text,
    )?;
    push_of_second(&ours, &theirs, &mut text)?;
    Ok(text)
}

/// Appends a line for each path of the first volume that the second lacks, or whose file differs there.
fn push_of_first<'a, R: Clock + AllocGlobal + Eprint>(
    rt: &R,
    disk: &Disk<'_>,
    ours: &[Known],
    other: &Disk<'_>,
    theirs: &[Known],
    words: &Words<'a>,
    all: bool,
    progress: &mut Progress,
    text: &mut String,
) -> Result<(), Stop<'a>>
    requires one { on FindsFiles disk.now }
    requires other { on FindsFiles other.now }
{
    for (done, one) in ours.iter().enumerate() {
        progress.show(rt, done as u64, ours.len() as u64);
        match place_of(theirs, one.path.as_str()) {
            Some(place) => {
                if let Some(found) = theirs.get(place) {
                    push_difference(
                        rt.alloc(),
                        disk,
                        one,
                        other,
                        found.file,
                        words.user,
                        all,
                        text,
                    )?;
                }
            }
            None => writeln!(text, "{}: only in the first image", one.path.as_str())?,
        }
    }
    Ok(())
}

/// Appends a line for each path of the second volume that the first lacks.
fn push_of_second(ours: &[Known], theirs: &[Known], text: &mut String) -> Result<(), AllocError> {
    for one in theirs {
        if place_of(ours, one.path.as_str()).is_none() {
            writeln!(text, "{}: only in the second image", one.path.as_str())?;
        }
    }
    Ok(())
}

/// Prints the lines of what differs, or an object for each.
fn print_differences<'a, R: AllocGlobal + Print>(
    rt: &R,
    lines: &str,
    json: bool,
) -> Result<Status, Stop<'a>> {
    if !json {
        return send(rt, lines);
    }
    let objects = objects(rt.alloc(), lines)?;
    send(rt, objects.as_str())
}

/// The status of a comparison with this image, by whether the two are alike.
#[tactic(auto, using(crate::proofs::Statuses::ends_compare))]
fn end_comparison(other: &Readable, are_alike: bool) -> Status
    ensures { EndsCompare result }
{
    if are_alike {
        other.ends(Status::Done)
    } else {
        other.ends(Status::Found)
    }
}

/// The lines as objects: the path, and what differs.
fn objects(alloc: Global, text: &str) -> Result<String, AllocError> {
    let mut objects = String::new(alloc);
    for line in text.lines() {
        if let Some((path, word)) = line.split_once(": ") {
            objects.push_str(pair_object(alloc, "path", path, "differs", word)?.as_str())?;
        }
    }
    Ok(objects)
}

/// Returns all paths of a sound volume, sorted by their bytes.
pub fn all_known<'a>(
    alloc: Global,
    volume: &Mounted,
    user: Option<Uic>,
) -> Result<Vec<Known>, Stop<'a>>
    ensures all { IfOk result (λ all. AreAllPaths volume.now.image volume.now.layout all.items) }
    ensures err { IfErr result (λ stop. StopsWith stop Code.Refused ⊎ (stop ≡ End.NoMemory)) }
{
    let disk = volume.disk();
    all_paths(alloc, &disk, user)
}

/// All paths of a volume, in the order of their bytes.
fn all_paths<'a>(alloc: Global, disk: &Disk<'_>, user: Option<Uic>) -> Result<Vec<Known>, Stop<'a>>
    requires { on FindsFiles disk.now }
    ensures all { IfOk result (λ all. on AreAllPaths disk.now all.items) }
    ensures err { IfErr result (λ stop. StopsWith stop Code.Refused ⊎ (stop ≡ End.NoMemory)) }
{
    let closed = closed_to(alloc, disk, user)?;
    let found = find_all(alloc, disk, &closed)?;
    stop_at_closed(alloc, &found.closed, user)?;
    match paths_of(alloc, &found) {
        Ok(all) => Ok(all),
        Err(_) => Err(Stop::NoMemory),
    }
}

/// The paths of what was found, in the order of their bytes.
fn paths_of(alloc: Global, found: &FoundLines) -> Result<Vec<Known>, AllocError>
    ensures each { IfOk result (λ all. IsPermutation (paths_found found.now) (map path_and_file all.items)) }
    ensures order { IfOk result (λ all. AreInOrder all.items) }
{
    let mut all = Vec::new(alloc);
    for line in &found.lines {
        let path = path_at(alloc, &found.directories, line.directory, &line.entry)?;
        let file = line.entry.file;
        push_known(&mut all, Known { path, file })?;
    }
    all.sort_unstable_by(compare_paths);
    Ok(all)
}

/// The path of an entry of the directory at this place; nothing where there is none.
fn path_at(
    alloc: Global,
    directories: &[Directory],
    place: usize,
    entry: &Listed,
) -> Result<String, AllocError>
    ensures { IfOk result (λ path. string_bytes path ≡ path_in (slice_get directories.now place) entry.now) }
{
    match directories.get(place) {
        Some(directory) => path_within(alloc, directory, entry),
        None => Ok(String::new(alloc)),
    }
}

/// The path of an entry of this directory.
fn path_within(alloc: Global, directory: &Directory, entry: &Listed) -> Result<String, AllocError>
    ensures { IfOk result (λ path. string_bytes path ≡ shown_path directory.now.names.items entry.now) }
{
    let mut path = String::new(alloc);
    push_path(&mut path, &directory.names, entry)?;
    Ok(path)
}

/// Adds a path.
fn push_known(all: &mut Vec<Known>, known: Known) -> Result<(), AllocError>
    ensures { OnOk result (map path_and_file all.new.items ≡ map path_and_file all.old.items ++ path_and_file known ∷ []) }
{
    match all.push(known) {
        Ok(()) => Ok(()),
        Err(_) => Err(AllocError),
    }
}

/// How two paths stand to one another.
fn compare_paths(one: &Known, other: &Known) -> Ordering
    ensures { result ≡ slice_cmp nat_cmp (string_bytes one.now.path) (string_bytes other.now.path) }
{
    compare_path(one, other.path.as_str())
}

/// How the path of this one stands to a path.
fn compare_path(known: &Known, path: &str) -> Ordering
    ensures { result ≡ slice_cmp nat_cmp (string_bytes known.now.path) path.now }
{
    known.path.as_str().cmp(path)
}

/// Returns the index of a path in the sorted list `all`, or None if it is not in the list.
pub fn place_of(all: &[Known], path: &str) -> Option<usize>
    ensures there { IfSome result (HoldsAt (has_path path.now) all.now) }
    ensures within { IfSome result (λ place. place < length all.now) }
    ensures none { AreInOrder all.now → result ≡ None → LacksPath path.now all.now }
{
    match all.binary_search_by(|known| compare_path(known, path)) {
        Ok(place) => Some(place),
        Err(_) => None,
    }
}

/// Appends a line where two files differ. Directories differ by their names alone, and files 1 and 2 are not looked at.
#[tactic(auto, using(crate::proofs::Growing::extends_pushed, crate::proofs::Growing::extends_on, crate::proofs::Growing::extends_same))]
fn push_difference<'a>(
    alloc: Global,
    disk: &Disk<'_>,
    one: &Known,
    other: &Disk<'_>,
    file: FileId,
    user: Option<Uic>,
    all: bool,
    text: &mut String,
) -> Result<(), Stop<'a>>
    requires one { on FindsFiles disk.now }
    requires other { on FindsFiles other.now }
    ensures { OnOk result (Extends (string_bytes text.old) (string_bytes text.new)) }
{
    if one.file.number <= 2 && file.number <= 2 {
        return Ok(());
    }
    check_rights(alloc, disk, one, other, file, user)?;
    push_word(alloc, disk, one, other, file, text)?;
    if !all {
        return Ok(());
    }
    push_facts(disk, one, other, file, text)?;
    Ok(())
}

/// Ends a comparison of two files of which this user may not read one.
fn check_rights<'a>(
    alloc: Global,
    disk: &Disk<'_>,
    one: &Known,
    other: &Disk<'_>,
    file: FileId,
    user: Option<Uic>,
) -> Result<(), Stop<'a>>
    requires one { on FindsFiles disk.now }
    requires other { on FindsFiles other.now }
    ensures { IfErr result (λ stop. StopsWith stop Code.Refused ⊎ (stop ≡ End.NoMemory)) }
{
    let (Some(facts), Some(others)) = (facts_by_id(disk, one.file), facts_by_id(other, file)) else {
        return Ok(());
    };
    match check_right(&facts, user).and(check_right(&others, user)) {
        Ok(()) => Ok(()),
        Err(fault) => Err(stop_about(alloc, one.path.as_str(), fault, Status::Refused)),
    }
}

/// Appends a line of the first in which two files differ.
#[tactic(auto, using(crate::proofs::Growing::extends_same))]
fn push_word<'a>(
    alloc: Global,
    disk: &Disk<'_>,
    one: &Known,
    other: &Disk<'_>,
    file: FileId,
    text: &mut String,
) -> Result<(), Stop<'a>>
    requires one { on FindsFiles disk.now }
    requires other { on FindsFiles other.now }
    ensures { OnOk result (Extends (string_bytes text.old) (string_bytes text.new)) }
{
    match difference_of(alloc, disk, one.file, other, file)? {
        Some(word) => {
            push_if(text, one.path.as_str(), true, word)?;
            Ok(())
        }
        None => Ok(()),
    }
}

/// Appends a line for each of the other facts in which two files differ.
#[tactic(auto, using(crate::proofs::Growing::extends_same))]
fn push_facts(
    disk: &Disk<'_>,
    one: &Known,
    other: &Disk<'_>,
    file: FileId,
    text: &mut String,
) -> Result<(), AllocError>
    requires one { on FindsFiles disk.now }
    requires other { on FindsFiles other.now }
    ensures { OnOk result (Extends (string_bytes text.old) (string_bytes text.new)) }
{
    match (facts_by_id(disk, one.file), facts_by_id(other, file)) {
        (Some(facts), Some(others)) => push_others(one.path.as_str(), &facts, &others, text),
        _ => Ok(()),
    }
}

/// Appends a line for each of ID, owner, protection and dates that differ.
#[tactic(auto, using(crate::proofs::Growing::extends_pushed, crate::proofs::Growing::extends_on, crate::proofs::Growing::extends_same))]
fn push_others(
    path: &str,
    facts: &Facts,
    others: &Facts,
    text: &mut String,
) -> Result<(), AllocError>
    ensures { OnOk result (Extends (string_bytes text.old) (string_bytes text.new)) }
{
    push_if(text, path, facts.file != others.file, "IDs differ")?;
    push_if(text, path, facts.owner != others.owner, "owners differ")?;
    let other_rights = facts.protection != others.protection;
    push_if(text, path, other_rights, "protection differs")?;
    let is_same_day = facts.creation_date() == others.creation_date()
        && facts.revision_date() == others.revision_date();
    push_if(text, path, !is_same_day, "dates differ")
}

/// Appends a line of what differs, where it does.
#[tactic(auto, using(crate::proofs::Growing::extends_same))]
fn push_if(text: &mut String, path: &str, differs: bool, what: &str) -> Result<(), AllocError>
    ensures { OnOk result (Extends (string_bytes text.old) (string_bytes text.new)) }
{
    if differs {
        writeln!(text, "{path}: {what}")?;
    }
    Ok(())
}

/// Returns the first difference between the files with these IDs of two sound volumes, or None.
pub fn difference_by_id<'a>(
    alloc: Global,
    volume: &Mounted,
    one: FileId,
    other: &Mounted,
    file: FileId,
) -> Result<Option<&'static str>, Stop<'a>>
    ensures { IfOk result (λ word. AreCompared volume.now one other.now file (option_copied word)) }
{
    let disk = volume.disk();
    let other_disk = other.disk();
    difference_of(alloc, &disk, one, &other_disk, file)
}

/// What differs between the files with these IDs.
fn difference_of<'a>(
    alloc: Global,
    disk: &Disk<'_>,
    one: FileId,
    other: &Disk<'_>,
    file: FileId,
) -> Result<Option<&'static str>, Stop<'a>>
    requires one { on FindsFiles disk.now }
    requires other { on FindsFiles other.now }
    ensures { IfOk result (λ word. AreCompared (held disk.now) one (held other.now) file (option_copied word)) }
{
    match (facts_by_id(disk, one), facts_by_id(other, file)) {
        (None, None) => Ok(None),
        (Some(facts), Some(others)) => difference(alloc, disk, &facts, other, &others),
        _ => Ok(Some("only one names a file")),
    }
}

/// What differs between two files.
fn difference<'a>(
    alloc: Global,
    disk: &Disk<'_>,
    facts: &Facts,
    other: &Disk<'_>,
    others: &Facts,
) -> Result<Option<&'static str>, Stop<'a>>
    requires one { on FindsFiles disk.now }
    requires other { on FindsFiles other.now }
    ensures { IfOk result (λ word. IsTold (held disk.now) facts.now (held other.now) others.now (option_copied word)) }
{
    if facts.kind == Kind::Directory && others.kind == Kind::Directory {
        return Ok(None);
    }
    if facts.attributes != others.attributes {
        return Ok(Some("attributes differ"));
    }
    match have_same_bytes(alloc, disk, facts.file.number, other, others.file.number) {
        Ok(true) => Ok(None),
        Ok(false) => Ok(Some("bytes differ")),
        Err(FormFault::NoMemory) => Err(Stop::NoMemory),
        Err(_) => Ok(Some("not both have bytes")),
    }
}
