//! `get`: files of a volume, written to files of the host.
ghost use Rattle.std.specs.Prelude.{◌≡◌, ◌≤◌, ◌<◌, ◌↔◌, ◌++◌, ◌⊎◌, ◌==◌, ℕ, List, Option, Ok, Err, false, true, IfErr, IfOk, IfSome, IsSome, IsTrue, MatchResult, codes, is_some, length, string_bytes};
ghost use Rattle.std.specs.Borrow.{Bor};
ghost use Rattle.std.specs.Fs.{IsDir, file_type};
ghost use Rattle.std.specs.List.{All, ends_with, list_any};
ghost use Rattle.std.specs.Option.{option_to_list};
ghost use Rattle.fs_reads.specs.Dates.{IsDateAt, IsDatedBy};
ghost use Rattle.fs_reads.specs.Ends.{EndsPrinting, may_name};
ghost use Rattle.fs_reads.specs.Gets.{AreGot, AreSaid, EndsGet, GoesTo, IsAmong, IsGettable, path_within, says_all_versions as says_all};
ghost use Rattle.fs_reads.specs.Targets.{IsWritten, StayTaken};
ghost use Rattle.fs_reads.specs.Written.{status_written};
ghost use Rattle.fs_reads.specs.declared.stop.Stop.{Stop as End};
ghost use Rattle.ods_shell.specs.{Contents.IsGot, Contents.IsNotGot, Shown.ContentsAre};
ghost use Rattle.ods_shell.specs.declared.status.Status.{Status as Code};
ghost use Rattle.ods_space.specs.Files.{FindsFiles};
ghost use Rattle.ods_space.specs.Disks.{on};

use crate::closed::closed_to;
use crate::getting_part::keep_part;
use crate::host_files::{Written, could_write};
use crate::printing::{Reader, add_named, say_remark, say_unread};
use crate::progress::Progress;
use crate::reading::open_found;
use crate::stop::{Stop, WordFault, send};
use crate::targets::Targets;
use fs_host::{HostFault, HostZone, Shown};
use fs_words::Words;
use ods_base::Uic;
use ods_shell::{Contents, Facts, Found, Status, Versioned, Wanted, pair_object};
use ods_space::Disk;
use std::alloc::{AllocError, Global};
use std::collections::BTreeSet;
use std::fs::{File, Metadata};
use std::os::unix::fs::MetadataExt;
use std::rt::Files;
use std::time::Clock;
use std::{fs, io};

/// The destination of extracted files.
#[derive(Clone, Copy, PartialEq, Eq)]
pub(crate) enum Destination<'a> {
    /// Standard output.
    Output,
    /// A folder of the host.
    Folder(&'a str),
    /// One file of the host.
    File(&'a str),
}

/// How files are written.
#[derive(Clone, Copy)]
pub(crate) struct How<'a> {
    /// The path of the image. No file is written onto it.
    pub image: &'a str,
    pub wanted: Wanted,
    /// Whether host names include the versions.
    pub with_versions: bool,
    /// Whether existing host files may be replaced.
    pub force: bool,
    /// Whether what is left of a file is written if its chain is not whole.
    pub partial: bool,
    /// Whether the command only prints what it would write.
    pub only_tells: bool,
    pub json: bool,
    pub reader: Reader,
    /// The zone that turns the creation date of each file into the modification time of its host file, if requested.
    pub zone: Option<&'a HostZone>,
}

/// `get`: extracts the files that the paths select. Without `said`, the last of two or more words is the destination. With a zone, each host file
/// receives the creation date of its file as its modification time. With `partial` what is left of a file is written if its chain is not whole; the
/// file still counts as refused.
pub(crate) fn get<'a, R: Files<File = File> + Clock + AllocGlobal + Print + Eprint, T: Targets>(
    rt: &R,
    targets: &mut T,
    disk: &Disk<'_>,
    words: &Words<'a>,
    said: Option<&'a str>,
    wanted: Wanted,
    partial: bool,
    zone: Option<&HostZone>,
    progress: &mut Progress,
) -> Result<Status, Stop<'a>>
    requires { on FindsFiles disk.now }
    ensures status { IfOk result (λ s. may_name s ≡ true) }
    ensures done { IfOk result (λ s. s ≡ Code.Done → (paths : List (Bor (List ℕ))) × ((target : Option (Bor (List ℕ))) × AreSaid words.now.paths.items said.entry paths target
        × on AreGot disk.now words.now.user (IsWritten words.now.saving.only_tells (T.took targets.new) (λ n. on IsGot disk.now n wanted)) paths)) }
{
    let (paths, target) = split_words(&words.paths, said);
    let to = choose_destination(rt, target, paths.len())?;
    let closed = closed_to(rt.alloc(), disk, words.user)?;
    let mut all = Vec::new(rt.alloc());
    let named = add_paths(rt, disk, paths, &closed, words.user, &mut all)?;
    let how = How {
        image: words.image,
        wanted,
        with_versions: say_all_versions(paths),
        force: words.force,
        partial,
        only_tells: words.saving.only_tells,
        json: words.json,
        reader: Reader::of(words),
        zone,
    };
    Ok(named.or(get_all(rt, targets, disk, &all, to, how, progress)?))
}

/// Splits the words into the paths and the destination. Without `said`, the last of two or more words is the destination.
pub(crate) fn split_words<'a, 'b>(
    words: &'b [&'a str],
    said: Option<&'a str>,
) -> (&'b [&'a str], Option<&'a str>)
    ensures { AreSaid words.now said.entry result.0.now result.1 }
{
    match said {
        Some(host) => (words, Some(host)),
        None => last_word(words),
    }
}

/// Returns the destination for the files of `paths` paths. It is the working folder without a target, standard output for `-`, otherwise a folder or
/// file of the host. Fails with `NoFolder` if two or more paths go to a target that is not a folder.
pub(crate) fn choose_destination<'a, R: Files>(
    rt: &R,
    target: Option<&'a str>,
    paths: usize,
) -> Result<Destination<'a>, Stop<'a>>
    ensures ok { IfOk result (GoesTo paths target.entry) }
    ensures err { IfErr result (λ stop. (1 < paths) × IsSome target.entry × IfSome target.entry (λ host. stop ≡ End.Word host WordFault.NoFolder)) }
{
    match target {
        None => Ok(Destination::Folder(".")),
        Some("-") => Ok(Destination::Output),
        Some(host) => choose_at(host, is_folder(fs::metadata(rt, host)), paths),
    }
}

/// Where the files of so many paths go that go to this file or folder of the host.
fn choose_at<'a>(host: &'a str, is_folder: bool, paths: usize) -> Result<Destination<'a>, Stop<'a>>
    ensures folder { is_folder ≡ true → result ≡ Ok (Destination.Folder host.entry) }
    ensures file { is_folder ≡ false → paths ≤ 1 → result ≡ Ok (Destination.File host.entry) }
    ensures err { is_folder ≡ false → 1 < paths → result ≡ Err (End.Word host.entry WordFault.NoFolder) }
{
    if is_folder {
        Ok(Destination::Folder(host))
    } else if paths > 1 {
        Err(Stop::Word(host, WordFault::NoFolder))
    } else {
        Ok(Destination::File(host))
    }
}

/// Adds the files that these paths name; a path that names none and a closed directory are said, and no fault of the command.
fn add_paths<'a, R: AllocGlobal + Eprint>(
    rt: &R,
    disk: &Disk<'_>,
    paths: &[&str],
    closed: &[u16],
    user: Option<Uic>,
    all: &mut Vec<Found>,
) -> Result<Status, Stop<'a>>
    requires { on FindsFiles disk.now }
    ensures status { IfOk result (λ s. may_name s ≡ true) }
    ensures done { IfOk result (λ s. s ≡ Code.Done → All (λ path. on IsAmong disk.now user closed.now all.new.items path.now) paths.now) }
{
    let mut status = Status::Done;
    for path in paths {
        status = status.or(add_named(rt, disk, *path, closed, user, all)?);
    }
    Ok(status)
}

/// Whether one of the paths says that all versions are meant.
fn say_all_versions(paths: &[&str]) -> bool
    ensures { result ≡ list_any (λ path. says_all path.now) paths.now }
{
    paths.iter().any(|path| says_all_versions(*path))
}

/// Whether a path says that all versions are meant.
fn says_all_versions(path: &str) -> bool
    ensures { result ≡ says_all path.now }
{
    ends_so(path, ";*") || ends_so(path, ":*")
}

/// Whether a path ends so.
fn ends_so(path: &str, end: &str) -> bool
    ensures { result ≡ ends_with (λ x y. x == y) path.now end.now }
{
    path.ends_with(end)
}

/// The words but for the last one, which is the destination, where there are two or more.
fn last_word<'a, 'b>(words: &'b [&'a str]) -> (&'b [&'a str], Option<&'a str>)
    ensures all { result.0.now ++ option_to_list result.1 ≡ words.now }
    ensures two { IsSome result.1 ↔ (2 ≤ length words.now) }
{
    match words.split_last() {
        Some((last, paths)) if !paths.is_empty() => (paths, Some(*last)),
        _ => (words, None),
    }
}

/// Returns whether the metadata describe a folder. An error counts as no folder.
pub(crate) fn is_folder(found: io::Result<Metadata>) -> bool
    ensures { MatchResult found (λ metadata. IsTrue result ↔ IsDir (file_type metadata)) (λ _. result ≡ false) }
{
    match found {
        Ok(metadata) => metadata.is_dir(),
        Err(_) => false,
    }
}

/// Gets these files; a file of the host takes one.
fn get_all<'a, R: Files<File = File> + Clock + AllocGlobal + Print + Eprint, T: Targets>(
    rt: &R,
    targets: &mut T,
    disk: &Disk<'_>,
    files: &[Found],
    to: Destination<'a>,
    how: How<'_>,
    progress: &mut Progress,
) -> Result<Status, Stop<'a>>
    requires { on FindsFiles disk.now }
    ensures status { IfOk result (λ s. may_name s ≡ true) }
    ensures done { IfOk result (λ s. s ≡ Code.Done → All (IsGettable how.entry.reader.user (IsWritten how.entry.only_tells (T.took targets.new) (λ n. on IsGot disk.now n how.entry.wanted))) files.now) }
    ensures stay { StayTaken (T.took targets.old) (T.took targets.new) }
{
    if let Destination::File(host) = to {
        if files.len() > 1 {
            return Err(Stop::Word(host, WordFault::NoFolder));
        }
    }
    get_each(rt, targets, disk, files, to, how, progress)
}

/// Extracts each of these files.
pub(crate) fn get_each<
    'a,
    R: Files<File = File> + Clock + AllocGlobal + Print + Eprint,
    T: Targets,
>(
    rt: &R,
    targets: &mut T,
    disk: &Disk<'_>,
    files: &[Found],
    to: Destination<'_>,
    how: How<'_>,
    progress: &mut Progress,
) -> Result<Status, Stop<'a>>
    requires { on FindsFiles disk.now }
    ensures status { IfOk result (λ s. may_name s ≡ true) }
    ensures done { IfOk result (λ s. s ≡ Code.Done → All (IsGettable how.entry.reader.user (IsWritten how.entry.only_tells (T.took targets.new) (λ n. on IsGot disk.now n how.entry.wanted))) files.now) }
    ensures stay { StayTaken (T.took targets.old) (T.took targets.new) }
{
    let versions = Versioned::of(rt.alloc(), files)?;
    let mut written = BTreeSet::new(rt.alloc());
    let mut status = Status::Done;
    let mut before = 0u64;
    for found in files {
        let done = get_one(rt, targets, disk, found, to, how, &versions, &mut written)?;
        status = status.or(done);
        if to != Destination::Output {
            progress.show(rt, before, files.len() as u64);
        }
        before = before.saturating_add(1);
    }
    Ok(status)
}

/// Gets one file to its destination.
fn get_one<'a, R: Files<File = File> + AllocGlobal + Print + Eprint, T: Targets>(
    rt: &R,
    targets: &mut T,
    disk: &Disk<'_>,
    found: &Found,
    to: Destination<'_>,
    how: How<'_>,
    versions: &Versioned,
    written: &mut BTreeSet<String>,
) -> Result<Status, Stop<'a>>
    requires { on FindsFiles disk.now }
    ensures ends { IfOk result (EndsGet how.entry.reader.user (IsWritten how.entry.only_tells (T.took targets.new) (λ n. on IsGot disk.now n how.entry.wanted)) (λ n. on IsNotGot disk.now n how.entry.wanted) found.now) }
    ensures stay { StayTaken (T.took targets.old) (T.took targets.new) }
{
    match to {
        Destination::Output => get_file(rt, targets, disk, found, "-", how),
        Destination::File(path) => get_file(rt, targets, disk, found, path, how),
        Destination::Folder(folder) => {
            let with_version = how.with_versions || versions.has_other(found);
            let name = found.host_name(rt.alloc(), with_version)?;
            get_into(rt, targets, disk, found, folder, name, how, written)
        }
    }
}

/// Gets one file into a folder, under a name that is none of those that were written.
fn get_into<'a, R: Files<File = File> + AllocGlobal + Print + Eprint, T: Targets>(
    rt: &R,
    targets: &mut T,
    disk: &Disk<'_>,
    found: &Found,
    folder: &str,
    name: String,
    how: How<'_>,
    written: &mut BTreeSet<String>,
) -> Result<Status, Stop<'a>>
    requires { on FindsFiles disk.now }
    ensures ends { IfOk result (EndsGet how.entry.reader.user (IsWritten how.entry.only_tells (T.took targets.new) (λ n. on IsGot disk.now n how.entry.wanted)) (λ n. on IsNotGot disk.now n how.entry.wanted) found.now) }
    ensures stay { StayTaken (T.took targets.old) (T.took targets.new) }
{
    let path = path_within(rt.alloc(), folder, name.as_str())?;
    if written.contains(&name) {
        let (from, path) = (found.path.as_str(), Shown(path.as_str()));
        let _ = eprintln!(rt;
            "f11fs: {from}: this command already wrote {path}; get this file to another TARGET"
        );
        return Ok(Status::Host);
    }
    let done = get_file(rt, targets, disk, found, path.as_str(), how)?;
    if (done == Status::Done || how.partial) && written.insert(name).is_err() {
        return Err(Stop::NoMemory);
    }
    Ok(done)
}

/// Returns the path of a file of this name in a folder of the host.
pub(crate) fn path_within(alloc: Global, folder: &str, name: &str) -> Result<String, AllocError>
    ensures { IfOk result (λ path. string_bytes path ≡ path_within folder.now name.now) }
{
    format!(in alloc; "{folder}/{name}")
}

/// Gets one file into a file of the host, or with `-` to standard output. A file that is refused, and a file of the host that is there, are reported.
/// Of a refused file, what is left is written if that is requested.
fn get_file<'a, R: Files<File = File> + AllocGlobal + Print + Eprint, T: Targets>(
    rt: &R,
    targets: &mut T,
    disk: &Disk<'_>,
    found: &Found,
    host: &str,
    how: How<'_>,
) -> Result<Status, Stop<'a>>
    requires { on FindsFiles disk.now }
    ensures ends { IfOk result (EndsGet how.entry.reader.user (IsWritten how.entry.only_tells (T.took targets.new) (λ n. on IsGot disk.now n how.entry.wanted)) (λ n. on IsNotGot disk.now n how.entry.wanted) found.now) }
    ensures stay { StayTaken (T.took targets.old) (T.took targets.new) }
{
    let path = found.path.as_str();
    match open_found(rt.alloc(), disk, found, how.wanted, how.reader.user) {
        Ok(got) => {
            say_remark(rt, path, &got.remark, how.reader.quiet);
            let changed = second_for(how.zone, found.facts());
            keep(rt, targets, path, &got.contents, host, changed, how)
        }
        Err(fault) => {
            let done = say_unread(rt, path, fault)?;
            keep_part(rt, targets, disk, found, host, how)?;
            Ok(done)
        }
    }
}

/// Returns the modification time for a host file, in seconds since 1970: the creation date of its file, by a clock in this zone. Returns None without
/// a zone, or if the file has no such date.
pub(crate) fn second_for(zone: Option<&HostZone>, facts: Option<Facts>) -> Option<u32>
    ensures { IsDatedBy (is_some zone.entry) facts result }
{
    match zone {
        Some(zone) => second_in(zone, facts),
        None => None,
    }
}

/// The second of the creation of a file, by a clock in this zone.
fn second_in(zone: &HostZone, facts: Option<Facts>) -> Option<u32>
    ensures { IsDatedBy true facts result }
{
    match facts {
        Some(facts) => second_at(zone, &facts.creation_date()),
        None => None,
    }
}

/// The second of a date by a clock in this zone; None where there is none.
fn second_at(zone: &HostZone, date: &[u8; 13]) -> Option<u32>
    ensures { IsDateAt date.now result }
{
    match zone.second_at(date) {
        0 => None,
        second => Some(second),
    }
}

/// Writes the contents of a file to a host file, or with `-` to standard output, or prints that it would. Reports each failure on standard error and
/// returns the status.
pub(crate) fn keep<'a, R: Files<File = File> + AllocGlobal + Print + Eprint, T: Targets>(
    rt: &R,
    targets: &mut T,
    path: &str,
    contents: &Contents<'_>,
    host: &str,
    changed: Option<u32>,
    how: How<'_>,
) -> Result<Status, Stop<'a>>
    ensures status { IfOk result (λ s. (s ≡ Code.Done) ⊎ (s ≡ Code.Host)) }
    ensures took { IfOk result (λ s. s ≡ Code.Done → how.entry.only_tells ≡ false → (bytes : List ℕ) → ContentsAre contents.now bytes → T.took targets.new host.now bytes) }
    ensures stay { StayTaken (T.took targets.old) (T.took targets.new) }
{
    if host == "-" {
        return print(rt, targets, path, contents, how);
    }
    if is_same_file(rt, host, how.image) {
        let host = Shown(host);
        let _ = eprintln!(rt; "f11fs: {path}: {host} is the image");
        return Ok(Status::Host);
    }
    if !how.only_tells {
        let written = targets.write(contents, host, changed, how.force);
        return Ok(say_written(rt, path, host, written));
    }
    match could_write(rt, host, how.force) {
        Written::Done => tell(rt, path, host, how.json),
        unwritten => Ok(say_written(rt, path, host, unwritten)),
    }
}

/// Writes the contents of a file to standard output, or prints that it would.
fn print<'a, R: AllocGlobal + Print, T: Targets>(
    rt: &R,
    targets: &mut T,
    path: &str,
    contents: &Contents<'_>,
    how: How<'_>,
) -> Result<Status, Stop<'a>>
    ensures status { IfOk result (λ s. s ≡ Code.Done) }
    ensures took { IfOk result (λ s. how.entry.only_tells ≡ false → (bytes : List ℕ) → ContentsAre contents.now bytes → T.took targets.new (codes "-") bytes) }
    ensures stay { StayTaken (T.took targets.old) (T.took targets.new) }
    ensures err { IfErr result EndsPrinting }
{
    if how.only_tells {
        return tell(rt, path, "-", how.json);
    }
    match targets.print(contents) {
        Ok(()) => Ok(Status::Done),
        Err(why) => Err(Stop::Unwritten(why)),
    }
}

/// A line, or an object, for a file that would be got.
fn tell<'a, R: AllocGlobal + Print>(
    rt: &R,
    path: &str,
    host: &str,
    json: bool,
) -> Result<Status, Stop<'a>>
    ensures ok { IfOk result (λ s. s ≡ Code.Done) }
    ensures err { IfErr result EndsPrinting }
{
    let line = if json {
        pair_object(rt.alloc(), "get", path, "to", host)?
    } else {
        let host = Shown(host);
        format!(in rt.alloc(); "get {path} to {host}\n")?
    };
    send(rt, line.as_str())
}

/// Says where a file could not be written, and gives the status.
fn say_written<R: Eprint>(rt: &R, path: &str, host: &str, written: Written) -> Status
    ensures { result ≡ status_written written }
{
    let host = Shown(host);
    let _ = match written {
        Written::Done => return Status::Done,
        Written::IsThere => {
            eprintln!(rt; "f11fs: {path}: {host} already exists; --force replaces it")
        }
        Written::Unmade(why) => eprintln!(rt; "f11fs: {path}: {host} cannot be made: {why}"),
        Written::Failed(HostFault::Left) => eprintln!(rt;
            "f11fs: {path}: {host}: {}",
            HostFault::Left
        ),
        Written::Failed(why) => eprintln!(rt; "f11fs: {path}: writing {host} failed: {why}"),
    };
    Status::Host
}

/// Whether both paths lead to one file of the host.
fn is_same_file<R: Files>(rt: &R, one: &str, other: &str) -> bool {
    match (fs::metadata(rt, one), fs::metadata(rt, other)) {
        (Ok(one), Ok(other)) => one.dev() == other.dev() && one.ino() == other.ino(),
        _ => false,
    }
}
