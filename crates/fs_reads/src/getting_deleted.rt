//! `get --deleted`: deleted files whose headers still exist, written to files of the host.
ghost use Rattle.std.specs.Prelude.{◌≡◌, ◌⊎◌, ◌++◌, ℕ, List, Option, true, IfErr, IfOk, IfSome, OnOk, codes};
ghost use Rattle.std.specs.Borrow.{Bor};
ghost use Rattle.std.specs.List.{All};
ghost use Rattle.ods_paths.specs.Paths.{File as OfId, Says};
ghost use Rattle.ods_shell.specs.Former.{IsFormer, IsUndeleted};
ghost use Rattle.ods_shell.specs.declared.status.Status.{Status as Code};
ghost use Rattle.ods_space.specs.Disks.{on};
ghost use Rattle.fs_reads.specs.Deleted.{EndsWords};
ghost use Rattle.fs_reads.specs.Ends.{may_name};
ghost use Rattle.fs_reads.specs.Gets.{AreSaid};
ghost use Rattle.fs_reads.specs.Targets.{AreTaken, IsWritten, StayTaken};
ghost use Rattle.fs_reads.specs.Undeleted.{AreIdsGot, EndsBy, IsFormerGot, IsIdGot, SaysId, SpellsId};

use crate::getting::{
    Destination, How, choose_destination, keep, path_within, second_for, split_words,
};
use crate::printing::{Reader, say_remark, say_unread};
use crate::progress::Progress;
use crate::reading::{Unread, check_right};
use crate::stop::{Stop, say_about, stop_about};
use crate::targets::Targets;
use fs_host::{HostZone, Shown};
use fs_words::Words;
use ods_base::FileId;
use ods_paths::{Path, parse_path};
use ods_remains::Shares;
use ods_shell::{
    Contents, FormFault, Former, FormerFault, Got, PathFault, Status, Wanted, find_former,
    open_former,
};
use ods_space::Disk;
use std::alloc::{AllocError, Global};
use std::collections::BTreeSet;
use std::fs::File;
use std::rt::Files;
use std::time::Clock;

/// `get --deleted`: extracts the deleted files with these IDs. Without `said`, the last of two or more words is the destination. With `partial`, also
/// extracts the rest of files that are not whole. With a zone, each host file receives the creation date of its file. No file is written if a path is
/// not an ID.
pub(crate) fn get_deleted<
    'a,
    R: Files<File = File> + Clock + AllocGlobal + Print + Eprint,
    T: Targets,
>(
    rt: &R,
    targets: &mut T,
    disk: &Disk<'_>,
    words: &Words<'a>,
    said: Option<&'a str>,
    wanted: Wanted,
    partial: bool,
    zone: Option<&HostZone>,
    progress: &mut Progress,
) -> Result<Status, Stop<'a>>
    ensures status { IfOk result (λ s. may_name s ≡ true) }
    ensures done { IfOk result (λ s. s ≡ Code.Done → (paths : List (Bor (List ℕ))) × ((target : Option (Bor (List ℕ))) × AreSaid words.now.paths.items said.entry paths target
        × on AreIdsGot disk.now words.now.user (IsWritten words.now.saving.only_tells (T.took targets.new) (λ id. on IsUndeleted disk.now id wanted partial)) paths)) }
{
    let (paths, target) = split_words(&words.paths, said);
    check_ids(rt.alloc(), paths)?;
    let to = choose_destination(rt, target, paths.len())?;
    let shares = Shares::of(rt.alloc(), disk)?;
    let how = How {
        image: words.image,
        wanted,
        with_versions: false,
        force: words.force,
        partial: false,
        only_tells: words.saving.only_tells,
        json: words.json,
        reader: Reader::of(words),
        zone,
    };
    get_all(
        rt, targets, disk, &shares, paths, to, how, partial, progress,
    )
}

/// Ends the command where one of these paths is no ID.
fn check_ids<'a>(alloc: Global, paths: &[&'a str]) -> Result<(), Stop<'a>>
    ensures ok { OnOk result (All (λ path. SaysId path.now) paths.now) }
    ensures err { IfErr result EndsWords }
{
    for path in paths {
        let _ = id_in(alloc, *path)?;
    }
    Ok(())
}

/// The ID that a word is, with or without its `#`, for a deleted file is in no directory.
fn id_in<'a>(alloc: Global, path: &'a str) -> Result<FileId, Stop<'a>>
    ensures ok { IfOk result (SpellsId path.entry.now) }
    ensures err { IfErr result EndsWords }
{
    if let Some(id) = unmarked_id(alloc, path)? {
        return Ok(id);
    }
    match parse_path(path.as_bytes()) {
        Ok(Path::File(id)) => Ok(id),
        Ok(Path::Within(_, _)) => {
            let why = "a deleted file is in no directory: give its ID, which find --deleted shows";
            Err(stop_about(alloc, path, why, Status::Words))
        }
        Err(bad) => Err(Stop::Path(path, PathFault::Bad(bad))),
    }
}

/// The ID that a word is without its `#`.
fn unmarked_id(alloc: Global, word: &str) -> Result<Option<FileId>, AllocError>
    ensures { IfOk result (λ found. IfSome found (λ id. Says (codes "#" ++ word.now) (OfId id))) }
{
    let text = format!(in alloc; "#{word}")?;
    match parse_path(text.as_bytes()) {
        Ok(Path::File(id)) => Ok(Some(id)),
        _ => Ok(None),
    }
}

/// Gets the deleted file of each of these IDs.
fn get_all<'a, R: Files<File = File> + Clock + AllocGlobal + Print + Eprint, T: Targets>(
    rt: &R,
    targets: &mut T,
    disk: &Disk<'_>,
    shares: &Shares<'_>,
    paths: &[&'a str],
    to: Destination<'_>,
    how: How<'_>,
    partial: bool,
    progress: &mut Progress,
) -> Result<Status, Stop<'a>>
    requires image { shares.now.image ≡ disk.now.image.now }
    requires layout { shares.now.layout ≡ disk.now.layout.now }
    ensures status { IfOk result (λ s. may_name s ≡ true) }
    ensures done { IfOk result (λ s. s ≡ Code.Done → on AreIdsGot disk.now how.entry.reader.user (IsWritten how.entry.only_tells (T.took targets.new) (λ id. on IsUndeleted disk.now id how.entry.wanted partial)) paths.now) }
    ensures stay { StayTaken (T.took targets.old) (T.took targets.new) }
{
    let mut written = BTreeSet::new(rt.alloc());
    let mut status = Status::Done;
    let mut before = 0u64;
    for path in paths {
        let done = get_id(
            rt,
            targets,
            disk,
            shares,
            *path,
            to,
            how,
            partial,
            &mut written,
        )?;
        status = status.or(done);
        if to != Destination::Output {
            progress.show(rt, before, paths.len() as u64);
        }
        before = before.saturating_add(1);
    }
    Ok(status)
}

/// Gets the deleted file with the ID that a path is. An ID of no deleted file, and a file that is refused, are said, and no fault of the command.
fn get_id<'a, R: Files<File = File> + AllocGlobal + Print + Eprint, T: Targets>(
    rt: &R,
    targets: &mut T,
    disk: &Disk<'_>,
    shares: &Shares<'_>,
    path: &'a str,
    to: Destination<'_>,
    how: How<'_>,
    partial: bool,
    written: &mut BTreeSet<String>,
) -> Result<Status, Stop<'a>>
    requires image { shares.now.image ≡ disk.now.image.now }
    requires layout { shares.now.layout ≡ disk.now.layout.now }
    ensures ends { IfOk result (EndsBy (on IsIdGot disk.now how.entry.reader.user (IsWritten how.entry.only_tells (T.took targets.new) (λ id. on IsUndeleted disk.now id how.entry.wanted partial)) path.entry.now)) }
    ensures stay { StayTaken (T.took targets.old) (T.took targets.new) }
{
    let id = id_in(rt.alloc(), path)?;
    match find_former(rt.alloc(), disk, shares, id)? {
        Some(former) => get_former(rt, targets, disk, &former, to, how, partial, written),
        None => {
            say_about(
                rt,
                path,
                "no deleted file has this ID; find --deleted lists the deleted files",
            );
            Ok(Status::Refused)
        }
    }
}

/// Gets a deleted file that this user might read.
fn get_former<'a, R: Files<File = File> + AllocGlobal + Print + Eprint, T: Targets>(
    rt: &R,
    targets: &mut T,
    disk: &Disk<'_>,
    former: &Former,
    to: Destination<'_>,
    how: How<'_>,
    partial: bool,
    written: &mut BTreeSet<String>,
) -> Result<Status, Stop<'a>>
    requires { on IsFormer disk.now former.now }
    ensures ends { IfOk result (EndsBy (IsFormerGot how.entry.reader.user (IsWritten how.entry.only_tells (T.took targets.new) (λ id. on IsUndeleted disk.now id how.entry.wanted partial)) former.now)) }
    ensures stay { StayTaken (T.took targets.old) (T.took targets.new) }
{
    let path = former.found.path.as_str();
    let Some(facts) = &former.found.facts else {
        return say_unread(rt, path, Unread::Form(FormFault::NoSuchFile));
    };
    if let Err(fault) = check_right(facts, how.reader.user) {
        return say_unread(rt, path, fault);
    }
    match open_former(rt.alloc(), disk, former, how.wanted, partial) {
        Ok(got) => put_got(rt, targets, former, &got, to, how, written),
        Err(fault) => say_ungot(rt, path, fault),
    }
}

/// Says why nothing is got out of a deleted file, and gives the status for that. Where memory is refused the command ends.
fn say_ungot<'a, R: Eprint>(rt: &R, path: &str, fault: FormerFault) -> Result<Status, Stop<'a>>
    ensures { IfOk result (λ s. s ≡ Code.Refused) }
{
    match fault {
        FormerFault::Form(fault) => say_unread(rt, path, Unread::Form(fault)),
        FormerFault::NotWhole(_) => {
            say_about(rt, path, fault);
            Ok(Status::Refused)
        }
    }
}

/// Writes what is got out of a deleted file to its destination.
fn put_got<'a, R: Files<File = File> + AllocGlobal + Print + Eprint, T: Targets>(
    rt: &R,
    targets: &mut T,
    former: &Former,
    got: &Got<'_>,
    to: Destination<'_>,
    how: How<'_>,
    written: &mut BTreeSet<String>,
) -> Result<Status, Stop<'a>>
    ensures status { IfOk result (λ s. (s ≡ Code.Done) ⊎ (s ≡ Code.Host)) }
    ensures took { IfOk result (λ s. s ≡ Code.Done → AreTaken how.entry.only_tells (T.took targets.new) got.now.contents) }
    ensures stay { StayTaken (T.took targets.old) (T.took targets.new) }
{
    let path = former.found.path.as_str();
    say_remark(rt, path, &got.remark, how.reader.quiet);
    let changed = second_for(how.zone, former.found.facts());
    match to {
        Destination::Output => keep(rt, targets, path, &got.contents, "-", None, how),
        Destination::File(host) => keep(rt, targets, path, &got.contents, host, changed, how),
        Destination::Folder(folder) => {
            let name = former.found.host_name(rt.alloc(), false)?;
            put_into(
                rt,
                targets,
                path,
                &got.contents,
                folder,
                name,
                changed,
                how,
                written,
            )
        }
    }
}

/// Writes what is got into a folder, under a name that is none of those that were written.
fn put_into<'a, R: Files<File = File> + AllocGlobal + Print + Eprint, T: Targets>(
    rt: &R,
    targets: &mut T,
    from: &str,
    contents: &Contents<'_>,
    folder: &str,
    name: String,
    changed: Option<u32>,
    how: How<'_>,
    written: &mut BTreeSet<String>,
) -> Result<Status, Stop<'a>>
    ensures status { IfOk result (λ s. (s ≡ Code.Done) ⊎ (s ≡ Code.Host)) }
    ensures took { IfOk result (λ s. s ≡ Code.Done → AreTaken how.entry.only_tells (T.took targets.new) contents.now) }
    ensures stay { StayTaken (T.took targets.old) (T.took targets.new) }
{
    let path = path_within(rt.alloc(), folder, name.as_str())?;
    if written.contains(&name) && (how.force || how.only_tells) {
        let path = Shown(path.as_str());
        let _ = eprintln!(rt;
            "f11fs: {from}: this command already wrote {path}; get this file to another TARGET"
        );
        return Ok(Status::Host);
    }
    let done = keep(rt, targets, from, contents, path.as_str(), changed, how)?;
    if done == Status::Done && written.insert(name).is_err() {
        return Err(Stop::NoMemory);
    }
    Ok(done)
}
