//! `cp --from`: copies whole files of another volume, which a mount may refuse, into this one.
ghost use Rattle.std.specs.Prelude.{◌≡◌, [], true, IfErr, MatchResult, OnOk, Some};
ghost use Rattle.std.specs.List.{All};
ghost use Rattle.ods_space.specs.Files.{FindsFiles};
ghost use Rattle.ods_space.specs.Disks.{on};
ghost use Rattle.ods_upkeep.specs.Kinds.{Copies};
ghost use Rattle.ods_upkeep.specs.Legs.{IsLedGiving};
ghost use Rattle.ods_upkeep.specs.CopiedFrom.{AreAllCopiedOver, AreCopiedOver, AreFilesFrom, FindsNoTwins, IsCopiedFrom, IsCopiedOver, IsLedFrom, are_passed_over, copied_of, own_version, owner_carried as carried_owner, stamp_for as date_of, target_for as place_of, version_for};
ghost use Rattle.ods_upkeep.specs.UncopiedFrom.{AreAllPassed, AreNoFilesFrom, AreNotCopiedOver, HasTwinned, IsNotCopiedFrom, IsNotCopiedOver, IsTwinned, StopsCopyingOver, passed_why};
ghost use Rattle.ods_upkeep.specs.declared.asked.Placing.TheVariants.{Anywhere};

use crate::asked::{CopyFrom, Placing};
use crate::copying::{bytes_on, check, check_all, make_copy};
use crate::failure::{Failure, Why, of_path};
use crate::like_files::placing_like;
use crate::readying::make_ready;
use crate::sources::sources_on;
use crate::target::Target;
use crate::targets::target_of;
use ods_amend::may_give;
use ods_base::Uic;
use ods_filing::Filing;
use ods_request::{Refusal, Stamp};
use ods_shell::{Alone, Facts, Found, Kind, Unsaid, find_path, have_twins};
use ods_space::Disk;
use std::alloc::Global;

/// Copies files of another volume to a directory of this one, or one file to a name there. A copy has all their blocks, their attributes, their
/// protection and their dates of creation, and on request their owners. `stamp` replaces a date that is not valid. Directories and the other volume's own files are passed over,
/// and refused if nothing else is found. A path that finds two entries of one directory with one name and version is refused. Rights on the other volume
/// are checked only of the reader, if there is one.
pub fn copy_from(
    alloc: Global,
    filing: &mut Filing,
    other: &Disk<'_>,
    stamp: Stamp,
    how: CopyFrom,
    paths: &[&str],
    to: &str,
) -> Result<(), Failure>
    requires { on FindsFiles other.now }
    // Where the blocks may stand anywhere, it is what LookUp, Create, Extend, Write, SetUser and Enter leave, with protections set in between, and
    // owners if they are kept, behind a growth of INDEXF.SYS.
    ensures led { how.placing ≡ Some Anywhere → OnOk result (IsLedFrom how.owners filing.old filing.new) }
    // Done, each file that is found on the other volume is copied to the target. Nothing else was done, but that INDEXF.SYS may have grown for them.
    ensures done { OnOk result (on IsCopiedFrom other.now how stamp paths.now to.now filing.old filing.new) }
    // Refused, it is so for a reason that holds, and of the path that the failure says.
    ensures refused { IfErr result (on IsNotCopiedFrom other.now how stamp paths.now to.now filing.old filing.new) }
{
    let files = files_from(alloc, other, paths)?;
    let target = target_of(alloc, filing.mounted(), files.len(), to)?;
    copy_each(alloc, filing, other, &how, &files, &target, stamp)
}

/// Copies these files of the other volume, if each of them may be copied.
pub(crate) fn copy_each(
    alloc: Global,
    filing: &mut Filing,
    other: &Disk<'_>,
    how: &CopyFrom,
    files: &[Found],
    target: &Target,
    stamp: Stamp,
) -> Result<(), Failure>
    requires { on FindsFiles other.now }
    ensures led { how.now.placing ≡ Some Anywhere → OnOk result (IsLedFrom how.now.owners filing.old filing.new) }
    ensures done { OnOk result (on AreAllCopiedOver other.now how.now target.now stamp files.now filing.old filing.new) }
    ensures refused { IfErr result (on AreNotCopiedOver other.now how.now target.now stamp files.now filing.old filing.new) }
{
    check_all(alloc, files, target, how.reader)?;
    make_ready(
        filing,
        files.len(),
        how.placing.unwrap_or(Placing::Anywhere),
    );
    copy_all_over(alloc, filing, other, how, files, target, stamp)
}

/// The files of the other volume that these paths find.
fn files_from(alloc: Global, other: &Disk<'_>, paths: &[&str]) -> Result<Vec<Found>, Failure>
    requires { on FindsFiles other.now }
    ensures { MatchResult result (λ files. on AreFilesFrom other.now paths.now files.items) (on AreNoFilesFrom other.now paths.now) }
{
    let mut files = sources_on(alloc, other, paths, Unsaid::highest(Alone::Files))?;
    refuse_twins(alloc, other, paths)?;
    refuse_none(alloc, &files)?;
    keep_copied(&mut files);
    Ok(files)
}

/// Refuses a path that finds two entries of one directory with one name and version, as a refused volume may have them. They would be copied as one.
fn refuse_twins(alloc: Global, other: &Disk<'_>, paths: &[&str]) -> Result<(), Failure>
    requires { on FindsFiles other.now }
    ensures none { OnOk result (All (λ path. on FindsNoTwins other.now path.now) paths.now) }
    ensures some { IfErr result (on HasTwinned other.now paths.now) }
{
    for path in paths {
        if let Err(why) = refuse_twins_of(alloc, other, path) {
            return Err(of_path(alloc, path, why));
        }
    }
    Ok(())
}

/// Refuses this path where it finds two such entries.
fn refuse_twins_of(alloc: Global, other: &Disk<'_>, path: &str) -> Result<(), Why>
    requires { on FindsFiles other.now }
    ensures { MatchResult result (λ _. on FindsNoTwins other.now path.now) (on IsTwinned other.now path.now) }
{
    let (found, _) = find_path(alloc, other, path, Unsaid::highest(Alone::Files), &[])?;
    if have_twins(&found) {
        return Err(Why::Request(Refusal::NameTaken));
    }
    Ok(())
}

/// Refuses what was found where all of it is passed over.
fn refuse_none(alloc: Global, all: &[Found]) -> Result<(), Failure>
    ensures some { OnOk result (are_passed_over all.now ≡ true → all.now ≡ []) }
    ensures none { IfErr result (AreAllPassed all.now) }
{
    let Some((first, _)) = all.split_first() else {
        return Ok(());
    };
    if are_passed_over(all) {
        return Err(of_path(alloc, &first.path, why_passed_over(first)));
    }
    Ok(())
}

/// Whether each of these is passed over.
fn are_passed_over(all: &[Found]) -> bool
    ensures { result ≡ are_passed_over all.now }
{
    all.iter().all(|found| found.is_passed_over())
}

/// Why what is passed over is not copied.
fn why_passed_over(found: &Found) -> Why
    ensures { result ≡ passed_why found.now.facts }
{
    let Some(facts) = found.facts() else {
        return Why::Request(Refusal::Reserved);
    };
    match facts.kind {
        Kind::Directory => Why::IsDirectory,
        Kind::Text | Kind::Records | Kind::Binary => Why::Request(Refusal::Reserved),
    }
}

/// Leaves those that are copied.
fn keep_copied(all: &mut Vec<Found>)
    ensures { all.new.items ≡ copied_of all.old.items }
{
    all.retain(|found| !found.is_passed_over());
}

/// Copies these files of the other volume, one after another.
fn copy_all_over(
    alloc: Global,
    filing: &mut Filing,
    other: &Disk<'_>,
    how: &CopyFrom,
    all: &[Found],
    target: &Target,
    stamp: Stamp,
) -> Result<(), Failure>
    requires { on FindsFiles other.now }
    ensures led { how.now.placing ≡ Some Anywhere → OnOk result (IsLedGiving how.now.owners Copies filing.old filing.new) }
    ensures done { OnOk result (on AreCopiedOver other.now how.now target.now stamp all.now filing.old filing.new) }
    ensures refused { IfErr result (on StopsCopyingOver other.now how.now target.now stamp all.now filing.old filing.new) }
{
    for found in all {
        if let Err(why) = copy_over(alloc, filing, other, how, found, target, stamp) {
            return Err(of_path(alloc, &found.path, why));
        }
    }
    Ok(())
}

/// Copies a file of the other volume.
fn copy_over(
    alloc: Global,
    filing: &mut Filing,
    other: &Disk<'_>,
    how: &CopyFrom,
    found: &Found,
    target: &Target,
    stamp: Stamp,
) -> Result<(), Why>
    requires { on FindsFiles other.now }
    ensures led { how.now.placing ≡ Some Anywhere → OnOk result (IsLedGiving how.now.owners Copies filing.old filing.new) }
    ensures done { OnOk result (on IsCopiedOver other.now how.now target.now stamp found.now filing.old filing.new) }
    ensures refused { IfErr result (on IsNotCopiedOver other.now how.now target.now stamp found.now filing.old filing.new) }
{
    let (facts, name) = check(found, target, how.reader)?;
    let bytes = bytes_on(alloc, other, facts.file)?;
    let place = target_for(target, found, &facts, how.next);
    let placing = placing_like(how.placing, &facts);
    let date = stamp_for(&facts, stamp);
    let owner = owner_carried(how.owners, filing.user(), facts.owner);
    make_copy(
        alloc, filing, placing, &place, name, date, owner, &facts, &bytes,
    )
}

/// The owner that a copy receives: that of its file, if owners are kept and the user may give it.
pub(crate) fn owner_carried(keeps: bool, user: Uic, owner: Uic) -> Option<Uic>
    ensures { result ≡ carried_owner keeps user owner }
{
    if keeps && may_give(&user, &owner) {
        Some(owner)
    } else {
        None
    }
}

/// Where the copy of a file goes.
fn target_for(target: &Target, found: &Found, facts: &Facts, next: bool) -> Target
    ensures { result ≡ place_of target.now found.now facts.now next }
{
    Target {
        directory: target.directory,
        name: target.name,
        version: version_asked(target, found, facts, next),
    }
}

/// The version under which the copy of a file is entered; `None` where it is the next one.
fn version_asked(target: &Target, found: &Found, facts: &Facts, next: bool) -> Option<u16>
    ensures { result ≡ version_for target.now found.now facts.now next }
{
    if next {
        target.version
    } else {
        target.version.or(Some(version_of(found, facts)))
    }
}

/// The version of a file: that of its entry, or without one that in its header.
fn version_of(found: &Found, facts: &Facts) -> u16
    ensures { result ≡ own_version found.now.place facts.now }
{
    match found.place() {
        Some(place) => place.entry.version,
        None => u16::from_le_bytes([facts.ident[8], facts.ident[9]]),
    }
}

/// The stamp of the copy of a file: its date of creation, where that is one; else this.
pub(crate) fn stamp_for(facts: &Facts, stamp: Stamp) -> Stamp
    ensures { result ≡ date_of facts.now stamp }
{
    match Stamp::parse(&facts.creation_date()) {
        Some(date) => date,
        None => stamp,
    }
}
