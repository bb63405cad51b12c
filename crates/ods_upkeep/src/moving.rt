//! `mv` moves names to other directories, or gives files other names.
ghost use Rattle.std.specs.Prelude.{◌≡◌, ◌⊎◌, ◌↔◌, ◌≤◌, length, map, Some, IfErr, IfOk, IsTrue, MatchBool, MatchResult, OnOk};
ghost use Rattle.std.specs.List.{Contains};
ghost use Rattle.ods_filing.specs.Led.{IsLed};
ghost use Rattle.ods_upkeep.specs.declared.failure.Why.{Why as Reason};
ghost use Rattle.ods_upkeep.specs.{Kinds.Renames, Refused.AreNotKept, Refused.IsFirstKept, Refused.no_memory, Removed.Does};
ghost use Rattle.ods_upkeep.specs.Moved.{AreMoved, ChangesType, GoesIntoItself, HasBelow, IsFree, IsFreeName, IsMoved, IsNotMoved, IsNotMoving, IsTakenName, MayNotMove, StopsMoving, one_moved, version_for as version_meant};

use crate::asking::{enter, obey, remove};
use crate::failure::{Failure, Why, of_path};
use crate::names::is_directory_file;
use crate::own_files::stays;
use crate::sources::sources;
use crate::target::Target;
use crate::targets::target_of;
use ods_base::{DIRECTORY_TYPE, Name, Pick};
use ods_filing::Filing;
use ods_mount::Mounted;
use ods_request::{Refusal, Request};
use ods_shell::{Alone, EntryPlace, Found, Kind, Unsaid};
use ods_walk::{Walk, walk_from};
use std::alloc::Global;

/// Moves names to an existing directory, or gives one file another name. The file is entered under the next version if none is given. Then exactly
/// the entry that was found is removed.
/// None of its requests changes the bytes of a plain file.
pub fn move_names(
    alloc: Global,
    filing: &mut Filing,
    paths: &[&str],
    to: &str,
) -> Result<(), Failure>
    // Refused or not, it is what LookUp, Enter and Remove leave.
    ensures led { IsLed Renames filing.old filing.new }
    // Done, each name that is meant has moved to the target, and no other.
    ensures done { OnOk result (IsMoved paths.now to.now filing.old filing.new) }
    // Refused, it is so for a reason that holds, and of the path that the failure says.
    ensures refused { IfErr result (IsNotMoved paths.now to.now filing.old filing.new) }
{
    let all = sources(
        alloc,
        filing.mounted(),
        paths,
        Unsaid::highest(Alone::Themselves),
    )?;
    let target = target_of(alloc, filing.mounted(), all.len(), to)?;
    check_all(alloc, filing.mounted(), &all, &target)?;
    move_all(alloc, filing, &all, &target)
}

/// Why one of these names does not go to this target, the first one, as far as it can be seen before.
fn check_all(alloc: Global, volume: &Mounted, all: &[Found], target: &Target) -> Result<(), Failure>
    ensures ok { OnOk result (AreNotKept (MayNotMove volume.now.image volume.now.layout target.now) all.now) }
    ensures err { IfErr result (λ failure. IsFirstKept (MayNotMove volume.now.image volume.now.layout target.now) all.now failure ⊎ (failure.why ≡ no_memory)) }
{
    for found in all {
        if let Err(why) = check(alloc, volume, found, target) {
            return Err(of_path(alloc, &found.path, why));
        }
    }
    Ok(())
}

/// Moves these names, one after another.
fn move_all(
    alloc: Global,
    filing: &mut Filing,
    all: &[Found],
    target: &Target,
) -> Result<(), Failure>
    ensures led { IsLed Renames filing.old filing.new }
    ensures done { OnOk result (AreMoved target.now all.now filing.old filing.new) }
    ensures refused { IfErr result (StopsMoving target.now all.now filing.old filing.new) }
{
    for found in all {
        if let Err(why) = rename(filing, found, target) {
            return Err(of_path(alloc, &found.path, why));
        }
    }
    Ok(())
}

/// Why a name does not go to this target: it is one that stays, its type would become DIR, or DIR would become another, or a directory would go into
/// itself or below.
fn check(alloc: Global, volume: &Mounted, found: &Found, target: &Target) -> Result<(), Why>
    ensures ok { OnOk result ((why : Reason) → ¬ MayNotMove volume.now.image volume.now.layout target.now found.now why) }
    ensures err { IfErr result (λ why. MayNotMove volume.now.image volume.now.layout target.now found.now why ⊎ (why ≡ no_memory)) }
{
    let Some(place) = found.place() else {
        return Err(Why::IsId);
    };
    if stays(found) {
        return Err(Why::Request(Refusal::Reserved));
    }
    if changes_type(&place, target) {
        return Err(Why::DirectoryType);
    }
    if is_into_itself(alloc, volume, found, target)? {
        return Err(Why::IntoItself);
    }
    Ok(())
}

/// Whether one of the types, that of the entry and that of the name it gets, is DIR.
fn changes_type(place: &EntryPlace, target: &Target) -> bool
    ensures { IsTrue result ↔ ChangesType target.now (Some place.now) }
{
    let entry = place.entry;
    let name = target.name.unwrap_or(entry.name);
    (name.ext() == DIRECTORY_TYPE) != (entry.name.ext() == DIRECTORY_TYPE)
}

/// Whether a directory would go into itself or below.
fn is_into_itself(
    alloc: Global,
    volume: &Mounted,
    found: &Found,
    target: &Target,
) -> Result<bool, Why>
    ensures { MatchResult result (λ into. MatchBool into (GoesIntoItself volume.now.image volume.now.layout target.now found.now.facts)
        (¬ GoesIntoItself volume.now.image volume.now.layout target.now found.now.facts)) (λ why. why ≡ no_memory) }
{
    let Some(facts) = found.facts() else {
        return Ok(false);
    };
    if facts.kind != Kind::Directory {
        return Ok(false);
    }
    leads_to(alloc, volume, facts.file.number, target.directory.number)
}

/// Whether a directory is this one, or has it below.
fn leads_to(alloc: Global, volume: &Mounted, from: u16, to: u16) -> Result<bool, Why>
    ensures { MatchResult result (λ leads. MatchBool leads (HasBelow volume.now.image volume.now.layout from to) (¬ HasBelow volume.now.image volume.now.layout from to))
        (λ why. why ≡ no_memory) }
{
    // An image has few blocks, and so its headers have small numbers.
    let _ = volume.image().len();
    if from == to {
        return Ok(true);
    }
    if !is_directory_file(volume, from) {
        return Ok(false);
    }
    let disk = volume.disk();
    let walk = walk_from(alloc, &disk, from)?;
    Ok(has_entered(&walk, to))
}

/// Whether a walk has entered the directory with this number.
fn has_entered(walk: &Walk, number: u16) -> bool
    requires { length walk.now.directories ≤ 65536 }
    ensures { MatchBool result (Contains (map (λ d. d.number) walk.now.directories) number) (¬ Contains (map (λ d. d.number) walk.now.directories) number) }
{
    for place in 0..65_536 {
        match walk.directory(place) {
            Some(entered) => {
                if entered.number == number {
                    return true;
                }
            }
            None => return false,
        }
    }
    false
}

/// Moves one name.
fn rename(filing: &mut Filing, found: &Found, target: &Target) -> Result<(), Why>
    ensures led { IsLed Renames filing.old filing.new }
    ensures done { OnOk result (Does filing.old (one_moved target.now found.now.place) filing.new) }
    ensures free { OnOk result (IsFree filing.old target.now found.now.place) }
    ensures refused { IfErr result (IsNotMoving target.now found.now.place filing.old filing.new) }
{
    let Some(place) = found.place() else {
        return Err(Why::IsId);
    };
    let entry = place.entry;
    let name = target.name.unwrap_or(entry.name);
    let version = version_for(filing, target, name)?;
    enter(filing, target.directory, name, version, entry.file)?;
    remove(filing, place.directory, entry.name, entry.version)
}

/// The version under which a name is entered: the one that is said; of a directory 1, where none of the name is there.
fn version_for(filing: &mut Filing, target: &Target, name: Name) -> Result<Option<u16>, Why>
    ensures led { IsLed Renames filing.old filing.new }
    ensures same { OnOk result (filing.new ≡ filing.old) }
    ensures version { IfOk result (λ version. version ≡ version_meant target.now.version name) }
    ensures free { OnOk result (IsFreeName filing.old target.now name) }
    ensures refused { IfErr result (IsTakenName target.now name filing.old filing.new) }
{
    if let Some(version) = target.version {
        return Ok(Some(version));
    }
    if name.ext() != DIRECTORY_TYPE {
        return Ok(None);
    }
    let request = Request::LookUp {
        dir: target.directory,
        name,
        pick: Pick::Highest,
    };
    let Err(_) = obey(filing, request) else {
        return Err(Why::Request(Refusal::NameTaken));
    };
    Ok(Some(1))
}
