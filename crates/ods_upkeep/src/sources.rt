//! The files that the words of a command select, each name once, in the order of the changes.
ghost use Rattle.std.specs.Prelude.{◌≡◌, ◌++◌, ◌∷◌, [], ◌⊎◌, List, reverse, IfOk, MatchResult, OnOk};
ghost use Rattle.ods_shell.specs.declared.found.Found.{Found as One};
ghost use Rattle.ods_upkeep.specs.Refused.{AreNoSources, IsNoSource};
ghost use Rattle.ods_upkeep.specs.Sources.{AreFirst, AreOfPath, AreSources, IsAgain};
ghost use Rattle.ods_upkeep.specs.Once.{HasKeysOf, key_of};
ghost use Rattle.ods_space.specs.Files.{FindsFiles};
ghost use Rattle.ods_space.specs.Disks.{on};

use crate::failure::{Failure, Why, of_path};
use ods_mount::Mounted;
use ods_shell::{Found, Unsaid, find_path};
use ods_space::Disk;
use std::alloc::{AllocError, Global};
use std::collections::BTreeSet;

/// Returns what these paths find. The results of one path are reversed, so that the versions of one name rise.
pub(crate) fn sources(
    alloc: Global,
    volume: &Mounted,
    paths: &[&str],
    unsaid: Unsaid,
) -> Result<Vec<Found>, Failure>
    ensures { MatchResult result (λ found. AreSources volume.now.image volume.now.layout unsaid paths.now found.items)
        (AreNoSources volume.now.image volume.now.layout unsaid paths.now) }
{
    let disk = volume.disk();
    sources_on(alloc, &disk, paths, unsaid)
}

/// Returns the same on a volume that a mount may refuse.
pub(crate) fn sources_on(
    alloc: Global,
    disk: &Disk<'_>,
    paths: &[&str],
    unsaid: Unsaid,
) -> Result<Vec<Found>, Failure>
    requires { on FindsFiles disk.now }
    ensures { MatchResult result (λ found. on AreSources disk.now unsaid paths.now found.items) (on AreNoSources disk.now unsaid paths.now) }
{
    let mut all = Vec::new(alloc);
    for path in paths {
        if let Err(why) = add_found(alloc, disk, path, unsaid, &mut all) {
            return Err(of_path(alloc, path, why));
        }
    }
    match each_once(alloc, all) {
        Ok(all) => Ok(all),
        Err(error) => Err(of_path(alloc, "", error.into())),
    }
}

/// Adds what a path finds, the last first.
fn add_found(
    alloc: Global,
    disk: &Disk<'_>,
    path: &str,
    unsaid: Unsaid,
    all: &mut Vec<Found>,
) -> Result<(), Why>
    requires { on FindsFiles disk.now }
    ensures { MatchResult result (λ _. (here : List One) × on AreOfPath disk.now unsaid path.now here × (all.new.items ≡ all.old.items ++ reverse here))
        (on IsNoSource disk.now unsaid path.now) }
{
    let (mut found, _) = find_path(alloc, disk, path, unsaid, &[])?;
    found.reverse();
    all.append(&mut found)?;
    Ok(())
}

/// What tells names and files apart: of an entry the directory, the type, the version and the name; of a file without one its ID.
fn key(found: &Found) -> [u16; 7]
    ensures { result ≡ key_of found.now.place found.now.facts }
{
    match (&found.place, &found.facts) {
        (Some(place), _) => {
            let words = place.entry.name.words();
            [
                0,
                place.directory.number,
                place.entry.name.ext(),
                place.entry.version,
                words[0],
                words[1],
                words[2],
            ]
        }
        (None, Some(facts)) => [1, facts.file.number, facts.file.sequence, 0, 0, 0, 0],
        (None, None) => [2, 0, 0, 0, 0, 0, 0],
    }
}

/// These, each name once.
fn each_once(alloc: Global, all: Vec<Found>) -> Result<Vec<Found>, AllocError>
    ensures { IfOk result (λ once. AreFirst [] all.items once.items) }
{
    let mut seen = BTreeSet::new(alloc);
    let mut once = Vec::new(alloc);
    for found in all {
        add_first(&mut seen, &mut once, found)?;
    }
    Ok(once)
}

/// Adds this, where its key is not among those that were seen.
fn add_first(
    seen: &mut BTreeSet<[u16; 7]>,
    once: &mut Vec<Found>,
    found: Found,
) -> Result<(), AllocError>
    ensures { OnOk result ((before : List One) → HasKeysOf seen.old before → HasKeysOf seen.new (before ++ found ∷ [])
        × ((IsAgain before found × (once.new.items ≡ once.old.items)) ⊎ ((¬ IsAgain before found) × (once.new.items ≡ once.old.items ++ found ∷ [])))) }
{
    if seen.insert(key(&found))? {
        once.push(found)?;
    }
    Ok(())
}
