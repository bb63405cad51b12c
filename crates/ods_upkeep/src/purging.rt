//! `purge` keeps the highest versions of each name, and removes the versions below them.
ghost use Rattle.std.specs.Prelude.{◌≡◌, false, IfErr, IfOk, MatchResult, OnOk};
ghost use Rattle.std.specs.List.{All};
ghost use Rattle.ods_filing.specs.Led.{IsLed};
ghost use Rattle.ods_upkeep.specs.Kinds.{Removes};
ghost use Rattle.ods_upkeep.specs.NameCounts.{IsCountedAlso, count_in};
ghost use Rattle.ods_upkeep.specs.Purged.{HasNoVersion, IsFirstNotOfNames, IsNotOfNames, IsNotPurged, IsPurged, name_key, superseded};

use crate::asked::Removal;
use crate::failure::{Failure, Why, of_path};
use crate::names::Names;
use crate::removing::remove_all;
use crate::sources::sources;
use ods_filing::Filing;
use ods_paths::{Path, Versions, parse_path};
use ods_shell::{Alone, EntryPlace, Found, Unsaid};
use std::alloc::{AllocError, Global};
use std::collections::BTreeMap;

/// All versions of a name are found; a path that says directories alone is refused.
const EVERY_VERSION: Unsaid = Unsaid {
    versions: Some(Versions::Every),
    alone: Alone::Refused,
};

/// Keeps the `keep` highest versions of each name that the paths find, and removes the others. As `remove_files` does, it removes their entries, and
/// each file that no entry names any more. Directories and the volume's own files stay. A path with versions, or with an ID, is refused.
pub fn purge_files(
    alloc: Global,
    filing: &mut Filing,
    paths: &[&str],
    keep: u32,
) -> Result<(), Failure>
    // Refused or not, it is what Remove and Delete leave.
    ensures led { IsLed (Removes false) filing.old filing.new }
    // Done, of each name all but the highest versions have gone.
    ensures done { OnOk result (IsPurged keep paths.now filing.old filing.new) }
    // Refused, it is so for a reason that holds, and of the path that the failure says.
    ensures refused { IfErr result (IsNotPurged keep paths.now filing.old filing.new) }
{
    check_paths(alloc, paths)?;
    let all = sources(alloc, filing.mounted(), paths, EVERY_VERSION)?;
    let mut names = match Names::of(alloc, filing.mounted()) {
        Ok(names) => names,
        Err(error) => return Err(of_path(alloc, "", error.into())),
    };
    let going = match superseded(alloc, all, keep) {
        Ok(going) => going,
        Err(error) => return Err(of_path(alloc, "", error.into())),
    };
    let removal = Removal {
        entry_alone: false,
        newest: false,
    };
    remove_all(alloc, filing, &going, &mut names, removal)
}

/// Why one of these paths is not one of names without versions, the first one.
fn check_paths(alloc: Global, paths: &[&str]) -> Result<(), Failure>
    ensures { MatchResult result (λ _. All (λ path. HasNoVersion path.now) paths.now) (IsFirstNotOfNames paths.now) }
{
    for path in paths {
        if let Err(why) = check_path(path) {
            return Err(of_path(alloc, path, why));
        }
    }
    Ok(())
}

/// Why this is no path of names without versions.
fn check_path(path: &str) -> Result<(), Why>
    ensures { MatchResult result (λ _. HasNoVersion path.now) (IsNotOfNames path.now) }
{
    match parse_path(path.as_bytes()) {
        Ok(Path::File(_)) => Err(Why::IsId),
        Ok(Path::Within(_, None)) => Ok(()),
        Ok(Path::Within(_, Some(files))) => match files.versions {
            None => Ok(()),
            Some(_) => Err(Why::Versioned),
        },
        Err(bad) => Err(bad.into()),
    }
}

/// Of these, in which the versions of each name rise, all but the last `keep` of each name.
fn superseded(alloc: Global, all: Vec<Found>, keep: u32) -> Result<Vec<Found>, AllocError>
    ensures { IfOk result (λ going. going.items ≡ superseded keep all.items) }
{
    let mut all = all;
    let mut counts = BTreeMap::new(alloc);
    let mut going = Vec::new(alloc);
    while let Some(found) = all.pop() {
        let behind = count_one(&mut counts, key(&found.place))?;
        if behind >= keep && !found.is_passed_over() {
            going.push(found)?;
        }
    }
    going.reverse();
    Ok(going)
}

/// How many of the name came before this one, which is counted too.
fn count_one(counts: &mut BTreeMap<[u16; 5], u32>, name: [u16; 5]) -> Result<u32, AllocError>
    ensures before { IfOk result (λ before. before ≡ count_in counts.old.entries name) }
    ensures after { OnOk result (IsCountedAlso counts.old.entries name counts.new.entries) }
{
    let before = counts.get(&name).copied().unwrap_or(0);
    counts.insert(name, before.saturating_add(1))?;
    Ok(before)
}

/// What tells names in directories apart.
fn key(place: &Option<EntryPlace>) -> [u16; 5]
    ensures { result ≡ name_key place.now }
{
    match place {
        Some(place) => {
            let words = place.entry.name.words();
            [
                place.directory.number,
                place.entry.name.ext(),
                words[0],
                words[1],
                words[2],
            ]
        }
        None => [0; 5],
    }
}
