//! `rm` removes names, and deletes the files that have no name left.
ghost use Rattle.std.specs.Prelude.{◌≡◌, slice_index, false, true, IfErr, OnErr, OnOk};
ghost use Rattle.ods_filing.specs.Led.{IsAsked, IsLed, IsObeyed};
ghost use Rattle.ods_base.specs.declared.name.Pick.{Pick};
ghost use Rattle.ods_request.specs.declared.requests.Request.{Request};
ghost use Rattle.ods_upkeep.specs.Kinds.{Removes};
ghost use Rattle.ods_upkeep.specs.Refused.{AreNotKept, IsFirstKept, IsRefusedBy, StopsAt};
ghost use Rattle.ods_upkeep.specs.Removed.{Does, IsNotRemoved, IsRemoved, MayNotGo, StopsGoing, entry_gone, file_gone, names_left, one_gone, removals};
ghost use Rattle.ods_upkeep.specs.declared.failure.Why.{Why as Reason};

use crate::Removal;
use crate::asking::{delete, remove};
use crate::failure::{Failure, Why, of_path};
use crate::names::Names;
use crate::own_files::stays;
use crate::sources::sources;
use ods_filing::Filing;
use ods_request::Refusal;
use ods_shell::{Alone, EntryPlace, Facts, Found, Kind, Unsaid};
use std::alloc::Global;

/// Removes entries, and deletes each file that no entry of any directory names any more. A path must specify its versions, or `newest` is requested.
/// A file by its ID is deleted if no entry names it. Directories stay.
/// None of its requests writes a block of a plain file.
pub fn remove_files(
    alloc: Global,
    filing: &mut Filing,
    paths: &[&str],
    removal: Removal,
) -> Result<(), Failure>
    // Refused or not, it is what Remove and Delete leave, and where the entries alone go, Remove.
    ensures led { IsLed (Removes removal.entry_alone) filing.old filing.new }
    // Done, each entry that is named has gone, and each file that no entry names any more.
    ensures done { OnOk result (IsRemoved removal.entry_alone removal.newest paths.now filing.old filing.new) }
    // Refused, it is so for a reason that holds, and of the path that the failure says.
    ensures refused { IfErr result (IsNotRemoved removal.entry_alone removal.newest paths.now filing.old filing.new) }
{
    let unsaid = if removal.newest {
        Unsaid::highest(Alone::Refused)
    } else {
        Unsaid {
            versions: None,
            alone: Alone::Refused,
        }
    };
    let all = sources(alloc, filing.mounted(), paths, unsaid)?;
    let mut names = match Names::of(alloc, filing.mounted()) {
        Ok(names) => names,
        Err(error) => return Err(of_path(alloc, "", error.into())),
    };
    check_all(alloc, &all, &names, removal)?;
    remove_all(alloc, filing, &all, &mut names, removal)
}

/// Why one of these is not removed, the first one, as far as it can be seen before.
fn check_all(alloc: Global, all: &[Found], names: &Names, removal: Removal) -> Result<(), Failure>
    ensures ok { OnOk result (AreNotKept (MayNotGo removal.entry_alone (slice_index names.now)) all.now) }
    ensures err { IfErr result (IsFirstKept (MayNotGo removal.entry_alone (slice_index names.now)) all.now) }
{
    for found in all {
        if let Err(why) = check(found, names, removal) {
            return Err(of_path(alloc, &found.path, why));
        }
    }
    Ok(())
}

/// Removes these, in order.
pub(crate) fn remove_all(
    alloc: Global,
    filing: &mut Filing,
    all: &[Found],
    names: &mut Names,
    removal: Removal,
) -> Result<(), Failure>
    ensures led { IsLed (Removes removal.entry_alone) filing.old filing.new }
    ensures done { OnOk result (Does filing.old (removals removal.entry_alone (slice_index names.old) all.now) filing.new) }
    ensures refused { IfErr result (StopsGoing removal.entry_alone (slice_index names.old) all.now filing.old filing.new) }
{
    for found in all {
        if let Err(why) = remove_one(filing, found, names, removal) {
            return Err(of_path(alloc, &found.path, why));
        }
    }
    Ok(())
}

/// Why this is not removed, as far as it can be seen before.
fn check(found: &Found, names: &Names, removal: Removal) -> Result<(), Why>
    ensures ok { OnOk result ((why : Reason) → ¬ MayNotGo removal.entry_alone (slice_index names.now) found.now why) }
    ensures err { IfErr result (MayNotGo removal.entry_alone (slice_index names.now) found.now) }
{
    if stays(found) {
        return Err(Why::Request(Refusal::Reserved));
    }
    if removal.entry_alone {
        return match found.place() {
            Some(_) => Ok(()),
            None => Err(Why::IsId),
        };
    }
    let Some(facts) = found.facts() else {
        return Ok(());
    };
    if facts.kind == Kind::Directory {
        return Err(Why::IsDirectory);
    }
    if found.place().is_none() && names.count(facts.file) > 0 {
        return Err(Why::IsNamed);
    }
    Ok(())
}

/// Removes an entry, and deletes its file if no entry is left; or deletes a file by its ID.
pub(crate) fn remove_one(
    filing: &mut Filing,
    found: &Found,
    names: &mut Names,
    removal: Removal,
) -> Result<(), Why>
    ensures led { IsLed (Removes removal.entry_alone) filing.old filing.new }
    ensures done { OnOk result (Does filing.old (one_gone removal.entry_alone (slice_index names.old) found.now.place found.now.facts) filing.new) }
    ensures refused { IfErr result (StopsAt filing.old (one_gone removal.entry_alone (slice_index names.old) found.now.place found.now.facts) filing.new) }
    ensures names { OnOk result (slice_index names.new ≡ names_left (slice_index names.old) found.now.place found.now.facts) }
{
    remove_place(filing, found.place())?;
    take_name(names, found);
    if removal.entry_alone {
        return Ok(());
    }
    delete_unnamed(filing, names, found.facts())
}

/// One entry less names the file, where there is an entry and a file.
fn take_name(names: &mut Names, found: &Found)
    ensures { slice_index names.new ≡ names_left (slice_index names.old) found.now.place found.now.facts }
{
    if let Some(facts) = found.facts() {
        if found.place().is_some() {
            names.take(facts.file);
        }
    }
}

/// Deletes the file, where there is one that no entry names.
fn delete_unnamed(filing: &mut Filing, names: &Names, facts: Option<Facts>) -> Result<(), Why>
    ensures led { IsLed (Removes false) filing.old filing.new }
    ensures done { OnOk result (Does filing.old (file_gone (slice_index names.now) facts) filing.new) }
    ensures refused { IfErr result (StopsAt filing.old (file_gone (slice_index names.now) facts) filing.new) }
{
    if let Some(facts) = facts {
        if names.count(facts.file) == 0 {
            return delete(filing, facts.file);
        }
    }
    Ok(())
}

/// Removes an entry, where there is one.
fn remove_place(filing: &mut Filing, place: Option<EntryPlace>) -> Result<(), Why>
    ensures led { IsLed (Removes true) filing.old filing.new }
    ensures done { OnOk result (Does filing.old (entry_gone place) filing.new) }
    ensures refused { IfErr result (StopsAt filing.old (entry_gone place) filing.new) }
{
    match place {
        Some(place) => remove_at(filing, &place),
        None => Ok(()),
    }
}

/// Removes the entry at this location.
pub(crate) fn remove_at(filing: &mut Filing, place: &EntryPlace) -> Result<(), Why>
    ensures done { OnOk result (IsObeyed filing.old (Request.Remove place.now.directory place.now.entry.name (Pick.Exact place.now.entry.version)) filing.new) }
    ensures asked { IsAsked filing.old (Request.Remove place.now.directory place.now.entry.name (Pick.Exact place.now.entry.version)) filing.new }
    ensures refused { IfErr result (IsRefusedBy filing.old (Request.Remove place.now.directory place.now.entry.name (Pick.Exact place.now.entry.version))) }
    ensures unchanged { OnErr result (filing.new ≡ filing.old) }
{
    let entry = place.entry;
    remove(filing, place.directory, entry.name, entry.version)
}
