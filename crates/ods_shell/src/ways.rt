//! The directories that the steps of a path reach.
ghost use Rattle.std.specs.Prelude.{◌≡◌, ◌+◌, ◌<◌, ◌++◌, ◌∷◌, ℕ, List, [], IfOk, OnOk, MatchBool, IsSortedByKey, Some, length, slice_get, take};
ghost use Rattle.ods_base.specs.declared.listed.Listed.{Listed as Entry};
ghost use Rattle.ods_paths.specs.{Order.listing_cmp, Views.step as said_step, Views.steps as said_steps};
ghost use Rattle.ods_walk.specs.Listing.{shown};
ghost use Rattle.ods_shell.specs.Choosing.{AreThose};
ghost use Rattle.ods_shell.specs.declared.folders.Directory.{Directory as One};
ghost use Rattle.ods_shell.specs.Ways.{AreMet, AreNamedIn, AreStarts, AreSteps, AreWays, CountAsClosed, HasNumbers, IsMeant, IsStep, IsWayBy, LeadsOn};
ghost use Rattle.ods_space.specs.Disks.{on};

use crate::choosing::{is_chosen, is_highest};
use crate::folders::{Closed, Directory, MASTER, directory_of, lines_of, master};
use ods_base::{Listed, Name, print_title};
use ods_paths::{Files, Step, Steps, Versions, numbered_name};
use ods_space::Disk;
use std::alloc::{AllocError, Global};

/// Returns the directory entries of a directory in the order of a listing. Returns none for a closed directory, and notes it.
pub(crate) fn ways_from(
    alloc: Global,
    disk: &Disk<'_>,
    number: u16,
    names: &[Name],
    closed: &mut Closed<'_>,
) -> Result<Vec<Listed>, AllocError>
    ensures ways { IfOk result (λ ways. (shut : List ℕ) → CountAsClosed closed.old.numbers.now closed.new.met.items shut
        → on AreWays disk.now shut number ways.items) }
    ensures sorted { IfOk result (λ ways. IsSortedByKey shown listing_cmp ways.items) }
    ensures same { closed.new.numbers ≡ closed.old.numbers }
    ensures met { OnOk result (AreMet closed.old.numbers.now closed.old.met.items closed.new.met.items) }
{
    let mut ways = Vec::new(alloc);
    if closed.stops(alloc, number, names)? {
        return Ok(ways);
    }
    let lines = lines_of(alloc, disk, number)?;
    for line in &lines {
        add_way(disk, line, &mut ways)?;
    }
    Ok(ways)
}

/// Adds this entry, where it leads on.
fn add_way(disk: &Disk<'_>, entry: &Listed, ways: &mut Vec<Listed>) -> Result<(), AllocError>
    ensures { OnOk result ((before : List Entry) → AreThose (on LeadsOn disk.now) before ways.old.items
        → AreThose (on LeadsOn disk.now) (before ++ entry.now ∷ []) ways.new.items) }
{
    if leads_on(disk, entry) {
        ways.push(*entry)?;
    }
    Ok(())
}

/// Whether an entry names a directory that is not the master directory.
fn leads_on(disk: &Disk<'_>, entry: &Listed) -> bool
    ensures { MatchBool result (on LeadsOn disk.now entry.now) (¬ on LeadsOn disk.now entry.now) }
{
    match directory_of(disk, entry) {
        Some(number) => number != MASTER,
        None => false,
    }
}

/// Returns the directories that the steps reach from the master directory, including closed ones.
pub(crate) fn find_starts(
    alloc: Global,
    disk: &Disk<'_>,
    steps: &Steps<'_>,
    closed: &mut Closed<'_>,
) -> Result<Vec<Directory>, AllocError>
    ensures found { IfOk result (λ found. (shut : List ℕ) → CountAsClosed closed.old.numbers.now closed.new.met.items shut
        → on AreStarts disk.now shut (said_steps steps.now) found.items) }
    ensures same { closed.new.numbers ≡ closed.old.numbers }
    ensures met { OnOk result (AreMet closed.old.numbers.now closed.old.met.items closed.new.met.items) }
{
    let mut found = Vec::new(alloc);
    found.push(master(alloc))?;
    let mut rest = *steps;
    while let Some((step, behind)) = rest.split_first() {
        found = follow_step(alloc, disk, &found, &step, closed)?;
        rest = behind;
    }
    Ok(found)
}

/// The directories to which a step leads from these, one after another.
fn follow_step(
    alloc: Global,
    disk: &Disk<'_>,
    from: &[Directory],
    step: &Step<'_>,
    closed: &mut Closed<'_>,
) -> Result<Vec<Directory>, AllocError>
    ensures found { IfOk result (λ found. (shut : List ℕ) → CountAsClosed closed.old.numbers.now closed.new.met.items shut
        → on AreSteps disk.now shut (said_step step.now) from.now found.items) }
    ensures same { closed.new.numbers ≡ closed.old.numbers }
    ensures met { OnOk result (AreMet closed.old.numbers.now closed.old.met.items closed.new.met.items) }
{
    let mut found = Vec::new(alloc);
    for directory in from {
        add_steps(alloc, disk, directory, step, closed, &mut found)?;
    }
    Ok(found)
}

/// Adds the directories to which a step leads from this one.
fn add_steps(
    alloc: Global,
    disk: &Disk<'_>,
    from: &Directory,
    step: &Step<'_>,
    closed: &mut Closed<'_>,
    found: &mut Vec<Directory>,
) -> Result<(), AllocError>
    ensures found { OnOk result ((next : List One) × (found.new.items ≡ found.old.items ++ next)
        × ((shut : List ℕ) → CountAsClosed closed.old.numbers.now closed.new.met.items shut → on IsStep disk.now shut (said_step step.now) from.now next)) }
    ensures same { closed.new.numbers ≡ closed.old.numbers }
    ensures met { OnOk result (AreMet closed.old.numbers.now closed.old.met.items closed.new.met.items) }
{
    let ways = ways_from(alloc, disk, from.number, &from.names, closed)?;
    let those = ways_by(alloc, &ways, step)?;
    add_named(alloc, &from.names, &those, found)
}

/// Returns the ways among these that a step selects, with only the highest version of each name.
pub(crate) fn ways_by(
    alloc: Global,
    ways: &[Listed],
    step: &Step<'_>,
) -> Result<Vec<Listed>, AllocError>
    requires { IsSortedByKey shown listing_cmp ways.now }
    ensures { IfOk result (λ those. AreThose (IsWayBy (said_step step.now) ways.now) ways.now those.items) }
{
    let mut those = Vec::new(alloc);
    for place in 0..ways.len() {
        add_selected(ways, place, step, &mut those)?;
    }
    Ok(those)
}

/// Adds the way at this index, if the step selects it.
fn add_selected(
    ways: &[Listed],
    place: usize,
    step: &Step<'_>,
    those: &mut Vec<Listed>,
) -> Result<(), AllocError>
    requires sorted { IsSortedByKey shown listing_cmp ways.now }
    requires inside { place < length ways.now }
    ensures { OnOk result (AreThose (IsWayBy (said_step step.now) ways.now) (take place ways.now) those.old.items
        → AreThose (IsWayBy (said_step step.now) ways.now) (take (place + 1) ways.now) those.new.items) }
{
    let way = ways[place];
    if is_selected(ways, place, &way, step) {
        those.push(way)?;
    }
    Ok(())
}

/// Whether the step selects this way, which is at this index.
fn is_selected(ways: &[Listed], place: usize, way: &Listed, step: &Step<'_>) -> bool
    requires sorted { IsSortedByKey shown listing_cmp ways.now }
    requires there { slice_get ways.now place ≡ Some way.now }
    ensures { MatchBool result (IsWayBy (said_step step.now) ways.now way.now) (¬ IsWayBy (said_step step.now) ways.now way.now) }
{
    match step {
        Step::Numbers { group, member } => {
            has_numbers(way, *group, *member) && is_highest(ways, place, way)
        }
        Step::Pattern(name) => {
            let files = Files {
                name,
                kind: b"*",
                versions: None,
            };
            is_chosen(ways, place, way, &files, Versions::Highest)
        }
    }
}

/// Whether the name of an entry is that of a group and a member that are meant.
fn has_numbers(entry: &Listed, group: Option<u8>, member: Option<u8>) -> bool
    ensures { MatchBool result (HasNumbers group member entry.now) (¬ HasNumbers group member entry.now) }
{
    let title = print_title(&entry.name);
    match numbered_name(title.as_bytes()) {
        Some((g, m)) => is_meant(group, g) && is_meant(member, m),
        None => false,
    }
}

/// Whether a group or member is the one that is meant, or each is.
fn is_meant(meant: Option<u8>, found: u8) -> bool
    ensures { MatchBool result (IsMeant meant found) (¬ IsMeant meant found) }
{
    match meant {
        Some(meant) => meant == found,
        None => true,
    }
}

/// Adds the directories that these entries name, which stand in the one to which these names lead.
fn add_named(
    alloc: Global,
    names: &[Name],
    entries: &[Listed],
    found: &mut Vec<Directory>,
) -> Result<(), AllocError>
    ensures { OnOk result ((more : List One) × (found.new.items ≡ found.old.items ++ more) × AreNamedIn names.now entries.now more) }
{
    for entry in entries {
        found.push(Directory {
            number: entry.file.number,
            names: longer(alloc, names, &entry.name)?,
        })?;
    }
    Ok(())
}

/// Returns the names with one more at the end.
pub(crate) fn longer(alloc: Global, names: &[Name], name: &Name) -> Result<Vec<Name>, AllocError>
    ensures { IfOk result (λ all. all.items ≡ names.now ++ name.now ∷ []) }
{
    let mut all = Vec::new(alloc);
    all.extend_from_slice(names)?;
    all.push(*name)?;
    Ok(all)
}
