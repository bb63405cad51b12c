//! The directories that names reach from the master directory: each is entered once, the nearer ones first. No line is kept.
ghost use Rattle.std.specs.Prelude.{◌≡◌, ◌+◌, ◌<◌, [], ◌∷◌, length, IfOk, OnOk};
ghost use Rattle.ods_mount.specs.Faults.{IsDirectoryFile};
ghost use Rattle.ods_walk.specs.{Complete.AreReached, Entering.IsBounded, Entering.IsEntering, Entering.IsSeen, Listing.IsListing, Paths.number_at};
ghost use Rattle.ods_space.specs.Disks.{on};

use crate::ordering::listing;
use crate::tables::{Entered, Walk};
use crate::walking::{flags_of, is_walked_into};
use ods_base::Listed;
use ods_space::Disk;
use std::alloc::{AllocError, Global};

/// The number of the master directory.
const MASTER: u16 = 4;

/// Enters all directories that names reach from the master directory. It keeps no lines, and reads one directory at a time, so that many directories
/// over the same blocks take no more room than others. It fails only when out of memory.
pub fn enter_all(alloc: Global, disk: &Disk<'_>) -> Result<Walk, AllocError>
    requires { on IsDirectoryFile disk.now 4 }
    ensures reached { IfOk result (λ walk. on AreReached disk.now 4 (4 ∷ []) walk.directories) }
    ensures lines { IfOk result (λ walk. walk.lines ≡ []) }
{
    let mut directories = Vec::new(alloc);
    let mut is_entered = flags_of(alloc, &[MASTER])?;
    directories.push(Entered {
        number: MASTER,
        from: None,
    })?;
    let mut place = 0;
    'places: while place < directories.len() {
        enter_named(alloc, disk, place, &mut is_entered, &mut directories)?;
        place += 1;
    }
    Ok(Walk {
        directories,
        lines: Vec::new(alloc),
    })
}

/// Enters the directories that the one at this place names.
fn enter_named(
    alloc: Global,
    disk: &Disk<'_>,
    place: usize,
    is_entered: &mut [bool],
    directories: &mut Vec<Entered>,
) -> Result<(), AllocError>
    requires so { on IsEntering disk.now is_entered.old directories.old.items place }
    requires within { place < length directories.old.items }
    ensures so { OnOk result (on IsEntering disk.now is_entered.new directories.new.items (place + 1)) }
    ensures bounded { OnOk result (IsBounded is_entered.old directories.old.items is_entered.new directories.new.items) }
{
    let number = directories[place].number;
    let entries = listing(alloc, disk, number)?;
    enter_each(disk, place, &entries, is_entered, directories)
}

/// Enters the directories that these entries of the one at this place name.
fn enter_each(
    disk: &Disk<'_>,
    place: usize,
    entries: &[Listed],
    is_entered: &mut [bool],
    directories: &mut Vec<Entered>,
) -> Result<(), AllocError>
    requires so { on IsEntering disk.now is_entered.old directories.old.items place }
    requires within { place < length directories.old.items }
    requires listing { on IsListing disk.now (number_at directories.old.items place) entries.now }
    ensures so { OnOk result (on IsEntering disk.now is_entered.new directories.new.items (place + 1)) }
    ensures bounded { OnOk result (IsBounded is_entered.old directories.old.items is_entered.new directories.new.items) }
{
    for entry in entries {
        enter_by(disk, place, entry, is_entered, directories)?;
    }
    Ok(())
}

/// Enters the directory that this entry of the one at this place names, where it is not entered yet.
fn enter_by(
    disk: &Disk<'_>,
    place: usize,
    entry: &Listed,
    is_entered: &mut [bool],
    directories: &mut Vec<Entered>,
) -> Result<(), AllocError>
    requires { length is_entered.old ≡ 65536 }
    ensures word { entry.now.file.number < 65536 }
    ensures seen { OnOk result (on IsSeen disk.now place entry.now is_entered.old directories.old.items is_entered.new directories.new.items) }
{
    let number = entry.file.number;
    if is_walked_into(disk, is_entered, entry) {
        is_entered[number as usize] = true;
        directories.push(Entered {
            number,
            from: Some((place, entry.name)),
        })?;
    }
    Ok(())
}
