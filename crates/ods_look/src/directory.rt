//! Look-ups of names in a directory.
ghost use Rattle.std.specs.Prelude.{IfSome, MatchResult};
ghost use Rattle.ods_mount.specs.Sound.{IsSoundBy};
ghost use Rattle.ods_request.specs.{declared.requests.Request.TheVariants.LookUp, declared.requests.Request.TheVariants.List as Lines, declared.answers.Answer.TheVariants.Found, declared.answers.Answer.TheVariants.Names};
ghost use Rattle.ods_state.specs.{Change.IsAnsweredBy, Noted.AreNamesKnown, Served.IsRefusalOf};
ghost use Rattle.ods_space.specs.Disks.{on};

use crate::opening::{open_directory, open_noted};
use ods_base::{FileId, Name, Pick, Uic};
use ods_directory::entries;
use ods_request::{Listing, Refusal, Right};
use ods_space::Disk;
use ods_state::KnownNames;
use std::alloc::Global;

/// Returns the file and the version that a name with a pick selects in a directory, or the first fault of the look-up. It allocates no memory. If
/// there are notes about the directory, it reads only the blocks that can have the name.
pub fn look_up<'a>(
    disk: &Disk<'a>,
    who: Uic,
    dir: FileId,
    name: Name,
    pick: Pick,
    names: Option<&'a KnownNames>,
) -> Result<(FileId, u16), Refusal>
    requires sound { on IsSoundBy disk.now }
    requires names { IfSome names (λ k. on AreNamesKnown disk.now k.now) }
    ensures { MatchResult result (λ found. on IsAnsweredBy disk.now who (LookUp dir name pick) (Found found.0 found.1))
        (on IsRefusalOf disk.now who (LookUp dir name pick)) }
{
    let opened = match open_noted(disk, who, dir, Right::Read, names) {
        Ok(opened) => opened,
        Err(refusal) => return Err(refusal),
    };
    // A name has three words.
    let _ = name.words();
    match ods_directory::look_up(&opened.blocks, opened.mark, &name, pick) {
        Ok(found) => Ok(found),
        Err(_) => Err(Refusal::NoSuchName),
    }
}

/// Returns the lines of a directory in the order of their names and versions. Otherwise returns the first fault, or NoMemory if there is none.
pub fn list(alloc: Global, disk: &Disk<'_>, who: Uic, dir: FileId) -> Result<Listing, Refusal>
    requires { on IsSoundBy disk.now }
    ensures { MatchResult result (λ lines. on IsAnsweredBy disk.now who (Lines dir) (Names lines))
        (on IsRefusalOf disk.now who (Lines dir)) }
{
    let opened = match open_directory(disk, who, dir, Right::Read) {
        Ok(opened) => opened,
        Err(refusal) => return Err(refusal),
    };
    match entries(alloc, &opened.blocks, opened.mark) {
        Ok(lines) => Ok(Listing::new(lines)),
        Err(_) => Err(Refusal::NoMemory),
    }
}
